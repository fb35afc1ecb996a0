//! The text of one visit.
use allocative::{
    Allocative, FlameGraph, FlameGraphBuilder, FlameGraphOutput, Refusal, profile_value,
};
use allocative_tally::profile::profile_counted;
use allocative_tally::tally::Tallied;
use std::alloc::Global;
use std::test::Fail;

/// Fails with a text that is not the wanted one.
pub(crate) fn is_text(found: &str, want: &str) -> Result<(), Fail> {
    if found == want {
        return Ok(());
    }
    Err(Fail::new(found))
}

/// Fails if a graph has another text or another total.
pub(crate) fn is_graph(graph: &FlameGraph, want: &str, total: usize) -> Result<(), Fail> {
    if graph.total_size() != total {
        return Err(Fail::new("another total"));
    }
    is_text(graph.write()?.as_str(), want)
}

/// The text of an output, followed by its warnings.
fn text_of(output: &FlameGraphOutput) -> Result<String, Refusal> {
    let mut text = output.flamegraph().write()?;
    text.push_str(output.warnings_text())?;
    Ok(text)
}

/// Fails if an output has another text, without the lines of unused capacity, or other warnings behind it.
pub(crate) fn is_output(output: &FlameGraphOutput, want: &str) -> Result<(), Fail> {
    let text = text_of(output)?;
    if text
        .lines()
        .filter(|line| !line.contains(";unused_capacity "))
        .eq(want.lines())
    {
        return Ok(());
    }
    Err(Fail::new(text.as_str()))
}

/// What one visit of a value shows.
fn output_of(alloc: Global, root: &dyn Allocative) -> Result<FlameGraphOutput, Refusal> {
    let mut builder = FlameGraphBuilder::new(alloc)?;
    builder.visit_root(root)?;
    builder.finish()
}

/// Fails if one visit of a value has another text, as `is_output` compares it.
pub(crate) fn shows(alloc: Global, root: &dyn Allocative, want: &str) -> Result<(), Fail> {
    is_output(&output_of(alloc, root)?, want)
}

/// Fails if one visit of one of some values has another text.
pub(crate) fn show(alloc: Global, rows: &[(&dyn Allocative, &str)]) -> Result<(), Fail> {
    for &(root, want) in rows {
        shows(alloc, root, want)?;
    }
    Ok(())
}

/// Fails if a value was not made, or if it has another text.
pub(crate) fn made<T: Allocative, E: Drop>(
    alloc: Global,
    made: Result<T, E>,
    want: &str,
) -> Result<(), Fail> {
    let value = made.or(Err("no value"))?;
    is_output(&profile_value(alloc, &value)?, want)
}

/// Fails if a value was not made, or if it has another text, entered at once or counted first.
pub(crate) fn counted<T: Tallied, E: Drop>(
    alloc: Global,
    made: Result<T, E>,
    want: &str,
) -> Result<(), Fail> {
    let value = made.or(Err("no value"))?;
    is_output(&profile_value(alloc, &value)?, want)?;
    is_output(&profile_counted(alloc, &value)?, want)
}

/// Whether a text has one line of unused room, of this path and these bytes.
fn is_room(text: &str, path: &str, bytes: usize) -> bool {
    let mut lines = text
        .lines()
        .filter(|line| line.contains(";unused_capacity "));
    let line = lines.next().unwrap_or("");
    let Some((found, amount)) = line.split_once(";unused_capacity ") else {
        return false;
    };
    lines.next().is_none() && found == path && amount.parse::<usize>().ok() == Some(bytes)
}

/// Fails if the room of a value with three items, of so many bytes each, is not what its capacity leaves.
pub(crate) fn has_room(
    alloc: Global,
    root: &dyn Allocative,
    path: &str,
    capacity: usize,
    item: usize,
) -> Result<(), Fail> {
    let text = text_of(&output_of(alloc, root)?)?;
    if is_room(
        text.as_str(),
        path,
        capacity.wrapping_sub(3).wrapping_mul(item),
    ) {
        return Ok(());
    }
    Err(Fail::new(text.as_str()))
}
