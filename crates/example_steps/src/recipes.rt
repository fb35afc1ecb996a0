//! Recipes: two profiles as one graph, a profile from time to time, and the top of a wide profile.
use allocative::{FlameGraph, Key, profile_value, push_path};
use allocative_service::history::{History, report};
use anyhow::Result;
use std::alloc::Global;

/// Returns the graph of two profiles, each below its service's name.
fn joined(alloc: Global, search: FlameGraph, orders: FlameGraph) -> Result<FlameGraph> {
    let mut both = FlameGraph::default(alloc);
    both.add_child(Key::new("search"), search)?;
    both.add_child(Key::new("orders"), orders)?;
    Ok(both)
}

/// Prints the paths of one or two keys that have, with all below them, at least a tenth of all bytes.
fn print_top(rt: &impl Print, alloc: Global, graph: &FlameGraph) -> Result<()> {
    let least = graph.total_size() / 10;
    let rows = graph.rows()?;
    for row in rows
        .iter()
        .skip(1)
        .filter(|row| row.path.len() <= 2 && row.total_size >= least)
    {
        let mut path = String::new(alloc);
        push_path(row.path.as_slice(), &mut path)?;
        println!(rt; "{} {path}", row.total_size)?;
    }
    Ok(())
}

/// Serves requests, and prints after every hundredth what has changed since the profile before.
fn watch(rt: &impl Print, alloc: Global) -> Result<()> {
    let mut history = History::new(alloc, 1);
    let mut notes: Vec<u64> = Vec::new(alloc);
    for request in 1u64..=300 {
        notes.push(request)?;
        if request % 100 == 0 {
            if let Some(changes) = history.take_changes(alloc, &notes)? {
                print!(rt; "{}", report(alloc, changes.as_slice())?)?;
            }
        }
    }
    Ok(())
}

/// Prints what each recipe makes.
pub(crate) fn print_recipes(rt: &impl Print, alloc: Global) -> Result<()> {
    let search = profile_value(alloc, &7u64)?.into_flamegraph();
    let orders = profile_value(alloc, &[1u32, 2])?.into_flamegraph();
    print_top(rt, alloc, &joined(alloc, search, orders)?)?;
    watch(rt, alloc)
}
