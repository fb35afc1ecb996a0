//! Runs a row, and prints what differs.
#![tactic(auto, using(allocative::proofs::Parts::parts))]

use crate::forest::Forest;
use crate::notation::{push_roots, root_of};
use crate::row::{Row, cut};
use allocative::{
    FlameGraphBuilder, FlameGraphOutput, Part, Refusal, Registry, profile_in_two, profile_roots,
    size_of_entries, size_of_unique, size_of_unique_allocated_data,
};
use std::alloc::Global;
use std::fmt::Display;
use std::io::{self, ErrorKind};

fn registered(alloc: Global, roots: Vec<Forest>) -> Result<FlameGraphOutput, Refusal> {
    let mut registry = Registry::new(alloc);
    for root in roots {
        registry.add_root(Box::new(alloc, root)?)?;
    }
    profile_roots(&registry)
}

/// The text of roots in one collection, followed by its warnings.
fn text_in_one(alloc: Global, roots: Vec<Forest>) -> Result<String, Refusal> {
    let output = registered(alloc, roots)?;
    let warnings = output.warnings()?;
    let mut text = output.into_flamegraph().write()?;
    text.push_str(warnings.as_str())?;
    Ok(text)
}

/// The text of roots in two collections, whose graphs are added.
fn text_in_two(alloc: Global, left: &[Forest], right: &[Forest]) -> Result<String, Refusal> {
    profile_in_two(alloc, left, right)?.write()
}

/// The refusals of `visit_root` for a root, and then of `finish`.
fn refusals(alloc: Global, root: &Forest) -> Option<(Refusal, Refusal)> {
    let mut builder = FlameGraphBuilder::new(alloc).ok()?;
    let visited = builder.visit_root(root).err()?;
    Some((visited, builder.finish().err()?))
}

/// The names of both refusals.
fn refused(alloc: Global, root: &Forest) -> io::Result<String> {
    let Some((visited, finished)) = refusals(alloc, root) else {
        return Ok(String::from_str(alloc, "not refused")?);
    };
    Ok(format!(in alloc; "{visited:?}, {finished:?}")?)
}

/// What the calls for held bytes say of a root, if they say the same.
fn held_by(root: &Forest) -> Option<Result<usize, Refusal>> {
    let held = size_of_unique_allocated_data(root);
    (size_of_entries(|visitor| root.enter(visitor)) == held).then_some(held)
}

/// What an answer prints, or the name of its refusal.
fn printed<T: Display + Drop>(alloc: Global, answer: Result<T, Refusal>) -> io::Result<String> {
    match answer {
        Ok(shown) => Ok(format!(in alloc; "{shown}")?),
        Err(refusal) => Ok(format!(in alloc; "{refusal:?}")?),
    }
}

/// What a row answers to a section with this heading.
fn answer_of(alloc: Global, row: Row, heading: &str) -> io::Result<String> {
    let (mut left, mut right) = (Vec::new(alloc), Vec::new(alloc));
    push_roots(alloc, &mut left, row.roots())?;
    match heading {
        "refused" => refused(alloc, &root_of(alloc, row.roots())?),
        "held" => match held_by(&root_of(alloc, row.roots())?) {
            Some(held) => printed(alloc, held),
            None => Ok(String::from_str(alloc, "the calls differ")?),
        },
        "whole" => printed(alloc, size_of_unique(&root_of(alloc, row.roots())?)),
        "sum" => {
            push_roots(alloc, &mut right, row.section("right"))?;
            printed(alloc, text_in_two(alloc, &left, &right))
        }
        _ => {
            push_roots(alloc, &mut left, row.section("right"))?;
            if heading == "reversed" {
                left.reverse();
            }
            printed(alloc, text_in_one(alloc, left))
        }
    }
}

/// Whether a row is right, which asks something of its roots. If not, it prints what they answer.
pub(crate) fn is_right(rt: &impl Print, alloc: Global, row: Row) -> io::Result<bool> {
    let mut is_right = true;
    let mut asks = false;
    for section in row.0.split("\n-- ").skip(1) {
        let (heading, lines) = cut(section);
        let warnings = match heading {
            "text" | "reversed" => row.section("warnings"),
            "refused" | "sum" | "held" | "whole" => "",
            "right" | "warnings" => continue,
            _ => return Err(ErrorKind::InvalidData.into()),
        };
        asks = true;
        let answer = answer_of(alloc, row, heading)?;
        if !answer.lines().eq(lines.lines().chain(warnings.lines())) {
            println!(rt; "{}, {heading}: {answer}", row.name())?;
            is_right = false;
        }
    }
    if !asks {
        return Err(ErrorKind::InvalidData.into());
    }
    Ok(is_right)
}
