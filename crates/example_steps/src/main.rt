//! The short programs of the pages: the heaviest paths of a profile, the children of one path, recipes, and budgets.
#![tactic(auto)]

mod budget;
mod recipes;
mod services;

use allocative::{FlameGraph, FlameGraphOutput, profile_value, push_path};
use anyhow::Result;
use budget::serve;
use recipes::print_recipes;
use services::{print_budget, print_cache, print_ledger, print_store};
use std::alloc::Global;
use std::cmp::Reverse;

/// Returns the profile of a list of two names.
fn profile_names(alloc: Global) -> Result<FlameGraphOutput> {
    let ada = String::from_str(alloc, "Ada")?;
    let grace = String::from_str(alloc, "Grace")?;
    let names = vec![in alloc; ada, grace]?;
    Ok(profile_value(alloc, &names)?)
}

/// Prints the paths with the most bytes of their own, ten at most.
fn print_heaviest(rt: &impl Print, alloc: Global, graph: &FlameGraph) -> Result<()> {
    let mut rows = graph.rows()?;
    rows.sort_by_key(|row| Reverse(row.self_size))?;
    for row in rows.iter().filter(|row| row.self_size > 0).take(10) {
        let mut path = String::new(alloc);
        push_path(row.path.as_slice(), &mut path)?;
        println!(rt; "{} {path}", row.self_size)?;
    }
    Ok(())
}

/// Prints the children of a path, each with its bytes and those below it.
fn print_children(rt: &impl Print, graph: &FlameGraph, path: &[&str]) -> Result<()> {
    let Some(below) = graph.get(path) else {
        return Ok(());
    };
    for child in below.children() {
        println!(rt; "{} {}", child.graph.total_size(), child.key.as_str())?;
    }
    Ok(())
}

fn main(rt: HostRuntime) -> Result<()> {
    let profile = profile_names(rt.alloc())?;
    print_heaviest(&rt, rt.alloc(), profile.flamegraph())?;
    print_children(&rt, profile.flamegraph(), &["Vec", "ptr"])?;
    print_recipes(&rt, rt.alloc())?;
    print_budget(&rt, rt.alloc())?;
    print_ledger(&rt, rt.alloc())?;
    print_cache(&rt, rt.alloc())?;
    print_store(&rt, rt.alloc())?;
    serve(&rt, rt.alloc())
}
