//! Graphs after a refused growth: unchanged, or a part of the sum.
use crate::assertions::{assert_count, assert_refused, assert_text, made, written};
use allocative::{FlameGraph, Key};
use allocative_json::Fault;
use std::alloc::{AllocGlobal, Global};
use std::process::Abort;

/// The key and the size of a graph's child.
type Size = (&'static str, usize);

fn try_graph(alloc: Global, sizes: &[Size]) -> Result<FlameGraph, Fault> {
    let mut graph = FlameGraph::default(alloc);
    for &(key, size) in sizes {
        let mut child = FlameGraph::default(alloc);
        child.add_self(size)?;
        graph.add_child(Key::new(key), child)?;
    }
    Ok(graph)
}

/// A graph with these children.
fn graph(rt: &(impl Abort + AllocGlobal), sizes: &[Size]) -> FlameGraph {
    made(rt, || try_graph(rt.alloc(), sizes))
}

/// Asserts that a graph has one of these texts.
fn assert_one_of(rt: &impl Abort, graph: &FlameGraph, wanted: &[&str]) {
    let text = written(rt, graph);
    assert!(rt; wanted.iter().any(|&want| want == text.as_str()));
}

const ONE_AND_TWO: [Size; 2] = [("a", 1), ("b", 2)];

/// The graphs in which each path has its old size or that of the sum, and the sum last.
const PARTS: [&str; 4] = [
    "a 1\nb 2\n",
    "a 1\nb 5\n",
    "a 1\nb 2\nc 4\n",
    "a 1\nb 5\nc 4\n",
];

#[test]
fn adding_is_refused(rt: HostRuntime) {
    let mut sum = graph(&rt, &ONE_AND_TWO);
    match sum.add(graph(&rt, &[("b", 3), ("c", 4)])) {
        Ok(()) => assert_one_of(&rt, &sum, &PARTS[3..]),
        Err(refusal) => {
            assert_refused(&rt, refusal);
            assert_one_of(&rt, &sum, &PARTS);
        }
    }
}

#[test]
fn cloning_is_refused(rt: HostRuntime) {
    let kept = graph(&rt, &ONE_AND_TWO);
    match kept.clone() {
        Ok(copy) => assert_count(&rt, copy.total_size(), 3),
        Err(_) => assert_text(&rt, &kept, "a 1\nb 2\n"),
    }
}
