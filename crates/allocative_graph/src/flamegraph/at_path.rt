//! Adding bytes at one path.
ghost use Rattle.std.specs.Prelude.{◌≡◌, ◌+◌, ◌^◌, ◌<◌, ◌≤◌, [], ◌∷◌, IfOk, OnOk, OnErr, true, length};
ghost use Rattle.std.specs.List.{insert};
ghost use Rattle.allocative_graph.specs.Path.{texts};
ghost use Rattle.allocative_graph.specs.Graph.{total, sum_of};
ghost use Rattle.allocative_graph.specs.Rows.{AreChildren, total_of};
ghost use Rattle.allocative_graph.specs.Representation.Children.{Merged, child_of_path, graph_of_path};

use crate::flamegraph::{Child, FlameGraph, place_of, put_at};
use crate::key::Key;
use std::alloc::{AllocError, Global};

/// Adds bytes at one path. The path and its prefixes are made if they are missing. All other paths stay as they are.
///
/// It requires that the total remains at most `usize::MAX`. It returns an error only when memory runs out; then the
/// graph is unchanged.
#[cycle(walk)]
#[tactic(auto, using(crate::proofs::Nodes::adding_at))]
pub fn add_at(graph: &mut FlameGraph, path: &[&'static str], size: usize) -> Result<(), AllocError>
    requires fits { total graph.old + size < 2 ^ 64 }
    ensures sum { OnOk result (graph.new ≡ sum_of graph.old (graph_of_path (texts path.now) size)) }
    ensures unchanged { OnErr result (graph.new ≡ graph.old) }
{
    let Some((key, rest)) = path.split_first() else {
        graph.node_size += size;
        return Ok(());
    };
    add_below(&mut graph.children, Key::new(*key), rest, size)?;
    graph.children_size += size;
    Ok(())
}

// Adds bytes at a path below the child with the key, which is made if it is missing.
#[cycle(walk)]
#[tactic(auto, using(crate::proofs::Nodes::adding_below))]
#[inline(always)]
fn add_below(
    children: &mut Vec<Child>,
    key: Key,
    rest: &[&'static str],
    size: usize,
) -> Result<(), AllocError>
    requires children { AreChildren children.old.items }
    requires fits { total_of children.old.items + size < 2 ^ 64 }
    ensures merged { OnOk result
        (Merged true children.old.items (child_of_path key (texts rest.now) size ∷ []) children.new.items) }
    ensures unchanged { OnErr result (children.new.items ≡ children.old.items) }
{
    match place_of(children, &key) {
        Ok(at) => {
            let here = &mut children[at];
            add_at(&mut here.graph, rest, size)
        }
        Err(at) => put_path(children, at, key, rest, size),
    }
}

// Inserts a child that has bytes at one path alone. It is a call of its own, so that the walk takes less of the stack.
#[inline(never)]
fn put_path(
    children: &mut Vec<Child>,
    at: usize,
    key: Key,
    rest: &[&'static str],
    size: usize,
) -> Result<(), AllocError>
    requires { at ≤ length children.old.items }
    ensures items { OnOk result
        (children.new.items ≡ insert children.old.items at (child_of_path key (texts rest.now) size)) }
    ensures unchanged { OnErr result (children.new.items ≡ children.old.items) }
{
    let graph = graph_of_path(*children.allocator(), rest, size)?;
    put_at(children, at, Child { key, graph })
}

// The graph that has bytes at one path alone.
#[tactic(auto, using(crate::proofs::Nodes::leaf))]
fn graph_of_path(
    alloc: Global,
    path: &[&'static str],
    size: usize,
) -> Result<FlameGraph, AllocError>
    ensures { IfOk result (λ graph. graph ≡ graph_of_path (texts path.now) size) }
{
    let Some((key, rest)) = path.split_first() else {
        return Ok(FlameGraph {
            children: Vec::new(alloc),
            children_size: 0,
            node_size: size,
        });
    };
    let graph = graph_of_path(alloc, rest, size)?;
    let key = Key::new(*key);
    Ok(FlameGraph {
        children: vec![in alloc; Child { key, graph }]?,
        children_size: size,
        node_size: 0,
    })
}
