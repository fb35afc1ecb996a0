//! The heaviest paths of a flame graph, and those that grew most since another one, as texts.
ghost use Rattle.std.specs.Prelude.{◌≡◌, ◌≤◌, ◌∷◌, [], IfOk, OnOk, map, option_copied, string_bytes};
ghost use Rattle.std.specs.Ordering.{is_lt};
ghost use Rattle.allocative_graph.specs.Format.{AppendsText};
ghost use Rattle.allocative_graph.specs.Graph.{total};
ghost use Rattle.allocative_graph.specs.Path.{texts};
ghost use Rattle.allocative_picture.specs.Table.{IsGrowthTable, IsPushed, IsTable, IsTop, Keeps, behind, changes, growth_in, growth_line, growth_text, grown, growths, is_passed_over, size_of, table_line, weight_cmp, weight_of};

use crate::boxes::edge;
use crate::figures::Percent;
use crate::frames::below;
use allocative_graph::flamegraph::{FlameGraph, push_path};
use std::alloc::{AllocError, Global};
use std::cmp::{Ordering, Reverse};
use std::collections::BinaryHeap;

/// Which bytes of paths a table shows.
#[derive(Clone, Copy, Debug, PartialEq, Eq)]
pub enum Size {
    /// The bytes of a path alone.
    Own,
    /// The bytes of a path and of all paths below it. Passed over is a path that has no bytes of its own and one child
    /// only, since that has all its bytes.
    Total,
}

impl Size {
    /// Those bytes of a path; 0 if the graph has no such path.
    fn of(self, graph: &FlameGraph, path: &[&str]) -> usize
        ensures { result ≡ size_of self graph.now (texts path.now) }
    {
        match self {
            Size::Own => graph.size_at(path),
            Size::Total => graph.total_at(path),
        }
    }
}

/// A path and its bytes. The path that a table shows first is the least.
#[derive(PartialEq, Eq, PartialOrd, Ord, Drop)]
pub(crate) struct Heavy {
    bytes: Reverse<usize>,
    pub(crate) path: Vec<&'static str>,
}

/// Whether a table shows a path with so many bytes before another.
fn comes_before(bytes: usize, path: &[&'static str], other: &Heavy) -> bool
    ensures { result ≡ is_lt (weight_cmp (texts path.now, bytes) (weight_of other.now)) }
{
    match other.bytes.0.cmp(&bytes) {
        Ordering::Less => true,
        Ordering::Equal => path.cmp(other.path.as_slice()).is_lt(),
        Ordering::Greater => false,
    }
}

/// Puts a path among the heaviest.
fn push_heavy(
    heaviest: &mut BinaryHeap<Heavy>,
    bytes: usize,
    path: &Vec<&'static str>,
) -> Result<(), AllocError>
    ensures { OnOk result (IsPushed (texts path.now.items, bytes) heaviest.old heaviest.new) }
{
    let path = path.clone()?;
    let bytes = Reverse(bytes);
    heaviest.push(Heavy { bytes, path })?;
    Ok(())
}

/// Keeps a path among the heaviest, of which there are at most so many, if it is one of them. It is a call of its own,
/// so that a level of the walk takes less of the stack.
#[inline(never)]
fn keep(
    heaviest: &mut BinaryHeap<Heavy>,
    most: usize,
    bytes: usize,
    path: &Vec<&'static str>,
) -> Result<(), AllocError>
    ensures { OnOk result (Keeps most ((texts path.now.items, bytes) ∷ []) heaviest.old heaviest.new) }
{
    if bytes == 0 {
        return Ok(());
    }
    if heaviest.len() < most {
        return push_heavy(heaviest, bytes, path);
    }
    let Some(last) = heaviest.peek() else {
        return Ok(());
    };
    if comes_before(bytes, path.as_slice(), last) {
        heaviest.pop();
        return push_heavy(heaviest, bytes, path);
    }
    Ok(())
}

/// Whether a table passes over the root of a graph.
#[tactic(auto, using(crate::proofs::Growing::children_counted))]
fn is_passed_over(size: Size, graph: &FlameGraph) -> bool
    ensures { result ≡ is_passed_over size graph.now [] }
{
    let children = graph.children();
    match size {
        Size::Own => false,
        Size::Total => graph.self_size() == 0 && children.len() == 1,
    }
}

/// By how many bytes the root of a graph grew since another graph, if there is one; 0 if a table passes over it.
fn growth(size: Size, graph: &FlameGraph, other: Option<&FlameGraph>) -> usize
    ensures { result ≡ growth_in size (option_copied other.entry) graph.now [] }
{
    if is_passed_over(size, graph) {
        return 0;
    }
    let (now, was) = match size {
        Size::Own => (graph.self_size(), other.map_or(0, FlameGraph::self_size)),
        Size::Total => (graph.total_size(), other.map_or(0, FlameGraph::total_size)),
    };
    now.saturating_sub(was)
}

/// The bytes by which the paths of a graph grew by their own size since another graph, all together.
fn grown(graph: &FlameGraph, other: Option<&FlameGraph>) -> usize
    ensures sum { result ≡ grown (option_copied other.entry) graph.now }
    ensures bound { result ≤ total graph.now }
{
    // The contract of `total_size` says that all bytes fit a `usize`, so no sum below overflows.
    let _all = graph.total_size();
    let children = graph.children();
    let mut bytes = growth(Size::Own, graph, other);
    for child in children {
        bytes += grown(&child.graph, below(other, &child.key));
    }
    bytes
}

/// Keeps those of all paths of a graph that grew most since another graph, if there is one, each after the given keys.
fn keep_all(
    size: Size,
    graph: &FlameGraph,
    other: Option<&FlameGraph>,
    path: &mut Vec<&'static str>,
    most: usize,
    heaviest: &mut BinaryHeap<Heavy>,
) -> Result<(), AllocError>
    ensures path { OnOk result (path.new.items ≡ path.old.items) }
    ensures kept { OnOk result
        (Keeps most (behind (texts path.old.items) (growths size (option_copied other.entry) graph.now))
        heaviest.old heaviest.new) }
{
    let children = graph.children();
    keep(heaviest, most, growth(size, graph, other), path)?;
    for child in children {
        let below = below(other, &child.key);
        path.push(child.key.as_str())?;
        keep_all(size, &child.graph, below, path, most, heaviest)?;
        path.pop();
    }
    Ok(())
}

/// The paths that grew most since another graph, if there is one, at most so many, in the order of a table.
fn heaviest(
    alloc: Global,
    size: Size,
    graph: &FlameGraph,
    other: Option<&FlameGraph>,
    most: usize,
) -> Result<Vec<Heavy>, AllocError>
    ensures { IfOk result
        (λ top. IsTop most (growths size (option_copied other.entry) graph.now) (map weight_of top.items)) }
{
    let mut path: Vec<&'static str> = Vec::new(alloc);
    let mut heaviest = BinaryHeap::new(alloc);
    keep_all(size, graph, other, &mut path, most, &mut heaviest)?;
    Ok(heaviest.into_sorted_vec())
}

/// The paths that grew or shrank most from one graph to another by their own size, at most so many, in the order of a
/// table.
pub(crate) fn most_changed(
    alloc: Global,
    before: &FlameGraph,
    after: &FlameGraph,
    most: usize,
) -> Result<Vec<Heavy>, AllocError>
    ensures { IfOk result (λ top. IsTop most (changes before.now after.now) (map weight_of top.items)) }
{
    let mut path: Vec<&'static str> = Vec::new(alloc);
    let mut heap = BinaryHeap::new(alloc);
    keep_all(Size::Own, after, Some(before), &mut path, most, &mut heap)?;
    keep_all(Size::Own, before, Some(after), &mut path, most, &mut heap)?;
    Ok(heap.into_sorted_vec())
}

/// Appends the line of a path.
fn push_line(all: u128, line: &Heavy, text: &mut String) -> Result<(), AllocError>
    ensures { OnOk result (AppendsText text.old text.new (table_line all (weight_of line.now))) }
{
    let bytes = line.bytes.0;
    let share = Percent(edge(all, bytes as u128));
    write!(text, "{share}%\t{bytes}\t")?;
    push_path(line.path.as_slice(), text)?;
    text.push('\n')?;
    Ok(())
}

/// Appends by how many bytes a path grew, their share of all growth, and its bytes before and after.
#[tactic(auto, unfolding(crate::specs::Table::growth_text))]
fn push_growth(
    all: u128,
    grew: usize,
    before: usize,
    after: usize,
    text: &mut String,
) -> Result<(), AllocError>
    ensures { OnOk result (AppendsText text.old text.new (growth_text all grew before after)) }
{
    let share = Percent(edge(all, grew as u128));
    write!(text, "{share}%\t{grew}\t{before}\t{after}\t")?;
    Ok(())
}

/// Appends the line of a path that grew.
fn push_growth_line(
    size: Size,
    before: &FlameGraph,
    after: &FlameGraph,
    all: u128,
    line: &Heavy,
    text: &mut String,
) -> Result<(), AllocError>
    ensures { OnOk result
        (AppendsText text.old text.new (growth_line size before.now after.now all (weight_of line.now))) }
{
    let path = line.path.as_slice();
    let (was, is) = (size.of(before, path), size.of(after, path));
    push_growth(all, line.bytes.0, was, is, text)?;
    push_path(path, text)?;
    text.push('\n')?;
    Ok(())
}

/// The paths that have most bytes, at most so many, the heaviest first. A line has the path's share of all bytes in
/// percent, a tab, its bytes, a tab, and its keys with `;` between them. Paths with as many bytes are in the order of
/// paths. A path without bytes has no line. Only the paths shown are in memory. The only error is that memory runs out.
pub fn table(
    alloc: Global,
    graph: &FlameGraph,
    size: Size,
    most: usize,
) -> Result<String, AllocError>
    ensures { IfOk result (λ made. IsTable size most graph.now (string_bytes made)) }
{
    let lines = heaviest(alloc, size, graph, None, most)?;
    let all = graph.total_size() as u128;
    let mut text = String::new(alloc);
    for line in &lines {
        push_line(all, line, &mut text)?;
    }
    Ok(text)
}

/// The paths that grew most from one graph to another, at most so many, the one that grew most first. A line has the
/// share of the path's growth in percent, a tab, by how many bytes it grew, a tab, its bytes before, a tab, its bytes
/// after, a tab, and its keys with `;` between them. The shares are of what all paths that grew by their own size grew
/// together. Paths that grew as much are in the order of paths. A path that did not grow has no line. Only the paths
/// shown are in memory. The only error is that memory runs out.
pub fn growth_table(
    alloc: Global,
    before: &FlameGraph,
    after: &FlameGraph,
    size: Size,
    most: usize,
) -> Result<String, AllocError>
    ensures { IfOk result (λ made. IsGrowthTable size most before.now after.now (string_bytes made)) }
{
    let lines = heaviest(alloc, size, after, Some(before), most)?;
    let all = grown(after, Some(before)) as u128;
    let mut text = String::new(alloc);
    for line in &lines {
        push_growth_line(size, before, after, all, line, &mut text)?;
    }
    Ok(text)
}
