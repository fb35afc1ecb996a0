//! The frames of a flame graph, and what marks its paths.
ghost use Rattle.std.specs.FinMap.{entries};
ghost use Rattle.std.specs.Prelude.{◌≡◌, ◌+◌, ◌<◌, ◌^◌, ◌++◌, [], ◌∷◌, OnOk, map, filter, option_copied, IfOk};
ghost use Rattle.allocative_graph.specs.Graph.{total, size_at};
ghost use Rattle.allocative_graph.specs.Path.{Path};
ghost use Rattle.allocative_picture.specs.Frames.{frame_data, shown_key, frame_behind, frame_from, mark_by, mark_in, size_in, total_in, warned_mark};
ghost use Rattle.allocative_picture.specs.Boxes.{is_drawn};
ghost use Rattle.allocative_collectors.specs.Warned.{warning_of};
ghost use Rattle.allocative_graph.specs.Rows as frames;

use crate::boxes::is_drawn;
use crate::frame::{Frame, Mark};
use crate::options::Order;
use crate::places::starts;
use allocative_collectors::output::WarnedPath;
use allocative_graph::flamegraph::{FlameGraph, add_at};
use allocative_graph::key::Key;
use std::alloc::{AllocError, Global};

/// What marks the paths of a flame graph: their bytes in another graph.
#[derive(Clone, Copy)]
pub(crate) enum Marks {
    /// A path with bytes of its own in the other graph has a warning.
    Warned,
    /// The other graph is the earlier profile.
    Earlier,
}

/// What is shown of a flame graph.
#[derive(Clone, Copy)]
pub(crate) struct Shown<'a> {
    /// How the other graph marks paths.
    pub marks: Marks,
    /// The other graph.
    pub other: &'a FlameGraph,
    /// The width of the narrowest box.
    pub least: u32,
    /// The bytes that the whole width stands for.
    pub all: u128,
    /// In which order children are drawn.
    pub order: Order,
}

impl Marks {
    /// The mark of the path that is the root of `other`, or of a path that the other graph does not have.
    fn of(self, other: Option<&FlameGraph>) -> Mark
        ensures { result ≡ mark_in self (option_copied other.entry) [] }
    {
        let own = other.map_or(0, FlameGraph::self_size);
        let was = other.map_or(0, FlameGraph::total_size);
        match self {
            Marks::Warned if own == 0 => Mark::Plain,
            Marks::Warned => Mark::Warned,
            Marks::Earlier => Mark::Changed { was },
        }
    }
}

/// What the other graph has at a key and below it.
#[tactic(auto, using(crate::proofs::Marking::sizes_found, crate::proofs::Marking::totals_found))]
pub(crate) fn below<'a>(other: Option<&'a FlameGraph>, key: &Key) -> Option<&'a FlameGraph>
    ensures sizes { (p : Path) → size_in (option_copied other.entry) (key.now ∷ p) ≡ size_in (option_copied result) p }
    ensures totals { (p : Path) → total_in (option_copied other.entry) (key.now ∷ p)
        ≡ total_in (option_copied result) p }
{
    other?.get(&[key.as_str()])
}

/// The key that a picture shows for a path.
#[tactic(auto, using(crate::proofs::Placing::last_keys))]
fn shown_key(path: &[&'static str]) -> &'static str
    ensures { result.now ≡ shown_key (map (λ k. k.now) path.now) }
{
    match path.last() {
        Some(key) => key,
        None => "all",
    }
}

/// The frame of a path, which is the root of a graph, if `before` bytes come before it.
fn frame_from(
    mark: Mark,
    before: usize,
    path: &[&'static str],
    graph: &FlameGraph,
) -> Frame<'static>
    ensures { frame_data result ≡ frame_from (λ _. mark) before
        (record { path = map (λ k. k.now) path.now; self_size = size_at graph.now []; total_size = total graph.now }) }
{
    Frame {
        depth: path.len(),
        key: shown_key(path),
        own: graph.self_size(),
        whole: graph.total_size(),
        before,
        mark,
    }
}

/// Appends a frame, if it is wide enough for a box.
pub(crate) fn push_wide<'a>(
    least: u32,
    all: u128,
    frame: Frame<'a>,
    frames: &mut Vec<Frame<'a>>,
) -> Result<(), AllocError>
    ensures { OnOk result (map frame_data frames.new.items
        ≡ map frame_data frames.old.items ++ filter (is_drawn least all) (frame_data frame.entry ∷ [])) }
{
    if is_drawn(least, all, &frame) {
        frames.push(frame)?;
    }
    Ok(())
}

/// Appends the frames of all paths of a graph that are wide enough, each after the given keys. `other` is what the
/// other graph has at these keys and below them. So many bytes are before the first frame.
pub(crate) fn push_frames(
    shown: &Shown<'_>,
    graph: &FlameGraph,
    other: Option<&FlameGraph>,
    path: &mut Vec<&'static str>,
    before: usize,
    frames: &mut Vec<Frame<'static>>,
) -> Result<(), AllocError>
    requires fits { before + total graph.now < 2 ^ 64 }
    requires other { (p : Path)
        → mark_by shown.now.marks shown.now.other.now (map (λ k. k.now) path.old.items ++ p)
        ≡ mark_in shown.now.marks (option_copied other) p }
    ensures path { OnOk result (path.new.items ≡ path.old.items) }
    ensures frames { OnOk result (map frame_data frames.new.items ≡ map frame_data frames.old.items
        ++ filter (is_drawn shown.now.least shown.now.all) (map (frame_behind shown.now.order
        (mark_by shown.now.marks shown.now.other.now) before (map (λ k. k.now) path.old.items) graph.now)
        (entries graph.now))) }
{
    let children = graph.children();
    let mark = shown.marks.of(other);
    let frame = frame_from(mark, before, path.as_slice(), graph);
    push_wide(shown.least, shown.all, frame, frames)?;
    let first = before + graph.self_size();
    let starts = starts(*path.allocator(), shown.order, first, children)?;
    for (index, child) in children.iter().enumerate() {
        let below = below(other, &child.key);
        path.push(child.key.as_str())?;
        push_frames(shown, &child.graph, below, path, starts[index], frames)?;
        path.pop();
    }
    Ok(())
}

/// A graph that has bytes at the paths that have a warning, and at no others. The only error is that memory runs out.
pub(crate) fn graph_of_warned(
    alloc: Global,
    warned: &[WarnedPath],
) -> Result<FlameGraph, AllocError>
    ensures { IfOk result (λ graph. (p : Path)
        → mark_by Marks.Warned graph p ≡ warned_mark (map warning_of warned.now) p) }
{
    let mut graph = FlameGraph::default(alloc);
    for one in warned {
        add_at(&mut graph, one.path.as_slice(), 1)?;
    }
    Ok(graph)
}
