//! Views of a flame graph, which say what is heavy where its keys are data: the outline of a graph, the bytes by last
//! key, the reversed paths and other keys, which keep the total, and parts. Each is a graph.
ghost use Rattle.std.specs.Prelude.{◌≡◌, ◌<◌, ◌+◌, ◌-◌, ◌^◌, [], ◌∷◌, ◌++◌, IfErr, IfNone, IfOk, IfSome, OnOk, cond, length, reverse};
ghost use Rattle.std.specs.FinMap.{entries, len};
ghost use Rattle.allocative_graph.specs.Path.{Key, Path, key_cmp, texts};
ghost use Rattle.allocative_graph.specs.Graph.{default, size_at, sum_of, total, under};
ghost use Rattle.allocative_graph.specs.Rows.{sum_of_all, under_rows};
ghost use Rattle.allocative_graph.specs.Representation.Children.{InOrder, IsChildGap, IsFound, graph_of_path};
ghost use Rattle.allocative_picture.specs.Views.{all_of, by_last_key, bytes_alone, bytes_ending_in, bytes_within, folded, is_kept, is_within, joined, moved, new_key, only, paths_of, reversed, viewed, without, IsOutline, IsTakenApart, TakesGuide, TakesNext};
ghost use Rattle.allocative_picture.specs.Table.{behind};

use allocative_graph::flamegraph::{Child, FlameGraph, add_at};
use allocative_graph::key::Key;
use std::alloc::{AllocError, Global};
use std::cmp::Ordering;
use std::collections::{HashMap, VecDeque};
use std::mem;

/// Adds bytes to the root of an empty view, where they fit.
#[inline(never)]
fn add_bytes(view: &mut FlameGraph, bytes: usize) -> Result<(), AllocError>
    requires { view.old ≡ default }
    ensures { OnOk result (view.new ≡ bytes_alone bytes) }
{
    view.add_self(bytes).map_err(|_| AllocError)
}

/// Adds a graph with a key before its paths, and leaves an empty graph in its place. The bytes of all views together
/// are those of one graph, so the only error is that memory runs out.
#[inline(never)]
fn put(
    alloc: Global,
    view: &mut FlameGraph,
    key: &Key,
    graph: &mut FlameGraph,
) -> Result<(), AllocError>
    ensures sum { OnOk result (view.new ≡ sum_of view.old (under key.now graph.old)) }
    ensures empty { graph.new ≡ default }
{
    let child = mem::replace(graph, FlameGraph::default(alloc));
    view.add_child(key.copy(), child).map_err(|_| AllocError)
}

/// The graphs of some children, added up: each time the two that wait longest, so that those that meet have about as
/// many paths.
fn joined(alloc: Global, children: VecDeque<Child>) -> Result<FlameGraph, AllocError>
    ensures { IfOk result (λ graph. graph ≡ joined children.items) }
{
    let mut waiting = children;
    while let Some(child) = waiting.pop_front() {
        let Child { key, mut graph } = child;
        let Some(next) = waiting.pop_front() else {
            // The contract of `total_size` says that the graph has a root.
            let _all = graph.total_size();
            return Ok(graph);
        };
        graph.add(next.graph).map_err(|_| AllocError)?;
        waiting.push_back(Child { key, graph })?;
    }
    Ok(FlameGraph::default(alloc))
}

/// The place of a key among some children, or else the place where it belongs.
fn place_of(children: &[Child], key: &Key) -> Result<usize, usize>
    requires { InOrder children.now }
    ensures found { IfOk result (IsFound children.now key.now) }
    ensures missing { IfErr result (IsChildGap children.now key.now) }
{
    children.binary_search_by(
        |child: &Child| -> Ordering
            ensures { result ≡ key_cmp child.entry.now.key key.entry.now }
        { child.key.as_str().cmp(key.as_str()) },
    )
}

/// Takes what guides the outline of a child: the graph of the guide with its key, or a copy of its own if there is
/// none.
fn take_guide(
    alloc: Global,
    guides: &mut Vec<Child>,
    child: &Child,
) -> Result<FlameGraph, AllocError>
    requires { InOrder guides.old.items }
    ensures { IfOk result (λ graph. TakesGuide guides.old.items child.now graph guides.new.items) }
{
    match place_of(guides.as_slice(), &child.key) {
        Ok(place) => {
            let guide = &mut guides[place];
            Ok(mem::replace(&mut guide.graph, FlameGraph::default(alloc)))
        }
        Err(_) => Ok(child.graph.clone()?),
    }
}

/// A graph whose outline is to be made, and what guides it. It is in a box, so that a level of an outline takes less of
/// the stack.
#[derive(Drop)]
struct Guided {
    guide: FlameGraph,
    graph: FlameGraph,
}

/// The children of a guide, and those of a graph that are still to be outlined.
#[derive(Drop)]
struct Level {
    guides: Vec<Child>,
    waiting: VecDeque<Child>,
}

/// The children of a guide and of a graph. It is a call of its own, as all that an outline calls.
#[inline(never)]
fn take_apart(alloc: Global, both: Box<Guided>) -> Result<Box<Level>, AllocError>
    ensures { IfOk result (λ level. IsTakenApart both.value.guide both.value.graph level.value.guides.items
        level.value.waiting.items) }
{
    let Guided { guide, graph } = Box::into_inner(both);
    let children = graph.into_children();
    let level = Level {
        guides: guide.into_children(),
        waiting: VecDeque::from(children),
    };
    Ok(Box::new(alloc, level)?)
}

/// How many guides there are.
fn count_guides(level: &Box<Level>) -> usize
    ensures { result ≡ length level.now.value.guides.items }
{
    level.guides.len()
}

/// The graphs of the children of a guide and of a graph, added up.
#[inline(never)]
fn fold_children(alloc: Global, level: Box<Level>) -> Result<Box<Guided>, AllocError>
    ensures guide { IfOk result (λ both. both.value.guide ≡ joined level.value.guides.items) }
    ensures graph { IfOk result (λ both. both.value.graph ≡ joined level.value.waiting.items) }
{
    let Level { guides, waiting } = Box::into_inner(level);
    let both = Guided {
        guide: joined(alloc, VecDeque::from(guides))?,
        graph: joined(alloc, waiting)?,
    };
    Ok(Box::new(alloc, both)?)
}

/// Takes the next child that waits, and what guides its outline. It returns `None` exactly if none waits.
#[inline(never)]
fn next_child(
    alloc: Global,
    level: &mut Box<Level>,
) -> Result<Option<(Key, Box<Guided>)>, AllocError>
    requires { InOrder level.old.value.guides.items }
    ensures some { IfOk result (λ next. IfSome next (λ n. TakesNext (record { key = n.0; graph = n.1.value.graph })
        n.1.value.guide level.old.value.guides.items level.new.value.guides.items level.old.value.waiting.items
        level.new.value.waiting.items)) }
    ensures none { IfOk result (λ next. IfNone next (level.old.value.waiting.items ≡ [])) }
{
    let Some(child) = level.waiting.pop_front() else {
        return Ok(None);
    };
    let guide = take_guide(alloc, &mut level.guides, &child)?;
    let Child { key, graph } = child;
    let both = Box::new(alloc, Guided { guide, graph })?;
    Ok(Some((key, both)))
}

/// The outline of a graph: the graph cut at a depth, with keys folded.
///
/// A path has at most `depth` keys; what is below adds to its ancestor of so many keys. If a path has more than `most`
/// children, they are one child `{}`, in which their graphs add up before they are folded in turn. If `most` is
/// `usize::MAX` and the graph has fewer than `depth` paths, the outline is the graph. The children are counted in the
/// guide, which is a copy of the graph, or the sum of several graphs whose outlines are to be alike. Both are taken
/// apart, so no level keeps a copy. The only error is that memory runs out.
pub fn outline(
    alloc: Global,
    guide: FlameGraph,
    graph: FlameGraph,
    depth: usize,
    most: usize,
) -> Result<FlameGraph, AllocError>
    ensures outline { IfOk result (IsOutline depth most guide graph) }
    ensures total { IfOk result (λ view. total view ≡ total graph) }
    ensures whole { IfOk result (λ view. len graph < depth → most ≡ 2 ^ 64 - 1 → view ≡ graph) }
{
    let mut view = FlameGraph::default(alloc);
    let both = Box::new(alloc, Guided { guide, graph })?;
    add_outline(alloc, both, depth, most, &mut view)?;
    Ok(view)
}

/// Makes the outline of a graph of an empty view. What it calls is not inlined, so that a level takes less of the
/// stack.
fn add_outline(
    alloc: Global,
    both: Box<Guided>,
    depth: usize,
    most: usize,
    view: &mut FlameGraph,
) -> Result<(), AllocError>
    requires { view.old ≡ default }
    ensures outline { OnOk result (IsOutline depth most both.value.guide both.value.graph view.new) }
    ensures whole { OnOk result
        (len both.value.graph < depth → most ≡ 2 ^ 64 - 1 → view.new ≡ both.value.graph) }
{
    let Some(rest) = depth.checked_sub(1) else {
        return add_bytes(view, both.graph.total_size());
    };
    add_bytes(view, both.graph.self_size())?;
    // The contract of `total_size` says that the bytes of the guide fit a `usize`.
    let _all = both.guide.total_size();
    let mut level = take_apart(alloc, both)?;
    let mut below = FlameGraph::default(alloc);
    if count_guides(&level) > most {
        let both = fold_children(alloc, level)?;
        add_outline(alloc, both, rest, most, &mut below)?;
        return put(alloc, view, &Key::new("{}"), &mut below);
    }
    while let Some((key, both)) = next_child(alloc, &mut level)? {
        add_outline(alloc, both, rest, most, &mut below)?;
        put(alloc, view, &key, &mut below)?;
    }
    Ok(())
}

/// A view, and children that are still to be added to it. Many are added at a time, since a new child moves those that
/// come after it.
#[derive(Drop)]
struct Gathered {
    view: FlameGraph,
    waiting: Vec<Child>,
}

impl Gathered {
    /// Adds a graph with a key before its paths.
    #[tactic(auto, using(crate::proofs::Viewing::all_push))]
    fn add(&mut self, key: Key, graph: FlameGraph) -> Result<(), AllocError>
        ensures { OnOk result (all_of self.new ≡ sum_of (all_of self.old) (under key graph)) }
    {
        self.waiting.push(Child { key, graph })?;
        if self.waiting.len() > self.view.children().len() {
            self.add_waiting()?;
        }
        Ok(())
    }

    /// Adds bytes at a path. All bytes together are those of one graph, so the only error is that memory runs out.
    #[tactic(auto, using(crate::proofs::Viewing::before_waiting))]
    fn add_at(&mut self, path: &[&'static str], bytes: usize) -> Result<(), AllocError>
        ensures { OnOk result (all_of self.new ≡ sum_of (all_of self.old) (graph_of_path (texts path.now) bytes)) }
    {
        if bytes > usize::MAX - self.view.total_size() {
            return Err(AllocError);
        }
        add_at(&mut self.view, path, bytes)
    }

    /// Adds the children that wait. The bytes of all views together are those of one graph, so the only error is that
    /// memory runs out.
    fn add_waiting(&mut self) -> Result<(), AllocError>
        ensures all { OnOk result (all_of self.new ≡ all_of self.old) }
        ensures none { OnOk result (self.new.waiting.items ≡ []) }
    {
        let none = Vec::new(*self.waiting.allocator());
        let waiting = mem::replace(&mut self.waiting, none);
        self.view.add_children(waiting).map_err(|_| AllocError)
    }
}

/// Where a view has the bytes of a path, and which paths it has.
#[derive(Clone, Copy)]
enum View<'a> {
    /// Each path, by its last key alone.
    LastKey,
    /// Each path with bytes, in reverse.
    Reversed,
    /// Each path with bytes that is at or below one of some paths, or that is not.
    Part {
        /// Whether the paths within are those of the view.
        inside: bool,
        /// The paths.
        paths: &'a [Vec<&'a str>],
    },
}

impl View<'_> {
    /// Whether the view has the bytes of a path.
    fn has(&self, path: &[&'static str], bytes: usize) -> bool
        ensures { result ≡ is_kept self.now (texts path.now, bytes) }
    {
        match self {
            View::LastKey => true,
            View::Reversed => bytes > 0,
            View::Part { inside, paths } => bytes > 0 && is_within(paths, path) == *inside,
        }
    }

    /// The last key of a path and those before it, which the view has behind that key in reverse. It returns `None` if
    /// the view has the path as it is.
    fn split<'a>(&self, path: &'a [&'static str]) -> Option<(&'static str, &'a [&'static str])>
        ensures some { IfSome result (λ s. moved self.now (texts path.now) ≡ s.0.now ∷ reverse (texts s.1.now)) }
        ensures none { IfNone result (moved self.now (texts path.now) ≡ texts path.now) }
    {
        let (last, before) = path.split_last()?;
        match self {
            View::LastKey => Some((*last, &path[..0])),
            View::Reversed => Some((*last, before)),
            View::Part { .. } => None,
        }
    }
}

/// Whether a path is one of some paths or below one.
fn is_within(paths: &[Vec<&str>], path: &[&str]) -> bool
    ensures { result ≡ is_within (paths_of paths.now) (texts path.now) }
{
    paths.iter().any(|start| path.starts_with(start.as_slice()))
}

/// The graph that has bytes at the reverse of a path alone.
#[tactic(auto, using(crate::proofs::Viewing::empty))]
fn graph_of_reversed(
    alloc: Global,
    path: &[&'static str],
    bytes: usize,
) -> Result<FlameGraph, AllocError>
    ensures { IfOk result (λ graph. graph ≡ graph_of_path (reverse (texts path.now)) bytes) }
{
    let mut keys = Vec::from_slice(alloc, path)?;
    keys.as_mut_slice().reverse();
    let mut graph = FlameGraph::default(alloc);
    add_at(&mut graph, keys.as_slice(), bytes)?;
    Ok(graph)
}

/// Adds what a view has of the bytes of a path. It is a call of its own, so that a level of the walk takes less of the
/// stack.
#[inline(never)]
fn add_path(
    view: &View<'_>,
    path: &Vec<&'static str>,
    bytes: usize,
    gathered: &mut Gathered,
) -> Result<(), AllocError>
    ensures { OnOk result (all_of gathered.new
        ≡ viewed view.now (all_of gathered.old) ((texts path.now.items, bytes) ∷ [])) }
{
    let alloc = *path.allocator();
    let path = path.as_slice();
    if !view.has(path, bytes) {
        return Ok(());
    }
    let Some((key, before)) = view.split(path) else {
        return gathered.add_at(path, bytes);
    };
    gathered.add(Key::new(key), graph_of_reversed(alloc, before, bytes)?)
}

/// Adds what a view has of a graph, each path after the given keys.
fn add_all(
    view: &View<'_>,
    path: &mut Vec<&'static str>,
    graph: &FlameGraph,
    gathered: &mut Gathered,
) -> Result<(), AllocError>
    ensures path { OnOk result (path.new.items ≡ path.old.items) }
    ensures all { OnOk result (all_of gathered.new
        ≡ viewed view.now (all_of gathered.old) (behind (texts path.old.items) (entries graph.now))) }
{
    let children = graph.children();
    add_path(view, path, graph.self_size(), gathered)?;
    for child in children {
        path.push(child.key.as_str())?;
        add_all(view, path, &child.graph, gathered)?;
        path.pop();
    }
    Ok(())
}

/// A view of a graph.
fn view_of(alloc: Global, view: &View<'_>, graph: &FlameGraph) -> Result<FlameGraph, AllocError>
    ensures { IfOk result (λ made. made ≡ viewed view.now default (entries graph.now)) }
{
    let mut path: Vec<&'static str> = Vec::new(alloc);
    let mut gathered = Gathered {
        view: FlameGraph::default(alloc),
        waiting: Vec::new(alloc),
    };
    add_all(view, &mut path, graph, &mut gathered)?;
    gathered.add_waiting()?;
    Ok(gathered.view)
}

/// The bytes of a graph by last key: all paths that end in a key add up under that key alone. The root keeps its own
/// bytes. What is held on the way is at most a few times what is returned. The only error is that memory runs out.
pub fn by_last_key(alloc: Global, graph: &FlameGraph) -> Result<FlameGraph, AllocError>
    ensures view { IfOk result (λ view. view ≡ by_last_key graph.now) }
    ensures total { IfOk result (λ view. total view ≡ total graph.now) }
    ensures sizes { IfOk result (λ view. (k : Key) → size_at view (k ∷ []) ≡ bytes_ending_in k graph.now) }
{
    view_of(alloc, &View::LastKey, graph)
}

/// The graph with the keys of each path in reverse: which paths lead to a last key. Paths without bytes of their own
/// are left out. Reversed twice, each path has its bytes back. The only error is that memory runs out.
pub fn reverse(alloc: Global, graph: &FlameGraph) -> Result<FlameGraph, AllocError>
    ensures view { IfOk result (λ view. view ≡ reversed graph.now) }
    ensures total { IfOk result (λ view. total view ≡ total graph.now) }
    ensures sizes { IfOk result (λ view. (p : Path) → size_at view p ≡ size_at graph.now (reverse p)) }
{
    view_of(alloc, &View::Reversed, graph)
}

/// The part of a graph at and below some paths, which keep their keys. Bytes within several of them count once. Paths
/// without bytes of their own are left out. The only error is that memory runs out.
pub fn only(
    alloc: Global,
    graph: &FlameGraph,
    paths: &[Vec<&str>],
) -> Result<FlameGraph, AllocError>
    ensures view { IfOk result (λ view. view ≡ only (paths_of paths.now) graph.now) }
    ensures total { IfOk result (λ view. total view ≡ bytes_within (paths_of paths.now) graph.now) }
    ensures sizes { IfOk result
        (λ view. (p : Path) → size_at view p ≡ cond (is_within (paths_of paths.now) p) (size_at graph.now p) 0) }
{
    let inside = true;
    view_of(alloc, &View::Part { inside, paths }, graph)
}

/// The part of a graph that is neither at nor below some paths. Paths without bytes of their own are left out. The only
/// error is that memory runs out.
pub fn without(
    alloc: Global,
    graph: &FlameGraph,
    paths: &[Vec<&str>],
) -> Result<FlameGraph, AllocError>
    ensures view { IfOk result (λ view. view ≡ without (paths_of paths.now) graph.now) }
    ensures total { IfOk result (λ view. total view + bytes_within (paths_of paths.now) graph.now ≡ total graph.now) }
    ensures sizes { IfOk result
        (λ view. (p : Path) → size_at view p ≡ cond (is_within (paths_of paths.now) p) 0 (size_at graph.now p)) }
{
    let inside = false;
    view_of(alloc, &View::Part { inside, paths }, graph)
}

/// The key that a table has in place of a key, or the key itself if it has none.
fn new_key(names: &HashMap<Key, Key>, key: &Key) -> Key
    ensures { result ≡ new_key names.now key.now }
{
    match names.get(key) {
        Some(new) => new.copy(),
        None => key.copy(),
    }
}

/// Adds a graph under the key that a table has in place of its own. It is a call of its own, so that a level of the
/// walk takes less of the stack.
#[inline(never)]
fn push_folded(
    names: &HashMap<Key, Key>,
    key: &Key,
    graph: FlameGraph,
    children: &mut Vec<Child>,
) -> Result<(), AllocError>
    ensures { OnOk result
        (children.new.items ≡ children.old.items ++ record { key = new_key names.now key.now; graph = graph } ∷ []) }
{
    let key = new_key(names, key);
    children.push(Child { key, graph })?;
    Ok(())
}

/// The graph of a root that has bytes of its own and some children, which may have equal keys. Their bytes are those of
/// one graph, so the only error is that memory runs out.
#[inline(never)]
fn put_together(alloc: Global, bytes: usize, children: Vec<Child>) -> Result<FlameGraph, AllocError>
    ensures { IfOk result (λ graph. graph ≡ sum_of_all (bytes_alone bytes) children.items) }
{
    let mut graph = FlameGraph::default(alloc);
    add_bytes(&mut graph, bytes)?;
    graph.add_children(children).map_err(|_| AllocError)?;
    Ok(graph)
}

/// The graph with other keys: each path has its bytes at the path of the keys that a table has in place of its own, and
/// equal paths add up. A key that the table does not have stays. The only error is that memory runs out.
pub fn fold_keys(
    alloc: Global,
    names: &HashMap<Key, Key>,
    graph: &FlameGraph,
) -> Result<FlameGraph, AllocError>
    ensures view { IfOk result (λ view. view ≡ folded (new_key names.now) graph.now) }
    ensures total { IfOk result (λ view. total view ≡ total graph.now) }
{
    let children = graph.children();
    let mut below = Vec::new(alloc);
    for child in children {
        let folded = fold_keys(alloc, names, &child.graph)?;
        push_folded(names, &child.key, folded, &mut below)?;
    }
    put_together(alloc, graph.self_size(), below)
}
