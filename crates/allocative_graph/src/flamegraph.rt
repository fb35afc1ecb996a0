//! Flame graphs: maps from paths of keys to sizes.
ghost use Rattle.std.specs.Prelude.{◌≡◌, ◌+◌, ◌^◌, ◌<◌, ◌≤◌, ◌↔◌, ◌++◌, [], ◌∷◌, IfOk, IfErr, IfSome, IfNone, OnOk, OnErr, IsErrOf, MatchResult, string_bytes, length, is_ok, map, flat_map, take};
ghost use Rattle.std.specs.List.{insert};
ghost use Rattle.std.specs.Bool.{OnTrue};
ghost use Rattle.std.specs.Option.{SomeIff};
ghost use Rattle.std.specs.FinMap.{entries};
ghost use Rattle.allocative_graph.specs.Path.{key_cmp, texts};
ghost use Rattle.allocative_graph.specs.Format.{AppendsText, ReturnsText};
ghost use Rattle.allocative_graph.specs.Graph.{add_self, total, text, line, default, sum_of, under, joined, ExceedWord, IsTree, IsPartOfSum, size_at, total_at, IsBehind, HasNothing};
ghost use Rattle.allocative_graph.specs.Representation.Children.{line_after, front_order, InOrder, IsFound, IsChildGap, Added, Merged, MergesFirst};
ghost use Rattle.allocative_graph.specs.Rows.{AreChildren, total_of, AllSmaller, row_figures, figures, figures_behind, node, sum_of_all, ComesLast};
ghost use Rattle.allocative_graph.specs.declared.flamegraph.Child.{Child};

use crate::key::{Key, start_of};
use crate::refusal::Refusal;
use itoa::Buffer;
use std::alloc::{AllocError, Global};
use std::cmp::Ordering;
use std::collections::VecDeque;
use std::marker::Model;
use std::mem;

mod at_path;
mod described;

pub use at_path::add_at;

/// A map from paths of keys to sizes in bytes.
///
/// A path is a list of keys, as `Map`, `data`, `key`; the root's path is empty. The root is always in the map,
/// and with each path so is every prefix of it. A contract sees only the map. The total, which is the sum of
/// all sizes, is at most `usize::MAX`.
///
/// ```
/// let mut data = FlameGraph::default(alloc);
/// data.add_self(16)?;
/// let mut graph = FlameGraph::default(alloc);
/// graph.add_child(Key::new("Map"), data)?;
/// assert_eq!(rt; graph.write()?.as_str(), "Map 16\n");
/// ```
#[cycle(graph)]
#[derive(Drop)]
pub struct FlameGraph {
    // The children, in the order of their keys.
    children: Vec<Child>,
    // The sum of all sizes below this node.
    children_size: usize,
    // This node's own size.
    node_size: usize,
}

/// A key and the graph below it.
#[cycle(graph)]
#[derive(Drop)]
pub struct Child {
    /// The key of the child.
    pub key: Key,
    /// The graph of what is below the key; its root is the path of the key itself.
    pub graph: FlameGraph,
}

/// A path of a flame graph, with its sizes in bytes.
#[derive(Drop)]
pub struct Row {
    /// The keys from the root on. The root's path is empty.
    pub path: Vec<&'static str>,
    /// The bytes of the path itself.
    pub self_size: usize,
    /// The bytes of the path and of all paths below it.
    pub total_size: usize,
}

impl Model for FlameGraph {
    ghost use Rattle.std.specs.Prelude.{ℕ};
    ghost use Rattle.std.specs.Coded.{coded_ℕ, coded_list};
    ghost use Rattle.std.specs.FinMap.{FinMap, code, len};
    ghost use Rattle.allocative_graph.specs.Path.{path_cmp};

    ghost Value = { FinMap path_cmp ℕ };

    ghost coded = { code (coded_list (coded_list coded_ℕ)) coded_ℕ };

    ghost use Rattle.allocative_graph.specs.Rows.{node};
    ghost use Rattle.allocative_graph.specs.Representation.Children.{IsNode};

    ghost view = { λ a. node a.node_size a.children.items };

    ghost invariant = { λ a. IsNode a.children.items a.children_size a.node_size };

    ghost size = { len };

    ghost use Rattle.std.proofs.Common.{arith};
    ghost use Rattle.allocative_graph.specs.Representation.NodeRows.{most_le-node};

    ghost size_decreases = { λ a h. omega (arith, most_le-node a.node_size a.children.items h.children.sorted) };
}

impl FlameGraph {
    /// The graph that has only the root, with size 0. It allocates nothing; it keeps the
    /// allocator for what is added later.
    #[tactic(auto, using(crate::proofs::Children::node_nil, crate::proofs::Children::no_children))]
    pub fn default(alloc: Global) -> FlameGraph
        ensures { result ≡ default }
    {
        FlameGraph {
            children: Vec::new(alloc),
            children_size: 0,
            node_size: 0,
        }
    }

    /// The graph that has only the root, with size 0. `children` is a hint: how many children of the root will be
    /// added. No contract speaks of capacity. It returns an error only when memory runs out.
    pub fn with_capacity(alloc: Global, children: usize) -> Result<FlameGraph, AllocError>
        ensures { IfOk result (λ graph. graph ≡ default) }
    {
        let mut graph = FlameGraph::default(alloc);
        graph.children.reserve_exact(children)?;
        Ok(graph)
    }

    /// The sum of the sizes of all paths in bytes, including the root's own.
    #[tactic(auto, using(crate::proofs::Nodes::total_of_node))]
    pub fn total_size(&self) -> usize
        ensures total { result ≡ total self.now }

        // This clause tells callers what holds of every graph.
        ensures tree { IsTree self.now }
    {
        self.node_size + self.children_size
    }

    /// Adds bytes to the size of the root. It allocates nothing.
    ///
    /// It returns `TooLarge` exactly if the total would exceed `usize::MAX`, and then changes nothing.
    #[tactic(auto, using(crate::proofs::Nodes::adding_self))]
    pub fn add_self(&mut self, size: usize) -> Result<(), Refusal>
        ensures sum { OnOk result (self.new ≡ add_self size self.old) }
        ensures too_large { IsErrOf result Refusal.TooLarge ↔ (2 ^ 64 ≤ total self.old + size) }
        ensures no_other { IfErr result (λ r. r ≡ Refusal.TooLarge) }
        ensures unchanged { OnErr result (self.new ≡ self.old) }
    {
        if size > usize::MAX - self.total_size() {
            return Err(Refusal::TooLarge);
        }
        self.node_size += size;
        Ok(())
    }

    /// Adds another graph, path by path. A missing path counts as 0.
    ///
    /// It returns `TooLarge` exactly if the sum of the two totals exceeds `usize::MAX`, and then changes
    /// nothing. After `Memory` each path has its old size or that of the sum, all old paths are still there,
    /// and there is no path that the sum does not have. After an error `other` is dropped.
    #[tactic(auto, using(crate::proofs::Nodes::added_sum))]
    pub fn add(&mut self, other: FlameGraph) -> Result<(), Refusal>
        ensures sum { OnOk result (self.new ≡ sum_of self.old other) }
        ensures too_large { IsErrOf result Refusal.TooLarge ↔ ExceedWord self.old other }
        ensures unchanged { IsErrOf result Refusal.TooLarge → self.new ≡ self.old }
        ensures part { IsErrOf result Refusal.Memory → IsPartOfSum self.old other self.new }
        ensures never_open { ¬ (IsErrOf result Refusal.Open) }
    {
        if other.total_size() > usize::MAX - self.total_size() {
            return Err(Refusal::TooLarge);
        }
        self.merge(other)?;
        Ok(())
    }

    /// Adds another graph with the key put before each of its paths. All other paths stay as they are.
    ///
    /// A new key that does not come last moves the children after it, so adding many keys out of order takes
    /// time quadratic in their number. [`add_children`](FlameGraph::add_children) adds many at once.
    ///
    /// The errors, and what they leave, are those of [`add`](FlameGraph::add).
    #[tactic(auto, using(crate::proofs::Nodes::adding_child))]
    pub fn add_child(&mut self, key: Key, child: FlameGraph) -> Result<(), Refusal>
        ensures sum { OnOk result (self.new ≡ sum_of self.old (under key child)) }
        ensures too_large { IsErrOf result Refusal.TooLarge ↔ ExceedWord self.old child }
        ensures unchanged { IsErrOf result Refusal.TooLarge → self.new ≡ self.old }
        ensures part { IsErrOf result Refusal.Memory
            → IsPartOfSum self.old (under key child) self.new }
        ensures never_open { ¬ (IsErrOf result Refusal.Open) }
    {
        if child.total_size() > usize::MAX - self.total_size() {
            return Err(Refusal::TooLarge);
        }
        put_child(
            &mut self.children,
            &mut self.children_size,
            Child { key, graph: child },
        )?;
        Ok(())
    }

    /// Adds some children, each as [`add_child`](FlameGraph::add_child) does; children with one key add up.
    /// Their order does not matter: they are sorted once, and then merged with the children that are there.
    ///
    /// It returns `TooLarge` exactly if the sum of all totals exceeds `usize::MAX`, and then changes
    /// nothing. After `Memory` each path has its old size or that of the sum, all old paths are still there,
    /// and there is no path that the sum does not have. After an error the children are dropped.
    #[tactic(auto, using(crate::proofs::Graphs::adding_children))]
    pub fn add_children(&mut self, children: Vec<Child>) -> Result<(), Refusal>
        ensures sum { OnOk result (self.new ≡ sum_of_all self.old children.items) }
        ensures too_large { IsErrOf result Refusal.TooLarge
            ↔ (2 ^ 64 ≤ total self.old + total_of children.items) }
        ensures unchanged { IsErrOf result Refusal.TooLarge → self.new ≡ self.old }
        ensures part { IsErrOf result Refusal.Memory
            → IsPartOfSum self.old (sum_of_all default children.items) self.new }
        ensures never_open { ¬ (IsErrOf result Refusal.Open) }
    {
        let Some(added) = total_size_of(children.as_slice()) else {
            return Err(Refusal::TooLarge);
        };
        if added > usize::MAX - self.total_size() {
            return Err(Refusal::TooLarge);
        }
        let alloc = *self.children.allocator();
        let graph = gather(alloc, children)?;
        self.add(graph)
    }

    // A copy of the graph if it has only the root. It allocates nothing and makes no further call.
    #[inline(always)]
    #[tactic(auto, using(std::proofs::lemmas::List::nil_from_length, crate::proofs::Children::no_children))]
    fn root_alone(&self) -> Option<FlameGraph>
        ensures { IfSome result (λ root. root ≡ self.now) }
    {
        let node_size = self.node_size;
        if self.children.is_empty() {
            Some(FlameGraph {
                children: Vec::new(*self.children.allocator()),
                children_size: self.children_size,
                node_size,
            })
        } else {
            None
        }
    }

    // Adds another graph when the totals are known to fit. It is inlined, so that a level of the walk takes less of the
    // stack.
    #[cycle(merge)]
    #[tactic(auto, using(crate::proofs::Nodes::merging))]
    #[inline(always)]
    fn merge(&mut self, other: FlameGraph) -> Result<(), AllocError>
        requires { total self.old + total other < 2 ^ 64 }
        ensures { Added (is_ok result) self.old other self.new }
    {
        let FlameGraph {
            mut children,
            children_size: _,
            node_size,
        } = other;
        self.node_size += node_size;
        // One child is put among those that are there, which are not read one by one.
        if children.len() < 2 {
            let Some(child) = children.pop() else {
                return Ok(());
            };
            return put_child(&mut self.children, &mut self.children_size, child);
        }
        if children.len() <= self.children.len() / 64 {
            return put_each(&mut self.children, &mut self.children_size, children);
        }
        interleave(&mut self.children, &mut self.children_size, children)
    }

    /// The size of the root alone, in bytes.
    #[tactic(auto, using(crate::proofs::Nodes::own_of_node))]
    pub fn self_size(&self) -> usize
        ensures { result ≡ size_at self.now [] }
    {
        self.node_size
    }

    /// The children of the root, in the order of their keys. No two have the same key. Together with the root's
    /// own size they are the whole graph. Each child has fewer paths, so a function may call itself on it.
    #[tactic(auto, using(crate::proofs::Nodes::own_of_node, crate::proofs::Nodes::smaller_child))]
    pub fn children(&self) -> &[Child]
        ensures whole { self.now ≡ node (size_at self.now []) result.now }
        ensures children { AreChildren result.now }
        ensures smaller { AllSmaller result.now self.now }
    {
        self.children.as_slice()
    }

    /// The children of the root, as [`children`](FlameGraph::children) has them. The bytes of the root itself are lost.
    #[tactic(auto, using(crate::proofs::Nodes::own_of_node, crate::proofs::Nodes::smaller_child))]
    pub fn into_children(self) -> Vec<Child>
        ensures whole { self ≡ node (size_at self []) result.items }
        ensures children { AreChildren result.items }
        ensures smaller { AllSmaller result.items self }
    {
        self.children
    }

    /// The graph at a path, whose root is that path. It returns `None` exactly if the graph has no such path.
    #[tactic(auto, using(crate::proofs::Nodes::behind))]
    pub fn get(&self, path: &[&str]) -> Option<&FlameGraph>
        ensures found { IfSome result (λ found. IsBehind self.now (texts path.now) found.now) }
        ensures missing { IfNone result (HasNothing self.now (texts path.now)) }
    {
        let children = self.children.as_slice();
        let Some((key, rest)) = path.split_first() else {
            return Some(self);
        };
        let Ok(place) = place_by_halving(children, key) else {
            return None;
        };
        children[place].graph.get(rest)
    }

    /// The size at a path, in bytes; 0 if the graph has no such path.
    pub fn size_at(&self, path: &[&str]) -> usize
        ensures { result ≡ size_at self.now (texts path.now) }
    {
        self.get(path).map_or(0, FlameGraph::self_size)
    }

    /// The bytes of a path and of all paths below it; 0 if the graph has no such path.
    pub fn total_at(&self, path: &[&str]) -> usize
        ensures { result ≡ total_at self.now (texts path.now) }
    {
        self.get(path).map_or(0, FlameGraph::total_size)
    }

    /// All paths with their sizes, in the order of paths. The root comes first, each path comes before those below
    /// it, and the paths below one path come in the order of their keys.
    ///
    /// It returns an error only when memory runs out.
    pub fn rows(&self) -> Result<Vec<Row>, Refusal>
        ensures rows { IfOk result (λ rows. map row_figures rows.items ≡ figures self.now) }
        ensures memory { IfErr result (λ r. r ≡ Refusal.Memory) }
    {
        let alloc = *self.children.allocator();
        let mut path: Vec<&'static str> = Vec::new(alloc);
        let mut rows = Vec::new(alloc);
        self.push_rows(&mut path, &mut rows)?;
        Ok(rows)
    }

    // Appends the rows of all paths, each after the given keys.
    #[tactic(auto, using(crate::proofs::Text::popped, crate::proofs::Nodes::more_rows))]
    fn push_rows(&self, path: &mut Vec<&'static str>, rows: &mut Vec<Row>) -> Result<(), AllocError>
        ensures path { OnOk result (path.new.items ≡ path.old.items) }
        ensures rows { OnOk result (map row_figures rows.new.items
            ≡ map row_figures rows.old.items ++ figures_behind (texts path.old.items) self.now) }
    {
        rows.push(Row {
            path: path.clone()?,
            self_size: self.node_size,
            total_size: self.total_size(),
        })?;
        for child in &self.children {
            path.push(child.key.as_str())?;
            child.graph.push_rows(path, rows)?;
            path.pop();
        }
        Ok(())
    }

    /// The collapsed stacks that `flamegraph.pl` reads: one line for each path but the root with a size other
    /// than 0. A line has the keys joined by `;`, a space, and the size in decimal. The lines are in the order
    /// of paths: a node comes before its children, and children come in the order of the bytes of their keys.
    ///
    /// It returns an error only when memory runs out.
    pub fn write(&self) -> Result<String, Refusal>
        ensures text { ReturnsText result (text self.now) }
        ensures memory { IfErr result (λ r. r ≡ Refusal.Memory) }
    {
        let alloc = *self.children.allocator();
        let mut text = String::new(alloc);
        let mut start = String::new(alloc);
        self.write_lines(&mut start, &mut text)?;
        Ok(text)
    }

    // Appends the lines of all paths but the root, each after the given start of a line.
    fn write_lines(&self, start: &mut String, text: &mut String) -> Result<(), AllocError>
        ensures start { OnOk result (string_bytes start.new ≡ string_bytes start.old) }
        ensures text { OnOk result (AppendsText text.old text.new
            (flat_map (line_after (string_bytes start.old)) (entries self.now))) }
    {
        let length = start.len();
        for child in &self.children {
            start.push_str(child.key.as_str())?;
            push_line(start.as_str(), child.graph.self_size(), text)?;
            if !child.graph.is_leaf() {
                start.push(';')?;
                child.graph.write_lines(start, text)?;
            }
            start.truncate(length);
        }
        Ok(())
    }

    // Whether the root has no children.
    #[tactic(auto, using(crate::proofs::Nodes::copying))]
    fn is_leaf(&self) -> bool
        ensures { OnTrue result (entries self.now ≡ ([], size_at self.now []) ∷ []) }
    {
        self.children.is_empty()
    }
}

impl Clone for FlameGraph {
    ghost is_clone = { λ g c. c ≡ g };

    /// A copy of the map. It returns an error only when memory runs out.
    fn clone(&self) -> Result<FlameGraph, AllocError> {
        let alloc = *self.children.allocator();
        let mut children = Vec::with_capacity(alloc, self.children.len())?;
        for Child { key, graph } in &self.children {
            children.push(Child {
                key: key.copy(),
                graph: match graph.root_alone() {
                    Some(root) => root,
                    None => graph.clone()?,
                },
            })?;
        }
        Ok(FlameGraph {
            children,
            children_size: self.children_size,
            node_size: self.node_size,
        })
    }
}

/// Adds a child after all others, with no search for its place. All other paths stay as they are.
///
/// It requires that each key below the root comes before `key`, and that the sum of the two totals is at most
/// `usize::MAX`. It returns an error only when memory runs out; then the graph is unchanged, and `child` is dropped.
#[tactic(auto, using(crate::proofs::Nodes::total_of_node))]
pub fn push_child(graph: &mut FlameGraph, key: Key, child: FlameGraph) -> Result<(), AllocError>
    requires last { ComesLast graph.old key }
    requires fits { total graph.old + total child < 2 ^ 64 }
    ensures sum { OnOk result (graph.new ≡ sum_of graph.old (under key child)) }
    ensures unchanged { OnErr result (graph.new ≡ graph.old) }
{
    let added = child.total_size();
    graph.children.push(Child { key, graph: child })?;
    graph.children_size += added;
    Ok(())
}

// Appends the line of a path with a size other than 0.
#[tactic(auto, using(crate::proofs::Text::of_lines))]
fn push_line(path: &str, size: usize, text: &mut String) -> Result<(), AllocError>
    ensures { OnOk result (AppendsText text.old text.new (line (path.now ∷ [], size))) }
{
    if size == 0 {
        return Ok(());
    }
    let mut digits = Buffer::new();
    text.push_str(path)?;
    text.push(' ')?;
    text.push_str(digits.format(size))?;
    text.push('\n')?;
    Ok(())
}

/// Appends the keys to the text, with `;` between them. It returns an error only when memory runs out, and then the
/// text is as it was.
pub fn push_path(keys: &[&str], text: &mut String) -> Result<(), AllocError>
    ensures { MatchResult result
        (λ _. AppendsText text.old text.new (joined (texts keys.now)))
        (λ _. string_bytes text.new ≡ string_bytes text.old) }
{
    let length = text.len();
    let Err(error) = push_keys(keys, text) else {
        return Ok(());
    };
    text.truncate(length);
    Err(error)
}

// Appends the keys to the text, with `;` between them. After an error the text may have some of them.
fn push_keys(keys: &[&str], text: &mut String) -> Result<(), AllocError>
    ensures keys { OnOk result (AppendsText text.old text.new (joined (texts keys.now))) }
    ensures start { OnErr result
        (take (length (string_bytes text.old)) (string_bytes text.new) ≡ string_bytes text.old) }
{
    match keys {
        [] => Ok(()),
        [key] => text.push_str(key),
        [key, rest @ ..] => {
            text.push_str(key)?;
            text.push(';')?;
            push_keys(rest, text)
        }
    }
}

// The place of the key among the children, or else the place where it belongs. One comparison recognizes the last key
// and a key after it, so that children added in order are put at the end without a search.
#[tactic(auto, using(crate::proofs::Nodes::placing))]
fn place_of(children: &[Child], key: &Key) -> Result<usize, usize>
    requires { InOrder children.now }
    ensures found { IfOk result (IsFound children.now key.now) }
    ensures missing { IfErr result (IsChildGap children.now key.now) }
{
    if let Some(last) = children.last() {
        match last.key.cmp(key) {
            Ordering::Less => return Err(children.len()),
            Ordering::Equal => return Ok(children.len() - 1),
            Ordering::Greater => {}
        }
    }
    place_by_halving(children, key.as_str())
}

// The place of the key among the children, or else the place where it belongs, by binary search.
#[inline(never)]
fn place_by_halving(children: &[Child], key: &str) -> Result<usize, usize>
    requires { InOrder children.now }
    ensures found { IfOk result (IsFound children.now key.now) }
    ensures missing { IfErr result (IsChildGap children.now key.now) }
{
    children.binary_search_by(
        |child: &Child| -> Ordering
            ensures { result ≡ key_cmp child.entry.now.key key.entry.now }
        { child.key.as_str().cmp(key) },
    )
}

// Adds a child: to the child with its key, or at its place among the others.
#[cycle(merge)]
#[tactic(auto, using(crate::proofs::Nodes::putting))]
fn put_child(children: &mut Vec<Child>, size: &mut usize, child: Child) -> Result<(), AllocError>
    requires children { AreChildren children.old.items }
    requires size { size.old ≡ total_of children.old.items }
    requires tree { IsTree child.graph }
    requires fits { size.old + total child.graph < 2 ^ 64 }
    ensures merged { Merged (is_ok result) children.old.items (child ∷ []) children.new.items }
    ensures size { size.new ≡ total_of children.new.items }
{
    let Child { key, graph } = child;
    match place_of(children, &key) {
        Ok(at) => {
            let here = &mut children[at];
            let before = here.graph.total_size();
            let result = here.graph.merge(graph);
            *size = *size - before + here.graph.total_size();
            result
        }
        Err(at) => {
            let added = graph.total_size();
            put_at(children, at, Child { key, graph })?;
            *size += added;
            Ok(())
        }
    }
}

// Merges other children into `children`, each by a search. A new child moves those after it, so that after three new
// ones the others are merged by a walk over all. After a refusal on the way it continues, so that no child is lost.
#[inline(never)]
#[cycle(merge)]
fn put_each(
    children: &mut Vec<Child>,
    size: &mut usize,
    theirs: Vec<Child>,
) -> Result<(), AllocError>
    requires mine { AreChildren children.old.items }
    requires size { size.old ≡ total_of children.old.items }
    requires theirs { AreChildren theirs.items }
    requires fits { size.old + total_of theirs.items < 2 ^ 64 }
    ensures merged { Merged (is_ok result) children.old.items theirs.items children.new.items }
    ensures size { size.new ≡ total_of children.new.items }
{
    let most = children.len() + 2;
    let mut theirs = VecDeque::from(theirs);
    let mut result = Ok(());
    while children.len() <= most {
        let Some(child) = theirs.pop_front() else {
            return result;
        };
        result = result.and(put_child(children, size, child));
    }
    result.and(interleave(children, size, Vec::from(theirs)))
}

// Inserts a child at a place. At the end no child is moved.
#[inline(always)]
fn put_at(children: &mut Vec<Child>, at: usize, child: Child) -> Result<(), AllocError>
    requires { at ≤ length children.old.items }
    ensures items { OnOk result (children.new.items ≡ insert children.old.items at child) }
    ensures refused { OnErr result (children.new.items ≡ children.old.items) }
{
    if at == children.len() {
        children.push(child)?;
    } else {
        children.insert(at, child)?;
    }
    Ok(())
}

// Merges other children into `children`. After a refusal on the way it continues, so that no child is lost. It is a
// call of its own, so that a merge of one child takes less of the stack.
#[inline(never)]
#[cycle(merge)]
#[tactic(auto, using(crate::proofs::Children::not_merged))]
fn interleave(
    children: &mut Vec<Child>,
    size: &mut usize,
    theirs: Vec<Child>,
) -> Result<(), AllocError>
    requires mine { AreChildren children.old.items }
    requires size { size.old ≡ total_of children.old.items }
    requires theirs { AreChildren theirs.items }
    requires fits { size.old + total_of theirs.items < 2 ^ 64 }
    ensures merged { Merged (is_ok result) children.old.items theirs.items children.new.items }
    ensures size { size.new ≡ total_of children.new.items }
{
    let alloc = *children.allocator();
    let merged = Vec::with_capacity(alloc, children.len() + theirs.len())?;
    let mut mine = VecDeque::from(mem::replace(children, merged));
    let mut theirs = VecDeque::from(theirs);
    let mut result = Ok(());
    *size = 0;
    while let Some((child, added)) = take_next(&mut mine, &mut theirs) {
        result = result.and(added);
        *size += child.graph.total_size();
        let Ok(()) = children.push(child) else {
            unreachable!()
        };
    }
    result
}

// Takes the next child of the merge from the lists. If both have its key, one is added to the other.
#[cycle(merge)]
#[tactic(auto, using(crate::proofs::Children::at_front))]
fn take_next(
    mine: &mut VecDeque<Child>,
    theirs: &mut VecDeque<Child>,
) -> Option<(Child, Result<(), AllocError>)>
    requires mine { AreChildren mine.old.items }
    requires theirs { AreChildren theirs.old.items }
    requires fits { total_of mine.old.items + total_of theirs.old.items < 2 ^ 64 }
    ensures next { IfSome result
        (λ next. MergesFirst (is_ok next.1) mine.old.items theirs.old.items
        (next.0 ∷ []) mine.new.items theirs.new.items) }
    ensures end { IfNone result ((mine.old.items ≡ []) × (theirs.old.items ≡ [])) }
{
    match fronts(mine, theirs)? {
        Ordering::Less => Some((mine.pop_front().unwrap(), Ok(()))),
        Ordering::Greater => Some((theirs.pop_front().unwrap(), Ok(()))),
        Ordering::Equal => {
            let mut child = mine.pop_front().unwrap();
            let added = child.graph.merge(theirs.pop_front().unwrap().graph);
            Some((child, added))
        }
    }
}

// Which list has the next child: the first (`Less`), the second (`Greater`), or both.
fn fronts(mine: &VecDeque<Child>, theirs: &VecDeque<Child>) -> Option<Ordering>
    ensures { result ≡ front_order mine.now.items theirs.now.items }
{
    match (mine.front(), theirs.front()) {
        (None, None) => None,
        (Some(_), None) => Some(Ordering::Less),
        (None, Some(_)) => Some(Ordering::Greater),
        (Some(left), Some(right)) => Some(left.key.cmp(&right.key)),
    }
}

// The sum of the totals of some children, or `None` if it does not fit.
#[tactic(auto, using(std::proofs::Common::take_all))]
fn total_size_of(children: &[Child]) -> Option<usize>
    ensures { SomeIff result (total_of children.now < 2 ^ 64) (total_of children.now) }
{
    let mut sum: usize = 0;
    for child in children {
        sum = sum.checked_add(child.graph.total_size())?;
    }
    Some(sum)
}

// A graph that has only the children. They are added in the order of their keys, so that each is put at the end. The
// keys are compared by their first eight bytes first, which is quick.
#[tactic(auto, using(std::proofs::lemmas::List::nil_from_length, crate::proofs::Graphs::all_permuted))]
fn gather(alloc: Global, children: Vec<Child>) -> Result<FlameGraph, AllocError>
    requires { total_of children.items < 2 ^ 64 }
    ensures { IfOk result (λ graph. graph ≡ sum_of_all default children.items) }
{
    let mut sorted = children;
    if sorted.is_sorted_by(|left: &Child, right: &Child| right.key <= left.key) {
        sorted.reverse();
    } else if !sorted.is_sorted_by(|left: &Child, right: &Child| left.key <= right.key) {
        sorted.sort_by_cached_key(|child: &Child| (
            start_of(child.key.as_str()),
            child.key.copy(),
        ))?;
    }
    let mut waiting = VecDeque::from(sorted);
    let mut graph = FlameGraph::default(alloc);
    while let Some(child) = waiting.pop_front() {
        // The total of all children fits, so memory ran out.
        if graph.add_child(child.key, child.graph).is_err() {
            return Err(AllocError);
        }
    }
    Ok(graph)
}
