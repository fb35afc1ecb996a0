//! The paths that were entered, as an arena of nodes that refer to one another by number.
ghost use Rattle.std.specs.Prelude.{◌≡◌, ◌+◌, ◌^◌, ◌<◌, ◌≤◌, [], ◌∷◌, ◌++◌, length, map, IfOk, IfErr, IfSome, IfNone, OnOk, OnErr, IsTrue, ◌↔◌, false, sum_by, ℕ, slice_index_or};
ghost use Rattle.std.specs.List.{All};
ghost use Rattle.allocative_graph.specs.Graph.{total as graph_total};
ghost use Rattle.allocative_graph.specs.Sums.{bytes_entered, below as bytes_below};
ghost use Rattle.allocative_graph.specs.Path.{key_cmp, texts};
ghost use Rattle.allocative_graph.specs.Visits.{IsProfile};
ghost use Rattle.allocative_collectors.specs.Listed.{root_sum, put, path_at, map_of, IsEntered, IsAbove};
ghost use Rattle.allocative_collectors.specs.Places.{AddedAt, TellsWhy};
ghost use Rattle.allocative_collectors.specs.Warned.{size_at_place, is_short, MakesGraph, MakesGraphAlone, warning_of};
ghost use Rattle.allocative_collectors.specs.Nodes.{leaf, bytes_at, keys_of, key_at, KeysRise, HasKey, IsKeyGap, numbers, flat, IsPlace, IsPlaceIn, place_in, flat_place, IsTree};

use crate::children::{Children, Chunk, LONGEST, Place, last_in, number_at};
use crate::output::{FlameGraphOutput, WarnedPath};
use allocative_graph::flamegraph::{FlameGraph, push_child};
use allocative_graph::key::{Key, start_of};
use allocative_graph::refusal::Refusal;
use std::alloc::{AllocError, Global};
use std::cmp::Ordering;
use std::marker::Model;

/// What was entered at one path.
#[derive(Drop)]
struct Node {
    key: Key,
    /// The number of the node one key above, or `usize::MAX` for the root.
    parent: usize,
    bytes: usize,
    /// The child that was entered last.
    last: u32,
    /// The child that is expected next. A guess; callers check it.
    next: u32,
    /// The child of the same parent that was entered after this one.
    follower: u32,
    is_unique: bool,
}

impl Node {
    /// A node with no bytes.
    fn new(key: Key, parent: usize) -> Node
        ensures { result ≡ leaf parent key }
    {
        Node {
            key,
            parent,
            bytes: 0,
            last: 0,
            next: 0,
            follower: 0,
            is_unique: false,
        }
    }
}

/// The paths that were entered, each with its bytes and whether it was ever entered as unique.
///
/// A path is named by the number of its node, which is its place in the order of first entries. The root is number 0.
#[derive(Drop)]
pub(crate) struct Tree {
    alloc: Global,
    nodes: Vec<Node>,
    /// For each node, the numbers of the nodes one key below, in the order of their keys. They are no part of the node,
    /// so that an entry on a path that is expected reads less memory.
    children: Vec<Children>,
}

impl Model for Tree {
    ghost use Rattle.allocative_collectors.specs.Listed.{Listed};

    ghost Value = { Listed };

    ghost use Rattle.allocative_collectors.specs.Nodes.{sums, IsTree};

    ghost view = { λ t. sums t.nodes.items };

    ghost invariant = { λ t. IsTree t.nodes.items t.children.items };
}

impl Tree {
    /// A tree that has only the root. The only error is that memory runs out.
    pub(crate) fn new(alloc: Global) -> Result<Tree, AllocError>
        ensures { IfOk result (λ t. t ≡ root_sum ∷ []) }
    {
        let mut nodes = Vec::new(alloc);
        nodes.push(Node::new(Key::new(""), usize::MAX))?;
        let mut children = Vec::new(alloc);
        children.push(Children::Empty)?;
        Ok(Tree {
            alloc,
            nodes,
            children,
        })
    }

    /// Enters `size` bytes under the key at the node `at`, if `room` has them, and takes them from it. It returns the
    /// node of that path.
    ///
    /// It fails with `TooLarge` if the room has fewer bytes, which is tested before memory is allocated. Otherwise it
    /// fails only with `Memory`: if memory runs out, or if there would be more than 2^32 - 1 paths beside the root.
    ///
    /// Entries often come in the same order as before, so the child that followed the last one is tried first.
    #[inline(always)]
    #[tactic(auto, using(crate::proofs::Arena::entered_twice))]
    pub(crate) fn enter(
        &mut self,
        room: &mut usize,
        at: usize,
        key: &Key,
        size: usize,
        is_unique: bool,
    ) -> Result<usize, Refusal>
        requires within { at < length self.old }
        requires count { bytes_entered (map_of self.old) + room.old + 1 ≡ 2 ^ 63 }
        ensures entered { IfOk result
            (AddedAt self.old self.new at key.now size is_unique room.old room.new) }
        ensures err { IfErr result (TellsWhy room.old size) }
        ensures kept { OnErr result ((self.new ≡ self.old) × (room.new ≡ room.old)) }
    {
        if size > *room {
            return Err(Refusal::TooLarge);
        }
        let expected = self.nodes[at].next as usize;
        if self.is_child(at, key, expected) {
            self.expect_follower(at, expected);
            self.add_bytes(room, expected, size, is_unique);
            return Ok(expected);
        }
        Ok(self.enter_unexpected(room, at, key.as_str(), size, is_unique)?)
    }

    /// Adds the bytes of an entry to a node, and takes them from the room.
    #[inline(always)]
    #[tactic(auto, using(crate::proofs::NodeReads::bytes_fit, crate::proofs::NodeReads::raised_view))]
    fn add_bytes(&mut self, room: &mut usize, node: usize, size: usize, is_unique: bool)
        requires node { (0 < node) × (node < length self.old) }
        requires room { size ≤ room.old }
        requires count { bytes_entered (map_of self.old) + room.old + 1 ≡ 2 ^ 63 }
        ensures raised { self.new ≡ put node (path_at self.old node) size is_unique self.old }
        ensures room { room.old ≡ room.new + size }
    {
        *room -= size;
        let entered = &mut self.nodes[node];
        entered.bytes += size;
        entered.is_unique = entered.is_unique || is_unique;
    }

    /// The node one key above, or None for the root.
    #[inline(always)]
    #[tactic(auto, using(crate::proofs::Arena::root_at, crate::proofs::NodeReads::above_is))]
    pub(crate) fn parent(&self, node: usize) -> Option<usize>
        requires { node < length self.now }
        ensures above { IfSome result (IsAbove self.now node) }
        ensures root { IfNone result (path_at self.now node ≡ []) }
    {
        if node == 0 {
            None
        } else {
            Some(self.nodes[node].parent)
        }
    }

    /// The graph, the text of the warnings, and the paths that have one.
    ///
    /// One walk makes the graph and lists the paths that have a warning. The text is made from the list.
    #[tactic(auto, using(crate::proofs::NodeReads::listing_of))]
    pub(crate) fn finish(&self) -> Result<FlameGraphOutput, Refusal>
        requires { bytes_entered (map_of self.now) < 2 ^ 63 }
        ensures made { IfOk result (IsProfile (map_of self.now)) }
        ensures total { IfOk result (λ o. graph_total o.graph < 2 ^ 63) }
        ensures err { IfErr result (λ e. e ≡ Refusal.Memory) }
    {
        let mut keys: Vec<&'static str> = Vec::new(self.alloc);
        let mut warned = Vec::new(self.alloc);
        let mut graph = FlameGraph::default(self.alloc);
        self.build_graph(0, &mut graph, &mut keys, &mut warned)?;
        Ok(FlameGraphOutput::new(self.alloc, graph, warned)?)
    }

    /// Makes `graph` that of the node `at` and all below it. Those of their paths that have a warning are appended to
    /// `warned`; `keys` is the node's path. The graph is no result, so that a level of the walk takes less of the
    /// stack.
    #[tactic(auto, using(crate::proofs::NodeReads::walking))]
    fn build_graph(
        &self,
        at: usize,
        graph: &mut FlameGraph,
        keys: &mut Vec<&'static str>,
        warned: &mut Vec<WarnedPath>,
    ) -> Result<(), Refusal>
        requires within { at < length self.now }
        requires fits { bytes_entered (map_of self.now) < 2 ^ 63 }
        requires keys { texts keys.old.items ≡ path_at self.now at }
        ensures keys { OnOk result (keys.new.items ≡ keys.old.items) }
        ensures made { OnOk result (MakesGraph self.now at
            (map warning_of warned.old.items) (map warning_of warned.new.items) graph.new) }
        ensures err { IfErr result (λ e. e ≡ Refusal.Memory) }
    {
        let mut copies = Vec::new(self.alloc);
        let children = self.children[at].list(&mut copies)?;
        let size_below = bytes_of(&self.nodes, children);
        *graph = FlameGraph::with_capacity(self.alloc, children.len())?;
        let (size, is_short) = self.figures(at, size_below);
        graph.add_self(size)?;
        if is_short {
            push_warned(keys.as_slice(), self.nodes[at].bytes, size_below, warned)?;
        }
        for &child in children {
            let key = &self.nodes[child as usize].key;
            if let Some(leaf) = self.leaf(child as usize) {
                push_child(graph, key.copy(), leaf)?;
                continue;
            }
            keys.push(key.as_str())?;
            let mut below = FlameGraph::default(self.alloc);
            self.build_graph(child as usize, &mut below, keys, warned)?;
            let _ = keys.pop();
            push_child(graph, key.copy(), below)?;
        }
        Ok(())
    }

    /// The graph of a node that has no children, and so no warning. It allocates nothing.
    #[inline(always)]
    fn leaf(&self, at: usize) -> Option<FlameGraph>
        requires { at < length self.now }
        ensures { IfSome result (λ graph. MakesGraphAlone self.now at graph) }
    {
        if !self.children[at].is_empty() {
            return None;
        }
        let node = &self.nodes[at];
        let mut graph = FlameGraph::default(self.alloc);
        match graph.add_self(node.bytes) {
            Ok(()) => Some(graph),
            Err(_) => None,
        }
    }

    /// The size that the graph has at the path of a node whose children have `size_below` bytes, and whether the path
    /// has a warning.
    #[tactic(auto, using(crate::proofs::NodeReads::figures))]
    fn figures(&self, at: usize, size_below: usize) -> (usize, bool)
        requires within { at < length self.now }
        requires below { size_below ≡ bytes_below (map_of self.now) (path_at self.now at) }
        ensures size { result.0 ≡ size_at_place self.now at }
        ensures short { result.1 ≡ is_short self.now at }
    {
        let node = &self.nodes[at];
        if node.is_unique {
            return (node.bytes, false);
        }
        let size = node.bytes.saturating_sub(size_below);
        (size, at != 0 && node.bytes < size_below)
    }

    /// Whether the node `number` is the child of the node `at` that has the key.
    #[inline(always)]
    #[tactic(auto, using(crate::proofs::NodeReads::compared))]
    fn is_child(&self, at: usize, key: &Key, number: usize) -> bool
        requires { at < length self.now }
        ensures { IsTrue result ↔ IsEntered self.now self.now at key.now 0 false number }
    {
        match self.nodes.get(number) {
            // The length of `key` is mostly a constant of the caller. On the left it spares the comparison a call.
            Some(node) => node.parent == at && *key == node.key,
            None => false,
        }
    }

    /// Stores that `child` was entered last, and that the one that followed it before is expected next.
    #[inline(always)]
    #[tactic(auto, using(crate::proofs::NodeReads::in_nodes, crate::proofs::NodeReads::same_view))]
    fn expect_follower(&mut self, at: usize, child: usize)
        requires parent { at < length self.old }
        requires child { child < length self.old }
        ensures { self.new ≡ self.old }
    {
        let next = self.nodes[child].follower;
        let node = &mut self.nodes[at];
        node.last = guess(child);
        node.next = next;
    }

    /// Stores that `child` followed the one that was entered last, if there is one.
    #[tactic(auto, using(crate::proofs::NodeReads::same_view))]
    fn set_follower(&mut self, at: usize, child: usize)
        requires { at < length self.old }
        ensures { self.new ≡ self.old }
    {
        let last = self.nodes[at].last as usize;
        if last >= self.nodes.len() {
            return;
        }
        self.nodes[last].follower = guess(child);
    }

    /// Enters under a key that was not expected. The room has the bytes.
    #[cold]
    #[inline(never)]
    #[tactic(auto, using(crate::proofs::Arena::length_entered, crate::proofs::Arena::bytes_more))]
    fn enter_unexpected(
        &mut self,
        room: &mut usize,
        at: usize,
        key: &'static str,
        size: usize,
        is_unique: bool,
    ) -> Result<usize, AllocError>
        requires within { at < length self.old }
        requires room { size ≤ room.old }
        requires count { bytes_entered (map_of self.old) + room.old + 1 ≡ 2 ^ 63 }
        ensures entered { IfOk result
            (AddedAt self.old self.new at key.now size is_unique room.old room.new) }
        ensures kept { OnErr result ((self.new ≡ self.old) × (room.new ≡ room.old)) }
    {
        let node = self.search_child(at, &Key::new(key))?;
        self.set_follower(at, node);
        self.expect_follower(at, node);
        self.cut_long_list(at);
        self.add_bytes(room, node, size, is_unique);
        Ok(node)
    }

    /// The child of the node `at` that has the key, found by a search. It is made if there is none.
    #[tactic(auto, using(crate::proofs::NodeReads::searching))]
    fn search_child(&mut self, at: usize, key: &Key) -> Result<usize, AllocError>
        requires { at < length self.old }
        ensures entered { IfOk result (IsEntered self.old self.new at key.now 0 false) }
        ensures err { OnErr result (self.new ≡ self.old) }
    {
        match find(&self.nodes, &self.children[at], key) {
            Ok(child) => Ok(child as usize),
            Err(place) => {
                let node = self.nodes.len();
                if node > u32::MAX as usize {
                    return Err(AllocError);
                }
                self.nodes.reserve(1)?;
                self.children.reserve(1)?;
                self.children[at].insert(self.alloc, place, node as u32, key.as_str())?;
                self.children.push_reserved(Children::Empty);
                self.nodes.push_reserved(Node::new(key.copy(), at));
                Ok(node)
            }
        }
    }

    /// Cuts the list of a node's children into chunks if it is long. If memory runs out it stays one list.
    #[tactic(auto, using(crate::proofs::NodeReads::relisted))]
    fn cut_long_list(&mut self, at: usize)
        requires { at < length self.old }
        ensures { self.new ≡ self.old }
    {
        if let Children::Few(list) = &self.children[at]
            && list.len() > LONGEST
            && let Ok(chunks) = chunks_of(self.alloc, &self.nodes, list.as_slice())
        {
            self.children[at] = Children::Many(chunks);
        }
    }
}

/// The number of a node, as a guess. A number of more than 32 bits gives 0: the root, which is no child.
#[inline(always)]
fn guess(number: usize) -> u32
    ensures kept { number < 2 ^ 32 → result ≡ number }
    ensures none { 2 ^ 32 ≤ number → result ≡ 0 }
{
    u32::try_from(number).unwrap_or(0)
}

/// How the key of a node compares with a key. A node that is missing has the empty key.
fn compare(nodes: &[Node], number: u32, key: &Key) -> Ordering
    ensures { result ≡ key_cmp (key_at nodes.now number) key.now }
{
    match nodes.get(number as usize) {
        Some(node) => node.key.cmp(key),
        None => "".cmp(key.as_str()),
    }
}

/// The one of the children that has the key, or the place where the key belongs among them.
fn find(nodes: &[Node], children: &Children, key: &Key) -> Result<u32, Place>
    requires rise { KeysRise (keys_of nodes.now (numbers children.now)) }
    ensures found { IfOk result (HasKey nodes.now (numbers children.now) key.now) }
    ensures place { IfErr result (IsPlace children.now) }
    ensures absent { IfErr result (λ place.
        IsKeyGap (keys_of nodes.now (numbers children.now)) key.now (flat_place children.now place)) }
{
    if let Children::Many(chunks) = children {
        return find_in_chunks(nodes, chunks.as_slice(), key);
    }
    match find_in_list(nodes, children.as_list(), key) {
        Ok(number) => Ok(number),
        Err(index) => Err(Place { chunk: 0, index }),
    }
}

/// The one of some numbers whose node has the key, or the place where the key belongs among them.
#[inline(never)]
#[tactic(auto, using(crate::proofs::Chunks::behind_last))]
fn find_in_list(nodes: &[Node], list: &[u32], key: &Key) -> Result<u32, usize>
    requires rise { KeysRise (keys_of nodes.now list.now) }
    ensures found { IfOk result (HasKey nodes.now list.now key.now) }
    ensures absent { IfErr result (IsKeyGap (keys_of nodes.now list.now) key.now) }
{
    // A key that comes in order needs one comparison.
    if let Some(last) = list.last()
        && compare(nodes, *last, key).is_lt()
    {
        return Err(list.len());
    }
    match list.binary_search_by(
        |number: &u32| -> Ordering
            ensures { result
                ≡ key_cmp (key_at nodes.entry.now number.entry.now) key.entry.now }
        { compare(nodes, *number, key) },
    ) {
        Ok(place) => Ok(list[place]),
        Err(place) => Err(place),
    }
}

/// The same for numbers in chunks. The starts of the keys give a place, which is tested. If it is not the one, all
/// chunks are searched by the keys alone.
#[inline(never)]
#[tactic(auto, using(crate::proofs::Chunks::among_chunks))]
fn find_in_chunks(nodes: &[Node], chunks: &[Chunk], key: &Key) -> Result<u32, Place>
    requires rise { KeysRise (keys_of nodes.now (flat chunks.now)) }
    ensures found { IfOk result (HasKey nodes.now (flat chunks.now) key.now) }
    ensures place { IfErr result (IsPlaceIn chunks.now) }
    ensures absent { IfErr result (λ place.
        IsKeyGap (keys_of nodes.now (flat chunks.now)) key.now (place_in chunks.now place)) }
{
    // A key that comes in order needs one comparison.
    if let Some((last, end)) = last_in(chunks)
        && compare(nodes, last, key).is_lt()
    {
        return Err(end);
    }
    let place = guess_place(nodes, chunks, key);
    if let Some(number) = number_at(chunks, place) {
        match compare(nodes, number, key) {
            Ordering::Equal => return Ok(number),
            Ordering::Greater if is_behind(nodes, chunks, key, place) => return Err(place),
            _ => {}
        }
    }
    search_chunks(nodes, chunks, key)
}

/// The place where the starts of the keys say that a key is or belongs. A guess; callers check it.
fn guess_place(nodes: &[Node], chunks: &[Chunk], key: &Key) -> Place {
    let start = start_of(key.as_str());
    let after = chunks.partition_point(|chunk: &Chunk| -> bool {
        match chunk.numbers.first() {
            Some(first) if chunk.start == start => compare(nodes, *first, key).is_lt(),
            _ => chunk.start < start,
        }
    });
    match after.checked_sub(1) {
        Some(chunk) => Place {
            chunk,
            index: guess_index(nodes, &chunks[chunk], key, start),
        },
        None => Place { chunk: 0, index: 0 },
    }
}

/// The index of that place in its chunk. A guess; callers check it. Where the starts do not tell, the keys do.
fn guess_index(nodes: &[Node], chunk: &Chunk, key: &Key, start: u64) -> usize {
    let index = count_below(chunk.starts.as_slice(), start);
    let is_told = match chunk.starts.get(index) {
        Some(known) => *known != start,
        None => index == chunk.numbers.len(),
    };
    if is_told {
        return index;
    }
    chunk.numbers.partition_point(|number: &u32| -> bool { compare(nodes, *number, key).is_lt() })
}

/// How many of the rising starts are below a start. No branch depends on a start: the processor could not foresee it.
fn count_below(starts: &[u64], start: u64) -> usize
    ensures { result ≤ length starts.now }
{
    let mut below = 0;
    let mut rest = starts.len();
    while rest > 0 {
        let half = rest - rest / 2;
        below += half * usize::from(starts[below + half - 1] < start);
        rest /= 2;
    }
    below
}

/// Whether the number before a place has a smaller key, or there is none.
fn is_behind(nodes: &[Node], chunks: &[Chunk], key: &Key, place: Place) -> bool
    ensures { IsTrue result → (j : ℕ) → place_in chunks.now place ≡ j + 1 → key_cmp
        (key_at nodes.now (slice_index_or (flat chunks.now) j 0)) key.now ≡ Ordering.Less }
{
    let Some(index) = place.index.checked_sub(1) else {
        return place.chunk == 0;
    };
    let chunk = place.chunk;
    match number_at(chunks, Place { chunk, index }) {
        Some(number) => compare(nodes, number, key).is_lt(),
        None => false,
    }
}

/// What `find_in_chunks` finds, by the keys alone: one chunk after the other is searched. The starts of the keys mostly
/// give the right place, so that this is needed only after starts were forgotten.
#[cold]
#[inline(never)]
#[tactic(auto, using(crate::proofs::Chunks::part_rises))]
fn search_chunks(nodes: &[Node], chunks: &[Chunk], key: &Key) -> Result<u32, Place>
    requires rise { KeysRise (keys_of nodes.now (flat chunks.now)) }
    ensures found { IfOk result (HasKey nodes.now (flat chunks.now) key.now) }
    ensures place { IfErr result (IsPlaceIn chunks.now) }
    ensures absent { IfErr result (λ place.
        IsKeyGap (keys_of nodes.now (flat chunks.now)) key.now (place_in chunks.now place)) }
{
    for chunk in 0..chunks.len() {
        let numbers = chunks[chunk].numbers.as_slice();
        match find_in_list(nodes, numbers, key) {
            Ok(number) => return Ok(number),
            Err(index) if index < numbers.len() => return Err(Place { chunk, index }),
            Err(_) => {}
        }
    }
    Err(Place {
        chunk: chunks.len(),
        index: 0,
    })
}

/// A list of children as chunks. The only error is that memory runs out.
fn chunks_of(alloc: Global, nodes: &[Node], list: &[u32]) -> Result<Box<Vec<Chunk>>, AllocError>
    ensures { IfOk result (λ chunks. flat chunks.value.items ≡ list.now) }
{
    let mut starts = Vec::with_capacity(alloc, list.len())?;
    for &number in list {
        let start = match nodes.get(number as usize) {
            Some(node) => start_of(node.key.as_str()),
            None => 0,
        };
        starts.push(start)?;
    }
    let numbers = Vec::from_slice(alloc, list)?;
    let start = starts.first().copied().unwrap_or(0);
    let mut chunks = Vec::with_capacity(alloc, 2)?;
    chunks.push(Chunk {
        numbers,
        start,
        starts,
    })?;
    Ok(Box::new(alloc, chunks)?)
}

/// The bytes of some nodes together.
fn bytes_of(nodes: &[Node], numbers: &[u32]) -> usize
    requires within { All (λ i. i < length nodes.now) numbers.now }
    requires fits { sum_by (bytes_at nodes.now) numbers.now < 2 ^ 63 }
    ensures { result ≡ sum_by (bytes_at nodes.now) numbers.now }
{
    let mut sum = 0;
    for &number in numbers {
        sum += nodes[number as usize].bytes;
    }
    sum
}

/// Appends the path `keys`, which has a warning, with its own bytes and those one key below. It is no part of the
/// walk's own function, so that a level of the walk takes less of the stack.
#[cold]
#[inline(never)]
fn push_warned(
    keys: &[&'static str],
    bytes: usize,
    below: usize,
    warned: &mut Vec<WarnedPath>,
) -> Result<(), AllocError>
    ensures { OnOk result (map warning_of warned.new.items ≡ map warning_of warned.old.items
        ++ record { path = texts keys.now; self_size = bytes; children_size = below } ∷ []) }
{
    let path = Vec::from_slice(*warned.allocator(), keys)?;
    warned.push(WarnedPath {
        path,
        self_size: bytes,
        children_size: below,
    })?;
    Ok(())
}
