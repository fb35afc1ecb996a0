//! The state of a flame graph's collector: the arena of paths, the identities met, and where its visitors are.
ghost use Rattle.std.specs.Prelude.{◌≡◌, ◌+◌, ◌^◌, ◌<◌, [], false, IfOk, IfErr, OnOk, OnErr, IsTrue, ◌↔◌};
ghost use Rattle.allocative_graph.specs.Sums.{bytes_entered};
ghost use Rattle.allocative_graph.specs.Collector.{OfGraph, no_entries, enter_live, leave_live, go, IsClosed, IsAtRoot};
ghost use Rattle.allocative_graph.specs.Graph.{total as graph_total};
ghost use Rattle.allocative_graph.specs.Visits.{Refuses, IsProfile};
ghost use Rattle.allocative_collectors.specs.Places.{MeetsAs};

use crate::output::FlameGraphOutput;
use crate::tree::Tree;
use allocative_graph::key::Key;
use allocative_graph::refusal::Refusal;
use allocative_graph::shared::Identity;
use std::alloc::{AllocError, Global};
use std::collections::HashSet;
use std::marker::Model;

/// The collector of a flame graph, which has not failed. The crate above stores the first refusal, and does not use the
/// collector after it.
///
/// It has at most 2^32 - 1 paths beside the root. An entry on one more is refused with `Memory`.
#[derive(Drop)]
pub struct GraphCollector {
    tree: Tree,
    // The node of the current path.
    current: usize,
    // Where the last entry was entered, which is mostly the parent of the current node: a guess.
    outside: usize,
    // For each open content, the node that was current when it was entered. The innermost content comes last.
    places: Vec<usize>,
    met: HashSet<Identity>,
    // Whether a root visitor is open.
    is_rooted: bool,
    // The bytes that may still be entered: `isize::MAX` less those of all entries.
    room: usize,
}

impl Model for GraphCollector {
    ghost use Rattle.allocative_graph.specs.Collector.{Live};
    ghost use Rattle.allocative_graph.specs.Representation.Codes.{live_code};

    ghost Value = { Live };

    ghost coded = { live_code };

    ghost use Rattle.allocative_collectors.specs.Places.{live, IsPlaced};

    ghost view = { λ c. live c.tree c.met.keys c.current c.places.items c.is_rooted };

    ghost invariant = { λ c. IsPlaced c.tree c.current c.places.items c.room };
}

impl GraphCollector {
    /// A collector with no entries and no open visitor, at the root. The only error is that memory runs out.
    #[tactic(auto, using(crate::proofs::Collect::nothing_entered))]
    pub fn new(alloc: Global) -> Result<GraphCollector, AllocError>
        ensures { IfOk result (λ c. c ≡ no_entries) }
    {
        let tree = Tree::new(alloc)?;
        Ok(GraphCollector {
            tree,
            current: 0,
            outside: 0,
            places: Vec::new(alloc),
            met: HashSet::new(alloc),
            is_rooted: false,
            room: isize::MAX as usize,
        })
    }

    /// One more entry of `size` bytes under the key, unique or inline, and a visitor at it.
    ///
    /// It returns `TooLarge` exactly if the bytes of all entries would exceed `isize::MAX`, and otherwise fails only
    /// with `Memory`: if memory runs out, or if there would be more than 2^32 - 1 paths. The bound on bytes is
    /// tested before memory is allocated. An error changes nothing.
    #[inline(always)]
    pub fn enter(&mut self, key: &Key, size: usize, is_unique: bool) -> Result<(), Refusal>
        ensures ok { OnOk result ((bytes_entered self.old.sums + size < 2 ^ 63)
            × (self.new ≡ enter_live is_unique key.now size self.old)) }
        ensures err { IfErr result (Refuses is_unique size (OfGraph self.old)) }
        ensures kept { OnErr result (self.new ≡ self.old) }
    {
        let at = self.current;
        self.current = self.tree.enter(&mut self.room, at, key, size, is_unique)?;
        self.outside = at;
        Ok(())
    }

    /// One more inline entry of `size` bytes under the key, with nothing inside it: no visitor goes there.
    ///
    /// The errors are those of `enter`: `TooLarge` exactly if the bytes would exceed `isize::MAX`, and `Memory`, also
    /// if there would be more than 2^32 - 1 paths. An error changes nothing.
    #[inline(always)]
    pub fn enter_simple(&mut self, key: &Key, size: usize) -> Result<(), Refusal>
        ensures ok { OnOk result ((bytes_entered self.old.sums + size < 2 ^ 63)
            × (self.new ≡ leave_live (enter_live false key.now size self.old))) }
        ensures err { IfErr result (Refuses false size (OfGraph self.old)) }
        ensures kept { OnErr result (self.new ≡ self.old) }
    {
        let at = self.current;
        self.tree.enter(&mut self.room, at, key, size, false)?;
        Ok(())
    }

    /// One more inline entry of `size` bytes under the key: a pointer to the content with the identity `id`.
    ///
    /// It returns whether the identity is met for the first time. Then a visitor is open at the content, whose paths
    /// start at the root. The errors are those of `enter`: `TooLarge` exactly if the bytes would exceed `isize::MAX`,
    /// and `Memory`, also if there would be more than 2^32 - 1 paths. `TooLarge` changes nothing. After `Memory` the
    /// entry may have been counted.
    pub fn enter_shared(&mut self, key: &Key, size: usize, id: Identity) -> Result<bool, Refusal>
        ensures ok { IfOk result (λ new. (bytes_entered self.old.sums + size < 2 ^ 63)
            × MeetsAs key.now size id self.old new self.new) }
        ensures err { IfErr result (Refuses false size (OfGraph self.old)) }
        ensures kept { IfErr result (λ e. e ≡ Refusal.TooLarge → self.new ≡ self.old) }
    {
        self.enter_simple(key, size)?;
        if !self.met.insert(id)? {
            return Ok(false);
        }
        self.places.push(self.current)?;
        self.current = 0;
        Ok(true)
    }

    /// One visitor less: back to where the visitor outside it is. It allocates nothing.
    ///
    /// If the guess is right, the processor need not wait for the node to be read.
    #[inline(always)]
    #[tactic(auto, using(crate::proofs::Collect::came_up))]
    pub fn leave(&mut self)
        ensures { self.new ≡ leave_live self.old }
    {
        let outside = self.outside;
        match self.tree.parent(self.current) {
            Some(parent) if parent == outside => self.current = outside,
            Some(parent) => self.current = parent,
            None => self.leave_root(),
        }
    }

    // Leaves a visitor at the root: back to where its content was entered, or the root visitor is closed.
    #[cold]
    #[inline(never)]
    fn leave_root(&mut self)
        requires { self.old.here ≡ [] }
        ensures { self.new ≡ leave_live self.old }
    {
        match self.places.pop() {
            Some(place) => self.current = place,
            None => self.is_rooted = false,
        }
    }

    /// Whether no visitor is open.
    #[tactic(auto, using(crate::proofs::Collect::closing))]
    pub fn is_closed(&self) -> bool
        ensures closed { IsTrue result ↔ IsClosed (OfGraph self.now) }
        ensures at_root { IsTrue result → IsAtRoot (OfGraph self.now) }
    {
        match self.tree.parent(self.current) {
            Some(_) => false,
            None if self.is_rooted => false,
            None => self.places.is_empty(),
        }
    }

    /// One more root visitor, when no visitor is open.
    #[tactic(auto, using(crate::proofs::Collect::closed_is, crate::proofs::Collect::at_root))]
    pub fn begin(&mut self)
        requires { IsClosed (OfGraph self.old) }
        ensures { self.new ≡ go [] self.old }
    {
        self.is_rooted = true;
    }

    /// The graph of all entries, with the warnings. The only error is that memory runs out.
    pub fn finish(&self) -> Result<FlameGraphOutput, Refusal>
        ensures made { IfOk result (IsProfile self.now.sums) }
        ensures total { IfOk result (λ o. graph_total o.graph < 2 ^ 63) }
        ensures err { IfErr result (λ e. e ≡ Refusal.Memory) }
    {
        self.tree.finish()
    }
}
