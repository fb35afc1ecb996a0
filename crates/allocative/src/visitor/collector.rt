//! The collectors: that of a flame graph, and that of a sum of held or of owned bytes.
#![tactic(auto, using(crate::proofs::Making::opening))]

ghost use Rattle.std.specs.Prelude.{◌≡◌, ◌<◌, ◌^◌, false, IfOk, IfErr};
ghost use Rattle.allocative_graph.specs.Graph.{total};
ghost use Rattle.allocative_graph.specs.Collector.{Going, OfGraph, OfSum, no_entries, nothing_summed, failed_with};
ghost use Rattle.allocative_graph.specs.Visits.{HasFailed, OpensEntry, ClosesEntry, OpensShared, OpensRoot, Settles, Ends, IsProfile};
ghost use Rattle.allocative.specs.Kinds.{IsSum, as_graph};
ghost use Rattle.allocative.specs.Making.{Makes, Done, one};

use crate::{Allocative, FlameGraphOutput, Identity, Key, Refusal, Visitor};
use allocative_collectors::graph_collector::GraphCollector;
use allocative_collectors::sum_collector::SumCollector;
use allocative_graph::restore::Restore;
use std::alloc::{AllocError, Global};
use std::marker::Model;

#[derive(Drop)]
enum Kind {
    Graph(GraphCollector),
    Sum(SumCollector),
    Failed(Refusal),
}

/// What visitors enter into: the collector of a flame graph, or of a sum of held or of owned bytes.
/// It has failed, with its first cause, or it is going. Visitors borrow it from each other.
#[derive(Drop)]
pub struct Collector {
    kind: Kind,
}

impl Model for Collector {
    ghost use Rattle.allocative_graph.specs.Collector.{State};
    ghost use Rattle.allocative_graph.specs.Representation.Codes.{state_code};
    ghost use Rattle.allocative.specs.Kinds.{state_of};

    ghost Value = { State };

    ghost coded = { state_code };

    ghost view = { λ c. state_of c.kind };
}

impl Collector {
    /// The collector of a flame graph. The only error is that memory runs out.
    pub(crate) fn of_graph(alloc: Global) -> Result<Collector, AllocError>
        ensures { IfOk result (λ c. c ≡ Going (OfGraph no_entries)) }
    {
        let graph = GraphCollector::new(alloc)?;
        Ok(Collector {
            kind: Kind::Graph(graph),
        })
    }

    /// The collector of a sum, with this figure of the root. It allocates nothing.
    pub(crate) fn of_sum(root: Restore) -> Collector
        ensures { result ≡ Going (OfSum (nothing_summed root)) }
    {
        Collector {
            kind: Kind::Sum(SumCollector::new(root)),
        }
    }

    /// Fails with `refusal`, unless it has failed before. It returns the first cause.
    #[cold]
    #[inline(never)]
    pub(crate) fn refuse(&mut self, refusal: Refusal) -> Refusal
        ensures after { self.new ≡ failed_with refusal self.old }
        ensures cause { HasFailed self.new result }
    {
        if let Kind::Failed(cause) = &self.kind {
            return *cause;
        }
        self.kind = Kind::Failed(refusal);
        refusal
    }

    /// Fails with `Open` if the collector is that of a sum.
    pub(crate) fn refuse_sum(&mut self)
        ensures { self.new ≡ as_graph self.old }
    {
        if let Kind::Sum(_) = &self.kind {
            self.kind = Kind::Failed(Refusal::Open);
        }
    }

    /// The first cause if the collector has failed, otherwise `Ok`.
    pub(crate) fn check_failed(&self) -> Result<(), Refusal>
        ensures { Makes Done self.now result self.now }
    {
        if let Kind::Failed(cause) = &self.kind {
            return Err(*cause);
        }
        Ok(())
    }

    /// Opens an entry of a declared size: one more entry, unique or inline, and a visitor at it. It returns what
    /// `close_entry` restores, and `TooLarge` if there is no size.
    #[inline(always)]
    pub(crate) fn open_entry(
        &mut self,
        key: Key,
        size: Option<usize>,
        is_unique: bool,
    ) -> Result<Restore, Refusal>
        ensures opens { OpensEntry is_unique key size self.old result self.new }
        ensures cause { IfErr result (HasFailed self.new) }
    {
        let Some(size) = size else {
            return Err(self.refuse(Refusal::TooLarge));
        };
        match &mut self.kind {
            Kind::Graph(graph) => match graph.enter(&key, size, is_unique) {
                Ok(()) => Ok(Restore::none()),
                Err(refusal) => Err(self.refuse(refusal)),
            },
            Kind::Sum(sum) => match sum.enter(size, is_unique) {
                Ok(outer) => Ok(outer),
                Err(refusal) => Err(self.refuse(refusal)),
            },
            Kind::Failed(cause) => Err(*cause),
        }
    }

    /// One more inline entry of a declared size, with nothing inside it. It is `TooLarge` if there is no size.
    #[inline(always)]
    pub(crate) fn enter_simple(&mut self, key: Key, size: Option<usize>) -> Result<(), Refusal>
        ensures made { Makes (one key size) self.old result self.new }
        ensures cause { IfErr result (HasFailed self.new) }
    {
        let Some(bytes) = size else {
            return Err(self.refuse(Refusal::TooLarge));
        };
        if let Kind::Graph(graph) = &mut self.kind {
            if let Err(refusal) = graph.enter_simple(&key, bytes) {
                return Err(self.refuse(refusal));
            }
            return Ok(());
        }
        let opened = self.open_entry(key, size, false)?;
        self.close_entry(opened);
        Ok(())
    }

    /// One more pointer of `size` bytes to the shared value with the identity `id`. It returns whether the content is
    /// to be shown.
    pub(crate) fn open_shared(
        &mut self,
        key: Key,
        size: usize,
        id: Identity,
    ) -> Result<bool, Refusal>
        ensures opens { OpensShared key size id self.old result self.new }
        ensures cause { IfErr result (HasFailed self.new) }
    {
        match &mut self.kind {
            Kind::Graph(graph) => match graph.enter_shared(&key, size, id) {
                Ok(is_first) => Ok(is_first),
                Err(refusal) => Err(self.refuse(refusal)),
            },
            Kind::Sum(sum) => match sum.count(size, true) {
                Ok(()) => Ok(false),
                Err(refusal) => Err(self.refuse(refusal)),
            },
            Kind::Failed(cause) => Err(*cause),
        }
    }

    /// One visitor less; `outer` is what leaving it restores.
    #[inline(always)]
    pub(crate) fn close_entry(&mut self, outer: Restore)
        ensures { ClosesEntry outer self.old self.new }
    {
        match &mut self.kind {
            Kind::Graph(graph) => graph.leave(),
            Kind::Sum(sum) => sum.leave(outer),
            Kind::Failed(_) => {}
        }
    }

    /// One more root visitor. It returns what `close_entry` restores, the first cause if the collector
    /// has failed, or `Open` if a visitor is open.
    pub(crate) fn begin(&mut self) -> Result<Restore, Refusal>
        ensures { OpensRoot self.old result self.new }
    {
        match &mut self.kind {
            Kind::Graph(graph) if graph.is_closed() => {
                graph.begin();
                Ok(Restore::none())
            }
            Kind::Sum(sum) if sum.is_closed() => Ok(sum.begin()),
            Kind::Failed(cause) => Err(*cause),
            _ => Err(Refusal::Open),
        }
    }

    /// The first cause if the collector has failed, `Open` if a visitor is open, and otherwise `Ok`.
    pub(crate) fn check(&self) -> Result<(), Refusal>
        ensures { Settles self.now result }
    {
        let is_closed = match &self.kind {
            Kind::Graph(graph) => graph.is_closed(),
            Kind::Sum(sum) => sum.is_closed(),
            Kind::Failed(cause) => return Err(*cause),
        };
        if is_closed {
            Ok(())
        } else {
            Err(Refusal::Open)
        }
    }

    /// The graph and the warnings of all that was entered. It returns the first cause if the collector has failed,
    /// `Open` if a visitor is open, and otherwise fails only with `Memory`. The collector is not that of a sum.
    pub(crate) fn finish(&self) -> Result<FlameGraphOutput, Refusal>
        requires { as_graph self.now ≡ self.now }
        ensures ends { Ends IsProfile self.now result }
        ensures total { IfOk result (λ o. total o.graph < 2 ^ 63) }
    {
        match &self.kind {
            Kind::Graph(graph) if graph.is_closed() => graph.finish(),
            Kind::Failed(cause) => Err(*cause),
            _ => Err(Refusal::Open),
        }
    }

    /// The sum of held or owned bytes.
    pub(crate) fn sum(&self) -> usize
        ensures { IsSum self.now result }
    {
        match &self.kind {
            Kind::Sum(sum) => sum.sum(),
            _ => 0,
        }
    }
}

impl Collector {
    ghost use Rattle.std.specs.Borrow.{sem};
    ghost use Rattle.std.specs.Prelude.{Err};
    ghost use Rattle.allocative_graph.specs.Visits.{RefusesEntry};
    ghost use Rattle.allocative.specs.Lending.{LendsEntered, OpensEntryAt, LendsBegun};
    ghost use Rattle.allocative.specs.Visited.{OpensRootAt, VisitsByRoot};

    /// Enters inline with a declared size: one more entry of that size under the key, and a visitor at it. It
    /// returns `TooLarge` if there is no size; the other errors are those of `by_hand::enter`.
    #[inline(always)]
    pub(crate) fn enter_sized(
        &mut self,
        key: Key,
        size: Option<usize>,
    ) -> Result<Visitor<'_>, Refusal>
        ensures* lent { sem 𝓛 (LendsEntered false key size self.entry result) }
        ensures same_reference { IfOk result (λ v. v.collector.ghost_name ≡ self.entry.ghost_name) }
        ensures entered { IfOk result (OpensEntryAt false key size self.old) }
        ensures refused { IfErr result (RefusesEntry false size self.old) }
    {
        let outer = self.open_entry(key, size, false)?;
        Ok(Visitor {
            collector: self,
            outer,
        })
    }

    /// A visitor at the root. It returns the first cause if the collector has failed, and
    /// `Open` if a visitor is open.
    pub(crate) fn root_visitor(&mut self) -> Result<Visitor<'_>, Refusal>
        ensures* lent { sem 𝓛 (LendsBegun self.entry result) }
        ensures same_reference { IfOk result (λ v. v.collector.ghost_name ≡ self.entry.ghost_name) }
        ensures begun { IfOk result (OpensRootAt self.old) }
        ensures refused { IfErr result (λ e. Settles self.old (Err e)) }
    {
        let outer = self.begin()?;
        Ok(Visitor {
            collector: self,
            outer,
        })
    }

    /// Visits an object by a root visitor. What the visit returns is not looked at: the collector keeps the first
    /// cause.
    #[tactic(auto, using(crate::proofs::Roots::rooted))]
    pub(crate) fn visit_object(&mut self, root: &dyn Allocative) -> Result<(), Refusal>
        ensures { VisitsByRoot (Allocative-dyn root.now).is_strict (may_show root.now)
            (effect root.now) self.old self.new result }
    {
        let mut visitor = self.root_visitor()?;
        let _told = root.visit(&mut visitor);
        visitor.exit();
        self.check()
    }

    /// Visits a value of a known type by a root visitor, with no trait object.
    #[tactic(auto, using(crate::proofs::Roots::rooted))]
    pub(crate) fn visit_value<T: Allocative>(&mut self, root: &T) -> Result<(), Refusal>
        ensures { VisitsByRoot T.is_strict (T.may_show root.now) (T.effect root.now)
            self.old self.new result }
    {
        let mut visitor = self.root_visitor()?;
        let _told = root.visit(&mut visitor);
        visitor.exit();
        self.check()
    }
}
