//! Builders of flame graphs.
#![tactic(auto, using(crate::proofs::Roots::running))]

ghost use Rattle.std.specs.Prelude.{◌<◌, ◌^◌, ◌≡◌, Ok, Err, IfOk, IfErr, MatchResult, string_bytes};
ghost use Rattle.allocative_graph.specs.Graph.{text, graph, total};
ghost use Rattle.allocative_graph.specs.Collector.{Going, OfGraph, no_entries};
ghost use Rattle.allocative_graph.specs.Visits.{VisitsRoot, Settles, Ends, IsProfile};
ghost use Rattle.allocative.specs.Strict.{RootFailsOnlyIfFull};
ghost use Rattle.allocative.specs.Kinds.{as_graph};
ghost use Rattle.allocative.specs.Roots.{LendsBuilt, LendsRoot};
ghost use Rattle.allocative.specs.Visited.{OpensRootAt};
ghost use Rattle.std.specs.Borrow.{sem};

use crate::visitor::collector::Collector;
use crate::{Allocative, FlameGraphOutput, Refusal, Visitor};
use std::alloc::Global;
use std::marker::Model;

/// Collects what values show, and finishes as their flame graph. It has at most 2^32 - 1 paths: an entry on one more is
/// refused with `Memory`, even if memory is left.
///
/// ```
/// let mut builder = FlameGraphBuilder::new(alloc)?;
/// builder.visit_value(&Some(7u32))?;
/// let output = builder.finish()?;
/// assert_eq!(rt; output.flamegraph().write()?.as_str(), "Option 4\nOption;Some;u32 4\n");
/// assert_eq!(rt; output.warnings()?.as_str(), "");
/// ```
#[derive(Drop)]
pub struct FlameGraphBuilder {
    pub(crate) collector: Collector,
}

impl Model for FlameGraphBuilder {
    ghost use Rattle.allocative_graph.specs.Collector.{State};
    ghost use Rattle.allocative_graph.specs.Representation.Codes.{state_code};
    ghost use Rattle.allocative.specs.Kinds.{as_graph};

    ghost Value = { State };

    ghost coded = { state_code };

    ghost view = { λ b. as_graph b.collector };
}

impl FlameGraphBuilder {
    /// An empty builder. The only error is that memory runs out.
    pub fn new(alloc: Global) -> Result<FlameGraphBuilder, Refusal>
        ensures { MatchResult result (λ b. b ≡ Going (OfGraph no_entries))
            (λ r. r ≡ Refusal.Memory) }
    {
        Ok(FlameGraphBuilder {
            collector: Collector::of_graph(alloc)?,
        })
    }

    // A mutable borrow of the collector. That of a sum fails with `Open` first.
    fn lend(&mut self) -> &mut Collector
        ensures* lent { sem 𝓛 (LendsBuilt self.entry result) }
        ensures now { self.old ≡ result.now }
        ensures graph { as_graph result.now ≡ result.now }
    {
        self.collector.refuse_sum();
        &mut self.collector
    }

    /// A visitor at the root. It allocates nothing.
    ///
    /// A builder that has failed returns its first cause, and one with an open visitor returns `Open`; then
    /// nothing changes. Once the visitor is gone, the builder is what the visitor left.
    ///
    /// From the plain clauses a caller's proof learns the result and the visitor, but nothing about the builder
    /// afterwards. From `visit_root` it learns that as well.
    pub fn root_visitor(&mut self) -> Result<Visitor<'_>, Refusal>
        ensures* lent { sem 𝓛 (LendsRoot self.entry result) }
        ensures begun { IfOk result (OpensRootAt self.old) }
        ensures refused { IfErr result (λ e. Settles self.old (Err e)) }
    {
        self.lend().root_visitor()
    }

    /// Visits a root by a root visitor. It returns `Ok` exactly if the builder afterwards has not
    /// failed and has no open visitor.
    ///
    /// A builder that has failed returns its first cause, and one with an open visitor returns
    /// `Open`; then nothing changes. Otherwise the error is the first cause of the visit, or `Open`
    /// if the visit leaked a visitor.
    ///
    /// If the root's type is strict, and the builder has not failed and has no open visitor, it fails only with
    /// `Memory`, or with `TooLarge` if not all that the root may show can be added.
    pub fn visit_root(&mut self, root: &dyn Allocative) -> Result<(), Refusal>
        ensures visits_root { VisitsRoot (may_show root.now) self.old result self.new }
        ensures only_if_full { RootFailsOnlyIfFull (Allocative-dyn root.now).is_strict
            (may_show root.now) self.old result self.new }
    {
        self.collector.refuse_sum();
        self.collector.visit_object(root)
    }

    /// Visits a root whose type is known, without a trait object. It returns and changes what `visit_root` does, and
    /// fails as that does.
    pub fn visit_value<T: Allocative>(&mut self, root: &T) -> Result<(), Refusal>
        ensures visits_root { VisitsRoot (T.may_show root.now) self.old result self.new }
        ensures only_if_full { RootFailsOnlyIfFull T.is_strict (T.may_show root.now)
            self.old result self.new }
    {
        self.collector.refuse_sum();
        self.collector.visit_value(root)
    }

    /// `Ok` if the builder has not failed and has no open visitor, otherwise its first cause, or `Open`.
    pub(crate) fn check(&mut self) -> Result<(), Refusal>
        ensures settles { Settles self.new result }
        ensures same { self.new ≡ self.old }
    {
        self.collector.refuse_sum();
        self.collector.check()
    }

    /// The graph and the warnings of all that was entered. The total of the graph is at most `isize::MAX`.
    ///
    /// A builder that has failed returns its first cause, and one with an open visitor returns `Open`. Otherwise the
    /// only error is that memory runs out.
    pub fn finish(mut self) -> Result<FlameGraphOutput, Refusal>
        ensures ends { Ends IsProfile self result }
        ensures total { IfOk result (λ o. total o.graph < 2 ^ 63) }
    {
        self.collector.refuse_sum();
        self.collector.finish()
    }

    /// Finishes the builder and returns the text of the graph. The errors are those of `finish`.
    pub fn finish_and_write_flame_graph(self) -> Result<String, Refusal>
        ensures { Ends (λ s t. string_bytes t ≡ text (graph s)) self result }
    {
        self.finish()?.flamegraph().write()
    }
}
