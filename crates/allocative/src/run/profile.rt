//! Whole runs over roots whose types are known.
#![tactic(auto, using(crate::proofs::Roots::running))]

ghost use Rattle.std.specs.Prelude.{◌<◌, ◌^◌, IfOk, IfErr};
ghost use Rattle.allocative_graph.specs.Format.{IfText};
ghost use Rattle.allocative_graph.specs.Graph.{total};
ghost use Rattle.allocative_graph.specs.Shows.{each_shows};
ghost use Rattle.allocative_graph.specs.Visits.{VisitsRoot, IsProfileOf};
ghost use Rattle.allocative.specs.Runs.{IsTextOf};
ghost use Rattle.allocative.specs.Strict.{MayRefuseProfile, RootFailsOnlyIfFull};

use crate::{Allocative, FlameGraphBuilder, FlameGraphOutput, Refusal};
use std::alloc::Global;

impl FlameGraphBuilder {
    /// Visits roots of one type in order, up to the first refusal, each as `visit_value` does.
    ///
    /// If the type is strict, and the builder has not failed and has no open visitor, it fails only with `Memory`, or
    /// with `TooLarge` if not all that the roots may show together can be added.
    pub fn visit_values<T: Allocative>(&mut self, roots: &[T]) -> Result<(), Refusal>
        ensures visits_root { VisitsRoot (each_shows T.may_show roots.now)
            self.old result self.new }
        ensures only_if_full { RootFailsOnlyIfFull T.is_strict (each_shows T.may_show roots.now)
            self.old result self.new }
    {
        self.check()?;
        for root in roots {
            self.visit_value(root)?;
        }
        Ok(())
    }
}

/// Graph and warnings of one value.
///
/// A service whose parts are in one struct calls it in a method of that struct. It promises what `profile_roots` does,
/// for what the value may show. It makes no trait object, so any function may hold the value and pass it on. The
/// graph's total is at most `isize::MAX` bytes.
///
/// It fails with `Memory` if memory runs out, with the first cause of the value's own visit, or with `Open` if that
/// leaked a visitor. For a value of a strict type it fails only with `Memory`, or with `TooLarge` if a flame graph
/// cannot take all that the value may show; for other types no clause says which refusal it is.
///
/// ```
/// let output = profile_value(alloc, &Some(7u32))?;
/// assert_eq!(rt; output.flamegraph().write()?.as_str(), "Option 4\nOption;Some;u32 4\n");
/// ```
pub fn profile_value<T: Allocative>(alloc: Global, root: &T) -> Result<FlameGraphOutput, Refusal>
    ensures profile { IfOk result (IsProfileOf (T.may_show root.now)) }
    ensures refused { IfErr result (MayRefuseProfile T.is_strict (T.may_show root.now)) }
    ensures total { IfOk result (λ o. total o.graph < 2 ^ 63) }
{
    let mut builder = FlameGraphBuilder::new(alloc)?;
    builder.visit_value(root)?;
    builder.finish()
}

/// Graph and warnings of roots of one type, as `profile_value` gives them of one value. No roots give the empty graph.
///
/// ```
/// let roots = [Named(Key::new("open"), 3u32), Named(Key::new("closed"), 4u32)];
/// let output = profile_values(alloc, &roots)?;
/// assert_eq!(rt; output.flamegraph().write()?.as_str(), "closed;u32 4\nopen;u32 4\n");
/// ```
pub fn profile_values<T: Allocative>(
    alloc: Global,
    roots: &[T],
) -> Result<FlameGraphOutput, Refusal>
    ensures profile { IfOk result (IsProfileOf (each_shows T.may_show roots.now)) }
    ensures refused { IfErr result
        (MayRefuseProfile T.is_strict (each_shows T.may_show roots.now)) }
    ensures total { IfOk result (λ o. total o.graph < 2 ^ 63) }
{
    let mut builder = FlameGraphBuilder::new(alloc)?;
    builder.visit_values(roots)?;
    builder.finish()
}

/// The collapsed stack text of one value: that of the graph of `profile_value`, as `FlameGraph::write` writes it.
///
/// The errors are those of `profile_value`; `Memory` also comes if there is none for the text.
///
/// ```
/// assert_eq!(rt; profile_text(alloc, &Some(7u32))?.as_str(), "Option 4\nOption;Some;u32 4\n");
/// ```
pub fn profile_text<T: Allocative>(alloc: Global, root: &T) -> Result<String, Refusal>
    ensures text { IfText result (IsTextOf (T.may_show root.now)) }
    ensures refused { IfErr result (MayRefuseProfile T.is_strict (T.may_show root.now)) }
{
    profile_value(alloc, root)?.flamegraph().write()
}
