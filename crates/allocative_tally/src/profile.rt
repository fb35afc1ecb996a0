//! Profiles of values that are counted first.

ghost use Rattle.std.specs.Prelude.{◌<◌, ◌^◌, IfOk, IfErr};
ghost use Rattle.allocative_graph.specs.{Graph.total, Shows.each_shows, Visits.IsProfileOf};
ghost use Rattle.allocative.specs.Strict.{MayRefuseProfile};

use crate::counted::{CountedRoots, CountedValue};
use crate::tally::Tallied;
use allocative::{FlameGraphOutput, Refusal, profile_value};
use std::alloc::Global;

/// Graph and warnings of one value, with the promise of `profile_value`. The value is counted first, which no clause
/// shows: if a count exceeds a word or a size is missing, it is entered as `profile_value` enters it.
///
/// ```
/// let output = profile_counted(alloc, &names)?;
/// ```
pub fn profile_counted<T: Tallied>(alloc: Global, root: &T) -> Result<FlameGraphOutput, Refusal>
    ensures profile { IfOk result (IsProfileOf (T.may_show root.now)) }
    ensures refused { IfErr result (MayRefuseProfile T.is_strict (T.may_show root.now)) }
    ensures total { IfOk result (λ o. total o.graph < 2 ^ 63) }
{
    profile_value(alloc, &CountedValue(root))
}

/// Graph and warnings of roots of one type, with the promise of `profile_values`. The roots are counted first, all in
/// one tally, which no clause shows: if a count exceeds a word or a size is missing, they are entered one by one.
///
/// ```
/// let output = profile_counted_values(alloc, orders.as_slice())?;
/// ```
pub fn profile_counted_values<T: Tallied>(
    alloc: Global,
    roots: &[T],
) -> Result<FlameGraphOutput, Refusal>
    ensures profile { IfOk result (IsProfileOf (each_shows T.may_show roots.now)) }
    ensures refused { IfErr result
        (MayRefuseProfile T.is_strict (each_shows T.may_show roots.now)) }
    ensures total { IfOk result (λ o. total o.graph < 2 ^ 63) }
{
    profile_value(alloc, &CountedRoots(roots))
}
