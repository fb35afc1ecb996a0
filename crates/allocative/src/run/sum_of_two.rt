//! Two collections, whose graphs are added.
#![tactic(auto, using(crate::proofs::Roots::running))]

ghost use Rattle.std.specs.Prelude.{IfOk, IfErr};
ghost use Rattle.allocative_graph.specs.Shows.{each_shows};
ghost use Rattle.allocative_graph.specs.Visits.{IsSumOfTwo};
ghost use Rattle.allocative.specs.Strict.{RefusesInTwo};

use crate::{Allocative, Described, FlameGraph, Refusal, profile_values};
use std::alloc::Global;

/// The sum of the graphs of two collections: the left items are collected in a builder of their own, then the right
/// ones, and the graphs are added.
///
/// If no identity is reached by both, and each path that both have is unique in both or, unique in neither, has at
/// least the bytes below it in both or at most those in both, the sum is the graph of one collection of all items. An
/// error of the left collection comes before one of the right, and both before one of the adding, which is only
/// `Memory`. For items of a strict type it fails only with `Memory`, or with `TooLarge` if a flame graph cannot take
/// all that the left items may show, or the left ones were collected and it cannot take all that the right items may
/// show. Each item is visited by a root visitor and its own `visit`, and no trait object is made. It returns no
/// warnings.
///
/// ```
/// let graph = profile_in_two::<u8>(alloc, &[1, 2], &[3])?;
/// assert_eq!(rt; graph.write()?.as_str(), "u8 3\n");
/// ```
pub fn profile_in_two<T: Allocative + Described>(
    alloc: Global,
    left: &[T],
    right: &[T],
) -> Result<FlameGraph, Refusal>
    ensures sum { IfOk result
        (IsSumOfTwo (each_shows T.may_show left.now) (each_shows T.may_show right.now)) }
    ensures refused { IfErr result
        (RefusesInTwo T.is_strict (each_shows T.may_show left.now) (each_shows T.may_show right.now)) }
{
    let mut sum = profile_values(alloc, left)?.into_flamegraph();
    let more = profile_values(alloc, right)?.into_flamegraph();
    sum.add(more)?;
    Ok(sum)
}
