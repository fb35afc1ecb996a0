//! Visitors that a visit enters by hand, holds and leaves, or forgets.
//!
//! An implementation of `Allocative` enters parts. One that enters by hand takes the collector out of its visitor,
//! and enters in a function of its own, whose parameter is the collector: there the checker follows each visitor. After
//! `Visitor::enter` it does not.
//!
//! ```
//! #![tactic(auto, using(allocative::proofs::Showing::showing, allocative::proofs::ByHand::by_hand))]
//!
//! fn show_number(collector: &mut Collector) -> Result<(), Refusal>
//!     ensures { AddsForest (Inside (codes "number") 8 Nothing) collector.old result collector.new }
//! {
//!     let inner = enter(collector, Key::new("number"), 8)?;
//!     inner.exit();
//!     Ok(())
//! }
//!
//! impl Allocative for Numbered {
//!     ghost may_show = { λ _. Inside (codes "number") 8 Nothing };
//!
//!     fn visit(&self, visitor: &mut Visitor<'_>) -> Result<(), Refusal> {
//!         show_number(collector_of(visitor))
//!     }
//! }
//! ```

ghost use Rattle.std.specs.Prelude.{◌≡◌, IfOk, IfErr, Some, true, false};
ghost use Rattle.std.specs.Borrow.{sem};
ghost use Rattle.allocative_graph.specs.Visits.{RefusesEntry};
ghost use Rattle.allocative.specs.Lending.{LendsEntered, LendsPointed, Borrows, OpensEntryAt, OpensSharedAt, LendsCollector};
ghost use Rattle.allocative.specs.Lending.{AnswersShared, answer_without_visitor};
ghost use Rattle.allocative.specs.Visited.{collector_of as state_of};

use crate::visitor::collector::Collector;
use crate::{Identity, Key, Refusal, Visitor};
use allocative_graph::restore::Restore;

/// The collector of the visitor. The visitor ends with what is left of it; nothing else of the visitor changes.
#[inline(always)]
pub fn collector_of<'b>(visitor: &'b mut Visitor<'_>) -> &'b mut Collector
    ensures* lent { sem 𝓛 (LendsCollector visitor.entry result) }
    ensures now { result.now ≡ state_of visitor.old }
{
    &mut *visitor.collector
}

/// Enters inline, as `Visitor::enter` does, and with its errors: one more entry of `size` bytes under the key, and a
/// visitor at it.
#[inline(always)]
pub fn enter(collector: &mut Collector, key: Key, size: usize) -> Result<Visitor<'_>, Refusal>
    ensures* lent { sem 𝓛 (LendsEntered false key (Some size) collector.entry result) }
    ensures same_reference { IfOk result (Borrows collector.entry) }
    ensures entered { IfOk result (OpensEntryAt false key (Some size) collector.old) }
    ensures refused { IfErr result (RefusesEntry false (Some size) collector.old) }
{
    let outer = collector.open_entry(key, Some(size), false)?;
    Ok(Visitor { collector, outer })
}

/// Enters as unique, as `Visitor::enter_unique` does, and with its errors.
#[inline(always)]
pub fn enter_unique(
    collector: &mut Collector,
    key: Key,
    size: usize,
) -> Result<Visitor<'_>, Refusal>
    ensures* lent { sem 𝓛 (LendsEntered true key (Some size) collector.entry result) }
    ensures same_reference { IfOk result (Borrows collector.entry) }
    ensures entered { IfOk result (OpensEntryAt true key (Some size) collector.old) }
    ensures refused { IfErr result (RefusesEntry true (Some size) collector.old) }
{
    let outer = collector.open_entry(key, Some(size), true)?;
    Ok(Visitor { collector, outer })
}

/// One more pointer of `size` bytes to the shared value with the identity `id`, as `Visitor::enter_shared` makes it,
/// and a visitor at the value's content. If the content is not to be shown the call returns `Err(None)`, and otherwise
/// the errors of `Visitor::enter_shared`.
pub fn enter_content(
    collector: &mut Collector,
    key: Key,
    size: usize,
    id: Identity,
) -> Result<Visitor<'_>, Option<Refusal>>
    ensures* lent { sem 𝓛 (LendsPointed key size id collector.entry result) }
    ensures same_reference { IfOk result (Borrows collector.entry) }
    ensures entered { IfOk result (OpensSharedAt key size id collector.old) }
    ensures refused { IfErr result
        (λ o. AnswersShared key size id collector.old (answer_without_visitor o)) }
{
    match collector.open_shared(key, size, id) {
        // Only a flame graph's collector shows contents, and it keeps its own places.
        Ok(true) => Ok(Visitor {
            collector,
            outer: Restore::none(),
        }),
        Ok(false) => Err(None),
        Err(refusal) => Err(Some(refusal)),
    }
}
