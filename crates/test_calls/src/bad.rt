//! Implementations that fail by themselves or forget a visitor.
#![tactic(auto, using(allocative::proofs::Showing::showing, allocative::proofs::ByHand::by_hand))]

ghost use Rattle.std.specs.Prelude.{codes};
ghost use Rattle.allocative.specs.Shows as shows;
ghost use Rattle.allocative.specs.Visits.{AddsForest};

use allocative::by_hand::{collector_of, enter_content};
use allocative::collector::Collector;
use allocative::{
    Allocative, FlameGraphBuilder, Identity, Key, Refusal, Visitor, size_of_unique_allocated_data,
};
use example_types::gauges::Gauge;
use std::alloc::Global;
use std::mem::ManuallyDrop;
use std::test::Fail;

/// Enters a pointer to the shared value 1, and forgets the visitor of its content.
fn forget_content(collector: &mut Collector) -> Result<(), Refusal>
    ensures { AddsForest
        (shows.Shared (codes "p") 8 (record { maker = 0; number = 1 }) shows.Nothing)
        collector.old result collector.new }
{
    match enter_content(collector, Key::new("p"), 8, Identity::from(1)) {
        Ok(content) => {
            let _forgotten = ManuallyDrop::new(content);
            Ok(())
        }
        Err(None) => Ok(()),
        Err(Some(refusal)) => Err(refusal),
    }
}

/// Forgets the visitor of a shared value's content.
#[derive(Drop)]
struct ForgetsContent;

impl Allocative for ForgetsContent {
    ghost may_show = { λ _.
        shows.Shared (codes "p") 8 (record { maker = 0; number = 1 }) shows.Nothing };

    fn visit(&self, visitor: &mut Visitor<'_>) -> Result<(), Refusal> {
        forget_content(collector_of(visitor))
    }
}

/// The errors of `visit_root` and then of `finish` for a root.
fn refusals(alloc: Global, root: &dyn Allocative) -> Result<[Option<Refusal>; 2], Refusal> {
    let mut builder = FlameGraphBuilder::new(alloc)?;
    Ok([builder.visit_root(root).err(), builder.finish().err()])
}

/// Fails if `visit_root` and then `finish` do not both return this error for a root, or if it does not hold this.
fn is_refused(
    alloc: Global,
    root: &dyn Allocative,
    refusal: Refusal,
    held: Result<usize, Refusal>,
) -> Result<(), Fail> {
    let found = refusals(alloc, root)?;
    let holds = size_of_unique_allocated_data(root);
    if found == [Some(refusal); 2] && holds == held {
        return Ok(());
    }
    Err(Fail::new(format_args!("{found:?}, {holds:?}")))
}

#[test]
fn bad_implementations_fail_their_collector(rt: HostRuntime) -> Result<(), Fail> {
    let (alloc, large, open) = (rt.alloc(), Refusal::TooLarge, Refusal::Open);
    is_refused(alloc, &Gauge { reading: 0 }, large, Err(large))?;
    // The collector of held bytes has no visitor of a content.
    is_refused(alloc, &ForgetsContent, open, Ok(0))
}
