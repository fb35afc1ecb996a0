//! What an implementation may do beside its entries: hide an error, return one of its own, forget a visitor.
#![tactic(auto, using(crate::proofs::Deeds::deeds))]

ghost use Rattle.std.specs.Prelude.{IfErr};
ghost use Rattle.allocative.specs.Shows as shows;
ghost use Rattle.allocative.specs.Visits.{AddsForest, HasFailed};
ghost use Rattle.test_entries.specs.Forests.{deed_shows};

use allocative::by_hand::{collector_of, enter, enter_content, enter_unique};
use allocative::collector::Collector;
use allocative::{Identity, Key, Part, Refusal, Visitor};
use std::mem::ManuallyDrop;

/// What is done with a key, a size and the entries inside.
#[derive(Clone, Copy)]
pub(crate) enum Deed {
    /// Enters what is inside, and hides its error.
    Hide,
    /// Refuses by hand, and returns the first cause.
    Refuse(Refusal),
    /// Enters by a closure, which hides the error of what is inside and returns this one.
    Answer(Refusal),
    /// Enters as unique, and holds the visitor while what is inside is entered.
    Hold,
    /// Enters, and forgets the visitor.
    Forget,
    /// Enters a pointer to a shared value, and forgets the visitor of the content.
    ForgetContent(Identity),
}

/// A deed with its key, its size and what is inside, as a part.
#[derive(Drop)]
pub(crate) struct Done<P>(
    pub(crate) Deed,
    pub(crate) Key,
    pub(crate) usize,
    pub(crate) P,
);

fn hold<P: Part>(collector: &mut Collector, key: Key, size: usize, inside: P) -> Result<(), Refusal>
    ensures shown { AddsForest (shows.Unique key size (P.may_show inside))
        collector.old result collector.new }
    ensures cause { IfErr result (HasFailed collector.new) }
{
    let mut outer = enter_unique(collector, key, size)?;
    inside.enter(&mut outer)?;
    outer.exit();
    Ok(())
}

fn forget(collector: &mut Collector, key: Key, size: usize) -> Result<(), Refusal>
    ensures shown { AddsForest shows.Nothing collector.old result collector.new }
    ensures cause { IfErr result (HasFailed collector.new) }
{
    let inner = enter(collector, key, size)?;
    let _forgotten = ManuallyDrop::new(inner);
    Ok(())
}

fn forget_content(
    collector: &mut Collector,
    key: Key,
    size: usize,
    identity: Identity,
) -> Result<(), Refusal>
    ensures shown { AddsForest (shows.Shared key size identity shows.Nothing)
        collector.old result collector.new }
    ensures cause { IfErr result (HasFailed collector.new) }
{
    match enter_content(collector, key, size, identity) {
        Ok(content) => {
            let _forgotten = ManuallyDrop::new(content);
            Ok(())
        }
        Err(None) => Ok(()),
        Err(Some(refusal)) => Err(refusal),
    }
}

impl<P: Part> Part for Done<P> {
    ghost may_show = { λ d. deed_shows d.0 d.1 d.2 (P.may_show d.3) };

    fn enter(self, visitor: &mut Visitor<'_>) -> Result<(), Refusal> {
        let Done(deed, key, size, inside) = self;
        match deed {
            Deed::Hide => {
                let _hidden = inside.enter(visitor);
                Ok(())
            }
            Deed::Refuse(refusal) => Err(visitor.refuse(refusal)),
            Deed::Answer(refusal) => visitor.visit_field_with(key, size, |inner| {
                let _hidden = inside.enter(inner);
                Err(refusal)
            }),
            Deed::Hold => hold(collector_of(visitor), key, size, inside),
            Deed::Forget => forget(collector_of(visitor), key, size),
            Deed::ForgetContent(identity) => {
                forget_content(collector_of(visitor), key, size, identity)
            }
        }
    }
}
