//! Visitors: places in a collector where values enter what they hold.
#![tactic(auto, using(crate::proofs::Showing::showing))]

ghost use Rattle.std.specs.Prelude.{◌≡◌, IfOk, IfErr, Some, true, false};
ghost use Rattle.allocative_graph.specs.Shows.{Inside, Nothing};
ghost use Rattle.allocative.specs.Making.{MakesPlan, one};
ghost use Rattle.allocative.specs.Visited.{Entered, Refused, Exits};
ghost use Rattle.allocative.specs.Lending.{LendsNested, LendsShared, Nests, EntersShared, IsRefused, visitor_or};
ghost use Rattle.std.specs.Borrow.{sem};

pub mod by_hand;
pub mod collector;
pub mod entries;
pub(crate) mod iterators;
pub(crate) mod slices;

use crate::visitor::collector::Collector;
use crate::{Allocative, Described, Identity, Key, Refusal};
use allocative_graph::restore::Restore;

/// A place in a collector. Dropping it, or calling `exit`, goes one step back.
pub struct Visitor<'a> {
    pub(crate) collector: &'a mut Collector,
    // What leaving the entry restores. It is used only when bytes are counted without a graph.
    pub(crate) outer: Restore,
}

impl Drop for Visitor<'_> {
    #[inline(always)]
    fn drop(self)
        ensures { Exits self.entry self.exit.0.now }
    {
        let Visitor { collector, outer } = self;
        collector.close_entry(outer);
    }
}

// The result of `enter_content` as that of `enter_shared`.
fn transpose<'a>(
    answer: Result<Visitor<'a>, Option<Refusal>>,
) -> Result<Option<Visitor<'a>>, Refusal>
    ensures { visitor_or result ≡ answer.entry }
{
    match answer {
        Ok(visitor) => Ok(Some(visitor)),
        Err(None) => Ok(None),
        Err(Some(refusal)) => Err(refusal),
    }
}

impl Visitor<'_> {
    /// Enters inline: one more entry of `size` bytes under the key, and a nested visitor at it.
    ///
    /// A collector that has failed returns its first cause. Otherwise the call returns `TooLarge` exactly if
    /// a bound would be exceeded, which is tested before anything is allocated. A flame graph's collector may
    /// otherwise return `Memory`: if memory runs out, or if the graph would have more than 2^32 - 1 paths. After
    /// an error the collector has failed. After `Ok` this visitor ends with what the nested one leaves; nothing else
    /// of it changes.
    ///
    /// An implementation of `Allocative` enters a part, such as `Inside`, which the checker follows in every
    /// caller. After this call a caller's proof knows the result and the nested visitor. Of this visitor it
    /// knows only what the starred clause says, which is used by hand. One that has to hold the nested visitor, or
    /// forgets it, enters by the functions of the module `by_hand`, which the checker follows too.
    #[inline(always)]
    pub fn enter(&mut self, key: Key, size: usize) -> Result<Visitor<'_>, Refusal>
        ensures* lent { sem 𝓛 (LendsNested false key (Some size) self.entry result) }
        ensures entered { IfOk result (Nests false key (Some size) self.old) }
        ensures refused { IfErr result (IsRefused false (Some size) self.old) }
    {
        by_hand::enter(by_hand::collector_of(self), key, size)
    }

    /// Enters as unique: one more unique entry of `size` bytes under the key, and a nested visitor at it. The
    /// errors are those of `enter`.
    #[inline(always)]
    pub fn enter_unique(&mut self, key: Key, size: usize) -> Result<Visitor<'_>, Refusal>
        ensures* lent { sem 𝓛 (LendsNested true key (Some size) self.entry result) }
        ensures entered { IfOk result (Nests true key (Some size) self.old) }
        ensures refused { IfErr result (IsRefused true (Some size) self.old) }
    {
        by_hand::enter_unique(by_hand::collector_of(self), key, size)
    }

    /// Enters inline with a declared size: one more entry of `size` bytes under the key, and a nested visitor
    /// at it. If there is no size the call returns `TooLarge`; all else is as in `enter`.
    #[inline(always)]
    pub fn enter_sized(&mut self, key: Key, size: Option<usize>) -> Result<Visitor<'_>, Refusal>
        ensures* lent { sem 𝓛 (LendsNested false key size self.entry result) }
        ensures entered { IfOk result (Nests false key size self.old) }
        ensures refused { IfErr result (IsRefused false size self.old) }
    {
        by_hand::collector_of(self).enter_sized(key, size)
    }

    /// Enters inline with the declared name and size of `T`. If there is no size the call returns
    /// `TooLarge`; all else is as in `enter`.
    #[inline(always)]
    pub fn enter_self_sized<T: Described>(&mut self) -> Result<Visitor<'_>, Refusal>
        ensures* lent { sem 𝓛 (LendsNested false T.layout.name T.layout.size self.entry result) }
        ensures entered { IfOk result (Nests false T.layout.name T.layout.size self.old) }
        ensures refused { IfErr result (IsRefused false T.layout.size self.old) }
    {
        self.enter_sized(Key::for_type_name::<T>(), T::size())
    }

    /// Enters inline with the declared name and size of the value's type, as `enter_self_sized` does.
    #[inline(always)]
    pub fn enter_self<T: Described>(&mut self, _this: &T) -> Result<Visitor<'_>, Refusal>
        ensures* lent { sem 𝓛 (LendsNested false T.layout.name T.layout.size self.entry result) }
        ensures entered { IfOk result (Nests false T.layout.name T.layout.size self.old) }
        ensures refused { IfErr result (IsRefused false T.layout.size self.old) }
    {
        self.enter_self_sized::<T>()
    }

    /// One more pointer of `size` bytes to the shared value with the identity `id`.
    ///
    /// A flame graph's collector returns a visitor at the value's content, whose paths start at the root,
    /// exactly if the identity was not met before, and `None` if it was. The collector of a sum returns `None`. For
    /// held bytes it adds nothing; for owned bytes it adds the pointer, or returns `TooLarge` if the sum does not fit.
    ///
    /// A collector that has failed returns its first cause. Otherwise a flame graph's collector returns
    /// `TooLarge` exactly if the bound would be exceeded, which is tested before the identity is looked up,
    /// and may otherwise return `Memory`. After an error the collector has failed. After `Some` this visitor
    /// ends with what the visitor at the content leaves; nothing else of it changes.
    ///
    /// An implementation of `Allocative` enters the part `Shared`, which the checker follows in every caller.
    pub fn enter_shared(
        &mut self,
        key: Key,
        size: usize,
        id: Identity,
    ) -> Result<Option<Visitor<'_>>, Refusal>
        ensures* lent { sem 𝓛 (LendsShared key size id self.entry result) }
        ensures entered { EntersShared key size id self.old result }
    {
        transpose(by_hand::enter_content(by_hand::collector_of(self), key, size, id))
    }

    /// Goes one step back, as the end of its scope does. It allocates nothing and never fails.
    #[inline(always)]
    pub fn exit(self)
        ensures { Exits self.entry self.exit.0.now }
    {
        drop(self);
    }

    /// A collector that has not failed fails with `refusal`; one that has failed stays as it is.
    /// It returns the first cause.
    pub fn refuse(&mut self, refusal: Refusal) -> Refusal
        ensures { Refused refusal self.old self.new result }
    {
        self.collector.refuse(refusal)
    }

    /// One inline entry of `size` bytes. The errors are those of `enter`.
    #[inline(always)]
    pub fn visit_simple(&mut self, key: Key, size: usize) -> Result<(), Refusal>
        ensures entered { Entered true (Inside key size Nothing) self.old self.new result }
        ensures plan { MakesPlan (one key (Some size)) self.old self.new result }
    {
        self.visit_sized(key, Some(size))
    }

    /// What an object shows. It is strict if the type of the object is.
    pub(crate) fn visit_object(&mut self, object: &dyn Allocative) -> Result<(), Refusal>
        ensures { Entered (Allocative-dyn object.now).is_strict
            (may_show object.now) self.old self.new result }
    {
        if let Err(refusal) = object.visit(self) {
            return Err(self.refuse(refusal));
        }
        Ok(())
    }

    /// What a value of a known type shows. It is strict if the type is.
    pub(crate) fn visit_value<T: Allocative>(&mut self, value: &T) -> Result<(), Refusal>
        ensures { Entered T.is_strict (T.may_show value.now) self.old self.new result }
    {
        if let Err(refusal) = value.visit(self) {
            return Err(self.refuse(refusal));
        }
        Ok(())
    }
}
