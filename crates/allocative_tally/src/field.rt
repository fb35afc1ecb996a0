//! Entries of declared sizes, and values with a number of their own.

ghost use Rattle.std.specs.Prelude.{◌≡◌, OnOk};
ghost use Rattle.allocative_tally.specs.{entries, pointers_shape, TalliesOwn};
ghost use Rattle.allocative.specs.Shows as shows;

use crate::counted::Counted;
use crate::tally::{CountError, Entries, InlineSum, Sum, Tallied, UniqueSum, added};
use allocative::{Declared, Described, IntoKey, Part, Refusal, Visitor};
use std::marker::PhantomData;

/// What so many values show, by their tally.
#[derive(Drop)]
pub struct Many<'a, T: Tallied>(pub &'a T::Tally, pub usize);

impl<'a, T: Tallied> Entries for Many<'a, T> {
    ghost shape = { λ e. T.shape e.0.now e.1 };

    fn enter(self, visitor: &mut Visitor<'_>) -> Result<(), Refusal> {
        T::show(self.0, self.1, visitor)
    }
}

/// A field of so many values: entries of their declared size, with what they show inside them.
#[derive(Drop)]
pub struct FieldMany<'a, T: Tallied>(pub &'static str, pub &'a T::Tally, pub usize);

impl<'a, T: Tallied> Entries for FieldMany<'a, T> {
    ghost shape = { λ e. entries (⟦<&'static str as IntoKey>⟧.key e.0) T.layout.size e.2 (T.shape e.1.now e.2) };

    fn enter(self, visitor: &mut Visitor<'_>) -> Result<(), Refusal> {
        let values = Many::<T>(self.1, self.2);
        SizedMany(self.0, T::size(), self.2, values).enter(visitor)
    }
}

/// Entries of a declared size under a key, so many, with entries inside them.
#[derive(Drop)]
pub struct SizedMany<K, P>(pub K, pub Option<usize>, pub usize, pub P);

impl<K: IntoKey, P: Entries> Entries for SizedMany<K, P> {
    ghost shape = { λ e. entries (K.key e.0) e.1 e.2 (P.shape e.3) };

    fn enter(self, visitor: &mut Visitor<'_>) -> Result<(), Refusal> {
        InlineSum(self.0, Sum::times(self.1, self.2), self.3).enter(visitor)
    }
}

/// Entries of a type's declared size under a key, so many, with entries inside them.
#[derive(Drop)]
pub struct TypedMany<T, K, P>(pub PhantomData<T>, pub K, pub usize, pub P);

impl<T: Described, K: IntoKey, P: Entries> Entries for TypedMany<T, K, P> {
    ghost shape = { λ e. entries (K.key e.1) T.layout.size e.2 (P.shape e.3) };

    fn enter(self, visitor: &mut Visitor<'_>) -> Result<(), Refusal> {
        SizedMany(self.1, T::size(), self.2, self.3).enter(visitor)
    }
}

/// Pointers of a size, so many, with entries under a key inside them, which have some bytes together.
#[derive(Drop)]
pub struct PointersMany(pub usize, pub &'static str, pub usize, pub usize);

impl Entries for PointersMany {
    ghost shape = { λ e. pointers_shape e.0 (⟦<&'static str as IntoKey>⟧.key e.1) e.2 e.3 };

    fn enter(self, visitor: &mut Visitor<'_>) -> Result<(), Refusal> {
        let bytes = InlineSum(self.1, Sum::of(self.2, self.3), ());
        UniqueSum("ptr", Sum::times(Some(self.0), self.2), bytes).enter(visitor)
    }
}

/// Values that have a number of their own, as those of one variant: how many, and their tally.
#[derive(Default, Drop)]
pub struct OwnTally<S> {
    pub count: usize,
    pub values: S,
}

/// Counts one more value of a number of its own. It returns `Err` as `Tallied::tally` does.
#[inline(always)]
pub fn count_own<T: Tallied>(own: &mut OwnTally<T::Tally>, value: &T) -> Result<(), CountError>
    ensures { OnOk result (TalliesOwn T.layout.size (T.may_show value.now)
        own.old.count (T.shape own.old.values) own.new.count (T.shape own.new.values)) }
{
    own.count = added(own.count, 1)?;
    value.tally(&mut own.values)
}

/// The field that `Field` enters, counted first.
#[derive(Drop)]
pub struct CountedField<'a, K, T>(pub K, pub &'a T);

#[tactic(auto, using(allocative::proofs::Parts::parts))]
impl<'a, K: IntoKey, T: Tallied> Part for CountedField<'a, K, T> {
    ghost may_show = { λ f. shows.Field (K.key f.0) T.layout.size (T.may_show f.1.now) };

    ghost is_strict = { T.is_strict };

    #[inline(always)]
    fn enter(self, visitor: &mut Visitor<'_>) -> Result<(), Refusal> {
        Declared(self.0, T::size(), Counted(self.1)).enter(visitor)
    }
}
