//! Parts of values that are counted first.

ghost use Rattle.std.specs.Prelude.{ℕ, OnOk, Option, length};
ghost use Rattle.std.specs.{Iterator.IsFinite, Map.Iter.deref, Map.Iter.deref_pair};
ghost use Rattle.allocative_described.specs.Sizes.{size_sum};
ghost use Rattle.allocative_graph.specs.{Forest.Forest, Shows.each_shows};
ghost use Rattle.allocative.specs.Runs.{field_of, pair_shows};
ghost use Rattle.allocative_tally.specs.{Shape, entries, pairs_shape, TalliesFields, TalliesMany};
ghost use Rattle.allocative_tally.specs.{HoldsOfEveryRun, Told};

use crate::tally::{CountError, Tallied, product};
use allocative::{Allocative, Described, IntoKey, Layout, Part, Refusal, Visitor};

/// How a loop counts each item that an iterator gives, into the tally `S`.
pub(crate) trait CountItem<A, S>: Drop {
    /// The values that contracts see as items.
    ghost Seen: { Type 0 };

    /// What contracts see of an item.
    ghost seen: { A → Seen };

    /// The declared size of an item. What it shows has at most these bytes at its top.
    ghost size: { Option ℕ };

    /// The forests that an item may show.
    ghost may_show: { Self → Seen → Forest → Type 0 };

    /// What so many items show, by their tally.
    ghost shape: { Self → S → ℕ → Shape };

    /// Counts an item. It returns `Err` as `Tallied::tally` does.
    fn count_item(&self, item: A, tally: &mut S) -> Result<(), CountError>
        ensures { OnOk result (TalliesFields size (may_show self.now (seen item))
            (shape self.now tally.old) (shape self.now tally.new)) };
}

/// What the item shows, with no entry of its own.
#[derive(Drop)]
pub(crate) struct Itself;

impl<'a, T: Tallied> CountItem<&'a T, T::Tally> for Itself {
    ghost Seen = { T };

    ghost seen = { deref };

    ghost size = { T.layout.size };

    ghost may_show = { λ _. T.may_show };

    ghost shape = { λ _. T.shape };

    #[inline(always)]
    fn count_item(&self, item: &'a T, tally: &mut T::Tally) -> Result<(), CountError> {
        item.tally(tally)
    }
}

/// A field under the key.
#[derive(Drop)]
pub(crate) struct FieldUnder(pub(crate) &'static str);

impl<'a, T: Tallied> CountItem<&'a T, T::Tally> for FieldUnder {
    ghost Seen = { T };

    ghost seen = { deref };

    ghost size = { T.layout.size };

    ghost may_show = { λ f. field_of (⟦<&'static str as IntoKey>⟧.key f.0) T.layout.size T.may_show };

    ghost shape = { λ f t n. entries (⟦<&'static str as IntoKey>⟧.key f.0) T.layout.size n (T.shape t n) };

    #[inline(always)]
    fn count_item(&self, item: &'a T, tally: &mut T::Tally) -> Result<(), CountError> {
        item.tally(tally)
    }
}

/// The fields `key` and `value` of a pair.
#[derive(Drop)]
pub(crate) struct KeyAndValue;

impl<'a, K: Tallied, V: Tallied> CountItem<(&'a K, &'a V), (K::Tally, V::Tally)> for KeyAndValue {
    ghost Seen = { K × V };

    ghost seen = { deref_pair };

    ghost size = { size_sum K.layout.size V.layout.size };

    ghost may_show = { λ _. pair_shows K.layout.size K.may_show V.layout.size V.may_show };

    ghost shape = { λ _ t. pairs_shape K.layout.size V.layout.size (K.shape t.0) (V.shape t.1) };

    #[inline(always)]
    fn count_item(
        &self,
        item: (&'a K, &'a V),
        tally: &mut (K::Tally, V::Tally),
    ) -> Result<(), CountError> {
        let key = item.0.tally(&mut tally.0);
        let value = item.1.tally(&mut tally.1);
        key.and(value)
    }
}

/// Counts each item that an iterator gives. It returns `Err` as `Tallied::tally` does.
pub(crate) fn count_run<A: Drop, S, C: CountItem<A, S>, I: Iterator<Item = A> + Drop>(
    how: C,
    items: I,
    tally: &mut S,
) -> Result<(), CountError>
    requires can { I.can_next items }
    requires ends { IsFinite (I.remaining items) }
    ensures { HoldsOfEveryRun I.next_gives items C.seen (λ xs. Told result (TalliesMany C.size (length xs)
        (each_shows (C.may_show how) xs) (C.shape how tally.old) (C.shape how tally.new))) }
{
    for item in items {
        how.count_item(item, tally)?;
    }
    Ok(())
}

/// What a value shows, counted first and entered once.
///
/// Each path is entered once, with the bytes of all its entries. If a count exceeds a word or a size is missing, the
/// value is entered as `&value` enters it.
#[derive(Drop)]
pub struct Counted<'a, T>(pub &'a T);

impl<'a, T: Tallied> Part for Counted<'a, T> {
    ghost may_show = { λ s. T.may_show s.0.now };

    ghost is_strict = { T.is_strict };

    fn enter(self, visitor: &mut Visitor<'_>) -> Result<(), Refusal> {
        let mut tally = T::Tally::default();
        match self.0.tally(&mut tally) {
            Ok(()) => T::show(&tally, 1, visitor),
            Err(_) => self.0.enter(visitor),
        }
    }
}

/// A value that is counted first wherever it is visited, as by a ledger. It declares what the value's type declares, so
/// each measure of it is that of the value.
#[derive(Drop)]
pub struct CountedValue<'a, T>(pub &'a T);

impl<'a, T: Tallied> Allocative for CountedValue<'a, T> {
    ghost may_show = { λ s. T.may_show s.0.now };

    ghost is_strict = { T.is_strict };

    fn visit(&self, visitor: &mut Visitor<'_>) -> Result<(), Refusal> {
        Counted(self.0).enter(visitor)
    }
}

impl<'a, T: Described> Described for CountedValue<'a, T> {
    ghost layout = { T.layout };

    fn layout() -> Layout {
        T::layout()
    }
}

/// What each item shows, as `Each` enters it, counted first.
#[derive(Drop)]
pub struct CountedEach<V>(pub V);

impl<'a, T: Tallied> Part for CountedEach<&'a Vec<T>> {
    ghost may_show = { λ s. each_shows T.may_show s.0.now.items };

    ghost is_strict = { T.is_strict };

    fn enter(self, visitor: &mut Visitor<'_>) -> Result<(), Refusal> {
        CountedEach(self.0.as_slice()).enter(visitor)
    }
}

impl<'a, T: Tallied> Part for CountedEach<&'a [T]> {
    ghost may_show = { λ s. each_shows T.may_show s.0.now };

    ghost is_strict = { T.is_strict };

    fn enter(self, visitor: &mut Visitor<'_>) -> Result<(), Refusal> {
        let mut tally = T::Tally::default();
        let count = self.0.len();
        let fits = product(T::size(), count);
        let run = count_run(Itself, self.0.iter(), &mut tally);
        match fits.and(run) {
            Ok(()) => T::show(&tally, count, visitor),
            Err(_) => visitor.visit_each(self.0),
        }
    }
}

/// Roots of one type that are counted first, all in one tally, wherever they are visited.
#[derive(Drop)]
pub struct CountedRoots<'a, T>(pub &'a [T]);

impl<'a, T: Tallied> Allocative for CountedRoots<'a, T> {
    ghost may_show = { λ s. each_shows T.may_show s.0.now };

    ghost is_strict = { T.is_strict };

    fn visit(&self, visitor: &mut Visitor<'_>) -> Result<(), Refusal> {
        CountedEach(self.0).enter(visitor)
    }
}
