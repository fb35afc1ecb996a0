//! Maps and sets. They show a field `key` for each key, and maps a field `value` beside it, inside an inline entry
//! `data` of 8 bytes.

ghost use Rattle.std.specs.Prelude.{◌≡◌, ◌&&◌, codes, Some, length};
ghost use Rattle.std.specs.Iterator.{IsFinite};
ghost use Rattle.allocative_described.specs.Sizes.{size_sum};
ghost use Rattle.allocative_graph.specs.Shows.{Inside as shows_inside, each_shows};
ghost use Rattle.allocative.specs.{Runs.pair_shows, StdShows.in_any_order};
ghost use Rattle.allocative_tally.specs.{Beside, EntryAt, Wide, Narrow, entries, pairs_shape, data_shape, sum_times};
ghost use Rattle.allocative_tally.specs.{ShapeCounts, AreFields, HoldsOfEveryRun, is_whole, starting};

use crate::counted::{CountItem, FieldUnder, KeyAndValue, count_run};
use crate::field::{FieldMany, SizedMany};
use crate::places::Buffers;
use crate::tally::{CountError, Entries, InlineSum, Sum, Tallied, bytes_of, product};
use allocative::{Described, Pairs, Part, Refusal, Visitor};
use std::collections::{BTreeMap, BTreeSet, HashMap, HashSet};
use std::hash::Hash;

/// The fields of so many pairs, by the tallies of their keys and values.
#[derive(Drop)]
pub(crate) struct PairsMany<'a, K: Tallied, V: Tallied>(pub &'a (K::Tally, V::Tally), pub usize);

impl<'a, K: Tallied, V: Tallied> Entries for PairsMany<'a, K, V> {
    ghost shape = { λ e. pairs_shape K.layout.size V.layout.size (K.shape e.0.now.0) (V.shape e.0.now.1) e.1 };

    fn enter(self, visitor: &mut Visitor<'_>) -> Result<(), Refusal> {
        let keys = FieldMany::<K>("key", &self.0.0, self.1);
        let values = FieldMany::<V>("value", &self.0.1, self.1);
        (keys, values).enter(visitor)
    }
}

/// The declared size of a pair's key and value in bytes. `None` if a size is missing, or the sum exceeds a word.
pub(crate) fn pair_size<K: Described, V: Described>() -> Option<usize>
    ensures { result ≡ size_sum K.layout.size V.layout.size }
{
    K::size()?.checked_add(V::size()?)
}

/// Entries `data` of maps and sets, counted: those whose items have at most its 8 bytes, and those whose items have
/// more. No place in them is unused.
#[derive(Default, Drop)]
pub struct DataTally<S> {
    pub(crate) small: Buffers<S>,
    pub(crate) large: Buffers<S>,
}

// Counts the entry `data` of so many items of a declared size that an iterator gives. It returns `Err` as
// `Tallied::tally` does.
fn count_data<A: Drop, S, C: CountItem<A, S>, I: Iterator<Item = A> + Drop>(
    how: C,
    items: I,
    size: Option<usize>,
    count: usize,
    tally: &mut DataTally<S>,
) -> Result<(), CountError>
    requires can { I.can_next items }
    requires ends { IsFinite (I.remaining items) }
    requires sized { size ≡ C.size }
    ensures { HoldsOfEveryRun I.next_gives items C.seen (λ xs. count ≡ length xs →
        AreFields C.size (C.may_show how) (C.shape how) → ShapeCounts (Some 8)
        (shows_inside (codes "data") 8 (each_shows (C.may_show how) xs))
        (data_shape tally.old (C.shape how)) (data_shape tally.new (C.shape how)) result) }
{
    if count == 0 {
        return tally.small.places.add_full(Some(0), 0);
    }
    if bytes_of(size, count) <= 8 {
        let run = count_run(how, items, &mut tally.small.values);
        return run.and(tally.small.places.add_full(size, count));
    }
    let run = count_run(how, items, &mut tally.large.values);
    run.and(tally.large.places.add_full(size, count))
}

/// The entries `data` of a tally, with entries inside those whose items have at most 8 bytes, and with others inside
/// the rest.
#[derive(Drop)]
struct DataMany<'a, S, P, Q>(&'a DataTally<S>, P, Q);

impl<'a, S, P: Entries, Q: Entries> Entries for DataMany<'a, S, P, Q> {
    ghost shape = { λ e. Beside
        (EntryAt Wide (codes "data") (sum_times (Some 8) e.0.now.small.places.buffers) (P.shape e.1))
        (EntryAt Narrow (codes "data") (sum_times (Some 8) e.0.now.large.places.buffers) (Q.shape e.2)) };

    fn enter(self, visitor: &mut Visitor<'_>) -> Result<(), Refusal> {
        let sum = Sum::times(Some(8), self.0.small.places.buffers);
        let small = InlineSum("data", sum, self.1);
        let sum = Sum::times(Some(8), self.0.large.places.buffers);
        (small, InlineSum("data", sum, self.2)).enter(visitor)
    }
}

impl<K: Tallied + Eq + Hash, V: Tallied> Tallied for HashMap<K, V> {
    type Tally = DataTally<(K::Tally, V::Tally)>;

    ghost shape = { λ t n. entries (codes "HashMap") (Some 48) n
        (data_shape t (λ v. pairs_shape K.layout.size V.layout.size (K.shape v.0) (V.shape v.1))) };

    ghost whole = { is_whole (Prim.search starting) };

    fn show(tally: &Self::Tally, count: usize, visitor: &mut Visitor<'_>) -> Result<(), Refusal> {
        let small = PairsMany::<K, V>(&tally.small.values, tally.small.places.items);
        let large = PairsMany::<K, V>(&tally.large.values, tally.large.places.items);
        let data = DataMany(tally, small, large);
        SizedMany("HashMap", <HashMap<K, V>>::size(), count, data).enter(visitor)
    }

    fn tally(&self, tally: &mut Self::Tally) -> Result<(), CountError> {
        let size = pair_size::<K, V>();
        count_data(KeyAndValue, self.iter(), size, self.len(), tally)
    }
}

impl<K: Tallied + Ord, V: Tallied> Tallied for BTreeMap<K, V> {
    type Tally = DataTally<(K::Tally, V::Tally)>;

    ghost shape = { λ t n. entries (codes "BTreeMap") (Some 24) n
        (data_shape t (λ v. pairs_shape K.layout.size V.layout.size (K.shape v.0) (V.shape v.1))) };

    ghost whole = { is_whole (Prim.search starting) };

    fn show(tally: &Self::Tally, count: usize, visitor: &mut Visitor<'_>) -> Result<(), Refusal> {
        let small = PairsMany::<K, V>(&tally.small.values, tally.small.places.items);
        let large = PairsMany::<K, V>(&tally.large.values, tally.large.places.items);
        let data = DataMany(tally, small, large);
        SizedMany("BTreeMap", <BTreeMap<K, V>>::size(), count, data).enter(visitor)
    }

    fn tally(&self, tally: &mut Self::Tally) -> Result<(), CountError> {
        let size = pair_size::<K, V>();
        count_data(KeyAndValue, self.iter(), size, self.len(), tally)
    }
}

impl<K: Tallied + Eq + Hash> Tallied for HashSet<K> {
    type Tally = DataTally<K::Tally>;

    ghost shape = { λ t n. entries (codes "HashSet") (Some 48) n
        (data_shape t (λ v i. entries (codes "key") K.layout.size i (K.shape v i))) };

    ghost whole = { is_whole (Prim.search starting) };

    fn show(tally: &Self::Tally, count: usize, visitor: &mut Visitor<'_>) -> Result<(), Refusal> {
        let small = FieldMany::<K>("key", &tally.small.values, tally.small.places.items);
        let large = FieldMany::<K>("key", &tally.large.values, tally.large.places.items);
        let data = DataMany(tally, small, large);
        SizedMany("HashSet", <HashSet<K>>::size(), count, data).enter(visitor)
    }

    fn tally(&self, tally: &mut Self::Tally) -> Result<(), CountError> {
        count_data(FieldUnder("key"), self.iter(), K::size(), self.len(), tally)
    }
}

impl<K: Tallied + Ord> Tallied for BTreeSet<K> {
    type Tally = DataTally<K::Tally>;

    ghost shape = { λ t n. entries (codes "BTreeSet") (Some 24) n
        (data_shape t (λ v i. entries (codes "key") K.layout.size i (K.shape v i))) };

    ghost whole = { is_whole (Prim.search starting) };

    fn show(tally: &Self::Tally, count: usize, visitor: &mut Visitor<'_>) -> Result<(), Refusal> {
        let small = FieldMany::<K>("key", &tally.small.values, tally.small.places.items);
        let large = FieldMany::<K>("key", &tally.large.values, tally.large.places.items);
        let data = DataMany(tally, small, large);
        SizedMany("BTreeSet", <BTreeSet<K>>::size(), count, data).enter(visitor)
    }

    fn tally(&self, tally: &mut Self::Tally) -> Result<(), CountError> {
        count_data(FieldUnder("key"), self.iter(), K::size(), self.len(), tally)
    }
}

/// The fields `key` and `value` for each pair of a map, as `Pairs` enters them, counted first.
#[derive(Drop)]
pub struct CountedPairs<V>(pub V);

impl<'a, K: Tallied + Ord, V: Tallied> Part for CountedPairs<&'a BTreeMap<K, V>> {
    ghost may_show = { λ m. each_shows (pair_shows K.layout.size K.may_show V.layout.size V.may_show) m.0.now.entries };

    ghost is_strict = { K.is_strict && V.is_strict };

    fn enter(self, visitor: &mut Visitor<'_>) -> Result<(), Refusal> {
        let count = self.0.len();
        let mut tally = <(K::Tally, V::Tally)>::default();
        let fits = product(pair_size::<K, V>(), count);
        let run = count_run(KeyAndValue, self.0.iter(), &mut tally);
        match fits.and(run) {
            Ok(()) => PairsMany::<K, V>(&tally, count).enter(visitor),
            Err(_) => Pairs(self.0).enter(visitor),
        }
    }
}

impl<'a, K: Tallied + Eq + Hash, V: Tallied> Part for CountedPairs<&'a HashMap<K, V>> {
    ghost may_show = { λ m. in_any_order (pair_shows K.layout.size K.may_show V.layout.size V.may_show)
        m.0.now.entries };

    ghost is_strict = { K.is_strict && V.is_strict };

    fn enter(self, visitor: &mut Visitor<'_>) -> Result<(), Refusal> {
        let count = self.0.len();
        let mut tally = <(K::Tally, V::Tally)>::default();
        let fits = product(pair_size::<K, V>(), count);
        let run = count_run(KeyAndValue, self.0.iter(), &mut tally);
        match fits.and(run) {
            Ok(()) => PairsMany::<K, V>(&tally, count).enter(visitor),
            Err(_) => Pairs(self.0).enter(visitor),
        }
    }
}
