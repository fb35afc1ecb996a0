//! `IndexMap`, `IndexSet`, `LruCache`, `SmallVec` and `Slab`.

ghost use Rattle.std.specs.Prelude.{codes, Some};
ghost use Rattle.allocative.specs.Bodies.{table_shows};
ghost use Rattle.allocative_tally.specs.{Unique as unique_width, EntryAt, Beside, entries, sum_times, buffer_shape};
ghost use Rattle.allocative_tally.specs.{pairs_shape, table_shape, ShapeCounts, buffer_of, is_whole, starting};

use crate::counted::{FieldUnder, KeyAndValue, count_run};
use crate::field::{FieldMany, OwnTally, SizedMany};
use crate::map::{PairsMany, pair_size};
use crate::places::{Buffers, PlacesMany};
use crate::sequence::{BuffersMany, count_buffer};
use crate::tally::{CountError, Entries, InlineSum, Sum, Tallied, UniqueSum, added, declared};
use allocative::{Described, Refusal, Visitor, raw_table_alloc_size_for_len};
use indexmap::{IndexMap, IndexSet};
use lru::LruCache;
use slab::Slab;
use smallvec::SmallVec;
use std::hash::Hash;

/// Hash tables, counted: how many there are, and the bytes of their buckets.
#[derive(Clone, Copy, Default)]
pub(crate) struct Tables {
    count: usize,
    buckets: usize,
}

impl Tables {
    // Counts the hash table of so many items. It returns `Err` as `Tallied::tally` does.
    fn add(&mut self, items: usize) -> Result<(), CountError>
        ensures { ShapeCounts (Some 8) (table_shows items)
            (table_shape self.old.count self.old.buckets) (table_shape self.new.count self.new.buckets) result }
    {
        if items == 0 {
            return Ok(());
        }
        let Some(bytes) = raw_table_alloc_size_for_len::<u64>(items) else {
            return Err(CountError);
        };
        self.count = added(self.count, 1)?;
        self.buckets = added(self.buckets, bytes)?;
        Ok(())
    }
}

impl Entries for Tables {
    ghost shape = { λ e. table_shape e.count e.buckets };

    fn enter(self, visitor: &mut Visitor<'_>) -> Result<(), Refusal> {
        let buckets = InlineSum("alloc", Sum::of(self.count, self.buckets), ());
        UniqueSum("raw_table", Sum::times(Some(8), self.count), buckets).enter(visitor)
    }
}

/// Containers with a hash table beside their items, counted.
#[derive(Default, Drop)]
pub struct TableTally<S> {
    items: Buffers<S>,
    tables: Tables,
}

impl<K: Tallied + Eq + Hash, V: Tallied> Tallied for IndexMap<K, V> {
    type Tally = TableTally<(K::Tally, V::Tally)>;

    ghost shape = { λ t n. entries (codes "IndexMap") (Some 72) n (Beside (buffer_shape (codes "data")
        (codes "unused_capacity") t.items.places.buffers
        (pairs_shape K.layout.size V.layout.size (K.shape t.items.values.0) (V.shape t.items.values.1)
        t.items.places.items)
        t.items.places.unused)
        (table_shape t.tables.count t.tables.buckets)) };

    ghost whole = { is_whole (Prim.search starting) };

    fn show(tally: &Self::Tally, count: usize, visitor: &mut Visitor<'_>) -> Result<(), Refusal> {
        let items = PairsMany::<K, V>(&tally.items.values, tally.items.places.items);
        let data = PlacesMany("data", "unused_capacity", tally.items.places, items);
        SizedMany(
            "IndexMap",
            <IndexMap<K, V>>::size(),
            count,
            (data, tally.tables),
        )
        .enter(visitor)
    }

    fn tally(&self, tally: &mut Self::Tally) -> Result<(), CountError> {
        let count = self.len();
        let unused = self.capacity() - count;
        let sizes = (pair_size::<K, V>(), <(K, V)>::size());
        let run = count_run(KeyAndValue, self.iter(), &mut tally.items.values);
        let data = run.and(tally.items.places.add(sizes, count, unused));
        data.and(tally.tables.add(count))
    }
}

impl<T: Tallied + Eq + Hash> Tallied for IndexSet<T> {
    type Tally = TableTally<T::Tally>;

    ghost shape = { λ t n. entries (codes "IndexSet") (Some 72) n (Beside (buffer_shape (codes "data")
        (codes "unused_capacity") t.items.places.buffers
        (entries (codes "value") T.layout.size t.items.places.items (T.shape t.items.values t.items.places.items))
        t.items.places.unused)
        (table_shape t.tables.count t.tables.buckets)) };

    ghost whole = { is_whole (Prim.search starting) };

    fn show(tally: &Self::Tally, count: usize, visitor: &mut Visitor<'_>) -> Result<(), Refusal> {
        let items = FieldMany::<T>("value", &tally.items.values, tally.items.places.items);
        let data = PlacesMany("data", "unused_capacity", tally.items.places, items);
        SizedMany(
            "IndexSet",
            <IndexSet<T>>::size(),
            count,
            (data, tally.tables),
        )
        .enter(visitor)
    }

    fn tally(&self, tally: &mut Self::Tally) -> Result<(), CountError> {
        let count = self.len();
        let unused = self.capacity() - count;
        let sizes = (T::size(), T::size());
        let run = count_run(FieldUnder("value"), self.iter(), &mut tally.items.values);
        let data = run.and(tally.items.places.add(sizes, count, unused));
        data.and(tally.tables.add(count))
    }
}

impl<K: Tallied + Eq + Hash, V: Tallied> Tallied for LruCache<K, V> {
    type Tally = TableTally<(K::Tally, V::Tally)>;

    ghost shape = { λ t n. entries (codes "LruCache") (Some 72) n (Beside
        (EntryAt unique_width (codes "ptr") (sum_times (Some 8) t.items.places.buffers)
        (pairs_shape K.layout.size V.layout.size (K.shape t.items.values.0) (V.shape t.items.values.1)
        t.items.places.items))
        (table_shape t.tables.count t.tables.buckets)) };

    ghost whole = { is_whole (Prim.search starting) };

    fn show(tally: &Self::Tally, count: usize, visitor: &mut Visitor<'_>) -> Result<(), Refusal> {
        let places = tally.items.places;
        let items = PairsMany::<K, V>(&tally.items.values, places.items);
        let pointer = UniqueSum("ptr", Sum::times(Some(8), places.buffers), items);
        let inside = (pointer, tally.tables);
        SizedMany("LruCache", <LruCache<K, V>>::size(), count, inside).enter(visitor)
    }

    fn tally(&self, tally: &mut Self::Tally) -> Result<(), CountError> {
        let count = self.len();
        let run = count_run(KeyAndValue, self.iter(), &mut tally.items.values);
        let pairs = run.and(tally.items.places.add_full(pair_size::<K, V>(), count));
        pairs.and(tally.tables.add(count))
    }
}

/// Small vectors, counted: the items of those that have them in place, and the allocations of the others.
#[derive(Default, Drop)]
pub struct SmallVecTally<S> {
    in_place: OwnTally<S>,
    spilled: Buffers<S>,
}

impl<T: Tallied, const N: usize> Tallied for SmallVec<T, N> {
    type Tally = SmallVecTally<T::Tally>;

    ghost shape = { λ t n. entries (codes "SmallVec") ⟦<SmallVec<T, N> as Described>⟧.layout.size n (Beside
        (entries (codes "data") T.layout.size t.in_place.count (T.shape t.in_place.values t.in_place.count))
        (EntryAt unique_width (codes "ptr") (sum_times (Some 8) t.spilled.places.buffers)
        (entries (codes "data") T.layout.size t.spilled.places.items
        (T.shape t.spilled.values t.spilled.places.items)))) };

    ghost whole = { is_whole (Prim.search starting) };

    fn show(tally: &Self::Tally, count: usize, visitor: &mut Visitor<'_>) -> Result<(), Refusal> {
        let places = tally.spilled.places;
        let in_place = FieldMany::<T>("data", &tally.in_place.values, tally.in_place.count);
        let spilled = FieldMany::<T>("data", &tally.spilled.values, places.items);
        let pointer = UniqueSum("ptr", Sum::times(Some(8), places.buffers), spilled);
        let inside = (in_place, pointer);
        SizedMany("SmallVec", <SmallVec<T, N>>::layout().size(), count, inside).enter(visitor)
    }

    fn tally(&self, tally: &mut Self::Tally) -> Result<(), CountError> {
        declared::<SmallVec<T, N>>()?;
        let count = self.len();
        let items = self.as_slice().iter();
        if self.spilled() {
            let run = count_run(FieldUnder("data"), items, &mut tally.spilled.values);
            return run.and(tally.spilled.places.add_full(T::size(), count));
        }
        tally.in_place.count = added(tally.in_place.count, count)?;
        count_run(FieldUnder("data"), items, &mut tally.in_place.values)
    }
}

impl<T: Tallied> Tallied for Slab<T> {
    type Tally = Buffers<T::Tally>;

    ghost shape = { λ t n. entries (codes "Slab") (Some 40) n
        (buffer_of T.layout.name T.layout.size T.layout.needs_drop t.places (T.shape t.values)) };

    ghost whole = { is_whole (Prim.search starting) };

    fn show(tally: &Self::Tally, count: usize, visitor: &mut Visitor<'_>) -> Result<(), Refusal> {
        SizedMany("Slab", <Slab<T>>::size(), count, BuffersMany::<T>(tally)).enter(visitor)
    }

    fn tally(&self, tally: &mut Self::Tally) -> Result<(), CountError> {
        let values = self.iter().map(|(_key, value)| value);
        count_buffer(values, self.len(), self.capacity(), tally)
    }
}
