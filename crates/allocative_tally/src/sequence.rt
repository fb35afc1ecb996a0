//! Texts, boxes, vectors, deques, lists, heaps and arrays.

ghost use Rattle.std.specs.Prelude.{◌≡◌, Bool, codes, OnOk, Some, length};
ghost use Rattle.std.specs.{Iterator.IsFinite, Map.Iter.deref};
ghost use Rattle.allocative.specs.Bodies.{buffer_shows};
ghost use Rattle.allocative_tally.specs.{Unique, EntryAt, entries, sum_times, text_shape, buffer_shape};
ghost use Rattle.allocative_tally.specs.{pointers_shape, slices_shape};
ghost use Rattle.allocative_tally.specs.{HoldsOfEveryRun, buffer_of, in_slices, is_whole, starting};
ghost use Rattle.allocative_tally.specs.Tallies.{Tallies};

use crate::counted::{FieldUnder, Itself, count_run};
use crate::field::{FieldMany, Many, OwnTally, PointersMany, SizedMany};
use crate::places::{Buffers, PlacesMany};
use crate::tally::{
    CountError, Entries, InlineSum, Sum, Tallied, UniqueSum, added, bytes_of, count_bytes, declared,
};
use allocative::{Described, Refusal, Visitor, are_shown_each};
use std::boxed::{BoxedSlice, BoxedStr};
use std::collections::{BinaryHeap, LinkedList, VecDeque};

/// Texts, counted: the bytes of their buffers, and how many of these are used and unused.
#[derive(Default, Drop)]
pub struct TextTally {
    capacity: usize,
    used: usize,
    unused: usize,
}

impl Tallied for String {
    type Tally = TextTally;

    ghost shape = { λ t n. entries (codes "String") (Some 24) n (text_shape n t.capacity t.used t.unused) };

    ghost whole = { is_whole (Prim.search starting) };

    fn show(tally: &Self::Tally, count: usize, visitor: &mut Visitor<'_>) -> Result<(), Refusal> {
        let used = InlineSum("u8", Sum::of(count, tally.used), ());
        let unused = InlineSum("unused_capacity", Sum::of(count, tally.unused), ());
        let capacity = InlineSum("capacity", Sum::of(count, tally.capacity), (used, unused));
        let pointer = UniqueSum("ptr", Sum::times(Some(8), count), capacity);
        SizedMany("String", <String>::size(), count, pointer).enter(visitor)
    }

    #[inline(always)]
    fn tally(&self, tally: &mut TextTally) -> Result<(), CountError> {
        tally.capacity = added(tally.capacity, self.capacity())?;
        tally.used = added(tally.used, self.len())?;
        tally.unused = added(tally.unused, self.capacity() - self.len())?;
        Ok(())
    }
}

/// Buffers, with their items and unused places inside them.
#[derive(Drop)]
pub(crate) struct BuffersMany<'a, T: Tallied>(pub &'a Buffers<T::Tally>);

impl<'a, T: Tallied> Entries for BuffersMany<'a, T> {
    ghost shape = { λ e. buffer_of T.layout.name T.layout.size T.layout.needs_drop e.0.now.places
        (T.shape e.0.now.values) };

    fn enter(self, visitor: &mut Visitor<'_>) -> Result<(), Refusal> {
        let places = self.0.places;
        if are_shown_each::<T>() {
            let items = Many::<T>(&self.0.values, places.items);
            return PlacesMany("ptr", "unused_capacity", places, items).enter(visitor);
        }
        let bytes = Sum::of(places.buffers, bytes_of(T::size(), places.items));
        let items = InlineSum(T::name(), bytes, ());
        PlacesMany("ptr", "unused_capacity", places, items).enter(visitor)
    }
}

/// Counts the buffer of so many items, which an iterator gives, with room for so many. There is none if the items have
/// size 0, or if there is neither an item nor room for one. It returns `Err` as `Tallied::tally` does.
#[inline(always)]
pub(crate) fn count_buffer<'a, T: Tallied + 'a, I: Iterator<Item = &'a T> + Drop>(
    items: I,
    count: usize,
    capacity: usize,
    tally: &mut Buffers<T::Tally>,
) -> Result<(), CountError>
    requires can { I.can_next items }
    requires ends { IsFinite (I.remaining items) }
    ensures { HoldsOfEveryRun I.next_gives items deref
        (λ xs. count ≡ length xs → (cut : Bool) → OnOk result (Tallies (Some 8)
        (buffer_shows T.layout.size (in_slices cut T.layout.name T.layout.size T.layout.needs_drop T.may_show xs)
        count capacity)
        (buffer_of T.layout.name T.layout.size T.layout.needs_drop tally.old.places (T.shape tally.old.values))
        (buffer_of T.layout.name T.layout.size T.layout.needs_drop tally.new.places (T.shape tally.new.values)))) }
{
    let Some(size) = T::size() else {
        return Err(CountError);
    };
    if size == 0 {
        return Ok(());
    }
    if count.max(capacity) == 0 {
        return Ok(());
    }
    let sizes = (Some(size), Some(size));
    let unused = capacity.saturating_sub(count);
    if are_shown_each::<T>() {
        let run = count_run(Itself, items, &mut tally.values);
        return run.and(tally.places.add(sizes, count, unused));
    }
    tally.places.add(sizes, count, unused)
}

impl<T: Tallied> Tallied for Box<T> {
    type Tally = Buffers<T::Tally>;

    ghost shape = { λ t n. entries (codes "Box") (Some 8) n
        (EntryAt Unique (codes "ptr") (sum_times (Some 8) t.places.buffers) (T.shape t.values t.places.items)) };

    ghost whole = { is_whole (Prim.search starting) };

    fn show(tally: &Self::Tally, count: usize, visitor: &mut Visitor<'_>) -> Result<(), Refusal> {
        let values = Many::<T>(&tally.values, tally.places.items);
        let pointer = UniqueSum("ptr", Sum::times(Some(8), tally.places.buffers), values);
        SizedMany("Box", <Box<T>>::size(), count, pointer).enter(visitor)
    }

    #[inline(always)]
    fn tally(&self, tally: &mut Self::Tally) -> Result<(), CountError> {
        let value = (**self).tally(&mut tally.values);
        value.and(tally.places.add_full(T::size(), 1))
    }
}

impl<T: Tallied> Tallied for BoxedSlice<T> {
    type Tally = Buffers<T::Tally>;

    ghost shape = { λ t n. entries (codes "Box") (Some 16) n
        (slices_shape T.layout.name T.layout.size t.places.buffers t.places.items
        (entries (codes "data") T.layout.size t.places.items (T.shape t.values t.places.items))) };

    ghost whole = { is_whole (Prim.search starting) };

    fn show(tally: &Self::Tally, count: usize, visitor: &mut Visitor<'_>) -> Result<(), Refusal> {
        let places = tally.places;
        let items = FieldMany::<T>("data", &tally.values, places.items);
        let bytes = Sum::of(places.buffers, bytes_of(T::size(), places.items));
        let slices = InlineSum(T::name(), bytes, items);
        let pointer = UniqueSum("ptr", Sum::times(Some(16), places.buffers), slices);
        SizedMany("Box", <BoxedSlice<T>>::size(), count, pointer).enter(visitor)
    }

    #[inline(always)]
    fn tally(&self, tally: &mut Self::Tally) -> Result<(), CountError> {
        let items = self.as_slice();
        let run = count_run(FieldUnder("data"), items.iter(), &mut tally.values);
        run.and(tally.places.add_full(T::size(), items.len()))
    }
}

impl Tallied for BoxedStr {
    type Tally = usize;

    ghost shape = { λ t n. entries (codes "Box") (Some 16) n (pointers_shape 16 (codes "str") n t) };

    ghost whole = { is_whole (Prim.search starting) };

    fn show(tally: &usize, count: usize, visitor: &mut Visitor<'_>) -> Result<(), Refusal> {
        let pointers = PointersMany(16, "str", count, *tally);
        SizedMany("Box", <BoxedStr>::size(), count, pointers).enter(visitor)
    }

    #[inline(always)]
    fn tally(&self, tally: &mut usize) -> Result<(), CountError> {
        count_bytes(tally, self.len())
    }
}

impl<T: Tallied> Tallied for Vec<T> {
    type Tally = Buffers<T::Tally>;

    ghost shape = { λ t n. entries (codes "Vec") (Some 24) n
        (buffer_of T.layout.name T.layout.size T.layout.needs_drop t.places (T.shape t.values)) };

    ghost whole = { is_whole (Prim.search starting) };

    fn show(tally: &Self::Tally, count: usize, visitor: &mut Visitor<'_>) -> Result<(), Refusal> {
        SizedMany("Vec", <Vec<T>>::size(), count, BuffersMany::<T>(tally)).enter(visitor)
    }

    #[inline(always)]
    fn tally(&self, tally: &mut Self::Tally) -> Result<(), CountError> {
        count_buffer(self.as_slice().iter(), self.len(), self.capacity(), tally)
    }
}

impl<T: Tallied> Tallied for VecDeque<T> {
    type Tally = Buffers<T::Tally>;

    ghost shape = { λ t n. entries (codes "VecDeque") (Some 32) n
        (buffer_of T.layout.name T.layout.size T.layout.needs_drop t.places (T.shape t.values)) };

    ghost whole = { is_whole (Prim.search starting) };

    fn show(tally: &Self::Tally, count: usize, visitor: &mut Visitor<'_>) -> Result<(), Refusal> {
        let buffers = BuffersMany::<T>(tally);
        SizedMany("VecDeque", <VecDeque<T>>::size(), count, buffers).enter(visitor)
    }

    #[inline(always)]
    fn tally(&self, tally: &mut Self::Tally) -> Result<(), CountError> {
        count_buffer(self.iter(), self.len(), self.capacity(), tally)
    }
}

impl<T: Tallied + Ord> Tallied for BinaryHeap<T> {
    type Tally = Buffers<T::Tally>;

    ghost shape = { λ t n. entries (codes "BinaryHeap") (Some 24) n
        (buffer_of T.layout.name T.layout.size T.layout.needs_drop t.places (T.shape t.values)) };

    ghost whole = { is_whole (Prim.search starting) };

    fn show(tally: &Self::Tally, count: usize, visitor: &mut Visitor<'_>) -> Result<(), Refusal> {
        let buffers = BuffersMany::<T>(tally);
        SizedMany("BinaryHeap", <BinaryHeap<T>>::size(), count, buffers).enter(visitor)
    }

    #[inline(always)]
    fn tally(&self, tally: &mut Self::Tally) -> Result<(), CountError> {
        count_buffer(self.as_slice().iter(), self.len(), self.capacity(), tally)
    }
}

impl<T: Tallied> Tallied for LinkedList<T> {
    type Tally = Buffers<T::Tally>;

    ghost shape = { λ t n. entries (codes "LinkedList") (Some 24) n
        (buffer_shape (codes "ptr") (codes "links") t.places.buffers
        (entries (codes "data") T.layout.size t.places.items (T.shape t.values t.places.items)) t.places.unused) };

    ghost whole = { is_whole (Prim.search starting) };

    fn show(tally: &Self::Tally, count: usize, visitor: &mut Visitor<'_>) -> Result<(), Refusal> {
        let items = FieldMany::<T>("data", &tally.values, tally.places.items);
        let nodes = PlacesMany("ptr", "links", tally.places, items);
        SizedMany("LinkedList", <LinkedList<T>>::size(), count, nodes).enter(visitor)
    }

    fn tally(&self, tally: &mut Self::Tally) -> Result<(), CountError> {
        let count = self.len();
        // Each item has two pointers beside it.
        let sizes = (T::size(), Some(16));
        let run = count_run(FieldUnder("data"), self.iter(), &mut tally.values);
        run.and(tally.places.add(sizes, count, count))
    }
}

impl<T: Tallied, const N: usize> Tallied for [T; N] {
    type Tally = OwnTally<T::Tally>;

    ghost shape = { λ t n. entries T.layout.name ⟦<[T; N] as Described>⟧.layout.size n
        (entries (codes "data") T.layout.size t.count (T.shape t.values t.count)) };

    ghost whole = { is_whole (Prim.search starting) };

    fn show(tally: &Self::Tally, count: usize, visitor: &mut Visitor<'_>) -> Result<(), Refusal> {
        let items = FieldMany::<T>("data", &tally.values, tally.count);
        SizedMany(T::name(), <[T; N]>::layout().size(), count, items).enter(visitor)
    }

    #[inline(always)]
    fn tally(&self, tally: &mut Self::Tally) -> Result<(), CountError> {
        declared::<[T; N]>()?;
        tally.count = added(tally.count, N)?;
        count_run(FieldUnder("data"), self.iter(), &mut tally.values)
    }
}
