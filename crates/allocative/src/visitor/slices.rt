//! What containers of items in a row enter: slices, and buffers with unused room.
#![tactic(auto, using(crate::proofs::Showing::showing))]

ghost use Rattle.std.specs.Prelude.{true, codes, ◌≡◌, ◌≤◌, ◌-◌, length, Some};
ghost use Rattle.allocative_described.specs.Sizes.{size_product};
ghost use Rattle.allocative_graph.specs.Shows.{Field, Nothing, Both, each_shows, slice_shows};
ghost use Rattle.allocative.specs.Making.{MakesPlan, MakesFirst, KeepsFailure, Done, one, VisitsNone, slice_plan, room_plan, vec_plan};
ghost use Rattle.allocative.specs.Visited.{Entered};
ghost use Rattle.allocative.specs.Bodies.{are_shown_each, bytes_shown, vec_body, slice_of};
ghost use Rattle.allocative.specs.Runs.{field_of};

use crate::visitor::iterators::{FieldUnder, Itself};
use crate::{Allocative, Described, Key, Refusal, Visitor};

/// The bytes of `count` items. `None` if an item has no size, if there is no count, or
/// if the bytes do not fit.
pub(crate) fn bytes_of<T: Described>(count: Option<usize>) -> Option<usize>
    ensures { result ≡ size_product T.layout.size count }
{
    T::size()?.checked_mul(count?)
}

/// Whether the items of a slice are shown one by one: if they need a drop and have a size other than 0.
#[inline(always)]
pub fn are_shown_each<T: Described>() -> bool
    ensures { result ≡ are_shown_each T.layout.needs_drop T.layout.size }
{
    T::needs_drop() && !matches!(&T::size(), None | Some(0))
}

impl Visitor<'_> {
    /// One inline entry of a size. It is `TooLarge` if there is no size.
    #[inline(always)]
    pub(crate) fn visit_sized(&mut self, name: Key, size: Option<usize>) -> Result<(), Refusal>
        ensures entered { Entered true (Field name size Nothing) self.old self.new result }
        ensures plan { MakesPlan (one name size) self.old self.new result }
    {
        self.collector.enter_simple(name, size)
    }

    /// One inline entry of the bytes of `count` items. It is `TooLarge` if `bytes_of` returns `None`.
    pub(crate) fn visit_total_bytes<T: Described>(
        &mut self,
        name: Key,
        count: Option<usize>,
    ) -> Result<(), Refusal>
        ensures entered { Entered true (Field name (size_product T.layout.size count) Nothing)
            self.old self.new result }
        ensures plan { MakesPlan (one name (size_product T.layout.size count)) self.old self.new result }
    {
        self.visit_sized(name, bytes_of::<T>(count))
    }

    /// One inline entry of the bytes of `count` unused places. It is `TooLarge` if `bytes_of` returns
    /// `None`.
    pub(crate) fn visit_unused<T: Described>(&mut self, count: usize) -> Result<(), Refusal>
        ensures entered { Entered true (bytes_shown (codes "unused_capacity") T.layout.size count)
            self.old self.new result }
        ensures plan { MakesPlan
            (one (codes "unused_capacity") (size_product T.layout.size (Some count))) self.old self.new result }
    {
        self.visit_total_bytes::<T>(Key::new("unused_capacity"), Some(count))
    }

    /// What each item shows, in order, with no entry of its own. It returns the first error of an item, and enters
    /// nothing after it.
    #[inline(always)]
    pub fn visit_each<T: Allocative>(&mut self, items: &[T]) -> Result<(), Refusal>
        ensures entered { Entered T.is_strict (each_shows T.may_show items.now)
            self.old self.new result }
        ensures kept { KeepsFailure self.old self.new result }
        ensures plan { length items.now ≡ 0 → MakesPlan Done self.old self.new result }
    {
        self.visit_run(Itself, items.iter())
    }

    /// One inline entry with the item's name and all bytes if the items need no drop or have size 0,
    /// otherwise what each item shows.
    ///
    /// A collector that has failed returns its first cause. The entry is `TooLarge` if the item has no size
    /// or the bytes do not fit; its other errors are those of `enter`.
    pub fn visit_slice<T: Allocative + Described>(&mut self, items: &[T]) -> Result<(), Refusal>
        ensures entered { Entered T.is_strict
            (slice_shows T.layout.name T.layout.size T.layout.needs_drop T.may_show items.now) self.old self.new
            result }
        ensures kept { KeepsFailure self.old self.new result }
        ensures plan { VisitsNone T.layout.needs_drop T.layout.size items.now
            → MakesPlan (slice_plan T.layout.name T.layout.size T.layout.needs_drop items.now) self.old self.new
            result }
    {
        if are_shown_each::<T>() {
            return self.visit_each(items);
        }
        self.visit_total_bytes::<T>(Key::for_type_name::<T>(), Some(items.len()))
    }

    /// A field under the key for each item, in order.
    pub(crate) fn visit_fields<T: Allocative + Described>(
        &mut self,
        name: Key,
        items: &[T],
    ) -> Result<(), Refusal>
        ensures entered { Entered T.is_strict (each_shows (field_of name T.layout.size T.may_show) items.now)
            self.old self.new result }
        ensures plan { length items.now ≡ 0 → MakesPlan Done self.old self.new result }
    {
        self.visit_run(FieldUnder(name), items.iter())
    }

    /// One inline entry with the item's name and the bytes of all items, with a field `data` for each item
    /// inside it.
    ///
    /// A collector that has failed returns its first cause. The entry is `TooLarge` if the item has no size,
    /// even with no items, or if the bytes do not fit; its other errors are those of `enter`.
    pub fn visit_slice_of<T: Allocative + Described>(&mut self, items: &[T]) -> Result<(), Refusal>
        ensures entered { Entered T.is_strict (slice_of T.layout.name T.layout.size T.may_show items.now)
            self.old self.new result }
        ensures first { MakesFirst T.layout.name (size_product T.layout.size (Some (length items.now)))
            self.old self.new result }
        ensures plan { length items.now ≡ 0
            → MakesPlan (one T.layout.name (size_product T.layout.size (Some 0))) self.old self.new result }
    {
        let bytes = bytes_of::<T>(Some(items.len()));
        let outer = self
            .collector
            .open_entry(Key::for_type_name::<T>(), bytes, false)?;
        let answer = self.visit_fields(Key::new("data"), items);
        self.collector.close_entry(outer);
        answer
    }

    // What the slice of the items shows, followed by an entry of the bytes of the room that `capacity` leaves.
    fn visit_with_room<T: Allocative + Described>(
        &mut self,
        items: &[T],
        capacity: usize,
    ) -> Result<(), Refusal>
        requires { length items.now ≤ capacity }
        ensures entered { Entered T.is_strict
            (Both (slice_shows T.layout.name T.layout.size T.layout.needs_drop T.may_show items.now)
            (bytes_shown (codes "unused_capacity") T.layout.size (capacity - length items.now))) self.old self.new
            result }
        ensures plan { VisitsNone T.layout.needs_drop T.layout.size items.now
            → MakesPlan (room_plan T.layout.name T.layout.size T.layout.needs_drop items.now capacity) self.old
            self.new result }
    {
        self.visit_slice(items)?;
        self.visit_unused::<T>(capacity - items.len())
    }

    /// The entry `capacity` of the bytes of `capacity` items. Inside it are what the slice of the items
    /// shows and an entry `unused_capacity` of the bytes of the room that is left. `capacity` is at
    /// least the number of items.
    ///
    /// A collector that has failed returns its first cause. Each entry is `TooLarge` if an item has no size
    /// or its bytes do not fit; its other errors are those of `enter`.
    pub fn visit_vec_like_body<T: Allocative + Described>(
        &mut self,
        items: &[T],
        capacity: usize,
    ) -> Result<(), Refusal>
        requires { length items.now ≤ capacity }
        ensures entered { Entered T.is_strict
            (vec_body T.layout.name T.layout.size T.layout.needs_drop T.may_show items.now capacity) self.old self.new
            result }
        ensures first { MakesFirst (codes "capacity") (size_product T.layout.size (Some capacity))
            self.old self.new result }
        ensures plan { VisitsNone T.layout.needs_drop T.layout.size items.now
            → MakesPlan (vec_plan T.layout.name T.layout.size T.layout.needs_drop items.now capacity) self.old self.new
            result }
    {
        let bytes = bytes_of::<T>(Some(capacity));
        let outer = self
            .collector
            .open_entry(Key::new("capacity"), bytes, false)?;
        let answer = self.visit_with_room(items, capacity);
        self.collector.close_entry(outer);
        answer
    }
}
