//! Texts, vectors, deques, maps and sets of `std`, linked lists with the bytes of their links, and heaps in their own
//! order.

ghost use Rattle.std.specs.Prelude.{◌&&◌, true, codes, length, vec_capacity, string_bytes, string_capacity, Some};
ghost use Rattle.std.specs.BinaryHeap.{heap_items, heap_len, heap_capacity};
ghost use Rattle.std.specs.VecDeque.{deque_capacity};
ghost use Rattle.allocative_graph.specs.Shows as shows;
ghost use Rattle.allocative.specs.Bodies.{buffer_shows, bytes_shown, cut_shows, data_shows, text_shows};
ghost use Rattle.allocative.specs.Runs.{field_of, pair_shows};
ghost use Rattle.allocative.specs.StdShows.{in_any_order};

use crate::part::containers::TwoSlices;
use crate::{
    Allocative, Buffer, Declared, Described, FieldEach, Inside, Items, Pairs, Part, Refusal, Text,
    Unique, Visitor, Whole,
};
use std::collections::{BTreeMap, BTreeSet, BinaryHeap, HashMap, HashSet, LinkedList, VecDeque};
use std::hash::{BuildHasher, Hash};

impl Allocative for String {
    ghost may_show = { λ s. shows.Field (codes "String") (Some 24)
        (text_shows (length (string_bytes s)) (string_capacity s)) };

    ghost is_strict = { true };

    fn visit(&self, visitor: &mut Visitor<'_>) -> Result<(), Refusal> {
        Whole(self, Text(self)).enter(visitor)
    }
}

impl<T: Allocative + Described> Allocative for Vec<T> {
    ghost may_show = { λ v. shows.Field (codes "Vec") (Some 24)
        (buffer_shows T.layout.size (shows.slice_shows T.layout.name T.layout.size T.layout.needs_drop T.may_show
        v.items) (length v.items)
        (vec_capacity v)) };

    ghost is_strict = { T.is_strict };

    fn visit(&self, visitor: &mut Visitor<'_>) -> Result<(), Refusal> {
        let buffer = Buffer {
            items: Items(self.as_slice()),
            item_size: T::size(),
            count: self.len(),
            capacity: self.capacity(),
        };
        Whole(self, buffer).enter(visitor)
    }
}

impl<T: Allocative + Described> Allocative for VecDeque<T> {
    ghost may_show = { λ d. shows.Field (codes "VecDeque") (Some 32)
        (buffer_shows T.layout.size (cut_shows T.layout.name T.layout.size T.layout.needs_drop T.may_show d.items)
        (length d.items)
        (deque_capacity d)) };

    ghost is_strict = { T.is_strict };

    fn visit(&self, visitor: &mut Visitor<'_>) -> Result<(), Refusal> {
        let (front, back) = self.as_slices();
        let ring = Buffer {
            items: TwoSlices(front, back),
            item_size: T::size(),
            count: self.len(),
            capacity: self.capacity(),
        };
        Whole(self, ring).enter(visitor)
    }
}

impl<T: Allocative + Described> Allocative for LinkedList<T> {
    ghost may_show = { λ l. shows.Field (codes "LinkedList") (Some 24) (shows.Unique (codes "ptr") 8 (shows.Both
        (data_shows T.layout.size T.may_show l) (bytes_shown (codes "links") (Some 16) (length l)))) };

    ghost is_strict = { T.is_strict };

    fn visit(&self, visitor: &mut Visitor<'_>) -> Result<(), Refusal> {
        let items = FieldEach("data", self);
        // Each item has two pointers beside it.
        let links = Declared("links", 16_usize.checked_mul(self.len()), ());
        Whole(self, Unique("ptr", 8, (items, links))).enter(visitor)
    }
}

impl<T: Allocative + Described + Ord> Allocative for BinaryHeap<T> {
    ghost may_show = { λ h. shows.Field (codes "BinaryHeap") (Some 24)
        (buffer_shows T.layout.size (shows.slice_shows T.layout.name T.layout.size T.layout.needs_drop T.may_show
        (heap_items h)) (heap_len h)
        (heap_capacity h)) };

    ghost is_strict = { T.is_strict };

    fn visit(&self, visitor: &mut Visitor<'_>) -> Result<(), Refusal> {
        let heap = Buffer {
            items: Items(self.as_slice()),
            item_size: T::size(),
            count: self.len(),
            capacity: self.capacity(),
        };
        Whole(self, heap).enter(visitor)
    }
}

impl<K: Allocative + Described + Ord, V: Allocative + Described> Allocative for BTreeMap<K, V> {
    ghost may_show = { λ m. shows.Field (codes "BTreeMap") (Some 24)
        (shows.Inside (codes "data") 8 (shows.each_shows (pair_shows K.layout.size K.may_show V.layout.size V.may_show)
        m.entries)) };

    ghost is_strict = { K.is_strict && V.is_strict };

    fn visit(&self, visitor: &mut Visitor<'_>) -> Result<(), Refusal> {
        Whole(self, Inside("data", 8, Pairs(self))).enter(visitor)
    }
}

impl<K: Allocative + Described + Ord> Allocative for BTreeSet<K> {
    ghost may_show = { λ s. shows.Field (codes "BTreeSet") (Some 24)
        (shows.Inside (codes "data") 8 (shows.each_shows (field_of (codes "key") K.layout.size K.may_show) s.keys)) };

    ghost is_strict = { K.is_strict };

    fn visit(&self, visitor: &mut Visitor<'_>) -> Result<(), Refusal> {
        Whole(self, Inside("data", 8, FieldEach("key", self))).enter(visitor)
    }
}

impl<
    K: Allocative + Described + Eq + Hash,
    V: Allocative + Described,
    S: BuildHasher + Described + Drop,
> Allocative for HashMap<K, V, S> {
    ghost may_show = { λ m. shows.Field (codes "HashMap") ⟦<HashMap<K, V, S> as Described>⟧.layout.size
        (shows.Inside (codes "data") 8 (in_any_order (pair_shows K.layout.size K.may_show V.layout.size V.may_show)
        m.entries)) };

    ghost is_strict = { K.is_strict && V.is_strict };

    fn visit(&self, visitor: &mut Visitor<'_>) -> Result<(), Refusal> {
        let pairs = Inside("data", 8, Pairs(self));
        Whole(self, pairs).enter(visitor)
    }
}

impl<K: Allocative + Described + Eq + Hash, S: BuildHasher + Described + Drop> Allocative
    for HashSet<K, S> {
    ghost may_show = { λ s. shows.Field (codes "HashSet") ⟦<HashSet<K, S> as Described>⟧.layout.size
        (shows.Inside (codes "data") 8 (in_any_order (field_of (codes "key") K.layout.size K.may_show) s.keys)) };

    ghost is_strict = { K.is_strict };

    fn visit(&self, visitor: &mut Visitor<'_>) -> Result<(), Refusal> {
        let keys = Inside("data", 8, FieldEach("key", self));
        Whole(self, keys).enter(visitor)
    }
}
