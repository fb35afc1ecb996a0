//! Parts of containers: what their items, pairs, texts and buffers show.

ghost use Rattle.std.specs.Prelude.{true, ◌&&◌, codes, length, string_bytes, string_capacity, ◌++◌};
ghost use Rattle.allocative_graph.specs.Shows as shows;
ghost use Rattle.allocative.specs.Bodies.{bytes_shown, buffer_shows, cut_shows, text_shows, table_shows};
ghost use Rattle.allocative.specs.Runs.{field_of, pair_shows};
ghost use Rattle.allocative.specs.StdShows.{in_any_order};

use crate::visitor::iterators::{FieldUnder, KeyAndValue};
use crate::{
    Allocative, Declared, Described, Inside, IntoKey, Part, Refusal, Unique, Visitor,
    raw_table_alloc_size_for_len,
};
use indexmap::{IndexMap, IndexSet};
use lru::LruCache;
use std::collections::{BTreeMap, BTreeSet, HashMap, HashSet, LinkedList};
use std::hash::{BuildHasher, Hash};

/// The items of a slice, as `Items(slice)`: one entry with the item's name and all bytes if the items need
/// no drop or have size 0, otherwise what each item shows. The errors are those of `Visitor::visit_slice`.
///
/// ```
/// Unique("ptr", 8, Items(self.rows.as_slice())).enter(visitor)
/// ```
#[derive(Drop)]
pub struct Items<V>(pub V);

impl<'a, T: Allocative + Described> Part for Items<&'a [T]> {
    ghost may_show = { λ s. shows.slice_shows T.layout.name T.layout.size T.layout.needs_drop T.may_show s.0.now };

    ghost is_strict = { T.is_strict };

    fn enter(self, visitor: &mut Visitor<'_>) -> Result<(), Refusal> {
        visitor.visit_slice(self.0)
    }
}

/// What each item shows, in order, as `Each(vec)`.
///
/// ```
/// Inside("Rows", 24, Each(&self.rows)).enter(visitor)
/// ```
#[derive(Drop)]
pub struct Each<V>(pub V);

impl<'a, T: Allocative> Part for Each<&'a Vec<T>> {
    ghost may_show = { λ s. shows.each_shows T.may_show s.0.now.items };

    ghost is_strict = { T.is_strict };

    fn enter(self, visitor: &mut Visitor<'_>) -> Result<(), Refusal> {
        visitor.visit_each(self.0)
    }
}

/// The items of a sequence that is in two slices, as `TwoSlices(front, back)`. The errors are those of
/// `Visitor::visit_slice` for each slice.
#[derive(Drop)]
pub struct TwoSlices<V>(pub V, pub V);

impl<'a, T: Allocative + Described> Part for TwoSlices<&'a [T]> {
    ghost may_show = { λ s. cut_shows T.layout.name T.layout.size T.layout.needs_drop T.may_show (s.0.now ++ s.1.now) };

    ghost is_strict = { T.is_strict };

    fn enter(self, visitor: &mut Visitor<'_>) -> Result<(), Refusal> {
        (Items(self.0), Items(self.1)).enter(visitor)
    }
}

/// A field under the key for each item, as `FieldEach(key, items)`. The fields of a hashed set come in any
/// order. Its word is `each_shows (field_of key size shown) items`, with `field_of` of `Runs`.
///
/// ```
/// Inside("Tags", 24, FieldEach("tag", self.tags.as_slice())).enter(visitor)
/// ```
#[derive(Drop)]
pub struct FieldEach<K, V>(pub K, pub V);

impl<'a, K: IntoKey, T: Allocative + Described> Part for FieldEach<K, &'a [T]> {
    ghost may_show = { λ s. shows.each_shows (field_of (K.key s.0) T.layout.size T.may_show) s.1.now };

    ghost is_strict = { T.is_strict };

    fn enter(self, visitor: &mut Visitor<'_>) -> Result<(), Refusal> {
        visitor.visit_fields(self.0.into_key(), self.1)
    }
}

impl<'a, K: IntoKey, T: Allocative + Described> Part for FieldEach<K, &'a LinkedList<T>> {
    ghost may_show = { λ s. shows.each_shows (field_of (K.key s.0) T.layout.size T.may_show) s.1.now };

    ghost is_strict = { T.is_strict };

    fn enter(self, visitor: &mut Visitor<'_>) -> Result<(), Refusal> {
        visitor.visit_run(FieldUnder(self.0.into_key()), self.1.iter())
    }
}

impl<'a, K: IntoKey, T: Allocative + Described + Ord> Part for FieldEach<K, &'a BTreeSet<T>> {
    ghost may_show = { λ s. shows.each_shows (field_of (K.key s.0) T.layout.size T.may_show) s.1.now.keys };

    ghost is_strict = { T.is_strict };

    fn enter(self, visitor: &mut Visitor<'_>) -> Result<(), Refusal> {
        visitor.visit_run(FieldUnder(self.0.into_key()), self.1.iter())
    }
}

impl<'a, K: IntoKey, T: Allocative + Described + Eq + Hash, S: BuildHasher> Part
    for FieldEach<K, &'a HashSet<T, S>> {
    ghost may_show = { λ s. in_any_order (field_of (K.key s.0) T.layout.size T.may_show) s.1.now.keys };

    ghost is_strict = { T.is_strict };

    fn enter(self, visitor: &mut Visitor<'_>) -> Result<(), Refusal> {
        visitor.visit_run(FieldUnder(self.0.into_key()), self.1.iter())
    }
}

impl<'a, K: IntoKey, T: Allocative + Described + Eq + Hash, S: BuildHasher> Part
    for FieldEach<K, &'a IndexSet<T, S>> {
    ghost may_show = { λ s. shows.each_shows (field_of (K.key s.0) T.layout.size T.may_show) s.1.now.keys };

    ghost is_strict = { T.is_strict };

    fn enter(self, visitor: &mut Visitor<'_>) -> Result<(), Refusal> {
        visitor.visit_run(FieldUnder(self.0.into_key()), self.1.iter())
    }
}

/// The fields `key` and `value` for each pair of a map, as `Pairs(map)`. The fields of a hashed map come in any
/// order. Its word is `each_shows (pair_shows key_size key_shown value_size value_shown) entries`, with `pair_shows`
/// of `Runs`.
///
/// ```
/// Inside("Index", 24, Pairs(&self.by_name)).enter(visitor)
/// ```
#[derive(Drop)]
pub struct Pairs<V>(pub V);

impl<'a, K: Allocative + Described + Ord, V: Allocative + Described> Part
    for Pairs<&'a BTreeMap<K, V>> {
    ghost may_show = { λ m. shows.each_shows (pair_shows K.layout.size K.may_show V.layout.size V.may_show)
        m.0.now.entries };

    ghost is_strict = { K.is_strict && V.is_strict };

    fn enter(self, visitor: &mut Visitor<'_>) -> Result<(), Refusal> {
        visitor.visit_run(KeyAndValue, self.0.iter())
    }
}

impl<'a, K: Allocative + Described + Eq + Hash, V: Allocative + Described, S: BuildHasher> Part
    for Pairs<&'a HashMap<K, V, S>> {
    ghost may_show = { λ m. in_any_order (pair_shows K.layout.size K.may_show V.layout.size V.may_show)
        m.0.now.entries };

    ghost is_strict = { K.is_strict && V.is_strict };

    fn enter(self, visitor: &mut Visitor<'_>) -> Result<(), Refusal> {
        visitor.visit_run(KeyAndValue, self.0.iter())
    }
}

impl<'a, K: Allocative + Described + Eq + Hash, V: Allocative + Described, S: BuildHasher> Part
    for Pairs<&'a IndexMap<K, V, S>> {
    ghost may_show = { λ m. shows.each_shows (pair_shows K.layout.size K.may_show V.layout.size V.may_show)
        m.0.now.entries };

    ghost is_strict = { K.is_strict && V.is_strict };

    fn enter(self, visitor: &mut Visitor<'_>) -> Result<(), Refusal> {
        visitor.visit_run(KeyAndValue, self.0.iter())
    }
}

impl<'a, K: Allocative + Described + Eq + Hash, V: Allocative + Described, S: BuildHasher> Part
    for Pairs<&'a LruCache<K, V, S>> {
    ghost may_show = { λ m. shows.each_shows (pair_shows K.layout.size K.may_show V.layout.size V.may_show)
        m.0.now.entries };

    ghost is_strict = { K.is_strict && V.is_strict };

    fn enter(self, visitor: &mut Visitor<'_>) -> Result<(), Refusal> {
        visitor.visit_run(KeyAndValue, self.0.iter())
    }
}

/// The entry `unused_capacity`, with the bytes of `count` unused places. If an item has no size, or the
/// bytes do not fit, `enter` returns `TooLarge`. Its word is `bytes_shown (codes "unused_capacity") item_size count`,
/// of `Bodies`.
#[derive(Drop)]
pub struct Unused {
    /// The declared size of an item in bytes.
    pub item_size: Option<usize>,
    /// The number of unused places.
    pub count: usize,
}

impl Part for Unused {
    ghost may_show = { λ u. bytes_shown (codes "unused_capacity") u.item_size u.count };

    ghost is_strict = { true };

    #[inline(always)]
    fn enter(self, visitor: &mut Visitor<'_>) -> Result<(), Refusal> {
        let bytes = self.item_size.and_then(|size| size.checked_mul(self.count));
        Declared("unused_capacity", bytes, ()).enter(visitor)
    }
}

/// The buffer of a container on the heap: nothing if its items have size 0, or if `count` and `capacity`
/// are both 0; otherwise a unique entry `ptr` of 8 bytes, with the items and the entry of the unused places
/// inside it. If an item has no size, `enter` returns `TooLarge`. Its word is `buffer_shows item_size shown count
/// capacity`, of `Bodies`.
///
/// ```
/// let buffer = Buffer {
///     items: Items(self.rows.as_slice()),
///     item_size: T::size(),
///     count: self.rows.len(),
///     capacity: self.rows.capacity(),
/// };
/// Inside("Table", 24, buffer).enter(visitor)
/// ```
#[derive(Drop)]
pub struct Buffer<P> {
    /// What the items show.
    pub items: P,
    /// The declared size of an item in bytes.
    pub item_size: Option<usize>,
    /// The number of items.
    pub count: usize,
    /// The number of items that there is room for.
    pub capacity: usize,
}

impl<P: Part> Part for Buffer<P> {
    ghost may_show = { λ b. buffer_shows b.item_size (P.may_show b.items) b.count b.capacity };

    ghost is_strict = { P.is_strict };

    fn enter(self, visitor: &mut Visitor<'_>) -> Result<(), Refusal> {
        let Some(size) = self.item_size else {
            return Err(visitor.refuse(Refusal::TooLarge));
        };
        if size == 0 {
            return Ok(());
        }
        if self.count == 0 && self.capacity == 0 {
            return Ok(());
        }
        let unused = Unused {
            item_size: self.item_size,
            count: self.capacity.saturating_sub(self.count),
        };
        Unique("ptr", 8, (self.items, unused)).enter(visitor)
    }
}

/// The buffer of a text: a unique entry `ptr` of 8 bytes, inside it an entry `capacity`, and inside that an
/// entry `u8` of the text's bytes and an entry `unused_capacity`. Its word is `text_shows length capacity`, of
/// `Bodies`.
///
/// ```
/// Inside("Name", 24, Text(&self.name)).enter(visitor)
/// ```
#[derive(Drop)]
pub struct Text<'a>(pub &'a String);

impl<'a> Part for Text<'a> {
    ghost may_show = { λ t. text_shows (length (string_bytes t.0.now)) (string_capacity t.0.now) };

    ghost is_strict = { true };

    fn enter(self, visitor: &mut Visitor<'_>) -> Result<(), Refusal> {
        let used = Inside("u8", self.0.len(), ());
        let room = self.0.capacity() - self.0.len();
        let unused = Inside("unused_capacity", room, ());
        let bytes = Inside("capacity", self.0.capacity(), (used, unused));
        Unique("ptr", 8, bytes).enter(visitor)
    }
}

/// The hash table of some number of items: nothing if that is 0, otherwise a unique entry `raw_table` of 8
/// bytes, with an entry `alloc` of the table's bytes inside it.
#[derive(Drop)]
pub struct Table(pub usize);

impl Part for Table {
    ghost may_show = { λ t. table_shows t.0 };

    ghost is_strict = { true };

    fn enter(self, visitor: &mut Visitor<'_>) -> Result<(), Refusal> {
        if self.0 == 0 {
            return Ok(());
        }
        let bytes = raw_table_alloc_size_for_len::<u64>(self.0);
        Unique("raw_table", 8, Declared("alloc", bytes, ())).enter(visitor)
    }
}
