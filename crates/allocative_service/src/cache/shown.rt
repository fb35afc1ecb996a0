//! What a cache shows: its map, with the key and the value of each entry.
#![tactic(auto, using(allocative::proofs::Parts::parts))]

ghost use Rattle.std.specs.Prelude.{codes, ◌&&◌};
ghost use Rattle.allocative.specs.Layouts.{empty, ◌with◌, pad_to_align};
ghost use Rattle.allocative.specs.Shows as shows;
ghost use Rattle.allocative.specs.PackShows.{lru_cache_inside};

use crate::cache::BoundedCache;
use crate::kept::Kept;
use allocative::{Allocative, Described, Field, Layout, Part, Refusal, Visitor, Whole};
use lru::LruCache;
use std::hash::{BuildHasher, Hash};

// The measure is a byte, and the allocator has no size.
impl<
    K: Eq + Hash + Allocative + Described,
    V: Allocative + Described,
    S: BuildHasher + Described,
> Described for BoundedCache<K, V, S> {
    ghost layout = { pad_to_align (empty (codes "BoundedCache") with ⟦<u8 as Described>⟧.layout
        with ⟦<LruCache<K, Kept<V>, S> as Described>⟧.layout with ⟦<usize as Described>⟧.layout
        with ⟦<usize as Described>⟧.layout) };

    fn layout() -> Layout {
        Layout::empty("BoundedCache")
            .with(u8::layout())
            .with(<LruCache<K, Kept<V>, S>>::layout())
            .with(usize::layout())
            .with(usize::layout())
            .pad_to_align()
    }
}

impl<
    K: Allocative + Described + Eq + Hash,
    V: Allocative + Described,
    S: BuildHasher + Described + Drop,
> Allocative for BoundedCache<K, V, S> {
    ghost may_show = { λ c. shows.Field (codes "BoundedCache") ⟦<BoundedCache<K, V, S> as Described>⟧.layout.size
        (shows.Field (codes "entries") ⟦<LruCache<K, Kept<V>, S> as Described>⟧.layout.size
        (shows.Field (codes "LruCache") ⟦<LruCache<K, Kept<V>, S> as Described>⟧.layout.size
        (lru_cache_inside K.layout.size K.may_show ⟦<Kept<V> as Described>⟧.layout.size
        ⟦<Kept<V> as Allocative>⟧.may_show c.entries))) };

    ghost is_strict = { K.is_strict && V.is_strict };

    fn visit(&self, visitor: &mut Visitor<'_>) -> Result<(), Refusal> {
        let entries = Field("entries", &self.entries);
        Whole(self, entries).enter(visitor)
    }
}
