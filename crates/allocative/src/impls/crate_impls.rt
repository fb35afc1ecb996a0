//! What the types of the crates that this one depends on show.
ghost use Rattle.std.specs.FinMap.{len};
ghost use Rattle.std.specs.Prelude.{◌&&◌, true, codes, Some};
ghost use Rattle.slab.specs.Slab.{values};
ghost use Rattle.allocative_graph.specs.Shows as shows;
ghost use Rattle.allocative_graph.specs.Shows.{Nothing};
ghost use Rattle.allocative.specs.PackShows.{either_inside, graph_inside, index_map_inside, index_set_inside};
ghost use Rattle.allocative.specs.PackShows.{lru_cache_inside, once_inside, slab_inside, small_vec_inside};

pub mod json;

use crate::part::containers::Table;
use crate::visitor::iterators::Itself;
use crate::visitor::slices::are_shown_each;
use crate::{
    Allocative, Buffer, Declared, Described, Field, FieldEach, FlameGraph, Inside, Key, Pairs,
    Part, Refusal, Unique, Unused, Visitor, Whole,
};
use either::{Either, Left, Right};
use indexmap::{IndexMap, IndexSet};
use lru::LruCache;
use once_cell::race::OnceBox;
use slab::Slab;
use smallvec::SmallVec;
use std::hash::{BuildHasher, Hash};

impl<L: Allocative + Described, R: Allocative + Described> Allocative for Either<L, R> {
    ghost may_show = { λ e. shows.Field (codes "Either") ⟦<Either<L, R> as Described>⟧.layout.size
        (either_inside L.layout.size L.may_show R.layout.size R.may_show e) };

    ghost is_strict = { L.is_strict && R.is_strict };

    fn visit(&self, visitor: &mut Visitor<'_>) -> Result<(), Refusal> {
        match self {
            Left(left) => Whole(self, Field("Left", left)).enter(visitor),
            Right(right) => Whole(self, Field("Right", right)).enter(visitor),
        }
    }
}

impl Allocative for anyhow::Error {
    ghost may_show = { λ e. Nothing };

    ghost is_strict = { true };

    fn visit(&self, visitor: &mut Visitor<'_>) -> Result<(), Refusal> {
        ().enter(visitor)
    }
}

impl<
    K: Allocative + Described + Eq + Hash,
    V: Allocative + Described,
    S: BuildHasher + Described + Drop,
> Allocative for IndexMap<K, V, S> {
    ghost use Rattle.indexmap.specs.IndexMap.{spare};

    ghost may_show = { λ m. shows.Field (codes "IndexMap") ⟦<IndexMap<K, V, S> as Described>⟧.layout.size
        (index_map_inside K.layout.size K.may_show V.layout.size V.may_show ⟦<(K, V) as Described>⟧.layout.size
        m.entries (spare m)) };

    ghost is_strict = { K.is_strict && V.is_strict };

    fn visit(&self, visitor: &mut Visitor<'_>) -> Result<(), Refusal> {
        let unused = Unused {
            item_size: <(K, V)>::size(),
            count: self.capacity() - self.len(),
        };
        let data = Unique("data", 8, (Pairs(self), unused));
        Whole(self, (data, Table(self.len()))).enter(visitor)
    }
}

impl<T: Allocative + Described + Eq + Hash, S: BuildHasher + Described + Drop> Allocative
    for IndexSet<T, S> {
    ghost use Rattle.indexmap.specs.IndexSet.{spare};

    ghost may_show = { λ s. shows.Field (codes "IndexSet") ⟦<IndexSet<T, S> as Described>⟧.layout.size
        (index_set_inside T.layout.size T.may_show s.keys (spare s)) };

    ghost is_strict = { T.is_strict };

    fn visit(&self, visitor: &mut Visitor<'_>) -> Result<(), Refusal> {
        let unused = Unused {
            item_size: T::size(),
            count: self.capacity() - self.len(),
        };
        let data = Unique("data", 8, (FieldEach("value", self), unused));
        Whole(self, (data, Table(self.len()))).enter(visitor)
    }
}

#[tactic(auto, using(crate::proofs::Parts::parts, crate::proofs::Parts::strict))]
impl<
    K: Allocative + Described + Eq + Hash,
    V: Allocative + Described,
    S: BuildHasher + Described + Drop,
> Allocative for LruCache<K, V, S> {
    ghost may_show = { λ c. shows.Field (codes "LruCache") ⟦<LruCache<K, V, S> as Described>⟧.layout.size
        (lru_cache_inside K.layout.size K.may_show V.layout.size V.may_show c.entries) };

    ghost is_strict = { K.is_strict && V.is_strict };

    fn visit(&self, visitor: &mut Visitor<'_>) -> Result<(), Refusal> {
        let pairs = Unique("ptr", 8, Pairs(self));
        Whole(self, (pairs, Table(self.len()))).enter(visitor)
    }
}

#[tactic(auto, using(crate::proofs::Parts::parts))]
impl<T: Allocative> Allocative for OnceBox<T> {
    ghost may_show = { λ b. shows.Inside (codes "OnceBox") 8 (once_inside T.may_show) };

    fn visit(&self, visitor: &mut Visitor<'_>) -> Result<(), Refusal> {
        let name = "OnceBox";
        match self.get() {
            None => Inside(name, 8, ()).enter(visitor),
            Some(value) => Inside(name, 8, Unique("ptr", 8, value)).enter(visitor),
        }
    }
}

/// The slice of a slab's values, in the order of their keys.
#[derive(Drop)]
pub(crate) struct Values<'a, T>(pub(crate) &'a Slab<T>);

impl<'a, T: Allocative + Described> Part for Values<'a, T> {
    ghost may_show = { λ s. shows.slice_shows T.layout.name T.layout.size T.layout.needs_drop T.may_show
        (values s.0.now) };

    ghost is_strict = { T.is_strict };

    fn enter(self, visitor: &mut Visitor<'_>) -> Result<(), Refusal> {
        if are_shown_each::<T>() {
            let values = self.0.iter().map(|(_key, value)| value);
            return visitor.visit_run(Itself, values);
        }
        visitor.visit_total_bytes::<T>(Key::for_type_name::<T>(), Some(self.0.len()))
    }
}

impl<T: Allocative + Described> Allocative for Slab<T> {
    ghost may_show = { λ s. shows.Inside (codes "Slab") 40 (slab_inside T.layout.name T.layout.size T.layout.needs_drop
        T.may_show s) };

    ghost is_strict = { T.is_strict };

    fn visit(&self, visitor: &mut Visitor<'_>) -> Result<(), Refusal> {
        let buffer = Buffer {
            items: Values(self),
            item_size: T::size(),
            count: self.len(),
            capacity: self.capacity(),
        };
        Inside("Slab", 40, buffer).enter(visitor)
    }
}

impl<T: Allocative + Described, const N: usize> Allocative for SmallVec<T, N> {
    ghost may_show = { λ v. shows.Field (codes "SmallVec") ⟦<SmallVec<T, N> as Described>⟧.layout.size
        (small_vec_inside N T.layout.size T.may_show v) };

    ghost is_strict = { T.is_strict };

    fn visit(&self, visitor: &mut Visitor<'_>) -> Result<(), Refusal> {
        let items = FieldEach("data", self.as_slice());
        if self.spilled() {
            Whole(self, Unique("ptr", 8, items)).enter(visitor)
        } else {
            Whole(self, items).enter(visitor)
        }
    }
}

// A pointer to the nodes below the root, each of a key of 16 bytes and a graph of 40. Keys do not own their texts, and
// unused places of a list of nodes are not counted.
impl Allocative for FlameGraph {
    ghost may_show = { λ g. shows.Field (codes "FlameGraph") (Some 40) (graph_inside (len g)) };

    ghost is_strict = { true };

    fn visit(&self, visitor: &mut Visitor<'_>) -> Result<(), Refusal> {
        let paths = self.path_count();
        let bytes = paths.and_then(|all| all.saturating_sub(1).checked_mul(56));
        let nodes = Declared("Child", bytes, ());
        Whole(self, Unique("ptr", 8, nodes)).enter(visitor)
    }
}
