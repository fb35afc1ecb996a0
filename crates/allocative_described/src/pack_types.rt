//! Types of the crates that this one depends on.

ghost use Rattle.std.specs.Prelude.{codes, true, false};
ghost use Rattle.allocative_described.specs.Layouts.{declared, ◌with◌, ◌or◌, pad_to_align};

use crate::described::Described;
use crate::layout::Layout;
use either::Either;
use indexmap::{IndexMap, IndexSet};
use lru::LruCache;
use once_cell::race::OnceBox;
use serde_json::{Number, Value};
use slab::Slab;
use smallvec::SmallVec;
use std::hash::{BuildHasher, Hash};

// A byte for the tag, then room for either part.
impl<L: Described, R: Described> Described for Either<L, R> {
    ghost layout = { pad_to_align (declared (codes "Either") 1 1 false with (L.layout or R.layout)) };

    fn layout() -> Layout {
        Layout::new("Either", 1, 1, false)
            .with(L::layout().or(R::layout()))
            .pad_to_align()
    }
}

impl Described for anyhow::Error {
    ghost layout = { declared (codes "anyhow::Error") 8 8 true };

    fn layout() -> Layout {
        Layout::new("anyhow::Error", 8, 8, true)
    }
}

// Entries of 24 bytes and a table of 32, then what makes its hashers.
impl<K: Eq + Hash, V, S: BuildHasher + Described> Described for IndexMap<K, V, S> {
    ghost layout = { pad_to_align (declared (codes "IndexMap") 56 8 true with S.layout) };

    fn layout() -> Layout {
        Layout::new("IndexMap", 56, 8, true)
            .with(S::layout())
            .pad_to_align()
    }
}

// A map without values.
impl<K: Eq + Hash, S: BuildHasher + Described> Described for IndexSet<K, S> {
    ghost layout = { pad_to_align (declared (codes "IndexSet") 56 8 true with S.layout) };

    fn layout() -> Layout {
        Layout::new("IndexSet", 56, 8, true)
            .with(S::layout())
            .pad_to_align()
    }
}

// A map of 32 bytes, a bound and two pointers of 8 bytes each, then what makes the map's hashers.
impl<K: Eq + Hash, V, S: BuildHasher + Described> Described for LruCache<K, V, S> {
    ghost layout = { pad_to_align (declared (codes "LruCache") 56 8 true with S.layout) };

    fn layout() -> Layout {
        Layout::new("LruCache", 56, 8, true)
            .with(S::layout())
            .pad_to_align()
    }
}

impl Described for Value {
    ghost layout = { declared (codes "Value") 32 8 true };

    fn layout() -> Layout {
        Layout::new("Value", 32, 8, true)
    }
}

impl Described for Number {
    ghost layout = { declared (codes "Number") 16 8 false };

    fn layout() -> Layout {
        Layout::new("Number", 16, 8, false)
    }
}

impl<T> Described for OnceBox<T> {
    ghost layout = { declared (codes "OnceBox") 8 8 true };

    fn layout() -> Layout {
        Layout::new("OnceBox", 8, 8, true)
    }
}

impl<T> Described for Slab<T> {
    ghost layout = { declared (codes "Slab") 40 8 true };

    fn layout() -> Layout {
        Layout::new("Slab", 40, 8, true)
    }
}

// A capacity of 8 bytes, then room for a pointer and a length of 8 bytes each, or for N items.
impl<T: Described, const N: usize> Described for SmallVec<T, N> {
    ghost layout = { pad_to_align (declared (codes "SmallVec") 8 8 true with
        (declared (codes "pointer") 16 8 true or ⟦<[T; N] as Described>⟧.layout)) };

    fn layout() -> Layout {
        let pointer = Layout::new("pointer", 16, 8, true);
        Layout::new("SmallVec", 8, 8, true)
            .with(pointer.or(<[T; N]>::layout()))
            .pad_to_align()
    }
}
