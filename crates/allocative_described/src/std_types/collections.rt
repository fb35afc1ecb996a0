//! Collections: each is as large as its control, whatever it holds. What makes the hashers of a map has two keys of 8
//! bytes.

ghost use Rattle.std.specs.Prelude.{codes, true, false};
ghost use Rattle.allocative_described.specs.Layouts.{declared, ◌with◌, pad_to_align};

use crate::described::Described;
use crate::layout::Layout;
use std::collections::{BTreeMap, BTreeSet, BinaryHeap, HashMap, HashSet, LinkedList, VecDeque};
use std::hash::{BuildHasher, BuildHasherDefault, FoldHasher, Hash, RandomState};

impl Described for String {
    ghost layout = { declared (codes "String") 24 8 true };

    fn layout() -> Layout {
        Layout::new("String", 24, 8, true)
    }
}

impl<T> Described for Vec<T> {
    ghost layout = { declared (codes "Vec") 24 8 true };

    fn layout() -> Layout {
        Layout::new("Vec", 24, 8, true)
    }
}

impl<T> Described for VecDeque<T> {
    ghost layout = { declared (codes "VecDeque") 32 8 true };

    fn layout() -> Layout {
        Layout::new("VecDeque", 32, 8, true)
    }
}

impl<T> Described for LinkedList<T> {
    ghost layout = { declared (codes "LinkedList") 24 8 true };

    fn layout() -> Layout {
        Layout::new("LinkedList", 24, 8, true)
    }
}

impl<T: Ord> Described for BinaryHeap<T> {
    ghost layout = { declared (codes "BinaryHeap") 24 8 true };

    fn layout() -> Layout {
        Layout::new("BinaryHeap", 24, 8, true)
    }
}

impl<K: Ord, V> Described for BTreeMap<K, V> {
    ghost layout = { declared (codes "BTreeMap") 24 8 true };

    fn layout() -> Layout {
        Layout::new("BTreeMap", 24, 8, true)
    }
}

impl<K: Ord> Described for BTreeSet<K> {
    ghost layout = { declared (codes "BTreeSet") 24 8 true };

    fn layout() -> Layout {
        Layout::new("BTreeSet", 24, 8, true)
    }
}

// A table of 32 bytes, then what makes its hashers.
impl<K: Eq + Hash, V, S: BuildHasher + Described> Described for HashMap<K, V, S> {
    ghost layout = { pad_to_align (declared (codes "HashMap") 32 8 true with S.layout) };

    fn layout() -> Layout {
        Layout::new("HashMap", 32, 8, true)
            .with(S::layout())
            .pad_to_align()
    }
}

// A map without values.
impl<K: Eq + Hash, S: BuildHasher + Described> Described for HashSet<K, S> {
    ghost layout = { pad_to_align (declared (codes "HashSet") 32 8 true with S.layout) };

    fn layout() -> Layout {
        Layout::new("HashSet", 32, 8, true)
            .with(S::layout())
            .pad_to_align()
    }
}

impl Described for RandomState {
    ghost layout = { declared (codes "RandomState") 16 8 false };

    fn layout() -> Layout {
        Layout::new("RandomState", 16, 8, false)
    }
}

// The default of a map here, which counts as many bytes as Rust's default, `RandomState`.
impl Described for BuildHasherDefault<FoldHasher> {
    ghost layout = { declared (codes "BuildHasherDefault") 16 8 false };

    fn layout() -> Layout {
        Layout::new("BuildHasherDefault", 16, 8, false)
    }
}
