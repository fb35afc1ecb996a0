//! Cells and locks, as Rust lays them out on Linux: the value, and the bytes that say who may use it. A `OnceCell` has
//! the size of an `Option`, whose tag takes a byte here also where Rust needs none.

ghost use Rattle.std.specs.Prelude.{codes, true, false};
ghost use Rattle.allocative_described.specs.Layouts.{declaration, declared, ◌with◌, pad_to_align};

use crate::described::Described;
use crate::layout::Layout;
use std::cell::{Cell, OnceCell, RefCell};
use std::sync::{Mutex, OnceLock, RwLock};

// The value alone.
impl<T: Described> Described for Cell<T> {
    ghost layout = { declaration (codes "Cell") T.layout.size T.layout.align T.layout.needs_drop };

    fn layout() -> Layout {
        Layout {
            name: "Cell",
            ..T::layout()
        }
    }
}

// A count of borrows of 8 bytes, then the value.
impl<T: Described> Described for RefCell<T> {
    ghost layout = { pad_to_align (declared (codes "RefCell") 8 8 false with T.layout) };

    fn layout() -> Layout {
        Layout::new("RefCell", 8, 8, false)
            .with(T::layout())
            .pad_to_align()
    }
}

// An `Option`: a byte for the tag, then the value.
impl<T: Described> Described for OnceCell<T> {
    ghost layout = { pad_to_align (declared (codes "OnceCell") 1 1 false with T.layout) };

    fn layout() -> Layout {
        Layout::new("OnceCell", 1, 1, false)
            .with(T::layout())
            .pad_to_align()
    }
}

// A lock of 4 bytes and a flag of one, then the value.
impl<T: Described> Described for Mutex<T> {
    ghost layout = { pad_to_align (declared (codes "Mutex") 5 4 false with T.layout) };

    fn layout() -> Layout {
        Layout::new("Mutex", 5, 4, false)
            .with(T::layout())
            .pad_to_align()
    }
}

// A lock of 8 bytes and a flag of one, then the value.
impl<T: Described> Described for RwLock<T> {
    ghost layout = { pad_to_align (declared (codes "RwLock") 9 4 false with T.layout) };

    fn layout() -> Layout {
        Layout::new("RwLock", 9, 4, false)
            .with(T::layout())
            .pad_to_align()
    }
}

// A lock of 4 bytes, then the value. The type has a drop of its own.
impl<T: Described> Described for OnceLock<T> {
    ghost layout = { pad_to_align (declared (codes "OnceLock") 4 4 true with T.layout) };

    fn layout() -> Layout {
        Layout::new("OnceLock", 4, 4, true)
            .with(T::layout())
            .pad_to_align()
    }
}
