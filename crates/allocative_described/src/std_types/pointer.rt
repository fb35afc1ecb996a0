//! Boxes, references, and texts that are shared or borrowed. `BoxedSlice`, `BoxedStr`, `ArcStr` and `CowStr` are Rust's
//! `Box<[T]>`, `Box<str>`, `Arc<str>` and `Cow<str>`. A pointer to a slice or a text has a length of 8 bytes more.

ghost use Rattle.std.specs.Prelude.{codes, true, false};
ghost use Rattle.allocative_described.specs.Layouts.{declared};

use crate::described::Described;
use crate::layout::Layout;
use std::borrow::CowStr;
use std::boxed::{BoxedSlice, BoxedStr};
use std::sync::ArcStr;

impl<T> Described for Box<T> {
    ghost layout = { declared (codes "Box") 8 8 true };

    fn layout() -> Layout {
        Layout::new("Box", 8, 8, true)
    }
}

impl<T> Described for BoxedSlice<T> {
    ghost layout = { declared (codes "Box") 16 8 true };

    fn layout() -> Layout {
        Layout::new("Box", 16, 8, true)
    }
}

impl Described for BoxedStr {
    ghost layout = { declared (codes "Box") 16 8 true };

    fn layout() -> Layout {
        Layout::new("Box", 16, 8, true)
    }
}

impl Described for ArcStr {
    ghost layout = { declared (codes "Arc") 16 8 true };

    fn layout() -> Layout {
        Layout::new("Arc", 16, 8, true)
    }
}

impl Described for CowStr<'static> {
    ghost layout = { declared (codes "Cow") 24 8 true };

    fn layout() -> Layout {
        Layout::new("Cow", 24, 8, true)
    }
}

impl Described for &'static str {
    ghost layout = { declared (codes "&") 16 8 false };

    fn layout() -> Layout {
        Layout::new("&", 16, 8, false)
    }
}

impl<T> Described for &'static T {
    ghost layout = { declared (codes "&") 8 8 false };

    fn layout() -> Layout {
        Layout::new("&", 8, 8, false)
    }
}
