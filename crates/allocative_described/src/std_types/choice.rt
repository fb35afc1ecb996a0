//! Types that are one of several: `Option`, `Result`, `Bound`, `Ordering`, and `Infallible`, which is none.

ghost use Rattle.std.specs.Prelude.{codes, false};
ghost use Rattle.allocative_described.specs.Layouts.{declared, ◌with◌, ◌or◌, pad_to_align};

use crate::described::Described;
use crate::layout::Layout;
use std::cmp::Ordering;
use std::convert::Infallible;
use std::ops::Bound;

// A byte for the tag, then the part.
impl<T: Described> Described for Option<T> {
    ghost layout = { pad_to_align (declared (codes "Option") 1 1 false with T.layout) };

    fn layout() -> Layout {
        Layout::new("Option", 1, 1, false)
            .with(T::layout())
            .pad_to_align()
    }
}

// A byte for the tag, then room for either part.
impl<T: Described, E: Described> Described for Result<T, E> {
    ghost layout = { pad_to_align (declared (codes "Result") 1 1 false with (T.layout or E.layout)) };

    fn layout() -> Layout {
        Layout::new("Result", 1, 1, false)
            .with(T::layout().or(E::layout()))
            .pad_to_align()
    }
}

// A byte for the tag, then the part.
impl<T: Described> Described for Bound<T> {
    ghost layout = { pad_to_align (declared (codes "Bound") 1 1 false with T.layout) };

    fn layout() -> Layout {
        Layout::new("Bound", 1, 1, false)
            .with(T::layout())
            .pad_to_align()
    }
}

impl Described for Ordering {
    ghost layout = { declared (codes "Ordering") 1 1 false };

    fn layout() -> Layout {
        Layout::new("Ordering", 1, 1, false)
    }
}

impl Described for Infallible {
    ghost layout = { declared (codes "Infallible") 0 1 false };

    fn layout() -> Layout {
        Layout::new("Infallible", 0, 1, false)
    }
}
