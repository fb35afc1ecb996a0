//! Numbers, `char`, `bool`, numbers that are not zero, and `()`: each number is as large as its alignment, a number
//! that is not zero is as large as the number, and nothing has a drop.

ghost use Rattle.std.specs.Prelude.{codes, false};
ghost use Rattle.allocative_described.specs.Layouts.{declared};

use crate::described::Described;
use crate::layout::Layout;
use std::num::{
    NonZeroI8, NonZeroI16, NonZeroI32, NonZeroI64, NonZeroIsize, NonZeroU8, NonZeroU16, NonZeroU32,
    NonZeroU64, NonZeroUsize,
};

impl Described for u8 {
    ghost layout = { declared (codes "u8") 1 1 false };

    fn layout() -> Layout {
        Layout::new("u8", 1, 1, false)
    }
}

impl Described for u16 {
    ghost layout = { declared (codes "u16") 2 2 false };

    fn layout() -> Layout {
        Layout::new("u16", 2, 2, false)
    }
}

impl Described for u32 {
    ghost layout = { declared (codes "u32") 4 4 false };

    fn layout() -> Layout {
        Layout::new("u32", 4, 4, false)
    }
}

impl Described for u64 {
    ghost layout = { declared (codes "u64") 8 8 false };

    fn layout() -> Layout {
        Layout::new("u64", 8, 8, false)
    }
}

impl Described for u128 {
    ghost layout = { declared (codes "u128") 16 16 false };

    fn layout() -> Layout {
        Layout::new("u128", 16, 16, false)
    }
}

impl Described for usize {
    ghost layout = { declared (codes "usize") 8 8 false };

    fn layout() -> Layout {
        Layout::new("usize", 8, 8, false)
    }
}

impl Described for i8 {
    ghost layout = { declared (codes "i8") 1 1 false };

    fn layout() -> Layout {
        Layout::new("i8", 1, 1, false)
    }
}

impl Described for i16 {
    ghost layout = { declared (codes "i16") 2 2 false };

    fn layout() -> Layout {
        Layout::new("i16", 2, 2, false)
    }
}

impl Described for i32 {
    ghost layout = { declared (codes "i32") 4 4 false };

    fn layout() -> Layout {
        Layout::new("i32", 4, 4, false)
    }
}

impl Described for i64 {
    ghost layout = { declared (codes "i64") 8 8 false };

    fn layout() -> Layout {
        Layout::new("i64", 8, 8, false)
    }
}

impl Described for i128 {
    ghost layout = { declared (codes "i128") 16 16 false };

    fn layout() -> Layout {
        Layout::new("i128", 16, 16, false)
    }
}

impl Described for isize {
    ghost layout = { declared (codes "isize") 8 8 false };

    fn layout() -> Layout {
        Layout::new("isize", 8, 8, false)
    }
}

impl Described for f32 {
    ghost layout = { declared (codes "f32") 4 4 false };

    fn layout() -> Layout {
        Layout::new("f32", 4, 4, false)
    }
}

impl Described for f64 {
    ghost layout = { declared (codes "f64") 8 8 false };

    fn layout() -> Layout {
        Layout::new("f64", 8, 8, false)
    }
}

impl Described for char {
    ghost layout = { declared (codes "char") 4 4 false };

    fn layout() -> Layout {
        Layout::new("char", 4, 4, false)
    }
}

impl Described for bool {
    ghost layout = { declared (codes "bool") 1 1 false };

    fn layout() -> Layout {
        Layout::new("bool", 1, 1, false)
    }
}

impl Described for NonZeroU8 {
    ghost layout = { declared (codes "NonZeroU8") 1 1 false };

    fn layout() -> Layout {
        Layout::new("NonZeroU8", 1, 1, false)
    }
}

impl Described for NonZeroU16 {
    ghost layout = { declared (codes "NonZeroU16") 2 2 false };

    fn layout() -> Layout {
        Layout::new("NonZeroU16", 2, 2, false)
    }
}

impl Described for NonZeroU32 {
    ghost layout = { declared (codes "NonZeroU32") 4 4 false };

    fn layout() -> Layout {
        Layout::new("NonZeroU32", 4, 4, false)
    }
}

impl Described for NonZeroU64 {
    ghost layout = { declared (codes "NonZeroU64") 8 8 false };

    fn layout() -> Layout {
        Layout::new("NonZeroU64", 8, 8, false)
    }
}

impl Described for NonZeroUsize {
    ghost layout = { declared (codes "NonZeroUsize") 8 8 false };

    fn layout() -> Layout {
        Layout::new("NonZeroUsize", 8, 8, false)
    }
}

impl Described for NonZeroI8 {
    ghost layout = { declared (codes "NonZeroI8") 1 1 false };

    fn layout() -> Layout {
        Layout::new("NonZeroI8", 1, 1, false)
    }
}

impl Described for NonZeroI16 {
    ghost layout = { declared (codes "NonZeroI16") 2 2 false };

    fn layout() -> Layout {
        Layout::new("NonZeroI16", 2, 2, false)
    }
}

impl Described for NonZeroI32 {
    ghost layout = { declared (codes "NonZeroI32") 4 4 false };

    fn layout() -> Layout {
        Layout::new("NonZeroI32", 4, 4, false)
    }
}

impl Described for NonZeroI64 {
    ghost layout = { declared (codes "NonZeroI64") 8 8 false };

    fn layout() -> Layout {
        Layout::new("NonZeroI64", 8, 8, false)
    }
}

impl Described for NonZeroIsize {
    ghost layout = { declared (codes "NonZeroIsize") 8 8 false };

    fn layout() -> Layout {
        Layout::new("NonZeroIsize", 8, 8, false)
    }
}

impl Described for () {
    ghost layout = { declared (codes "()") 0 1 false };

    fn layout() -> Layout {
        Layout::new("()", 0, 1, false)
    }
}
