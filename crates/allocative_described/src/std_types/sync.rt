//! Atomics: each is as large as the number or `bool` that it holds. No atomic is read or written.

ghost use Rattle.std.specs.Prelude.{codes, false};
ghost use Rattle.allocative_described.specs.Layouts.{declared};

use crate::described::Described;
use crate::layout::Layout;
use std::sync::atomic::{
    AtomicBool, AtomicI8, AtomicI16, AtomicI32, AtomicI64, AtomicIsize, AtomicU8, AtomicU16,
    AtomicU32, AtomicU64, AtomicUsize,
};

impl Described for AtomicU8 {
    ghost layout = { declared (codes "AtomicU8") 1 1 false };

    fn layout() -> Layout {
        Layout::new("AtomicU8", 1, 1, false)
    }
}

impl Described for AtomicU16 {
    ghost layout = { declared (codes "AtomicU16") 2 2 false };

    fn layout() -> Layout {
        Layout::new("AtomicU16", 2, 2, false)
    }
}

impl Described for AtomicU32 {
    ghost layout = { declared (codes "AtomicU32") 4 4 false };

    fn layout() -> Layout {
        Layout::new("AtomicU32", 4, 4, false)
    }
}

impl Described for AtomicU64 {
    ghost layout = { declared (codes "AtomicU64") 8 8 false };

    fn layout() -> Layout {
        Layout::new("AtomicU64", 8, 8, false)
    }
}

impl Described for AtomicUsize {
    ghost layout = { declared (codes "AtomicUsize") 8 8 false };

    fn layout() -> Layout {
        Layout::new("AtomicUsize", 8, 8, false)
    }
}

impl Described for AtomicI8 {
    ghost layout = { declared (codes "AtomicI8") 1 1 false };

    fn layout() -> Layout {
        Layout::new("AtomicI8", 1, 1, false)
    }
}

impl Described for AtomicI16 {
    ghost layout = { declared (codes "AtomicI16") 2 2 false };

    fn layout() -> Layout {
        Layout::new("AtomicI16", 2, 2, false)
    }
}

impl Described for AtomicI32 {
    ghost layout = { declared (codes "AtomicI32") 4 4 false };

    fn layout() -> Layout {
        Layout::new("AtomicI32", 4, 4, false)
    }
}

impl Described for AtomicI64 {
    ghost layout = { declared (codes "AtomicI64") 8 8 false };

    fn layout() -> Layout {
        Layout::new("AtomicI64", 8, 8, false)
    }
}

impl Described for AtomicIsize {
    ghost layout = { declared (codes "AtomicIsize") 8 8 false };

    fn layout() -> Layout {
        Layout::new("AtomicIsize", 8, 8, false)
    }
}

impl Described for AtomicBool {
    ghost layout = { declared (codes "AtomicBool") 1 1 false };

    fn layout() -> Layout {
        Layout::new("AtomicBool", 1, 1, false)
    }
}
