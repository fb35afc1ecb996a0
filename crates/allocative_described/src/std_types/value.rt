//! Addresses, times and durations, `Reverse`, `Wrapping`, `ManuallyDrop` and `PhantomData`.

ghost use Rattle.std.specs.Prelude.{codes, false};
ghost use Rattle.allocative_described.specs.Layouts.{declaration, declared};

use crate::described::Described;
use crate::layout::Layout;
use std::cmp::Reverse;
use std::marker::PhantomData;
use std::mem::ManuallyDrop;
use std::net::{IpAddr, Ipv4Addr, Ipv6Addr};
use std::num::Wrapping;
use std::time::{Duration, Instant, SystemTime};

impl Described for IpAddr {
    ghost layout = { declared (codes "IpAddr") 17 1 false };

    fn layout() -> Layout {
        Layout::new("IpAddr", 17, 1, false)
    }
}

impl Described for Ipv4Addr {
    ghost layout = { declared (codes "Ipv4Addr") 4 1 false };

    fn layout() -> Layout {
        Layout::new("Ipv4Addr", 4, 1, false)
    }
}

impl Described for Ipv6Addr {
    ghost layout = { declared (codes "Ipv6Addr") 16 1 false };

    fn layout() -> Layout {
        Layout::new("Ipv6Addr", 16, 1, false)
    }
}

impl Described for Duration {
    ghost layout = { declared (codes "Duration") 16 8 false };

    fn layout() -> Layout {
        Layout::new("Duration", 16, 8, false)
    }
}

impl Described for Instant {
    ghost layout = { declared (codes "Instant") 16 8 false };

    fn layout() -> Layout {
        Layout::new("Instant", 16, 8, false)
    }
}

impl Described for SystemTime {
    ghost layout = { declared (codes "SystemTime") 16 8 false };

    fn layout() -> Layout {
        Layout::new("SystemTime", 16, 8, false)
    }
}

// The value alone, which is not dropped automatically.
impl<V: Described> Described for ManuallyDrop<V> {
    ghost layout = { declaration (codes "ManuallyDrop") V.layout.size V.layout.align false };

    fn layout() -> Layout {
        Layout {
            name: "ManuallyDrop",
            needs_drop: false,
            ..V::layout()
        }
    }
}

impl<T> Described for PhantomData<T> {
    ghost layout = { declared (codes "PhantomData") 0 1 false };

    fn layout() -> Layout {
        Layout::new("PhantomData", 0, 1, false)
    }
}

impl<T: Described> Described for Reverse<T> {
    ghost layout = { declaration (codes "Reverse") T.layout.size T.layout.align T.layout.needs_drop };

    fn layout() -> Layout {
        Layout {
            name: "Reverse",
            ..T::layout()
        }
    }
}

impl<T: Described> Described for Wrapping<T> {
    ghost layout = { declaration (codes "Wrapping") T.layout.size T.layout.align T.layout.needs_drop };

    fn layout() -> Layout {
        Layout {
            name: "Wrapping",
            ..T::layout()
        }
    }
}
