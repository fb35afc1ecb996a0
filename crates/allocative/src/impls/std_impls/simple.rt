//! Types of one entry each: numbers, numbers that are not zero, `char`, `bool`, the unit type, atomics, of which none
//! is read, addresses, times and durations, `Ordering`, and texts that may be another's, of which the size alone is
//! shown.

ghost use Rattle.std.specs.Prelude.{true, codes};
ghost use Rattle.allocative.specs.StdShows.{Leaf};

use crate::{Allocative, Refusal, Visitor};
use std::borrow::CowStr;
use std::cmp::Ordering;
use std::net::{IpAddr, Ipv4Addr, Ipv6Addr};
use std::num::{
    NonZeroI8, NonZeroI16, NonZeroI32, NonZeroI64, NonZeroIsize, NonZeroU8, NonZeroU16, NonZeroU32,
    NonZeroU64, NonZeroUsize,
};
use std::sync::ArcStr;
use std::sync::atomic::{
    AtomicBool, AtomicI8, AtomicI16, AtomicI32, AtomicI64, AtomicIsize, AtomicU8, AtomicU16,
    AtomicU32, AtomicU64, AtomicUsize,
};
use std::time::{Duration, Instant, SystemTime};

impl Allocative for u8 {
    ghost may_show = { λ _. Leaf (codes "u8") 1 };

    ghost is_strict = { true };

    fn visit(&self, visitor: &mut Visitor<'_>) -> Result<(), Refusal> {
        visitor.visit_simple_sized::<u8>()
    }
}

impl Allocative for u16 {
    ghost may_show = { λ _. Leaf (codes "u16") 2 };

    ghost is_strict = { true };

    fn visit(&self, visitor: &mut Visitor<'_>) -> Result<(), Refusal> {
        visitor.visit_simple_sized::<u16>()
    }
}

impl Allocative for u32 {
    ghost may_show = { λ _. Leaf (codes "u32") 4 };

    ghost is_strict = { true };

    fn visit(&self, visitor: &mut Visitor<'_>) -> Result<(), Refusal> {
        visitor.visit_simple_sized::<u32>()
    }
}

impl Allocative for u64 {
    ghost may_show = { λ _. Leaf (codes "u64") 8 };

    ghost is_strict = { true };

    fn visit(&self, visitor: &mut Visitor<'_>) -> Result<(), Refusal> {
        visitor.visit_simple_sized::<u64>()
    }
}

impl Allocative for u128 {
    ghost may_show = { λ _. Leaf (codes "u128") 16 };

    ghost is_strict = { true };

    fn visit(&self, visitor: &mut Visitor<'_>) -> Result<(), Refusal> {
        visitor.visit_simple_sized::<u128>()
    }
}

impl Allocative for usize {
    ghost may_show = { λ _. Leaf (codes "usize") 8 };

    ghost is_strict = { true };

    fn visit(&self, visitor: &mut Visitor<'_>) -> Result<(), Refusal> {
        visitor.visit_simple_sized::<usize>()
    }
}

impl Allocative for i8 {
    ghost may_show = { λ _. Leaf (codes "i8") 1 };

    ghost is_strict = { true };

    fn visit(&self, visitor: &mut Visitor<'_>) -> Result<(), Refusal> {
        visitor.visit_simple_sized::<i8>()
    }
}

impl Allocative for i16 {
    ghost may_show = { λ _. Leaf (codes "i16") 2 };

    ghost is_strict = { true };

    fn visit(&self, visitor: &mut Visitor<'_>) -> Result<(), Refusal> {
        visitor.visit_simple_sized::<i16>()
    }
}

impl Allocative for i32 {
    ghost may_show = { λ _. Leaf (codes "i32") 4 };

    ghost is_strict = { true };

    fn visit(&self, visitor: &mut Visitor<'_>) -> Result<(), Refusal> {
        visitor.visit_simple_sized::<i32>()
    }
}

impl Allocative for i64 {
    ghost may_show = { λ _. Leaf (codes "i64") 8 };

    ghost is_strict = { true };

    fn visit(&self, visitor: &mut Visitor<'_>) -> Result<(), Refusal> {
        visitor.visit_simple_sized::<i64>()
    }
}

impl Allocative for i128 {
    ghost may_show = { λ _. Leaf (codes "i128") 16 };

    ghost is_strict = { true };

    fn visit(&self, visitor: &mut Visitor<'_>) -> Result<(), Refusal> {
        visitor.visit_simple_sized::<i128>()
    }
}

impl Allocative for isize {
    ghost may_show = { λ _. Leaf (codes "isize") 8 };

    ghost is_strict = { true };

    fn visit(&self, visitor: &mut Visitor<'_>) -> Result<(), Refusal> {
        visitor.visit_simple_sized::<isize>()
    }
}

impl Allocative for f32 {
    ghost may_show = { λ _. Leaf (codes "f32") 4 };

    ghost is_strict = { true };

    fn visit(&self, visitor: &mut Visitor<'_>) -> Result<(), Refusal> {
        visitor.visit_simple_sized::<f32>()
    }
}

impl Allocative for f64 {
    ghost may_show = { λ _. Leaf (codes "f64") 8 };

    ghost is_strict = { true };

    fn visit(&self, visitor: &mut Visitor<'_>) -> Result<(), Refusal> {
        visitor.visit_simple_sized::<f64>()
    }
}

impl Allocative for char {
    ghost may_show = { λ _. Leaf (codes "char") 4 };

    ghost is_strict = { true };

    fn visit(&self, visitor: &mut Visitor<'_>) -> Result<(), Refusal> {
        visitor.visit_simple_sized::<char>()
    }
}

impl Allocative for bool {
    ghost may_show = { λ _. Leaf (codes "bool") 1 };

    ghost is_strict = { true };

    fn visit(&self, visitor: &mut Visitor<'_>) -> Result<(), Refusal> {
        visitor.visit_simple_sized::<bool>()
    }
}

impl Allocative for () {
    ghost may_show = { λ _. Leaf (codes "()") 0 };

    ghost is_strict = { true };

    fn visit(&self, visitor: &mut Visitor<'_>) -> Result<(), Refusal> {
        visitor.visit_simple_sized::<()>()
    }
}

impl Allocative for NonZeroU64 {
    ghost may_show = { λ _. Leaf (codes "NonZeroU64") 8 };

    ghost is_strict = { true };

    fn visit(&self, visitor: &mut Visitor<'_>) -> Result<(), Refusal> {
        visitor.visit_simple_sized::<NonZeroU64>()
    }
}

impl Allocative for NonZeroU32 {
    ghost may_show = { λ _. Leaf (codes "NonZeroU32") 4 };

    ghost is_strict = { true };

    fn visit(&self, visitor: &mut Visitor<'_>) -> Result<(), Refusal> {
        visitor.visit_simple_sized::<NonZeroU32>()
    }
}

impl Allocative for NonZeroU16 {
    ghost may_show = { λ _. Leaf (codes "NonZeroU16") 2 };

    ghost is_strict = { true };

    fn visit(&self, visitor: &mut Visitor<'_>) -> Result<(), Refusal> {
        visitor.visit_simple_sized::<NonZeroU16>()
    }
}

impl Allocative for NonZeroU8 {
    ghost may_show = { λ _. Leaf (codes "NonZeroU8") 1 };

    ghost is_strict = { true };

    fn visit(&self, visitor: &mut Visitor<'_>) -> Result<(), Refusal> {
        visitor.visit_simple_sized::<NonZeroU8>()
    }
}

impl Allocative for NonZeroI64 {
    ghost may_show = { λ _. Leaf (codes "NonZeroI64") 8 };

    ghost is_strict = { true };

    fn visit(&self, visitor: &mut Visitor<'_>) -> Result<(), Refusal> {
        visitor.visit_simple_sized::<NonZeroI64>()
    }
}

impl Allocative for NonZeroI32 {
    ghost may_show = { λ _. Leaf (codes "NonZeroI32") 4 };

    ghost is_strict = { true };

    fn visit(&self, visitor: &mut Visitor<'_>) -> Result<(), Refusal> {
        visitor.visit_simple_sized::<NonZeroI32>()
    }
}

impl Allocative for NonZeroI16 {
    ghost may_show = { λ _. Leaf (codes "NonZeroI16") 2 };

    ghost is_strict = { true };

    fn visit(&self, visitor: &mut Visitor<'_>) -> Result<(), Refusal> {
        visitor.visit_simple_sized::<NonZeroI16>()
    }
}

impl Allocative for NonZeroI8 {
    ghost may_show = { λ _. Leaf (codes "NonZeroI8") 1 };

    ghost is_strict = { true };

    fn visit(&self, visitor: &mut Visitor<'_>) -> Result<(), Refusal> {
        visitor.visit_simple_sized::<NonZeroI8>()
    }
}

impl Allocative for NonZeroUsize {
    ghost may_show = { λ _. Leaf (codes "NonZeroUsize") 8 };

    ghost is_strict = { true };

    fn visit(&self, visitor: &mut Visitor<'_>) -> Result<(), Refusal> {
        visitor.visit_simple_sized::<NonZeroUsize>()
    }
}

impl Allocative for NonZeroIsize {
    ghost may_show = { λ _. Leaf (codes "NonZeroIsize") 8 };

    ghost is_strict = { true };

    fn visit(&self, visitor: &mut Visitor<'_>) -> Result<(), Refusal> {
        visitor.visit_simple_sized::<NonZeroIsize>()
    }
}

impl Allocative for AtomicU8 {
    ghost may_show = { λ _. Leaf (codes "AtomicU8") 1 };

    ghost is_strict = { true };

    fn visit(&self, visitor: &mut Visitor<'_>) -> Result<(), Refusal> {
        visitor.visit_simple_sized::<AtomicU8>()
    }
}

impl Allocative for AtomicU16 {
    ghost may_show = { λ _. Leaf (codes "AtomicU16") 2 };

    ghost is_strict = { true };

    fn visit(&self, visitor: &mut Visitor<'_>) -> Result<(), Refusal> {
        visitor.visit_simple_sized::<AtomicU16>()
    }
}

impl Allocative for AtomicU32 {
    ghost may_show = { λ _. Leaf (codes "AtomicU32") 4 };

    ghost is_strict = { true };

    fn visit(&self, visitor: &mut Visitor<'_>) -> Result<(), Refusal> {
        visitor.visit_simple_sized::<AtomicU32>()
    }
}

impl Allocative for AtomicU64 {
    ghost may_show = { λ _. Leaf (codes "AtomicU64") 8 };

    ghost is_strict = { true };

    fn visit(&self, visitor: &mut Visitor<'_>) -> Result<(), Refusal> {
        visitor.visit_simple_sized::<AtomicU64>()
    }
}

impl Allocative for AtomicUsize {
    ghost may_show = { λ _. Leaf (codes "AtomicUsize") 8 };

    ghost is_strict = { true };

    fn visit(&self, visitor: &mut Visitor<'_>) -> Result<(), Refusal> {
        visitor.visit_simple_sized::<AtomicUsize>()
    }
}

impl Allocative for AtomicI8 {
    ghost may_show = { λ _. Leaf (codes "AtomicI8") 1 };

    ghost is_strict = { true };

    fn visit(&self, visitor: &mut Visitor<'_>) -> Result<(), Refusal> {
        visitor.visit_simple_sized::<AtomicI8>()
    }
}

impl Allocative for AtomicI16 {
    ghost may_show = { λ _. Leaf (codes "AtomicI16") 2 };

    ghost is_strict = { true };

    fn visit(&self, visitor: &mut Visitor<'_>) -> Result<(), Refusal> {
        visitor.visit_simple_sized::<AtomicI16>()
    }
}

impl Allocative for AtomicI32 {
    ghost may_show = { λ _. Leaf (codes "AtomicI32") 4 };

    ghost is_strict = { true };

    fn visit(&self, visitor: &mut Visitor<'_>) -> Result<(), Refusal> {
        visitor.visit_simple_sized::<AtomicI32>()
    }
}

impl Allocative for AtomicI64 {
    ghost may_show = { λ _. Leaf (codes "AtomicI64") 8 };

    ghost is_strict = { true };

    fn visit(&self, visitor: &mut Visitor<'_>) -> Result<(), Refusal> {
        visitor.visit_simple_sized::<AtomicI64>()
    }
}

impl Allocative for AtomicBool {
    ghost may_show = { λ _. Leaf (codes "AtomicBool") 1 };

    ghost is_strict = { true };

    fn visit(&self, visitor: &mut Visitor<'_>) -> Result<(), Refusal> {
        visitor.visit_simple_sized::<AtomicBool>()
    }
}

impl Allocative for AtomicIsize {
    ghost may_show = { λ _. Leaf (codes "AtomicIsize") 8 };

    ghost is_strict = { true };

    fn visit(&self, visitor: &mut Visitor<'_>) -> Result<(), Refusal> {
        visitor.visit_simple_sized::<AtomicIsize>()
    }
}

impl Allocative for IpAddr {
    ghost may_show = { λ _. Leaf (codes "IpAddr") 17 };

    ghost is_strict = { true };

    fn visit(&self, visitor: &mut Visitor<'_>) -> Result<(), Refusal> {
        visitor.visit_simple_sized::<IpAddr>()
    }
}

impl Allocative for Ipv4Addr {
    ghost may_show = { λ _. Leaf (codes "Ipv4Addr") 4 };

    ghost is_strict = { true };

    fn visit(&self, visitor: &mut Visitor<'_>) -> Result<(), Refusal> {
        visitor.visit_simple_sized::<Ipv4Addr>()
    }
}

impl Allocative for Ipv6Addr {
    ghost may_show = { λ _. Leaf (codes "Ipv6Addr") 16 };

    ghost is_strict = { true };

    fn visit(&self, visitor: &mut Visitor<'_>) -> Result<(), Refusal> {
        visitor.visit_simple_sized::<Ipv6Addr>()
    }
}

impl Allocative for Instant {
    ghost may_show = { λ _. Leaf (codes "Instant") 16 };

    ghost is_strict = { true };

    fn visit(&self, visitor: &mut Visitor<'_>) -> Result<(), Refusal> {
        visitor.visit_simple_sized::<Instant>()
    }
}

impl Allocative for SystemTime {
    ghost may_show = { λ _. Leaf (codes "SystemTime") 16 };

    ghost is_strict = { true };

    fn visit(&self, visitor: &mut Visitor<'_>) -> Result<(), Refusal> {
        visitor.visit_simple_sized::<SystemTime>()
    }
}

impl Allocative for Duration {
    ghost may_show = { λ _. Leaf (codes "Duration") 16 };

    ghost is_strict = { true };

    fn visit(&self, visitor: &mut Visitor<'_>) -> Result<(), Refusal> {
        visitor.visit_simple_sized::<Duration>()
    }
}

impl Allocative for Ordering {
    ghost may_show = { λ _. Leaf (codes "Ordering") 1 };

    ghost is_strict = { true };

    fn visit(&self, visitor: &mut Visitor<'_>) -> Result<(), Refusal> {
        visitor.visit_simple_sized::<Ordering>()
    }
}

impl Allocative for ArcStr {
    ghost may_show = { λ _. Leaf (codes "Arc") 16 };

    ghost is_strict = { true };

    fn visit(&self, visitor: &mut Visitor<'_>) -> Result<(), Refusal> {
        visitor.visit_simple_sized::<ArcStr>()
    }
}

impl Allocative for CowStr<'static> {
    ghost may_show = { λ _. Leaf (codes "Cow") 24 };

    ghost is_strict = { true };

    fn visit(&self, visitor: &mut Visitor<'_>) -> Result<(), Refusal> {
        visitor.visit_simple_sized::<CowStr<'static>>()
    }
}
