//! Numbers, times and addresses, which show one entry each.

ghost use Rattle.allocative_graph.specs.Shows.{Field, Nothing};
ghost use Rattle.allocative_tally.specs.Whole.{as_itself, is_whole, starting};
ghost use Rattle.allocative_tally.specs.Shapes.{NoEntry, ShownAs, entries};

use crate::tally::{CountError, Entries, InlineSum, Sum, Tallied, declared};
use allocative::{Allocative, Described, Refusal, Visitor};
use std::net::{IpAddr, Ipv4Addr, Ipv6Addr};
use std::num::{
    NonZeroI8, NonZeroI16, NonZeroI32, NonZeroI64, NonZeroIsize, NonZeroU8, NonZeroU16, NonZeroU32,
    NonZeroU64, NonZeroUsize,
};
use std::time::{Duration, Instant, SystemTime};

/// A type whose values show one entry of its name, with nothing inside it.
pub trait Leaf: Allocative + Described {
    // A value shows its entry, and nothing else.
    ghost one_entry: { (x : Self) → ShownAs (Field Self.layout.name Self.layout.size Nothing) (Self.may_show x) };
}

impl<T: Leaf> Tallied for T {
    type Tally = ();

    ghost shape = { λ t n. entries T.layout.name T.layout.size n NoEntry };

    ghost whole = { is_whole (Prim.search starting) };

    fn show(_tally: &(), count: usize, visitor: &mut Visitor<'_>) -> Result<(), Refusal> {
        InlineSum(T::name(), Sum::times(T::size(), count), ()).enter(visitor)
    }

    #[inline(always)]
    fn tally(&self, _tally: &mut ()) -> Result<(), CountError> {
        declared::<T>()
    }
}

impl Leaf for u8 {
    ghost one_entry = { λ _. as_itself };
}

impl Leaf for u16 {
    ghost one_entry = { λ _. as_itself };
}

impl Leaf for u32 {
    ghost one_entry = { λ _. as_itself };
}

impl Leaf for u64 {
    ghost one_entry = { λ _. as_itself };
}

impl Leaf for u128 {
    ghost one_entry = { λ _. as_itself };
}

impl Leaf for usize {
    ghost one_entry = { λ _. as_itself };
}

impl Leaf for i8 {
    ghost one_entry = { λ _. as_itself };
}

impl Leaf for i16 {
    ghost one_entry = { λ _. as_itself };
}

impl Leaf for i32 {
    ghost one_entry = { λ _. as_itself };
}

impl Leaf for i64 {
    ghost one_entry = { λ _. as_itself };
}

impl Leaf for i128 {
    ghost one_entry = { λ _. as_itself };
}

impl Leaf for isize {
    ghost one_entry = { λ _. as_itself };
}

impl Leaf for f32 {
    ghost one_entry = { λ _. as_itself };
}

impl Leaf for f64 {
    ghost one_entry = { λ _. as_itself };
}

impl Leaf for char {
    ghost one_entry = { λ _. as_itself };
}

impl Leaf for bool {
    ghost one_entry = { λ _. as_itself };
}

impl Leaf for () {
    ghost one_entry = { λ _. as_itself };
}

impl Leaf for NonZeroU8 {
    ghost one_entry = { λ _. as_itself };
}

impl Leaf for NonZeroU16 {
    ghost one_entry = { λ _. as_itself };
}

impl Leaf for NonZeroU32 {
    ghost one_entry = { λ _. as_itself };
}

impl Leaf for NonZeroU64 {
    ghost one_entry = { λ _. as_itself };
}

impl Leaf for NonZeroUsize {
    ghost one_entry = { λ _. as_itself };
}

impl Leaf for NonZeroI8 {
    ghost one_entry = { λ _. as_itself };
}

impl Leaf for NonZeroI16 {
    ghost one_entry = { λ _. as_itself };
}

impl Leaf for NonZeroI32 {
    ghost one_entry = { λ _. as_itself };
}

impl Leaf for NonZeroI64 {
    ghost one_entry = { λ _. as_itself };
}

impl Leaf for NonZeroIsize {
    ghost one_entry = { λ _. as_itself };
}

impl Leaf for Instant {
    ghost one_entry = { λ _. as_itself };
}

impl Leaf for SystemTime {
    ghost one_entry = { λ _. as_itself };
}

impl Leaf for Duration {
    ghost one_entry = { λ _. as_itself };
}

impl Leaf for IpAddr {
    ghost one_entry = { λ _. as_itself };
}

impl Leaf for Ipv4Addr {
    ghost one_entry = { λ _. as_itself };
}

impl Leaf for Ipv6Addr {
    ghost one_entry = { λ _. as_itself };
}
