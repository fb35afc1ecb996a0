//! The trait of what can be counted, and the entries of what was counted.

ghost use Rattle.std.specs.Prelude.{◌≡◌, ◌+◌, ◌*◌, ◌^◌, ◌≤◌, ℕ, true, IfOk, OnOk};
ghost use Rattle.allocative_tally.specs.{Shape, NoEntry, Beside, EntryAt, Wide, Unique as unique_width};
ghost use Rattle.allocative_tally.specs.{shape_shows, bytes_times, sum_of, sum_times, TalliesNext};
ghost use Rattle.allocative_tally.specs.{AddsBytes, IsWhole, EntersShape, IsDeclared, FitsWord};

use allocative::{Allocative, Described, Inside, IntoKey, Part, Refusal, Unique, Visitor};
use thiserror::Error;

/// A count exceeds a word, or a declared size is missing.
#[derive(Clone, Copy, Debug, PartialEq, Eq, Error)]
#[error("count overflow, or a size is missing")]
pub struct CountError;

/// A value that can be counted. The tally of many values has what their number does not say, so whoever holds a tally
/// knows how many values were counted. They show one forest, that of all the values, merged.
pub trait Tallied: Allocative + Described {
    /// The default is the tally of no value.
    type Tally: Default + Drop;

    // What so many values show, by their tally.
    ghost shape: { Self.Tally → ℕ → Shape };

    /// Shows what was counted of `count` values: enters each path once.
    fn show(tally: &Self::Tally, count: usize, visitor: &mut Visitor<'_>) -> Result<(), Refusal>
        ensures { EntersShape (Self.shape tally.now count) visitor.old visitor.new result };

    /// Counts what the value shows beyond its number. It returns `Err` if a declared size is missing, or a number
    /// exceeds a word. Discard the tally then, and enter the values one by one.
    fn tally(&self, tally: &mut Self::Tally) -> Result<(), CountError>
        ensures { OnOk result
            (TalliesNext Self.layout.size (Self.may_show self.now) (Self.shape tally.old) (Self.shape tally.new)) };

    // So many values are entries of their declared size, and no value is none.
    ghost whole: { IsWhole Self.layout.size Self.Tally.is_default Self.shape };
}

/// The bytes of the entries of one place, and a number that is 0 if there is none.
#[derive(Clone, Copy)]
pub(crate) struct Sum {
    pub(crate) count: usize,
    pub(crate) bytes: usize,
}

impl Sum {
    /// So many entries with some bytes together.
    #[inline(always)]
    pub fn of(count: usize, bytes: usize) -> Sum
        ensures { result ≡ sum_of count bytes }
    {
        Sum { count, bytes }
    }

    /// So many entries of a declared size.
    #[inline(always)]
    pub fn times(size: Option<usize>, count: usize) -> Sum
        ensures { result ≡ sum_times size count }
    {
        Sum::of(count, bytes_of(size, count))
    }
}

/// The bytes of so many values of a declared size, at most the greatest word; 0 if the size is missing.
#[inline(always)]
pub(crate) fn bytes_of(size: Option<usize>, count: usize) -> usize
    ensures { result ≡ bytes_times size count }
{
    match size {
        None => 0,
        Some(size) => size.saturating_mul(count),
    }
}

/// Returns `Err` if a type's declared size is missing.
#[inline(always)]
pub fn declared<T: Described>() -> Result<(), CountError>
    ensures { OnOk result (IsDeclared T.layout.size) }
{
    T::size().ok_or(CountError)?;
    Ok(())
}

/// The bytes of so many values of a declared size; `Err` if the size is missing, or they do not fit a word.
#[inline(always)]
pub(crate) fn product(size: Option<usize>, count: usize) -> Result<usize, CountError>
    ensures fits { OnOk result (FitsWord size count) }
    ensures bytes { IfOk result (λ b. b ≡ bytes_times size count) }
{
    let bytes = size.ok_or(CountError)?;
    bytes.checked_mul(count).ok_or(CountError)
}

/// The sum of two numbers; `Err` if it does not fit a word.
#[inline(always)]
pub fn added(number: usize, more: usize) -> Result<usize, CountError>
    ensures { IfOk result (λ n. n ≡ number + more) }
{
    number.checked_add(more).ok_or(CountError)
}

/// Adds the bytes of one more buffer. It returns `Err` if they do not fit a word.
#[inline(always)]
pub fn count_bytes(bytes: &mut usize, more: usize) -> Result<(), CountError>
    ensures { OnOk result (AddsBytes more bytes.old bytes.new) }
{
    *bytes = added(*bytes, more)?;
    Ok(())
}

/// What a tally shows, made of sums.
///
/// `()` is no entry, and a tuple is its parts in order.
pub trait Entries: Drop {
    ghost shape: { Self → Shape };

    /// Enters each path once.
    fn enter(self, visitor: &mut Visitor<'_>) -> Result<(), Refusal>
        ensures { EntersShape (shape self) visitor.old visitor.new result };
}

/// The part of an `Allocative` that enters these entries.
#[derive(Drop)]
pub(crate) struct EntriesPart<P>(pub P);

impl<P: Entries> Part for EntriesPart<P> {
    ghost may_show = { λ s. shape_shows (P.shape s.0) };

    ghost is_strict = { true };

    fn enter(self, visitor: &mut Visitor<'_>) -> Result<(), Refusal> {
        self.0.enter(visitor)
    }
}

impl Entries for () {
    ghost shape = { λ _. NoEntry };

    fn enter(self, visitor: &mut Visitor<'_>) -> Result<(), Refusal> {
        Part::enter((), visitor)
    }
}

impl<P: Entries, Q: Entries> Entries for (P, Q) {
    ghost shape = { λ e. Beside (P.shape e.0) (Q.shape e.1) };

    fn enter(self, visitor: &mut Visitor<'_>) -> Result<(), Refusal> {
        Part::enter((EntriesPart(self.0), EntriesPart(self.1)), visitor)
    }
}

/// The inline entry of a sum, with entries inside it; no entry if none was counted.
#[derive(Drop)]
pub(crate) struct InlineSum<K, P>(pub K, pub Sum, pub P);

impl<K: IntoKey, P: Entries> Entries for InlineSum<K, P> {
    ghost shape = { λ e. EntryAt Wide (K.key e.0) e.1 (P.shape e.2) };

    fn enter(self, visitor: &mut Visitor<'_>) -> Result<(), Refusal> {
        if self.1.count == 0 {
            return Ok(());
        }
        Inside(self.0, self.1.bytes, EntriesPart(self.2)).enter(visitor)
    }
}

/// The unique entry of a sum, with entries inside it; no entry if none was counted.
#[derive(Drop)]
pub(crate) struct UniqueSum<K, P>(pub K, pub Sum, pub P);

impl<K: IntoKey, P: Entries> Entries for UniqueSum<K, P> {
    ghost shape = { λ e. EntryAt unique_width (K.key e.0) e.1 (P.shape e.2) };

    fn enter(self, visitor: &mut Visitor<'_>) -> Result<(), Refusal> {
        if self.1.count == 0 {
            return Ok(());
        }
        Unique(self.0, self.1.bytes, EntriesPart(self.2)).enter(visitor)
    }
}
