//! The trait `Described`, and the size of what a shared pointer points to.

ghost use Rattle.std.specs.Prelude.{◌≡◌, ◌≤◌};
ghost use Rattle.allocative_described.specs.Layouts.{Declaration};
ghost use Rattle.allocative_described.specs.Sizes.{UpLaw, shared_inner_size};

use crate::layout::{Layout, size_sum, size_up};

/// What a type declares about itself. Nothing is measured: each implementation states its layout.
pub trait Described {
    // What the type declares.
    ghost layout: { Declaration };

    /// The type's layout.
    fn layout() -> Layout
        ensures { result ≡ layout };

    /// The type's name, without arguments if the type is generic: each `Vec<T>` is named `Vec`.
    #[inline(always)]
    final fn name() -> &'static str
        ensures { result.now ≡ layout.name }
    {
        Self::layout().name
    }

    /// The alignment in bytes, which is at least 1.
    #[inline(always)]
    final fn align() -> usize
        ensures value { result ≡ layout.align }
        ensures positive { 1 ≤ result }
    {
        Self::layout().align
    }

    /// Whether a value of the type has something to drop.
    #[inline(always)]
    final fn needs_drop() -> bool
        ensures { result ≡ layout.needs_drop }
    {
        Self::layout().needs_drop
    }

    /// The size in bytes. `None` if the size of a part is `None`, or if a sum, a product or a
    /// rounding up in the type's layout exceeds `usize::MAX`.
    #[inline(always)]
    final fn size() -> Option<usize>
        ensures { result ≡ layout.size }
    {
        Self::layout().size
    }
}

/// A law: rounding a number up to an alignment gives the least multiple of the alignment that is not
/// below the number.
#[tactic(auto, using(crate::proofs::Sizes::least_multiple))]
pub fn up_law()
    ensures { UpLaw }
{}

/// The size in bytes of what a shared pointer points to: two counts of 8 bytes each, then a value
/// of type `T`. `None` if the size of `T` is `None`, or if a sum or a rounding up exceeds
/// `usize::MAX`.
pub fn shared_inner_size<T: Described>() -> Option<usize>
    ensures { result ≡ shared_inner_size T.layout.size T.layout.align }
{
    let value_offset = size_up(Some(16), T::align());
    size_up(size_sum(value_offset, T::size()), T::align().max(8))
}
