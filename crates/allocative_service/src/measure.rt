//! What is counted of a value.
ghost use Rattle.std.specs.Prelude.{◌≡◌, ℕ, ◌+◌, IfOk, IfErr, Some, String, Vec, string_capacity, vec_capacity};
ghost use Rattle.std.specs.Global.{Global};
ghost use Rattle.allocative_service.specs.Measured.{Declares, MayRefuseMeasure, AnswersMeasure};
ghost use Rattle.allocative_service.specs.declared.measure.Measure.{Measure};

use allocative::{Allocative, Described, Refusal, size_of_owned, size_of_shown, size_of_unique};
use std::alloc::Global;

/// Which bytes a ledger, a store or a cache counts of a value or a key.
#[derive(Clone, Copy, Debug, Default, PartialEq, Eq)]
pub enum Measure {
    /// The bytes that the value owns, as `size_of_owned` returns them. This is the measure for a limit. It takes no
    /// memory. It leaves out what shared pointers point to, which an entry of its own can count once.
    #[default]
    Owned,
    /// All bytes that the value declares, as `size_of_shown` returns them. It makes a graph for each measuring. What a
    /// shared pointer points to counts once for each value that has the pointer.
    Shown,
    /// Its own size and the bytes directly inside unique entries, as `size_of_unique` returns them. It takes no memory.
    /// It leaves out the entries of the maps and sets of `std`, and what shared pointers point to.
    Unique,
}

impl Measure {
    /// The bytes of a value by this measure. An error is that of `size_of_owned`, `size_of_shown` or `size_of_unique`.
    pub fn size_of<T: Allocative + Described>(
        self,
        alloc: Global,
        value: &T,
    ) -> Result<usize, Refusal>
        ensures measured { IfOk result (Declares self T.layout.size (T.may_show value.now)) }
        ensures refused { IfErr result
            (MayRefuseMeasure self T.is_strict T.layout.size (T.may_show value.now)) }
        ensures answer { AnswersMeasure self T.layout.size (T.may_show value.now) (T.effect value.now)
            result }
    {
        match self {
            Measure::Owned => size_of_owned(value),
            Measure::Shown => size_of_shown(alloc, value),
            Measure::Unique => size_of_unique(value),
        }
    }
}

/// A law for proofs of callers: by each measure a text, or a `Vec<u8>`, declares 24 bytes and its capacity.
pub fn text_bytes_law()
    ensures text { (measure : Measure) → (text : String Global) → (bytes : ℕ) → Declares measure (Some 24)
        (⟦<String as Allocative>⟧.may_show text) bytes → bytes ≡ 24 + string_capacity text }
    ensures vec { (measure : Measure) → (v : Vec ℕ Global) → (bytes : ℕ) → Declares measure (Some 24)
        (⟦<Vec<u8> as Allocative>⟧.may_show v) bytes → bytes ≡ 24 + vec_capacity v }
{}
