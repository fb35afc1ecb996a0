//! Why a call refuses.
ghost use Rattle.std.specs.Prelude.{◌≡◌};
ghost use Rattle.allocative_graph.specs.declared.refusal.Refusal.TheVariants.{Memory};

use std::alloc::{AllocError, AllocFailed};
use thiserror::Error;

/// Why a call refused. `refusal as u8` is its number, which is fixed: 1, 2 or 3.
#[derive(Clone, Copy, Debug, PartialEq, Eq, Error)]
pub enum Refusal {
    /// Memory ran out, a profile would have had more than 2^32 - 1 paths, or a caller's own code refused with it.
    #[error("out of memory")]
    Memory = 1,
    /// A declared size, a product or a sum of sizes exceeds its bound.
    #[error("sizes do not fit")]
    TooLarge = 2,
    /// A visitor was entered but neither left nor dropped.
    #[error("a visitor was forgotten")]
    Open = 3,
}

impl From<AllocError> for Refusal {
    ghost from_gives = { λ _ r. r ≡ Memory };

    fn from(_refused: AllocError) -> Refusal {
        Refusal::Memory
    }
}

impl<T: Drop> From<AllocFailed<T>> for Refusal {
    ghost from_gives = { λ _ r. r ≡ Memory };

    fn from(_refused: AllocFailed<T>) -> Refusal {
        Refusal::Memory
    }
}
