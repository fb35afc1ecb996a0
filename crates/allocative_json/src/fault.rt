//! Why a run fails.
ghost use Rattle.std.specs.Prelude.{◌≡◌, Some};
ghost use Rattle.serde_json.specs.Errors.{IsMemory};
ghost use Rattle.allocative_json.specs.Fault.{status_of, message_of, fault_of};
ghost use Rattle.allocative_json.specs.declared.fault.Fault.TheVariants.{Memory, NotJson};

use allocative::Refusal;
use std::alloc::{AllocError, AllocFailed};
use std::fmt;
use thiserror::Error;

/// Why a run failed. `Display` writes its message.
#[derive(Clone, Copy, Debug, PartialEq, Eq, Error)]
pub enum Fault {
    /// Memory ran out.
    Memory,
    /// The input is not JSON.
    NotJson,
    /// The document has a number that is neither an i64 nor a u64.
    NotWhole,
    /// The declared sizes exceed their bound.
    TooLarge,
    /// A word is unknown or repeated.
    Words,
    /// A read failed.
    Reading,
    /// A write failed.
    Writing,
    /// A visitor was entered but neither left nor dropped.
    Open,
}

impl Fault {
    /// The exit status of the program.
    pub fn status(self) -> u8
        ensures { result ≡ status_of self }
    {
        match self {
            Fault::Memory => 1,
            Fault::NotJson => 2,
            Fault::NotWhole => 3,
            Fault::TooLarge => 4,
            Fault::Words => 5,
            Fault::Reading => 6,
            Fault::Writing => 7,
            Fault::Open => 8,
        }
    }

    /// The message for standard error, without the program's name.
    pub fn message(self) -> &'static str
        ensures { result.now ≡ message_of self }
    {
        match self {
            Fault::Memory => "out of memory",
            Fault::NotJson => "input is not JSON",
            Fault::NotWhole => "a number is not a 64-bit whole number",
            Fault::TooLarge => "sizes do not fit",
            Fault::Words => "unknown or repeated word",
            Fault::Reading => "cannot read input",
            Fault::Writing => "cannot write output",
            Fault::Open => "a visitor was forgotten",
        }
    }
}

impl fmt::Display for Fault {
    ghost output = { λ f. Some (message_of f) };

    fn fmt<W: fmt::Write>(&self, f: &mut fmt::Formatter<W>) -> fmt::Result {
        f.write_str(self.message())
    }
}

impl From<Refusal> for Fault {
    ghost from_gives = { λ r f. f ≡ fault_of r };

    fn from(refusal: Refusal) -> Fault {
        match refusal {
            Refusal::Memory => Fault::Memory,
            Refusal::TooLarge => Fault::TooLarge,
            Refusal::Open => Fault::Open,
        }
    }
}

impl From<serde_json::Error> for Fault {
    ghost from_gives = { λ e f. (IsMemory e → f ≡ Memory) × (¬ IsMemory e → f ≡ NotJson) };

    fn from(error: serde_json::Error) -> Fault {
        if error.is_memory() {
            Fault::Memory
        } else {
            Fault::NotJson
        }
    }
}

impl From<AllocError> for Fault {
    ghost from_gives = { λ _ f. f ≡ Memory };

    fn from(_refused: AllocError) -> Fault {
        Fault::Memory
    }
}

impl<T: Drop> From<AllocFailed<T>> for Fault {
    ghost from_gives = { λ _ f. f ≡ Memory };

    fn from(_refused: AllocFailed<T>) -> Fault {
        Fault::Memory
    }
}
