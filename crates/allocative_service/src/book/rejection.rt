//! Why data is not admitted.
ghost use Rattle.std.specs.Prelude.{◌≡◌};
ghost use Rattle.allocative_service.specs.Rejected.{is_limit};

use allocative::Refusal;
use thiserror::Error;

/// Why data is not admitted. Making one allocates nothing.
#[derive(Clone, Copy, Debug, PartialEq, Eq, Error)]
pub enum Rejection {
    /// The data would hold more bytes than the limit allows.
    #[error("{bytes} bytes exceed a limit of {limit}")]
    OverBudget { bytes: usize, limit: usize },
    /// The data of all tenants together would hold more bytes than the limit on all allows.
    #[error("{bytes} bytes in all exceed a limit of {limit}")]
    LedgerFull { bytes: usize, limit: usize },
    /// An entry has fewer bytes than are to be taken off it.
    #[error("a credit of {less} bytes exceeds an entry of {bytes}")]
    OverCredit { bytes: usize, less: usize },
    /// The data could not be measured.
    #[error("not measured: {0}")]
    NotMeasured(Refusal),
    /// The bytes of all data together do not fit a word.
    #[error("sizes do not fit")]
    TooLarge,
    /// The memory of the ledger or the store itself could not grow.
    #[error("out of memory")]
    NotKept,
    /// The tenant has no account.
    #[error("there is no account")]
    NoAccount,
    /// The tenant already has an account.
    #[error("there is an account already")]
    HasAccount,
    /// The number already has an entry.
    #[error("there is an entry {number} already")]
    Taken { number: u64 },
    /// The number has no entry.
    #[error("there is no entry {number}")]
    NotThere { number: u64 },
}

impl Rejection {
    /// Whether the caller asked for more than a limit allows: `OverBudget` or `LedgerFull`. `TooLarge`, `NotKept` and
    /// `NotMeasured` are failures of the service itself, and the others say that the request does not fit what there
    /// is.
    pub fn is_limit(self) -> bool
        ensures { result ≡ is_limit self }
    {
        matches!(
            self,
            Rejection::OverBudget { .. } | Rejection::LedgerFull { .. }
        )
    }
}

impl From<Refusal> for Rejection {
    ghost use Rattle.std.specs.Prelude.{◌≡◌};
    ghost use Rattle.allocative_service.specs.declared.book.rejection.Rejection.TheVariants.{NotMeasured};

    ghost from_gives = { λ refusal rejection. rejection ≡ NotMeasured refusal };

    fn from(refusal: Refusal) -> Self {
        Rejection::NotMeasured(refusal)
    }
}
