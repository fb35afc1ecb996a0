//! A limit in bytes and the check against it.
ghost use Rattle.std.specs.Prelude.{◌≡◌, ◌+◌, ◌^◌, ◌<◌, ◌≤◌, IfOk, IfErr, OnOk};
ghost use Rattle.allocative_service.specs.Measured.{Declares, Measures};
ghost use Rattle.allocative_service.specs.Rejected.{HasRoom, IsOverBudget, RejectsRoom, RejectsThen};

use crate::book::rejection::Rejection;
use crate::measure::Measure;
use allocative::{Allocative, Described};
use std::alloc::Global;

/// The most bytes that the data of a tenant may hold.
#[derive(Clone, Copy, Debug, PartialEq, Eq)]
pub struct Budget {
    /// The limit in bytes.
    pub limit: usize,
    // The limit fits a word, so each sum within it does.
    ghost fits: { limit < 2 ^ 64 },
}

impl Budget {
    /// Returns the bytes if they are at most the limit, and otherwise `OverBudget`.
    pub fn check(&self, bytes: usize) -> Result<usize, Rejection>
        ensures within { IfOk result (λ checked. (checked ≡ bytes) × (bytes ≤ self.now.limit)) }
        ensures over { IfErr result (IsOverBudget bytes self.now.limit) }
    {
        let limit = self.limit;
        if bytes > limit {
            return Err(Rejection::OverBudget { bytes, limit });
        }
        Ok(bytes)
    }

    /// Measures one value by itself, for example all that a tenant has. If the bytes that it declares are within the
    /// limit, it returns them.
    ///
    /// It returns `OverBudget` exactly if they exceed the limit, and `NotMeasured` if `Measure::size_of` returns
    /// an error.
    pub fn admit<T: Allocative + Described>(
        &self,
        alloc: Global,
        measure: Measure,
        value: &T,
    ) -> Result<usize, Rejection>
        ensures admitted { IfOk result
            (λ bytes. Declares measure T.layout.size (T.may_show value.now) bytes × (bytes ≤ self.now.limit)) }
        ensures rejected { IfErr result
            (RejectsThen (Measures measure T.is_strict T.layout.size (T.may_show value.now))
            (λ bytes. IsOverBudget bytes self.now.limit)) }
    {
        self.check(measure.size_of(alloc, value)?)
    }
}

/// The room for an entry of an account.
#[derive(Clone, Copy)]
pub(crate) struct Room {
    /// The limit of the account.
    pub(crate) budget: Budget,
    /// The bytes of the account.
    pub(crate) sum: usize,
    /// The bytes of all accounts together.
    pub(crate) all: usize,
    /// The most that these may be. Without it no limit counts.
    pub(crate) most: Option<usize>,
    // The account is one of all.
    ghost within: { sum ≤ all },
}

impl Room {
    /// Checks that there is room for so many bytes in place of the `had` bytes of one entry.
    ///
    /// The error is `TooLarge` if the new bytes of all accounts do not fit a word, otherwise, with `most`, `OverBudget`
    /// if those of the account exceed the limit, and otherwise `LedgerFull` if those of all accounts exceed `most`.
    pub(crate) fn check(&self, had: usize, bytes: u128) -> Result<(), Rejection>
        requires { had ≤ self.now.sum }
        ensures room { OnOk result
            (HasRoom self.now.all self.now.most self.now.sum self.now.budget.limit had bytes) }
        ensures rejected { IfErr result
            (RejectsRoom self.now.all self.now.most self.now.sum self.now.budget.limit had bytes) }
    {
        if bytes > usize::MAX as u128 {
            return Err(Rejection::TooLarge);
        }
        let (sum, all, bytes) = (self.sum - had, self.all - had, bytes as usize);
        let Some(new_all) = all.checked_add(bytes) else {
            return Err(Rejection::TooLarge);
        };
        let Some(most) = self.most else {
            return Ok(());
        };
        self.budget.check(sum + bytes)?;
        if new_all > most {
            return Err(Rejection::LedgerFull {
                bytes: new_all,
                limit: most,
            });
        }
        Ok(())
    }

    /// The bytes that a value declares, if there is room for them and `beside` others in place of `had` bytes. The
    /// error is `NotMeasured` if `Measure::size_of` returns an error, and otherwise that of `check`.
    pub(crate) fn measured<T: Allocative + Described>(
        &self,
        alloc: Global,
        measure: Measure,
        value: &T,
        had: usize,
        beside: usize,
    ) -> Result<usize, Rejection>
        requires { had ≤ self.now.sum }
        ensures declared { IfOk result (Declares measure T.layout.size (T.may_show value.now)) }
        ensures room { IfOk result (λ bytes. HasRoom self.now.all self.now.most self.now.sum self.now.budget.limit had
            (beside + bytes)) }
        ensures rejected { IfErr result
            (RejectsThen (Measures measure T.is_strict T.layout.size (T.may_show value.now))
            (λ bytes. RejectsRoom self.now.all self.now.most self.now.sum self.now.budget.limit had
            (beside + bytes))) }
    {
        let bytes = measure.size_of(alloc, value)?;
        self.check(had, beside as u128 + bytes as u128)?;
        Ok(bytes)
    }
}
