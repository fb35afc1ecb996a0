//! A ledger: the bytes of each tenant's values, by number.
ghost use Rattle.std.specs.Prelude.{◌≡◌, ℕ, ◌+◌, ◌-◌, ◌^◌, ◌<◌, ◌≤◌, [], Some, None, Ok, Err, IfOk, IfErr, IfSome};
ghost use Rattle.std.specs.Prelude.{IfNone, IsSomeAnd, MatchOption, OnErr, unwrap_or};
ghost use Rattle.std.specs.BTreeMap.{insert_entry};
ghost use Rattle.std.specs.Ordering.{nat_cmp};
ghost use Rattle.allocative_service.specs.Book.{account_of, with_entries, StandsAt};
ghost use Rattle.allocative_service.specs.Ledger.{bytes_at, entry_of, sum_of, total_of, Adds, Enters, IsNew, IsThere};
ghost use Rattle.allocative_service.specs.Ledger.{Rejects, Releases, Stores};
ghost use Rattle.allocative_service.specs.Measured.{Declares, Measures};
ghost use Rattle.allocative_service.specs.Rejected.{HasRoom, RejectsEntry, RejectsIn, RejectsThen};

use crate::book::Book;
use crate::book::budget::Room;
pub use crate::book::{Budget, Rejection, Standing};
use allocative::{Allocative, Described};
use std::collections::btree_map::Entry;

/// The bytes of each value of one tenant, by its number.
pub type Account = crate::book::Account<u64, usize>;

/// An account for each tenant, of the bytes of its values by number.
pub type Ledger = Book<u64, usize>;

impl Ledger {
    /// Measures a value of any type, adds an entry with its bytes for the tenant, under a number that has none, and
    /// returns the bytes of all entries of the tenant.
    ///
    /// It returns an error
    /// - `NoAccount` if the tenant has no account,
    /// - otherwise `Taken` if the number has an entry; up to here nothing is measured, as a test shows,
    /// - otherwise `NotMeasured` if `Measure::size_of` returns an error,
    /// - otherwise `TooLarge` if the bytes of all accounts together do not fit a word,
    /// - otherwise `OverBudget` if the bytes of the tenant exceed its limit,
    /// - otherwise `LedgerFull` if the bytes of all accounts together exceed the limit of the ledger,
    /// - otherwise `NotKept` if memory runs out.
    ///
    /// After an error the ledger is unchanged.
    pub fn admit<T: Allocative + Described>(
        &mut self,
        tenant: &str,
        number: u64,
        value: &T,
    ) -> Result<usize, Rejection>
        ensures admitted { IfOk result
            (λ total. (bytes : ℕ) × Declares self.old.measure T.layout.size (T.may_show value.now) bytes
            × Enters tenant.now number bytes None self.old self.new total) }
        ensures rejected { IfErr result (Rejects tenant.now number (Some self.old.limit)
            (IsNew number (Measures self.old.measure T.is_strict T.layout.size (T.may_show value.now))) self.old) }
        ensures unchanged { OnErr result (self.new ≡ self.old) }
    {
        let (measure, alloc) = (self.measure, self.alloc);
        let bytes_of = |had|
            ensures { IsNew number (Measures measure T.is_strict T.layout.size (T.may_show value.entry.now)) had
                result }
        {
            match had {
                None => Ok(measure.size_of(alloc, value)?),
                Some(_) => Err(Rejection::Taken { number }),
            }
        };
        let standing = self.put_with(tenant, number, Some(self.limit), bytes_of)?;
        Ok(standing.bytes)
    }

    /// Measures a value again after it has changed, replaces the bytes of the entry under the number if that exceeds no
    /// limit, and returns the bytes of all entries of the tenant.
    ///
    /// The errors are those of `admit`, in the same order, except that it returns `NotThere` if the number has no
    /// entry, and never `Taken` or `NotKept`. After an error the ledger is unchanged, so an entry keeps the bytes
    /// that it had: ask before the value grows, or call `enter_growth`.
    pub fn measure_again<T: Allocative + Described>(
        &mut self,
        tenant: &str,
        number: u64,
        value: &T,
    ) -> Result<usize, Rejection>
        ensures measured { IfOk result
            (λ total. (bytes : ℕ) × (had : ℕ) × Declares self.old.measure T.layout.size (T.may_show value.now)
            bytes
            × Enters tenant.now number bytes (Some had) self.old self.new total) }
        ensures rejected { IfErr result (Rejects tenant.now number (Some self.old.limit)
            (IsThere number (λ _. Measures self.old.measure T.is_strict T.layout.size (T.may_show value.now)))
            self.old) }
        ensures unchanged { OnErr result (self.new ≡ self.old) }
    {
        let (measure, alloc, most) = (self.measure, self.alloc, self.limit);
        let bytes_of = |had|
            ensures { IsThere number (λ _. Measures measure T.is_strict T.layout.size (T.may_show value.entry.now)) had
                result }
        {
            match had {
                None => Err(Rejection::NotThere { number }),
                Some(_) => Ok(measure.size_of(alloc, value)?),
            }
        };
        let standing = self.put_with(tenant, number, Some(most), bytes_of)?;
        Ok(standing.bytes)
    }

    /// Measures a value again after it has changed, replaces the bytes of the entry under the number, also beyond the
    /// limits, and returns the bytes of all entries of the tenant with what of them exceeds the limits.
    ///
    /// While an account exceeds its limit, `admit`, `record` and `charge` enter nothing for it: they return
    /// `OverBudget`, unless an earlier cause holds. While the ledger does, they return `LedgerFull` in the same way.
    ///
    /// The error is `NoAccount` if the tenant has no account, otherwise `NotThere` if the number has no entry,
    /// otherwise `NotMeasured` if `Measure::size_of` returns an error, and otherwise `TooLarge` if the bytes of all
    /// accounts together do not fit a word. After an error the ledger is unchanged.
    pub fn enter_growth<T: Allocative + Described>(
        &mut self,
        tenant: &str,
        number: u64,
        value: &T,
    ) -> Result<Standing, Rejection>
        ensures entered { IfOk result
            (λ s. (bytes : ℕ) × (had : ℕ) × Declares self.old.measure T.layout.size (T.may_show value.now) bytes
            × Stores tenant.now number bytes (Some had) self.old self.new s.bytes) }
        ensures standing { IfOk result (StandsAt (λ n. n) tenant.now self.new) }
        ensures rejected { IfErr result (Rejects tenant.now number None
            (IsThere number (λ _. Measures self.old.measure T.is_strict T.layout.size (T.may_show value.now)))
            self.old) }
        ensures unchanged { OnErr result (self.new ≡ self.old) }
    {
        let (measure, alloc) = (self.measure, self.alloc);
        let bytes_of = |had|
            ensures { IsThere number (λ _. Measures measure T.is_strict T.layout.size (T.may_show value.entry.now)) had
                result }
        {
            match had {
                None => Err(Rejection::NotThere { number }),
                Some(_) => Ok(measure.size_of(alloc, value)?),
            }
        };
        self.put_with(tenant, number, None, bytes_of)
    }

    /// Adds an entry with bytes that the caller knows for the tenant, under a number that has none, and returns the
    /// bytes of all entries of the tenant. Nothing is measured. The errors are those of `admit` but `NotMeasured`.
    /// After an error the ledger is unchanged.
    pub fn record(&mut self, tenant: &str, number: u64, bytes: usize) -> Result<usize, Rejection>
        ensures recorded { IfOk result (Enters tenant.now number bytes None self.old self.new) }
        ensures rejected { IfErr result
            (Rejects tenant.now number (Some self.old.limit) (IsNew number (λ given. given ≡ Ok bytes)) self.old) }
        ensures unchanged { OnErr result (self.new ≡ self.old) }
    {
        let bytes_of = |had: Option<usize>| match had {
            None => Ok(bytes),
            Some(_) => Err(Rejection::Taken { number }),
        };
        let standing = self.put_with(tenant, number, Some(self.limit), bytes_of)?;
        Ok(standing.bytes)
    }

    /// Adds so many bytes to the tenant's entry under the number, for a value that has grown by as many, and returns
    /// the bytes of all entries of the tenant. Nothing is measured. The errors are those of `measure_again` but
    /// `NotMeasured`. After an error the ledger is unchanged.
    pub fn charge(&mut self, tenant: &str, number: u64, more: usize) -> Result<usize, Rejection>
        ensures charged { IfOk result
            (λ total. (had : ℕ) × Enters tenant.now number (had + more) (Some had) self.old self.new total) }
        ensures rejected { IfErr result (Rejects tenant.now number (Some self.old.limit)
            (IsThere number (Adds more)) self.old) }
        ensures unchanged { OnErr result (self.new ≡ self.old) }
    {
        let bytes_of = |had: Option<usize>|
            ensures { IsThere number (Adds more) had result }
        {
            match had {
                None => Err(Rejection::NotThere { number }),
                Some(had) => had.checked_add(more).ok_or(Rejection::TooLarge),
            }
        };
        let standing = self.put_with(tenant, number, Some(self.limit), bytes_of)?;
        Ok(standing.bytes)
    }

    /// Takes so many bytes off the tenant's entry under the number, for a value that has shrunk by as many, and returns
    /// the bytes of all entries of the tenant. Nothing is measured. No limit refuses it.
    ///
    /// The error is `NoAccount` if the tenant has no account, otherwise `NotThere` if the number has no entry, and
    /// otherwise `OverCredit` if the entry has fewer bytes. After an error the ledger is unchanged.
    pub fn credit(&mut self, tenant: &str, number: u64, less: usize) -> Result<usize, Rejection>
        ensures credited { IfOk result (λ total. (had : ℕ) × (bytes : ℕ) × (bytes + less ≡ had)
            × Stores tenant.now number bytes (Some had) self.old self.new total) }
        ensures rejected { IfErr result (RejectsIn (λ h r. IsThere number
            (λ had credited. (credited ≡ Err (Rejection.OverCredit had less)) × (had < less)) (bytes_at number h)
            (Err r)) (account_of tenant.now self.old)) }
        ensures unchanged { OnErr result (self.new ≡ self.old) }
    {
        let rest_of = |had: Option<usize>| match had {
            None => Err(Rejection::NotThere { number }),
            Some(bytes) => bytes
                .checked_sub(less)
                .ok_or(Rejection::OverCredit { bytes, less }),
        };
        let standing = self.put_with(tenant, number, None, rest_of)?;
        Ok(standing.bytes)
    }

    /// Removes the tenant's entry under the number. It returns the bytes of the entry. If there is none, it returns
    /// None and nothing changes.
    #[tactic(auto, using(crate::proofs::Accounts::accounts))]
    pub fn release(&mut self, tenant: &str, number: u64) -> Option<usize>
        ensures value { result ≡ entry_of tenant.now number self.old }
        ensures released { IfSome result (Releases tenant.now number self.old self.new) }
        ensures unchanged { IfNone result (self.new ≡ self.old) }
    {
        let account = self.accounts.get_mut(tenant)?;
        let (_number, bytes) = account.remove(&number)?;
        self.bytes -= bytes;
        Some(bytes)
    }

    /// Stores for the tenant under the number the bytes that `bytes_of` makes of those that it has, if there is room.
    /// All accounts may have `most` bytes together; without `most` no limit counts.
    ///
    /// The error is `NoAccount` if the tenant has no account, and otherwise that of `Account::put_with`. After an error
    /// the ledger is unchanged.
    #[tactic(auto, using(crate::proofs::Accounts::accounts))]
    fn put_with<F: FnOnce(Option<usize>) -> Result<usize, Rejection>>(
        &mut self,
        tenant: &str,
        number: u64,
        most: Option<usize>,
        bytes_of: F,
    ) -> Result<Standing, Rejection>
        requires { F.IsAlwaysCallable bytes_of }

        // The number has the bytes that `bytes_of` made, within the limits that count, and nothing else changed.
        ensures stored { IfOk result (λ s. (bytes : ℕ)
            × F.post bytes_of (entry_of tenant.now number self.old) (Ok bytes)
            × Stores tenant.now number bytes (entry_of tenant.now number self.old) self.old self.new s.bytes
            × IfSome most (λ m. IsSomeAnd (account_of tenant.now self.old) (λ h. s.bytes ≤ h.limit)
            × (total_of self.new ≤ m))) }
        ensures standing { IfOk result (StandsAt (λ n. n) tenant.now self.new) }

        // The bytes of all accounts fit a word.
        ensures fits { total_of self.old < 2 ^ 64 }

        // An error has the first cause that holds, and nothing changed.
        ensures rejected { IfErr result (Rejects tenant.now number most (F.post bytes_of) self.old) }
        ensures unchanged { OnErr result (self.new ≡ self.old) }
    {
        let Some(account) = self.accounts.get_mut(tenant) else {
            return Err(Rejection::NoAccount);
        };
        let rest = self.bytes - account.bytes();
        let total = account.put_with(number, self.bytes, most, bytes_of)?;
        let excess = account.excess();
        self.bytes = rest + total;
        let ledger_excess = self.bytes.saturating_sub(self.limit);
        Ok(Standing {
            bytes: total,
            excess,
            ledger_excess,
        })
    }
}

impl Account {
    /// Stores under the number the bytes that `bytes_of` makes of those that it has, if there is room. It returns the
    /// bytes of all entries together. All accounts have `all` bytes together and may have `most`; without `most` no
    /// limit counts. The number is searched once.
    ///
    /// The error is that of `bytes_of`, otherwise that of `Room::check`, and otherwise `NotKept` if the number
    /// has no entry and memory runs out. After it the account is unchanged.
    #[tactic(auto, using(crate::proofs::Billing::puts))]
    pub(crate) fn put_with<F: FnOnce(Option<usize>) -> Result<usize, Rejection>>(
        &mut self,
        number: u64,
        all: usize,
        most: Option<usize>,
        bytes_of: F,
    ) -> Result<usize, Rejection>
        // Whoever calls it knows that the bytes of this account are part of those of all.
        requires called { F.IsAlwaysCallable bytes_of }
        requires within { sum_of self.old.entries ≤ all }

        // The number has the bytes that `bytes_of` made, for which there was room, and the sum is that with them.
        ensures put { IfOk result (λ total. (bytes : ℕ) × F.post bytes_of (bytes_at number self.old) (Ok bytes)
            × HasRoom all most (sum_of self.old.entries) self.old.limit (unwrap_or (bytes_at number self.old) 0) bytes
            × (self.new ≡ with_entries (insert_entry nat_cmp self.old.entries number bytes) total self.old)
            × (total + unwrap_or (bytes_at number self.old) 0 ≡ sum_of self.old.entries + bytes)) }
        ensures sum { IfOk result (λ total. sum_of self.new.entries ≡ total) }

        // An error has the first cause that holds, and nothing changed.
        ensures rejected { IfErr result (RejectsThen (F.post bytes_of (bytes_at number self.old))
            (RejectsEntry all most (sum_of self.old.entries) self.old.limit (bytes_at number self.old))) }
        ensures unchanged { OnErr result (self.new ≡ self.old) }
    {
        let (sum, budget) = (self.bytes, self.budget);
        let room = Room {
            budget,
            sum,
            all,
            most,
        };
        match self.entries.entry(number) {
            Ok(Entry::Vacant(entry)) => {
                let bytes = bytes_of(None)?;
                room.check(0, bytes as u128)?;
                entry.insert(bytes);
                self.bytes = sum + bytes;
                self.peak = self.peak.max(self.bytes);
                Ok(self.bytes)
            }
            Ok(Entry::Occupied(mut entry)) => {
                let had = *entry.get();
                let bytes = bytes_of(Some(had))?;
                room.check(had, bytes as u128)?;
                entry.insert(bytes);
                self.bytes = sum - had + bytes;
                self.peak = self.peak.max(self.bytes);
                Ok(self.bytes)
            }
            Err(_number) => {
                let bytes = bytes_of(None)?;
                room.check(0, bytes as u128)?;
                Err(Rejection::NotKept)
            }
        }
    }
}
