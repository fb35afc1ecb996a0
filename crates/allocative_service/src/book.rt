//! A book of accounts, as a ledger is one. Contracts see a book as its `accounts`, one for each tenant, its `limit` and
//! its `measure`.
ghost use Rattle.std.specs.Prelude.{◌≡◌, ◌+◌, ◌-◌, ◌^◌, ◌<◌, ◌≤◌, ◌↔◌, None, [], IfErr, IfNone, IfSome, IsSomeAnd};
ghost use Rattle.std.specs.Prelude.{IsTrue, MatchOption, OnErr, OnOk, OnSome, option_map};
ghost use Rattle.std.specs.Map.{remove_entry};
ghost use Rattle.allocative_service.specs.Book.{IsLargest, IsSummed, MapsAccount, Opens, account_of, all_billed};
ghost use Rattle.allocative_service.specs.Book.{billed_sum, book_data, is_tenant, with_accounts};
ghost use Rattle.allocative_service.specs.Book.{with_limit, with_peak_reset, with_soft_limit};
ghost use Rattle.allocative_service.specs.Rejected.{IsLedgerFull, IsOverBudget, RejectsIn, RejectsOpening};

pub mod account;
pub mod budget;
pub mod rejection;
mod shown;

pub use crate::book::account::{Account, Billed};
pub use crate::book::budget::Budget;
pub use crate::book::rejection::Rejection;
use crate::measure::Measure;
use std::alloc::Global;
use std::collections::BTreeMap;
use std::marker::Model;

/// An account for each tenant, by its name, and which bytes of the tenants' values are counted. The bytes of all
/// accounts together are stored beside them. They are above the limit of the book only if growth was entered that
/// exceeded it.
#[derive(Drop)]
pub struct Book<K: Ord, E: Billed<K>> {
    pub(crate) alloc: Global,
    pub(crate) measure: Measure,
    pub(crate) accounts: BTreeMap<String, Account<K, E>>,
    pub(crate) bytes: usize,
    pub(crate) limit: usize,
}

impl<K: Ord, E: Billed<K>> Model for Book<K, E> {
    ghost use Rattle.std.specs.Prelude.{◌≡◌, ◌<◌, ◌^◌};
    ghost use Rattle.allocative_service.specs.Book.{BookData, all_billed, book_data};

    ghost Value = { BookData K E };

    ghost view = { λ b. book_data b.accounts.entries b.limit b.measure };

    // All bytes fit a word, so those of each account do.
    ghost invariant = { λ b. (b.bytes ≡ all_billed E.billed b.accounts.entries) × (b.bytes < 2 ^ 64) };
}

impl<K: Ord + Drop, E: Billed<K>> Book<K, E> {
    /// A book with no account and no limit of its own. It allocates nothing.
    pub fn new(alloc: Global, measure: Measure) -> Self
        ensures { result ≡ book_data [] (2 ^ 64 - 1) measure }
    {
        Book {
            alloc,
            measure,
            accounts: BTreeMap::new(alloc),
            bytes: 0,
            limit: usize::MAX,
        }
    }

    /// The bytes of all accounts together.
    pub fn bytes(&self) -> usize
        ensures { result ≡ all_billed E.billed self.now.accounts }
    {
        self.bytes
    }

    /// The most bytes that all accounts may have together, unless they grow. `usize::MAX` if no limit was set.
    pub fn limit(&self) -> usize
        ensures { result ≡ self.now.limit }
    {
        self.limit
    }

    /// Replaces the limit of the whole book. The error is `LedgerFull` exactly if the bytes of all accounts together
    /// exceed the new one, and then the book is unchanged.
    pub fn set_limit(&mut self, limit: usize) -> Result<(), Rejection>
        ensures set { OnOk result (self.new ≡ book_data self.old.accounts limit self.old.measure) }
        ensures within { OnOk result (all_billed E.billed self.old.accounts ≤ limit) }
        ensures rejected { IfErr result (IsLedgerFull (all_billed E.billed self.old.accounts) limit) }
        ensures unchanged { OnErr result (self.new ≡ self.old) }
    {
        let bytes = self.bytes;
        if bytes > limit {
            return Err(Rejection::LedgerFull { bytes, limit });
        }
        self.limit = limit;
        Ok(())
    }

    /// Opens an account with no entry and no soft limit for a tenant.
    ///
    /// The error is `HasAccount` exactly if the tenant has one, and otherwise `NotKept` if memory runs out. After an
    /// error the book is unchanged.
    #[tactic(auto, using(crate::proofs::Accounts::opening))]
    pub fn open(&mut self, tenant: &str, budget: Budget) -> Result<(), Rejection>
        ensures opened { OnOk result (Opens tenant.now budget.limit self.old self.new) }
        ensures all { all_billed E.billed self.new.accounts ≡ all_billed E.billed self.old.accounts }
        ensures rejected { IfErr result (RejectsOpening (account_of tenant.now self.old)) }
        ensures unchanged { OnErr result (self.new ≡ self.old) }
    {
        if self.accounts.contains_key(tenant) {
            return Err(Rejection::HasAccount);
        }
        let Ok(name) = String::from_str(self.alloc, tenant) else {
            return Err(Rejection::NotKept);
        };
        let account = Account::new(self.alloc, self.measure, budget);
        let Ok(_none) = self.accounts.insert(name, account) else {
            return Err(Rejection::NotKept);
        };
        Ok(())
    }

    /// Removes the account of a tenant and returns it. If there is none, it returns None and nothing changes.
    #[tactic(auto, using(crate::proofs::Accounts::accounts))]
    pub fn close(&mut self, tenant: &str) -> Option<Account<K, E>>
        ensures value { result ≡ account_of tenant.now self.old }
        ensures closed { self.new ≡ with_accounts (remove_entry (is_tenant tenant.now) self.old.accounts) self.old }
        ensures all { IfSome result (λ h. all_billed E.billed self.new.accounts + billed_sum E.billed h.entries
            ≡ all_billed E.billed self.old.accounts) }
        ensures unchanged { IfNone result (self.new ≡ self.old) }
    {
        let account = self.accounts.remove(tenant)?;
        self.bytes -= account.bytes();
        Some(account)
    }

    /// Replaces the limit of a tenant.
    ///
    /// The error is `NoAccount` exactly if the tenant has no account, and otherwise `OverBudget` exactly if the bytes
    /// of all its entries exceed the new limit. After an error the book is unchanged.
    #[tactic(auto, using(crate::proofs::Accounts::accounts))]
    pub fn set_budget(&mut self, tenant: &str, budget: Budget) -> Result<(), Rejection>
        ensures set { OnOk result (MapsAccount tenant.now (with_limit budget.limit) self.old self.new) }
        ensures within { OnOk result (IsSomeAnd (account_of tenant.now self.old)
            (λ h. billed_sum E.billed h.entries ≤ budget.limit)) }
        ensures rejected { IfErr result (RejectsIn (λ h. IsOverBudget (billed_sum E.billed h.entries) budget.limit)
            (account_of tenant.now self.old)) }
        ensures unchanged { OnErr result (self.new ≡ self.old) }
    {
        let Some(account) = self.accounts.get_mut(tenant) else {
            return Err(Rejection::NoAccount);
        };
        account.set_budget(budget)
    }

    /// Replaces the soft limit of a tenant, which refuses nothing: `is_over` says if the tenant has more bytes. It
    /// returns None if the tenant has no account, and then nothing changes.
    #[tactic(auto, using(crate::proofs::Accounts::accounts))]
    pub fn set_soft_limit(&mut self, tenant: &str, bytes: usize) -> Option<()>
        ensures set { OnSome result (MapsAccount tenant.now (with_soft_limit bytes) self.old self.new) }
        ensures none { IfNone result (account_of tenant.now self.old ≡ None) }
        ensures unchanged { IfNone result (self.new ≡ self.old) }
    {
        self.accounts.get_mut(tenant)?.set_soft_limit(bytes);
        Some(())
    }

    /// Whether the bytes of a tenant exceed its soft limit. None if the tenant has no account.
    pub fn is_over(&self, tenant: &str) -> Option<bool>
        ensures { MatchOption (account_of tenant.now self.now) (result ≡ None)
            (λ h. IsSomeAnd result (λ over. IsTrue over ↔ (h.soft_limit < billed_sum E.billed h.entries))) }
    {
        Some(self.accounts.get(tenant)?.is_over())
    }

    /// All accounts, in the order of the tenants' names.
    pub fn accounts(&self) -> &BTreeMap<String, Account<K, E>>
        ensures { result.now.entries ≡ self.now.accounts }
    {
        &self.accounts
    }

    /// The bytes of all entries of the tenant, which are within its limit unless growth exceeded it. None if the tenant
    /// has no account.
    pub fn bytes_of(&self, tenant: &str) -> Option<usize>
        ensures { MatchOption (account_of tenant.now self.now) (result ≡ None)
            (λ account. IsSomeAnd result (λ bytes. IsSummed E.billed bytes account)) }
    {
        Some(self.accounts.get(tenant)?.bytes())
    }

    /// By how many bytes all entries of the tenant exceed its limit. It is 0 unless growth was entered that exceeded
    /// it. None if the tenant has no account.
    pub fn excess_of(&self, tenant: &str) -> Option<usize>
        ensures { result
            ≡ option_map (λ h. billed_sum E.billed h.entries - h.limit) (account_of tenant.now self.now) }
    {
        Some(self.accounts.get(tenant)?.excess())
    }

    /// The most bytes that the tenant ever had, since its account was opened or its peak was reset. None if the tenant
    /// has no account.
    pub fn peak_of(&self, tenant: &str) -> Option<usize>
        ensures { result ≡ option_map (λ h. h.peak) (account_of tenant.now self.now) }
    {
        Some(self.accounts.get(tenant)?.peak())
    }

    /// Lowers the peak of a tenant to its bytes, and returns the former peak. If the tenant has no account, it returns
    /// None and nothing changes.
    #[tactic(auto, using(crate::proofs::Accounts::accounts))]
    pub fn reset_peak(&mut self, tenant: &str) -> Option<usize>
        ensures value { result ≡ option_map (λ h. h.peak) (account_of tenant.now self.old) }
        ensures reset { OnSome result (MapsAccount tenant.now (with_peak_reset E.billed) self.old self.new) }
        ensures unchanged { IfNone result (self.new ≡ self.old) }
    {
        Some(self.accounts.get_mut(tenant)?.reset_peak())
    }

    /// The key and the bytes of the tenant's entry with the most bytes; of equals, of the one with the lowest key. None
    /// if the tenant has no account or no entry.
    pub fn largest_of(&self, tenant: &str) -> Option<(&K, usize)>
        ensures { MatchOption (account_of tenant.now self.now) (result ≡ None) (λ h. MatchOption result (h.entries ≡ [])
            (λ found. IsLargest E.billed h.entries found.0.now found.1)) }
    {
        self.accounts.get(tenant)?.largest()
    }
}

/// What an account has after growth was entered, and by how much that exceeds the limits.
#[derive(Clone, Copy, Debug, PartialEq, Eq)]
pub struct Standing {
    /// The bytes of all entries of the tenant.
    pub bytes: usize,
    /// By how many bytes they exceed the tenant's limit, or 0.
    pub excess: usize,
    /// By how many bytes all accounts together exceed the limit of the book, or 0.
    pub ledger_excess: usize,
}
