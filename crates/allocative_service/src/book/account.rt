//! The entries of one tenant, the limits on their bytes, and the most that they ever had.
ghost use Rattle.std.specs.Prelude.{◌≡◌, ℕ, ◌+◌, ◌-◌, ◌^◌, ◌<◌, ◌≤◌, ◌↔◌, [], IsTrue, IfErr, IfNone, MatchOption, OnOk};
ghost use Rattle.std.specs.Prelude.{OnErr, option_map, ⊤};
ghost use Rattle.std.specs.BTreeMap.{is_at};
ghost use Rattle.std.specs.Map.{lookup, lookup_key};
ghost use Rattle.allocative_service.specs.Book.{AreBilled, IsLargest, IsSummed, bytes_in, new_account, billed_sum};
ghost use Rattle.allocative_service.specs.Book.{with_limit, with_peak_reset, with_soft_limit, without_entry};
ghost use Rattle.allocative_service.specs.declared.measure.Measure.{Measure};
ghost use Rattle.allocative_service.specs.Rejected.{IsOverBudget};

use crate::book::budget::Budget;
use crate::book::rejection::Rejection;
use crate::measure::Measure;
use std::alloc::Global;
use std::collections::BTreeMap;
use std::marker::Model;

/// An entry of an account, which says its bytes.
pub trait Billed<K>: Drop {
    ghost billed: { Self → ℕ };

    // What the bytes have to do with the key and the entry, by the measure.
    ghost is_billed: { Measure → K → Self → Type 0 };

    /// The bytes of the entry.
    fn bytes(&self) -> usize
        ensures { result ≡ billed self.now };
}

impl<K> Billed<K> for usize {
    ghost billed = { λ n. n };

    ghost is_billed = { λ _ _ _. ⊤ };

    fn bytes(&self) -> usize {
        *self
    }
}

/// The entries of one tenant, by key. The sum of their bytes is stored beside them. It is above the limit only if
/// growth was entered that exceeded it.
#[derive(Drop)]
pub struct Account<K: Ord, E: Billed<K>> {
    pub(crate) measure: Measure,
    pub(crate) budget: Budget,
    pub(crate) soft_limit: usize,
    pub(crate) bytes: usize,
    pub(crate) peak: usize,
    pub(crate) entries: BTreeMap<K, E>,
}

impl<K: Ord, E: Billed<K>> Model for Account<K, E> {
    ghost use Rattle.std.specs.Prelude.{◌≡◌, ◌≤◌};
    ghost use Rattle.allocative_service.specs.Book.{AccountData, AreBilled, account_data, billed_sum};

    ghost Value = { AccountData K E };

    ghost view = { λ a. account_data a.measure a.budget.limit a.soft_limit a.peak a.entries.entries };

    ghost invariant = { λ a. (a.bytes ≡ billed_sum E.billed a.entries.entries) × (a.bytes ≤ a.peak)
        × AreBilled (E.is_billed a.measure) a.entries.entries };
}

impl<K: Ord + Drop, E: Billed<K>> Account<K, E> {
    /// An account with no entry and no soft limit, whose values are measured so. It allocates nothing.
    pub fn new(alloc: Global, measure: Measure, budget: Budget) -> Self
        ensures { result ≡ new_account measure budget.limit }
    {
        Account {
            measure,
            budget,
            soft_limit: usize::MAX,
            bytes: 0,
            peak: 0,
            entries: BTreeMap::new(alloc),
        }
    }

    /// The most bytes that the entries may have together, unless they grow.
    pub fn limit(&self) -> usize
        ensures { result ≡ self.now.limit }
    {
        self.budget.limit
    }

    /// Replaces the limit. The error is `OverBudget` exactly if the bytes of all entries exceed the new one, and then
    /// the account is unchanged.
    pub fn set_budget(&mut self, budget: Budget) -> Result<(), Rejection>
        // The bytes of all entries are within the new limit, and nothing else changed.
        ensures set { OnOk result (self.new ≡ with_limit budget.limit self.old) }
        ensures entries { self.new.entries ≡ self.old.entries }
        ensures within { OnOk result (billed_sum E.billed self.old.entries ≤ budget.limit) }

        // A rejection says by how much they exceed it, and nothing changed.
        ensures rejected { IfErr result (IsOverBudget (billed_sum E.billed self.old.entries) budget.limit) }
        ensures unchanged { OnErr result (self.new ≡ self.old) }
    {
        budget.check(self.bytes)?;
        self.budget = budget;
        Ok(())
    }

    /// The bytes above which the account is over. `usize::MAX` if no soft limit was set.
    pub fn soft_limit(&self) -> usize
        ensures { result ≡ self.now.soft_limit }
    {
        self.soft_limit
    }

    /// Replaces the soft limit. It refuses nothing.
    pub fn set_soft_limit(&mut self, bytes: usize)
        ensures { self.new ≡ with_soft_limit bytes self.old }
    {
        self.soft_limit = bytes;
    }

    /// Whether the bytes of all entries exceed the soft limit.
    pub fn is_over(&self) -> bool
        ensures { IsTrue result ↔ (self.now.soft_limit < billed_sum E.billed self.now.entries) }
    {
        self.bytes > self.soft_limit
    }

    /// The bytes of all entries together.
    pub fn bytes(&self) -> usize
        ensures sum { IsSummed E.billed result self.now }
        ensures billed { AreBilled (E.is_billed self.now.measure) self.now.entries }
    {
        self.bytes
    }

    /// By how many bytes all entries together exceed the limit. It is 0 unless growth was entered that exceeded it.
    pub fn excess(&self) -> usize
        ensures { result ≡ billed_sum E.billed self.now.entries - self.now.limit }
    {
        self.bytes.saturating_sub(self.budget.limit)
    }

    /// The most bytes that all entries together ever had, since the account was opened or the peak was reset.
    pub fn peak(&self) -> usize
        ensures peak { result ≡ self.now.peak }
        ensures highest { billed_sum E.billed self.now.entries ≤ result }
    {
        self.peak
    }

    /// Lowers the peak to the bytes of all entries together. It returns the former peak.
    pub fn reset_peak(&mut self) -> usize
        ensures peak { result ≡ self.old.peak }
        ensures reset { self.new ≡ with_peak_reset E.billed self.old }
    {
        let peak = self.peak;
        self.peak = self.bytes;
        peak
    }

    /// The entries, by key.
    pub fn entries(&self) -> &BTreeMap<K, E>
        ensures { result.now.entries ≡ self.now.entries }
    {
        &self.entries
    }

    /// The key and the bytes of the entry with the most bytes; of equals, of the one with the lowest key. None if there
    /// is no entry.
    pub fn largest(&self) -> Option<(&K, usize)>
        ensures { MatchOption result (self.now.entries ≡ [])
            (λ found. IsLargest E.billed self.now.entries found.0.now found.1) }
    {
        let mut largest: Option<(&K, usize)> = None;
        for (key, entry) in &self.entries {
            let bytes = entry.bytes();
            match largest {
                Some((_, most)) if bytes <= most => (),
                _ => largest = Some((key, bytes)),
            }
        }
        largest
    }

    /// Removes the entry under the key, and returns it with its key. If there is none, it returns None and nothing
    /// changes. The peak stays.
    #[tactic(auto, using(crate::proofs::Billing::removing))]
    pub fn remove(&mut self, key: &K) -> Option<(K, E)>
        // The key and the entry that were there are returned.
        ensures key { option_map (λ e. e.0) result ≡ lookup_key (is_at (K.cmp key.now)) self.old.entries }
        ensures entry { option_map (λ e. e.1) result ≡ lookup (is_at (K.cmp key.now)) self.old.entries }

        // The entry is gone, and nothing else changed. The sum is less by its bytes.
        ensures without { self.new ≡ without_entry (is_at (K.cmp key.now)) self.old }
        ensures unchanged { IfNone result (self.new ≡ self.old) }
        ensures sum { billed_sum E.billed self.new.entries
            + bytes_in E.billed (lookup (is_at (K.cmp key.now)) self.old.entries)
            ≡ billed_sum E.billed self.old.entries }
    {
        let (key, entry) = self.entries.remove_entry(key)?;
        self.bytes -= entry.bytes();
        Some((key, entry))
    }
}
