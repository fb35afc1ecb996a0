//! A store: the values of many tenants, kept with their bytes, each under a key of its tenant.
ghost use Rattle.std.specs.Prelude.{◌≡◌, None, OnOk, OnErr, IfOk, IfErr, OnSome, IfSome, IfNone, MatchOption};
ghost use Rattle.std.specs.Prelude.{option_copied, option_map};
ghost use Rattle.std.specs.BTreeMap.{is_at};
ghost use Rattle.std.specs.Map.{lookup, lookup_key};
ghost use Rattle.std.specs.Option.{option_and_then};
ghost use Rattle.allocative_service.specs.Book.{account_of, all_billed, without_entry, MapsAccount, StandsAt};
ghost use Rattle.allocative_service.specs.Entries.{ChangesTo};
ghost use Rattle.allocative_service.specs.Kept.{kept_bytes};
ghost use Rattle.allocative_service.specs.Rejected.{RejectsIn};
ghost use Rattle.allocative_service.specs.Store.{value_at, KeepsChanged, PutsOnShelf, RefusesChanged, RefusesPut};
ghost use Rattle.allocative_service.specs.Store.{Replaces};

pub mod shelf;

use crate::book::{Book, Rejection, Standing};
use crate::cache::error::Refused;
pub use crate::kept::Kept;
pub use crate::store::shelf::{NotKept, Shelf};
use allocative::{Allocative, Described};

/// A book that keeps the values itself, each under a key of its tenant. It bills each key with its value. A value is
/// reached for writing only by `change`, which measures it again.
pub type Store<K, V> = Book<K, Kept<V>>;

impl<K: Ord + Allocative + Described, V: Allocative + Described> Store<K, V> {
    /// The value of the tenant under the key.
    pub fn get(&self, tenant: &str, key: &K) -> Option<&V>
        ensures { option_copied result
            ≡ option_and_then (value_at (is_at (K.cmp key.now))) (account_of tenant.now self.now) }
    {
        self.accounts.get(tenant)?.get(key)
    }

    /// Measures the key and the value, and keeps the value for the tenant under the key. It returns the value that was
    /// there before; then the key that was there stays.
    ///
    /// It returns an error
    /// - `NoAccount` if the tenant has no account,
    /// - otherwise `NotMeasured` if `Measure::size_of` returns an error,
    /// - otherwise `TooLarge` if the bytes of all accounts together do not fit a word,
    /// - otherwise `OverBudget` if the bytes of the tenant exceed its limit,
    /// - otherwise `LedgerFull` if the bytes of all accounts together exceed the limit of the store,
    /// - otherwise `NotKept` if memory runs out.
    ///
    /// The key and the value come with the error, and the store is unchanged.
    #[tactic(auto, using(crate::proofs::Accounts::accounts))]
    pub fn put(&mut self, tenant: &str, key: K, value: V) -> Result<Option<V>, NotKept<K, V>>
        // The value is kept and billed with its key, and no other entry changed.
        ensures ok { OnOk result (Replaces tenant.now (PutsOnShelf K.layout.size K.may_show V.layout.size V.may_show
            K.cmp (all_billed kept_bytes self.old.accounts) self.old.limit key value) self.old self.new) }
        ensures had { IfOk result
            (λ had. had ≡ option_and_then (value_at (is_at (K.cmp key))) (account_of tenant.now self.old)) }

        // A refusal has the first cause that holds and hands both back, and nothing changed.
        ensures refused { IfErr result (λ r. RejectsIn (RefusesPut K.layout.size K.may_show V.layout.size V.may_show
            K.is_strict V.is_strict K.cmp (all_billed kept_bytes self.old.accounts) self.old.limit key value)
            (account_of tenant.now self.old) r.error) }
        ensures returned { IfErr result (λ r. (r.key ≡ key) × (r.value ≡ value)) }
        ensures err { OnErr result (self.new ≡ self.old) }
    {
        let Some(shelf) = self.accounts.get_mut(tenant) else {
            let error = Rejection::NoAccount;
            return Err(Refused { error, key, value });
        };
        let rest = self.bytes - shelf.bytes();
        let kept = shelf.put(self.alloc, key, value, self.bytes, self.limit);
        self.bytes = rest + shelf.bytes();
        kept
    }

    /// Changes the tenant's value under the key, measures it again and enters its growth, also beyond the limits. It
    /// returns what the tenant then has, and what of it exceeds the limits. If the tenant has no account, or no value
    /// under the key, it returns None and nothing changes.
    ///
    /// While a tenant exceeds its limit, `put` takes only a value that brings it within it, and while the store does,
    /// only one that brings all values within its limit.
    ///
    /// The error is `NotMeasured` if `Measure::size_of` returns an error, and otherwise `TooLarge` if the bytes of all
    /// accounts together do not fit a word. After an error the key and the value are no longer in the store, and come
    /// with the error.
    #[tactic(auto, using(crate::proofs::Accounts::accounts))]
    pub fn change<C: FnOnce(&mut V)>(
        &mut self,
        tenant: &str,
        key: &K,
        change: C,
    ) -> Result<Option<Standing>, NotKept<K, V>>
        requires { C.IsAlwaysCallable change }

        // The changed value is measured again and entered, and the standing is that after it.
        ensures changed { IfOk result (λ there. OnSome there (Replaces tenant.now (KeepsChanged V.layout.size V.may_show
            (is_at (K.cmp key.now)) (ChangesTo C.FnOnce change)) self.old self.new)) }
        ensures standing { IfOk result (λ there. IfSome there (StandsAt kept_bytes tenant.now self.new)) }

        // None is returned if there is no such value, and nothing changed.
        ensures none { IfOk result (λ there. IfNone there
            ((option_and_then (λ h. lookup (is_at (K.cmp key.now)) h.entries) (account_of tenant.now self.old) ≡ None)
            × (self.new ≡ self.old))) }

        // A refusal hands the key and the changed value back, and they are gone.
        ensures refused { IfErr result (λ r. MatchOption (account_of tenant.now self.old) ⊥
            (λ h. RefusesChanged V.layout.size V.may_show V.is_strict (is_at (K.cmp key.now))
            (ChangesTo C.FnOnce change) (all_billed kept_bytes self.old.accounts) h r)) }
        ensures err { OnErr result
            (MapsAccount tenant.now (without_entry (is_at (K.cmp key.now))) self.old self.new) }
    {
        let Some(shelf) = self.accounts.get_mut(tenant) else {
            return Ok(None);
        };
        let rest = self.bytes - shelf.bytes();
        let changed = shelf.change(self.alloc, key, change, self.bytes);
        let (bytes, excess) = (shelf.bytes(), shelf.excess());
        self.bytes = rest + bytes;
        let ledger_excess = self.bytes.saturating_sub(self.limit);
        match changed {
            Err(refused) => return Err(refused),
            Ok(false) => return Ok(None),
            Ok(true) => (),
        }
        Ok(Some(Standing {
            bytes,
            excess,
            ledger_excess,
        }))
    }

    /// Removes the tenant's value under the key, and returns it with its key. If there is none, it returns None and
    /// nothing changes.
    #[tactic(auto, using(crate::proofs::Accounts::accounts))]
    pub fn remove(&mut self, tenant: &str, key: &K) -> Option<(K, V)>
        ensures key { option_map (λ e. e.0) result
            ≡ option_and_then (λ h. lookup_key (is_at (K.cmp key.now)) h.entries) (account_of tenant.now self.old) }
        ensures value { option_map (λ e. e.1) result
            ≡ option_and_then (value_at (is_at (K.cmp key.now))) (account_of tenant.now self.old) }
        ensures removed { OnSome result
            (MapsAccount tenant.now (without_entry (is_at (K.cmp key.now))) self.old self.new) }
        ensures unchanged { IfNone result (self.new ≡ self.old) }
    {
        let account = self.accounts.get_mut(tenant)?;
        let (key, entry) = account.remove(key)?;
        self.bytes -= entry.bytes;
        Some((key, entry.value))
    }
}
