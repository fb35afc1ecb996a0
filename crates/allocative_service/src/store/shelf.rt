//! The values of one tenant of a store, with the bytes that are billed for each.
ghost use Rattle.std.specs.Prelude.{◌≡◌, ◌+◌, ◌-◌, ◌^◌, ◌<◌, ◌≤◌, OnOk, OnErr, IfOk, IfErr, IfNone, MatchBool, None};
ghost use Rattle.std.specs.Prelude.{Some, option_copied, option_map};
ghost use Rattle.std.specs.BTreeMap.{insert_entry, is_at, IsOrdered};
ghost use Rattle.std.specs.Map.{lookup, lookup_key};
ghost use Rattle.allocative_service.specs.Book.{bytes_in, without_entry};
ghost use Rattle.allocative_service.specs.Entries.{ChangesTo};
ghost use Rattle.allocative_service.specs.Kept.{kept_as, kept_bytes, key_bytes_in};
ghost use Rattle.allocative_service.specs.Measured.{Declares};
ghost use Rattle.allocative_service.specs.Rejected.{HasRoom};
ghost use Rattle.allocative_service.specs.Store.{sum_of, value_at, KeepsChanged, PutsOnShelf, RefusesChanged};
ghost use Rattle.allocative_service.specs.Store.{RefusesPut};

use crate::book::budget::Room;
use crate::book::{Account, Rejection};
use crate::cache::error::Refused;
use crate::kept::Kept;
use allocative::{Allocative, Described};
use std::alloc::Global;
use std::collections::BTreeMap;
use std::collections::btree_map::Entry;

/// A value that was not put, or not kept after a change, with its key and the cause.
pub type NotKept<K, V> = Refused<K, V, Rejection>;

/// The values of one tenant of a `Store`, by key. Only the store changes its shelves. A shelf that `Store::close`
/// handed back gives its values by `remove`.
pub type Shelf<K, V> = Account<K, Kept<V>>;

/// Puts a value of `value_bytes` bytes under the key, which has `key_bytes` unless it is there already. It returns the
/// value that was there, its bytes or 0, and the bytes that are there now. The key is searched once.
fn write<K: Ord + Drop, V: Drop>(
    entries: &mut BTreeMap<K, Kept<V>>,
    key: K,
    value: V,
    key_bytes: usize,
    value_bytes: usize,
) -> Result<(Option<V>, usize, usize), (K, V)>
    requires { key_bytes_in (lookup (is_at (K.cmp key)) entries.old.entries) key_bytes + value_bytes < 2 ^ 64 }

    // The entry has the bytes of the key that is there and of the value.
    ensures put { OnOk result (entries.new.entries ≡ insert_entry K.cmp entries.old.entries key (kept_as value
        (key_bytes_in (lookup (is_at (K.cmp key)) entries.old.entries) key_bytes) value_bytes)) }
    ensures bytes { IfOk result (λ was. was.2
        ≡ key_bytes_in (lookup (is_at (K.cmp key)) entries.old.entries) key_bytes + value_bytes) }

    // What was there is returned.
    ensures value { IfOk result
        (λ was. was.0 ≡ option_map (λ e. e.value) (lookup (is_at (K.cmp key)) entries.old.entries)) }
    ensures had { IfOk result
        (λ was. was.1 ≡ bytes_in kept_bytes (lookup (is_at (K.cmp key)) entries.old.entries)) }

    // Only a new key is refused, if memory runs out. Both are handed back, and nothing changed.
    ensures absent { OnErr result (lookup (is_at (K.cmp key)) entries.old.entries ≡ None) }
    ensures returned { IfErr result (λ pair. pair ≡ (key, value)) }
    ensures err { OnErr result (entries.new.entries ≡ entries.old.entries) }
    ensures ordered { IsOrdered K.cmp entries.old }
{
    let entry = match entries.entry(key) {
        Ok(entry) => entry,
        Err(failed) => return Err((failed.value, value)),
    };
    match entry {
        Entry::Vacant(entry) => {
            let bytes = key_bytes + value_bytes;
            entry.insert(Kept {
                value,
                bytes,
                key_bytes,
            });
            Ok((None, 0, bytes))
        }
        Entry::Occupied(mut entry) => {
            let key_bytes = entry.get().key_bytes;
            let bytes = key_bytes + value_bytes;
            let had = entry.insert(Kept {
                value,
                bytes,
                key_bytes,
            });
            Ok((Some(had.value), had.bytes, bytes))
        }
    }
}

impl<K: Ord + Allocative + Described, V: Allocative + Described> Shelf<K, V> {
    /// The value under the key.
    pub fn get(&self, key: &K) -> Option<&V>
        ensures { option_copied result ≡ value_at (is_at (K.cmp key.now)) self.now }
    {
        Some(&self.entries.get(key)?.value)
    }

    /// The bytes of the key and of the value, if there is room for them, where all shelves have `all` bytes together
    /// and may have `most`. Those of the key count only if the shelf does not have it.
    fn bill(
        &self,
        alloc: Global,
        key: &K,
        value: &V,
        all: usize,
        most: usize,
    ) -> Result<(usize, usize), Rejection>
        requires { sum_of self.now ≤ all }
        ensures key { IfOk result (λ bill. lookup (is_at (K.cmp key.now)) self.now.entries ≡ None
            → Declares self.now.measure K.layout.size (K.may_show key.now) bill.0) }
        ensures value { IfOk result
            (λ bill. Declares self.now.measure V.layout.size (V.may_show value.now) bill.1) }
        ensures room { IfOk result (λ bill. HasRoom all (Some most) (sum_of self.now) self.now.limit
            (bytes_in kept_bytes (lookup (is_at (K.cmp key.now)) self.now.entries))
            (key_bytes_in (lookup (is_at (K.cmp key.now)) self.now.entries) bill.0 + bill.1)) }

        // An error has the first cause that holds.
        ensures refused { IfErr result (RefusesPut K.layout.size K.may_show V.layout.size V.may_show K.is_strict
            V.is_strict K.cmp all most key.now value.now self.now) }
    {
        let value_bytes = self.measure.size_of(alloc, value)?;
        let room = Room {
            budget: self.budget,
            sum: self.bytes,
            all,
            most: Some(most),
        };
        let refused = match room.measured(alloc, self.measure, key, 0, value_bytes) {
            Ok(key_bytes) => return Ok((key_bytes, value_bytes)),
            Err(refused) => refused,
        };
        // There may be room in place of the value that is under the key.
        let Some(there) = self.entries.get(key) else {
            return Err(refused);
        };
        let bytes = there.key_bytes as u128 + value_bytes as u128;
        match room.check(there.bytes, bytes) {
            Ok(()) => Ok((there.key_bytes, value_bytes)),
            Err(refused) => Err(refused),
        }
    }

    /// Measures the key and the value, and keeps the value under the key, where all shelves have `all` bytes together,
    /// and may have `most`. It returns the value that was there before.
    ///
    /// The errors are those of `Store::put` but `NoAccount`. The key and the value come with the error, and the shelf
    /// is unchanged.
    #[tactic(auto, using(crate::proofs::Billing::putting))]
    pub(crate) fn put(
        &mut self,
        alloc: Global,
        key: K,
        value: V,
        all: usize,
        most: usize,
    ) -> Result<Option<V>, NotKept<K, V>>
        requires { sum_of self.old ≤ all }

        // The value is kept and billed with its key, and the value before it is returned.
        ensures ok { OnOk result (PutsOnShelf K.layout.size K.may_show V.layout.size V.may_show K.cmp all most key
            value self.old self.new) }
        ensures had { IfOk result (λ had. had ≡ value_at (is_at (K.cmp key)) self.old) }

        // A refusal has the first cause that holds and hands both back, and nothing changed.
        ensures refused { IfErr result (λ r. RefusesPut K.layout.size K.may_show V.layout.size V.may_show K.is_strict
            V.is_strict K.cmp all most key value self.old r.error) }
        ensures returned { IfErr result (λ r. (r.key ≡ key) × (r.value ≡ value)) }
        ensures err { OnErr result (self.new ≡ self.old) }

        // The bytes of all shelves fit a word.
        ensures fits { all + sum_of self.new < 2 ^ 64 + sum_of self.old }
    {
        let (key_bytes, value_bytes) = match self.bill(alloc, &key, &value, all, most) {
            Ok(bill) => bill,
            Err(error) => return Err(Refused { error, key, value }),
        };
        match write(&mut self.entries, key, value, key_bytes, value_bytes) {
            Ok((was, had, bytes)) => {
                self.bytes = self.bytes - had + bytes;
                self.peak = self.peak.max(self.bytes);
                Ok(was)
            }
            Err((key, value)) => Err(Refused {
                error: Rejection::NotKept,
                key,
                value,
            }),
        }
    }

    /// Changes the value under the key in its place, measures it again and enters its growth, also beyond the limit,
    /// where all shelves have `all` bytes together. It returns whether the shelf has the key. If it does not, nothing
    /// changes.
    ///
    /// The errors are those of `Store::change`. After one the key and the value are no longer on the shelf, and come
    /// with the error.
    #[tactic(auto, using(crate::proofs::Billing::changing))]
    pub(crate) fn change<C: FnOnce(&mut V)>(
        &mut self,
        alloc: Global,
        key: &K,
        change: C,
        all: usize,
    ) -> Result<bool, NotKept<K, V>>
        requires called { C.IsAlwaysCallable change }
        requires part { sum_of self.old ≤ all }

        // The changed value is measured again and entered. Without one nothing changed.
        ensures ok { IfOk result (λ there. MatchBool there
            (KeepsChanged V.layout.size V.may_show (is_at (K.cmp key.now)) (ChangesTo C.FnOnce change) self.old
            self.new)
            ((lookup (is_at (K.cmp key.now)) self.old.entries ≡ None) × (self.new ≡ self.old))) }

        // A refusal hands the key and the changed value back, and they are gone.
        ensures refused { IfErr result (RefusesChanged V.layout.size V.may_show V.is_strict (is_at (K.cmp key.now))
            (ChangesTo C.FnOnce change) all self.old) }
        ensures err { OnErr result (self.new ≡ without_entry (is_at (K.cmp key.now)) self.old) }

        // The bytes of all shelves fit a word.
        ensures fits { all + sum_of self.new < 2 ^ 64 + sum_of self.old }
    {
        let Some(entry) = self.entries.get_mut(key) else {
            return Ok(false);
        };
        let (had, key_bytes) = (entry.bytes, entry.key_bytes);
        change(&mut entry.value);
        let room = Room {
            budget: self.budget,
            sum: self.bytes,
            all,
            most: None,
        };
        let error = match room.measured(alloc, self.measure, &entry.value, had, key_bytes) {
            Ok(bytes) => {
                entry.bytes = key_bytes + bytes;
                self.bytes = self.bytes - had + entry.bytes;
                self.peak = self.peak.max(self.bytes);
                return Ok(true);
            }
            Err(error) => error,
        };
        self.bytes -= had;
        match self.entries.remove_entry(key) {
            Some((key, entry)) => Err(Refused {
                error,
                key,
                value: entry.value,
            }),
            None => Ok(false),
        }
    }
}
