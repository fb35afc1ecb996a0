//! A cache bounded by declared bytes. Contracts see it as its `entries`, the most recently used first, its `bound` and
//! its `measure`.
ghost use Rattle.std.specs.Prelude.{◌≡◌, ◌+◌, ◌-◌, ◌^◌, ◌≤◌, Some, [], ◌∷◌, length, OnOk, OnErr, IfOk, IfErr, IfNone};
ghost use Rattle.std.specs.Prelude.{MatchBool, Err, None, option_copied, ◌↔◌, IsTrue, is_some};
ghost use Rattle.std.specs.Borrow.{sem};
ghost use Rattle.std.specs.List.{IsDistinct};
ghost use Rattle.std.specs.Map.{lookup, lookup_entry, remove_entry, keys_of};
ghost use Rattle.std.specs.Map.Iter.{ShowsInOrder, deref_pair};
ghost use Rattle.allocative_service.specs.Kept.{IsBill};
ghost use Rattle.allocative_service.specs.Measured.{Declares, MayRefuseMeasure};
ghost use Rattle.allocative_service.specs.Entries.{bytes_of, KeepsRecent, bounded, with_entries, IsBounded, Inserts};
ghost use Rattle.allocative_service.specs.Entries.{Changes, RefusesInsert, RefusesChange, stored_key, entry_at};
ghost use Rattle.allocative_service.specs.Entries.{value_at, used, without, ends_as, step_of, ChangesTo};

pub mod error;
mod shown;

pub use crate::cache::error::{CacheError, Refused};
pub use crate::kept::Kept;
use crate::measure::Measure;
use allocative::{Allocative, Described, Refusal};
use lru::{Iter, LruCache};
use std::alloc::{AllocError, AllocFailed, Global};
use std::hash::{BuildHasher, BuildHasherDefault, FoldHasher, Hash};
use std::marker::Model;

/// A map whose keys and values have together at most as many declared bytes as its bound. When a new value needs room,
/// the least recently used values are evicted, and each of them is handed back to the caller. `S` makes the hashers of
/// keys.
#[derive(Drop)]
pub struct BoundedCache<
    K: Eq + Hash + Allocative + Described,
    V: Allocative + Described,
    S: BuildHasher = BuildHasherDefault<FoldHasher>,
> {
    alloc: Global,
    measure: Measure,
    entries: LruCache<K, Kept<V>, S>,
    bytes: usize,
    bound: usize,
}

impl<K: Eq + Hash + Allocative + Described, V: Allocative + Described, S: BuildHasher> Model
    for BoundedCache<K, V, S> {
    ghost use Rattle.std.specs.Prelude.{◌≡◌, ◌-◌, ◌^◌};
    ghost use Rattle.allocative_service.specs.Entries.{Bounded, bounded, bytes_of, IsBounded};

    ghost Value = { Bounded K V };

    ghost view = { λ c. bounded c.entries.entries c.bound c.measure };

    ghost invariant = { λ c. (c.entries.cap ≡ 2 ^ 64 - 1) × (c.bytes ≡ bytes_of c.entries.entries)
        × IsBounded K.layout.size K.may_show V.layout.size V.may_show (bounded c.entries.entries c.bound c.measure) };
}

/// Puts the pair first, in place of an entry with an equal key. It returns the old value and its bytes. The other
/// entries stay: a list is never so long that the capacity would evict one.
#[tactic(auto, using(crate::proofs::Caching::putting))]
pub(crate) fn put<K: Eq + Hash + Drop, V: Drop, S: BuildHasher + Drop>(
    entries: &mut LruCache<K, Kept<V>, S>,
    key: K,
    kept: Kept<V>,
) -> Result<(Option<V>, usize), AllocFailed<(K, Kept<V>)>>
    requires { entries.old.cap ≡ 2 ^ 64 - 1 }

    // The pair is first, without the entry that it replaces. That has the bytes that are returned.
    ensures first { OnOk result (entries.new.entries
        ≡ (stored_key K.eq key entries.old.entries, kept) ∷ remove_entry (K.eq key) entries.old.entries) }
    ensures had { IfOk result (λ had. had.0 ≡ value_at (K.eq key) entries.old.entries) }
    ensures bytes { IfOk result (λ had.
        bytes_of (remove_entry (K.eq key) entries.old.entries) + had.1 ≡ bytes_of entries.old.entries) }

    // The capacity stays.
    ensures capacity { entries.new.cap ≡ entries.old.cap }

    // An error hands both back, and nothing changed.
    ensures returned { IfErr result (λ failed. failed.value ≡ (key, kept)) }
    ensures err { OnErr result (entries.new ≡ entries.old) }
{
    let count = entries.len();
    prove!(count < usize::MAX);
    match entries.put(key, kept) {
        Ok(Some(old)) => Ok((Some(old.value), old.bytes)),
        Ok(None) => Ok((None, 0)),
        Err(failed) => Err(failed),
    }
}

/// Evicts the least recently used entries, until all have at most `room` bytes. It passes each evicted entry to the
/// closure, and returns the bytes of those that stay.
fn evict<K: Eq + Hash, V: Drop, S: BuildHasher, F: FnMut(K, V)>(
    entries: &mut LruCache<K, Kept<V>, S>,
    bytes: u128,
    room: usize,
    mut on_evict: F,
) -> usize
    requires callable { F.IsAlwaysCallable on_evict }
    requires bytes { bytes ≡ bytes_of entries.old.entries }

    // The most recently used stay, no fewer than there is room for, and their bytes are returned.
    ensures recent { KeepsRecent (step_of F.step)
        on_evict room entries.old.entries entries.new.entries }
    ensures bytes { result ≡ bytes_of entries.new.entries }
    ensures fits { result ≤ room }

    // The capacity stays.
    ensures capacity { entries.new.cap ≡ entries.old.cap }
{
    let mut left = bytes;
    while left > room as u128 {
        let Some((key, gone)) = entries.pop_lru() else {
            return 0;
        };
        left = left.saturating_sub(gone.bytes as u128);
        on_evict(key, gone.value);
    }
    left as usize
}

impl<K: Eq + Hash + Allocative + Described, V: Allocative + Described> BoundedCache<K, V> {
    /// An empty cache with a bound in bytes, as the measure counts them. The hasher has a fixed seed: for keys that an
    /// attacker picks, use `with_hasher` with a `RandomState`. The only error is that memory runs out.
    pub fn new(alloc: Global, measure: Measure, bound: usize) -> Result<Self, AllocError>
        ensures { IfOk result (λ c. c ≡ bounded [] bound measure) }
    {
        BoundedCache::with_hasher(alloc, measure, bound, BuildHasherDefault::new())
    }
}

impl<
    K: Eq + Hash + Allocative + Described,
    V: Allocative + Described,
    S: BuildHasher + Drop,
> BoundedCache<K, V, S> {
    ghost use Rattle.allocative_service.specs.contracts.cache.BoundedCache.{the_row};

    /// As `new`, with what makes the hashers of keys.
    pub fn with_hasher(
        alloc: Global,
        measure: Measure,
        bound: usize,
        hash_builder: S,
    ) -> Result<Self, AllocError>
        ensures { IfOk result (λ c. c ≡ bounded [] bound measure) }
    {
        let entries = LruCache::unbounded_with_hasher(alloc, hash_builder)?;
        Ok(BoundedCache {
            alloc,
            measure,
            entries,
            bytes: 0,
            bound,
        })
    }

    /// The bytes that are billed for the key itself. A key that the cache has keeps its bytes, and another is measured.
    /// The error is that of `Measure::size_of`.
    fn key_bytes(&self, key: &K) -> Result<usize, Refusal>
        ensures key { IfOk result (Declares self.now.measure K.layout.size
            (K.may_show (stored_key K.eq key.now self.now.entries))) }
        ensures refused { IfErr result (λ e. (lookup (K.eq key.now) self.now.entries ≡ None)
            × MayRefuseMeasure self.now.measure K.is_strict K.layout.size (K.may_show key.now) e) }
    {
        match self.entries.peek(key) {
            Some(kept) => Ok(kept.key_bytes),
            None => self.measure.size_of(self.alloc, key),
        }
    }

    /// The bytes of the key alone, and those of the key and the value, if these are within the bound. The errors are
    /// those of `insert` but `Memory`.
    fn bill(&self, key: &K, value: &V) -> Result<(usize, usize), CacheError>
        ensures bill { IfOk result (λ bill. IsBill K.layout.size K.may_show V.layout.size V.may_show self.now.measure
            (stored_key K.eq key.now self.now.entries) value.now bill.0 bill.1) }
        ensures within { IfOk result (λ bill. bill.1 ≤ self.now.bound) }
        ensures refused { IfErr result (RefusesInsert K.layout.size K.may_show V.layout.size V.may_show K.is_strict
            V.is_strict K.eq key.now value.now self.now) }
    {
        let key_bytes = self.key_bytes(key)?;
        let value_bytes = self.measure.size_of(self.alloc, value)?;
        let Some(bytes) = key_bytes.checked_add(value_bytes) else {
            return Err(CacheError::NotMeasured(Refusal::TooLarge));
        };
        let bound = self.bound;
        if bytes > bound {
            return Err(CacheError::TooLarge { bytes, bound });
        }
        Ok((key_bytes, bytes))
    }

    /// Measures the key and the value, and inserts the value under the key, as the most recently used. It returns the
    /// value that was there before. Of the others the least recently used are evicted, no more than necessary. Each is
    /// passed to `on_evict` with its key, the least recently used first.
    ///
    /// The error is `NotMeasured` if `Measure::size_of` returns an error or the bytes of both fit no word, `TooLarge`
    /// if the key and the value alone exceed the bound, and `Memory` if they are within the bound and memory runs out.
    /// The key and the value come with the error, and the cache is unchanged.
    pub fn insert<F: FnMut(K, V)>(
        &mut self,
        key: K,
        value: V,
        on_evict: F,
    ) -> Result<Option<V>, Refused<K, V>>
        requires { F.IsAlwaysCallable on_evict }

        // The value is inserted and billed with its key, and the value before it is returned.
        ensures ok { OnOk result
            (Inserts K.layout.size K.may_show V.layout.size V.may_show K.eq (step_of F.step) on_evict key value self.old
            self.new) }
        ensures had { IfOk result (λ had. had ≡ value_at (K.eq key) self.old.entries) }

        // A refusal has its cause and hands both back, and nothing changed.
        ensures refused { IfErr result
            (λ r. RefusesInsert K.layout.size K.may_show V.layout.size V.may_show K.is_strict V.is_strict K.eq key value
            self.old r.error) }
        ensures returned { IfErr result (λ r. (r.key ≡ key) × (r.value ≡ value)) }
        ensures err { OnErr result (self.new ≡ self.old) }

        // The cache is within its bound.
        ensures bounded { IsBounded K.layout.size K.may_show V.layout.size V.may_show self.new }
    {
        let (key_bytes, bytes) = match self.bill(&key, &value) {
            Ok(bill) => bill,
            Err(error) => return Err(Refused { error, key, value }),
        };
        let kept = Kept {
            value,
            bytes,
            key_bytes,
        };
        match put(&mut self.entries, key, kept) {
            Ok((had, replaced)) => {
                let all = (self.bytes - replaced) as u128 + bytes as u128;
                self.bytes = evict(&mut self.entries, all, self.bound, on_evict);
                Ok(had)
            }
            Err(AllocFailed { value: (key, kept) }) => Err(Refused {
                error: CacheError::Memory,
                key,
                value: kept.value,
            }),
        }
    }

    /// Removes the key and returns it with its value. If there is no such key, it returns None and nothing changes.
    #[tactic(auto, using(crate::proofs::Caching::removing))]
    pub fn remove(&mut self, key: &K) -> Option<(K, V)>
        ensures value { result ≡ entry_at (K.eq key.now) self.old.entries }
        ensures others { self.new ≡ without (K.eq key.now) self.old }
        ensures unchanged { IfNone result (self.new ≡ self.old) }
        ensures bounded { IsBounded K.layout.size K.may_show V.layout.size V.may_show self.new }
    {
        let (key, kept) = self.entries.pop_entry(key)?;
        self.bytes -= kept.bytes;
        Some((key, kept.value))
    }

    /// Removes all values, and drops them.
    pub fn clear(&mut self)
        ensures { self.new ≡ with_entries self.old [] }
    {
        self.entries.clear();
        self.bytes = 0;
    }

    /// Replaces the bound. The least recently used values are evicted, no more than necessary. Each is passed to
    /// `on_evict` with its key, the least recently used first.
    pub fn set_bound<F: FnMut(K, V)>(&mut self, bound: usize, on_evict: F)
        requires { F.IsAlwaysCallable on_evict }
        ensures recent { KeepsRecent (step_of F.step)
            on_evict bound self.old.entries self.new.entries }
        ensures set { self.new ≡ bounded self.new.entries bound self.old.measure }
        ensures bounded { IsBounded K.layout.size K.may_show V.layout.size V.may_show self.new }
    {
        self.bytes = evict(&mut self.entries, self.bytes as u128, bound, on_evict);
        self.bound = bound;
    }

    /// Changes the value under the key in place, measures it again and inserts it as `insert` does. It returns whether
    /// the cache has the key. If it does not, nothing changes.
    ///
    /// The errors are those of `insert`. After an error the key and the value are no longer in the cache, and come with
    /// the error.
    pub fn change<C: FnOnce(&mut V), F: FnMut(K, V)>(
        &mut self,
        key: &K,
        change: C,
        on_evict: F,
    ) -> Result<bool, Refused<K, V>>
        requires changes { C.IsAlwaysCallable change }
        requires callable { F.IsAlwaysCallable on_evict }

        // The changed value is measured again and inserted. Without one nothing changed.
        ensures ok { IfOk result (λ there. MatchBool there
            (Changes K.layout.size K.may_show V.layout.size V.may_show K.eq (step_of F.step) on_evict (K.eq key.now)
            (ChangesTo C.FnOnce change) self.old self.new)
            ((lookup_entry (K.eq key.now) self.old.entries ≡ None) × (self.new ≡ self.old))) }

        // A refusal hands the key and the changed value back, and they are gone.
        ensures refused { IfErr result
            (RefusesChange K.layout.size K.may_show V.layout.size V.may_show K.is_strict V.is_strict K.eq (K.eq key.now)
            (ChangesTo C.FnOnce change) self.old) }
        ensures err { OnErr result (self.new ≡ without (K.eq key.now) self.old) }

        // The cache is within its bound.
        ensures bounded { IsBounded K.layout.size K.may_show V.layout.size V.may_show self.new }
    {
        let Some((key, mut value)) = self.remove(key) else {
            return Ok(false);
        };
        change(&mut value);
        match self.insert(key, value, on_evict) {
            Ok(_none) => Ok(true),
            Err(refused) => Err(refused),
        }
    }

    /// The value under the key, which becomes the most recently used.
    pub fn get(&mut self, key: &K) -> Option<&V>
        ensures* order { sem 𝓛 (ends_as
            (the_row K.row V.row S.row S.Hasher.row (record {}) (record { eq = K.eq })
            (record { hash_input = K.hash_input }) K.Allocative K.Described V.Allocative V.Described S.BuildHasher
            S.Hasher.Hasher) self.entry (used (K.eq key.now) self.old)) }
        ensures value { option_copied result ≡ value_at (K.eq key.now) self.old.entries }
    {
        let kept = self.entries.get(key)?;
        Some(&kept.value)
    }

    /// The value under the key. The order does not change.
    pub fn peek(&self, key: &K) -> Option<&V>
        ensures { option_copied result ≡ value_at (K.eq key.now) self.now.entries }
    {
        Some(&self.entries.peek(key)?.value)
    }

    /// Makes the value under the key the most recently used. It returns whether the cache has the key.
    pub fn promote(&mut self, key: &K) -> bool
        ensures found { result ≡ is_some (value_at (K.eq key.now) self.old.entries) }
        ensures order { self.new ≡ used (K.eq key.now) self.old }
    {
        self.entries.promote(key)
    }

    /// The keys with their kept values, the most recently used first. The order does not change.
    pub fn iter(&self) -> Iter<'_, K, Kept<V>>
        ensures rest { result ≡ self.now.entries }
        ensures runs { ShowsInOrder (deref_pair {K = K} {X = Kept V}) }
    {
        self.entries.iter()
    }

    /// The number of values, each under a key of its own.
    pub fn len(&self) -> usize
        ensures len { result ≡ length self.now.entries }
        ensures distinct { IsDistinct K.eq (keys_of self.now.entries) }
    {
        self.entries.len()
    }

    /// Whether the cache has a value under the key. The order does not change.
    pub fn contains(&self, key: &K) -> bool
        ensures { result ≡ is_some (value_at (K.eq key.now) self.now.entries) }
    {
        self.entries.contains(key)
    }

    /// Whether the cache is empty.
    pub fn is_empty(&self) -> bool
        ensures { IsTrue result ↔ (self.now.entries ≡ []) }
    {
        self.entries.is_empty()
    }

    /// The declared bytes of all keys and values together.
    pub fn bytes(&self) -> usize
        ensures sum { result ≡ bytes_of self.now.entries }
        ensures bounded { IsBounded K.layout.size K.may_show V.layout.size V.may_show self.now }
    {
        self.bytes
    }

    /// The most declared bytes that the keys and values may have together.
    pub fn bound(&self) -> usize
        ensures { result ≡ self.now.bound }
    {
        self.bound
    }

    /// Which bytes of its keys and values the cache counts.
    pub fn measure(&self) -> Measure
        ensures { result ≡ self.now.measure }
    {
        self.measure
    }
}
