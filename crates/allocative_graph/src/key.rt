//! Keys: static texts.
ghost use Rattle.std.specs.Prelude.{◌≡◌, List, ℕ, Some, ◌==◌, nat_eq, IfOk};
ghost use Rattle.std.proofs.Common.{rules};
ghost use Rattle.std.specs.Cmp.Rules.{comparing, hashing};
ghost use Rattle.std.specs.Ordering.{nat_cmp};
ghost use Rattle.std.specs.Cmp.Lexicographic.{pointwise, slice_cmp, nat_list_eq_equiv, nat_list_cmp_total, texts_ties, texts_po};
ghost use Rattle.std.specs.Cmp.{partial_equiv_from_equiv};
ghost use Rattle.std.specs.Hash as fed;
ghost use Rattle.allocative_graph.specs.Path.{fnv};

use crate::static_text::ReadRight;
use allocative_described::Described;
use std::alloc::{AllocError, Global};
use std::cmp::Ordering;
use std::hash::{Hash, Hasher};
use std::marker::Model;
use std::{fmt, str};

/// The name of an entry: a static text.
///
/// Keys are equal if their texts are, and are ordered by the bytes of their texts. A contract sees only the
/// bytes of the text. No call of a key allocates or fails.
#[derive(Drop)]
pub struct Key {
    at: *const u8,
    len: usize,
    right: ReadRight,
}

impl Model for Key {
    ghost use Rattle.std.specs.Prelude.{◌≡◌, ℕ, List, length, IsUtf8};

    ghost Value = { List ℕ };

    ghost view = { λ k. k.right.items };

    ghost invariant = { λ k. (k.at ≡ k.right.ptr) × (k.len ≡ length k.right.items) × IsUtf8 k.right.items };
}

// The pointer owns nothing.
unsafe impl Send for Key {}

unsafe impl Sync for Key {}

impl Key {
    /// The hash of a text: FNV-1a of 64 bits over its bytes.
    pub fn hash_of(text: &str) -> u64
        ensures { result ≡ fnv text.now }
    {
        text.as_bytes()
            .iter()
            .fold(0xcbf2_9ce4_8422_2325, |hash: u64, byte| {
                (hash ^ u64::from(*byte)).wrapping_mul(0x100_0000_01b3)
            })
    }

    /// The key of a text. [`ident_key!`](crate::ident_key) makes one of an identifier.
    pub fn new(text: &'static str) -> Key
        ensures { result ≡ text.now }
    {
        let (at, right) = ReadRight::forever(text.as_bytes());
        Key {
            at,
            len: text.len(),
            right,
        }
    }

    /// The key of a copy of the text, which stays in memory until the program ends. Make one key for each different
    /// text, and copy it. The only error is that memory runs out.
    pub fn leaked(alloc: Global, text: &str) -> Result<Key, AllocError>
        ensures { IfOk result (λ key. key ≡ text.now) }
    {
        let bytes: &'static [u8] = String::from_str(alloc, text)?.into_bytes().leak();
        let (at, right) = ReadRight::forever(bytes);
        Ok(Key {
            at,
            len: bytes.len(),
            right,
        })
    }

    /// The key of the declared name of `T`.
    pub fn for_type_name<T: Described>() -> Key
        ensures { result ≡ T.layout.name }
    {
        Key::new(T::name())
    }

    /// The key of a text whose hash is known. It requires that the hash is `hash_of(text)`. The key does not keep it.
    pub fn new_unchecked(_hash: u64, text: &'static str) -> Key
        requires { _hash ≡ fnv text.now }
        ensures { result ≡ text.now }
    {
        Key::new(text)
    }

    /// The text. It lives longer than the key.
    pub fn as_str(&self) -> &'static str
        ensures { result.now ≡ self.now }
    {
        unsafe { str::from_utf8_unchecked(self.right.read(self.at, self.len)) }
    }

    /// A copy of the key. `clone` returns a `Result`, as every `clone` does, even though it never fails; this
    /// call is for callers that cannot pass an error on.
    pub fn copy(&self) -> Key
        ensures { result ≡ self.now }
    {
        Key::new(self.as_str())
    }
}

impl PartialEq for Key {
    ghost eq = { pointwise nat_eq };

    ghost laws = { partial_equiv_from_equiv nat_list_eq_equiv };

    fn eq(&self, other: &Key) -> bool {
        self.as_str() == other.as_str()
    }
}

impl Eq for Key {
    ghost laws = { nat_list_eq_equiv };
}

impl PartialOrd for Key {
    ghost partial_cmp = { λ a b. Some (slice_cmp nat_cmp a b) };

    ghost laws = { texts_po };

    fn partial_cmp(&self, other: &Key) -> Option<Ordering> {
        Some(self.cmp(other))
    }
}

impl Ord for Key {
    ghost cmp = { slice_cmp nat_cmp };

    ghost total = { nat_list_cmp_total };

    ghost matches_partial_cmp = { Prim.search (comparing, rules) };

    ghost matches_eq = { texts_ties };

    fn cmp(&self, other: &Key) -> Ordering {
        self.as_str().cmp(other.as_str())
    }
}

/// A key feeds a hasher the 64-bit hash of its text, and nothing else.
impl Hash for Key {
    ghost hash_input = { λ k. fed.u64 (fnv k) };

    ghost respects_eq = { Prim.search (hashing, rules) };

    fn hash<H: Hasher>(&self, state: &mut H) {
        state.write_u64(Key::hash_of(self.as_str()));
    }
}

/// Cloning a key never fails, as its contract says.
impl Clone for Key {
    ghost is_clone = { λ k c. c ≡ k };

    ghost is_infallible = { λ _. Unit {0} };

    fn clone(&self) -> Result<Key, AllocError> {
        Ok(self.copy())
    }
}

/// The text in quotes, as `str` prints it.
impl fmt::Debug for Key {
    fn fmt<W: fmt::Write>(&self, f: &mut fmt::Formatter<W>) -> fmt::Result {
        self.as_str().fmt(f)
    }
}

/// The first eight bytes of a key as a number, with zeros after a shorter key. Keys whose numbers differ have the order
/// of their numbers, which no contract says: what is found by them is compared by the keys.
pub fn start_of(key: &str) -> u64 {
    let bytes = key.as_bytes();
    if let Some(first) = bytes.first_chunk() {
        return u64::from_be_bytes(*first);
    }
    let mut padded = [0; 8];
    padded[..bytes.len()].copy_from_slice(bytes);
    u64::from_be_bytes(padded)
}

/// The [`Key`](crate::key::Key) of an identifier's text: `ident_key!(count)` is the key of `count`.
#[macro_export]
macro_rules! ident_key {
    ($name:ident) => {
        $crate::key::Key::new(stringify!($name))
    };
}
