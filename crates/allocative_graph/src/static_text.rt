//! The right to read a static text, whose type names no lifetime.
//!
//! A struct that holds a `&'static str` has a lifetime in its type. A `&mut` to such a struct, lent to a
//! closure or kept in another struct, gets no generated proof. A key, which collectors hold, therefore keeps
//! its text as a pointer and a length, beside a ghost right to read there forever.
//!
//! Proved by hand, in `proofs/static_text`, are the two functions of [`ReadRight`] that make the right and read
//! by it, and that the right can be shared and sent to other threads. All other proofs are generated from these.
ghost use Rattle.std.specs.Prelude.{◌≡◌, ℕ, ◌^◌, ◌<◌, List, length};
ghost use denote.RawPtr.{Ptr};
ghost use Rattle.allocative_graph.specs.Static.{IsPlaced, static_owns};

use std::marker::Model;
use std::slice;

/// The right to read `items` at `ptr` forever. It has no field at run time.
#[derive(Drop)]
pub(crate) struct ReadRight {
    ghost ptr: { Ptr },
    ghost items: { List ℕ },
    ghost placed: { IsPlaced ptr × (length items < 2 ^ 63) },
}

impl Model for ReadRight {
    ghost also_owns = { λ s. static_owns s.ptr s.items };

    ghost also_shares = { λ s _ _. static_owns s.ptr s.items };
}

impl ReadRight {
    /// The right to read the bytes of a `&'static`, and the pointer to them.
    pub(crate) fn forever(bytes: &'static [u8]) -> (*const u8, ReadRight)
        ensures { (result.1.ptr ≡ result.0) × (result.1.items ≡ bytes.now) }
    {
        (bytes.as_ptr(), ReadRight {})
    }

    /// The bytes at the pointer.
    #[inline(always)]
    pub(crate) fn read(&self, ptr: *const u8, len: usize) -> &'static [u8]
        requires { (ptr ≡ self.now.ptr) × (len ≡ length self.now.items) }
        ensures { result.now ≡ self.now.items }
    {
        unsafe { slice::from_raw_parts(ptr, len) }
    }
}
