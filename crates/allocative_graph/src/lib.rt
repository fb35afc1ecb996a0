//! Flame graphs of declared sizes: keys, a map from paths of keys to sizes with its text, the identities of
//! shared values, and the definitions and laws that the port of `allocative` is built on.
//!
//! All sizes are in bytes. A call that may allocate returns a `Result`. Constructors of values on the heap
//! take the allocator first.
#![tactic(auto)]

pub mod flamegraph;
pub mod key;
pub mod laws;
pub mod read;
pub mod refusal;
pub mod restore;
pub mod shared;
mod static_text;
