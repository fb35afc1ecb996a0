//! What types declare about themselves: a name, a size, an alignment, and whether they need a drop.
//!
//! The numbers are declarations, given by fixed tables and rules, for types of `std` and of the crates that this one
//! depends on. They say nothing about how a compiler lays a value out. `Described` is the trait, and `Layout` puts the
//! layout of a struct or an enum together of those of its fields. `raw_table_alloc_size_for_len` returns the size of a
//! hash map's table, and `shared_inner_size` the size of the value behind a shared pointer.
#![tactic(auto)]

mod described;
mod layout;
mod pack_types;
mod raw_table;
mod std_types;

pub use described::{Described, shared_inner_size, up_law};
pub use layout::Layout;
pub use raw_table::{raw_table_alloc_size_for_len, raw_table_law};
