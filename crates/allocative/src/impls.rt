//! What the types of the language, of `std` and of the crates that this one depends on show.
pub mod crate_impls;
mod std_impls;
