//! Roots go in, and a graph comes out, or the bytes that they hold.

pub mod builder;
pub mod profile;
pub mod registry;
pub mod size_of;
pub mod sum_of_two;
