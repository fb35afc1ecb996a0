//! Counts first what many values show, and enters it once.
#![tactic(auto)]

pub mod choice;
pub mod counted;
pub mod field;
pub mod map;
pub mod number;
pub mod pack;
pub mod places;
pub mod profile;
pub mod sequence;
pub mod tally;
pub mod tuple;
