//! Tests that pass with enough memory and with any one growth refused. After an error each test asserts which
//! error it is and what is left, and that a call that can be made again succeeds then. Beside them stand the public
//! names.
#![tactic(auto)]

#[cfg(test)]
mod assertions;
#[cfg(test)]
mod builders;
#[cfg(test)]
mod graphs;
#[cfg(test)]
mod json;
pub mod names;
#[cfg(test)]
mod program;
#[cfg(test)]
mod registries;
