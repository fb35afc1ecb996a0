//! Tests of what no clause says, and worked rows, which show that the definitions mean what they say: the text of each
//! type, of each helper and of each refusal, bounds, builders that fail, and that each call succeeds if memory is
//! ample. The head of a file says which rows are in it.
#![tactic(auto)]

#[cfg(test)]
mod bad;
#[cfg(test)]
mod builders;
#[cfg(test)]
mod graphs;
#[cfg(test)]
mod helpers;
#[cfg(test)]
mod metrics;
#[cfg(test)]
mod named_types;
#[cfg(test)]
mod pack_types;
#[cfg(test)]
mod pictures;
#[cfg(test)]
mod printed;
#[cfg(test)]
mod rooms;
#[cfg(test)]
mod services;
#[cfg(test)]
mod sizes;
#[cfg(test)]
mod std_types;
#[cfg(test)]
mod texts;
#[cfg(test)]
mod vectors;
#[cfg(test)]
mod written_types;
