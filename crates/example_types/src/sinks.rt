//! What takes numbers, without trait objects and function pointers: an enum of the sinks and of the tests that there
//! are, and a type parameter for a sink that the caller chooses.

mod shown;

/// What takes numbers.
#[derive(Drop)]
pub enum Sink {
    Sum(u64),
    All(Vec<u64>),
}

/// Which numbers are taken.
#[derive(Drop)]
pub enum Test {
    Above(u64),
    Between(u64, u64),
}

/// Sinks, and one of any type.
#[derive(Drop)]
pub struct Sinks<S> {
    pub test: Test,
    pub sinks: Vec<Sink>,
    pub last: S,
}
