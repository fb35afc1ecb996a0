//! Types whose implementations `bin/implement` wrote.
#![tactic(auto)]

pub mod order;
pub mod placed;
pub mod received;
pub mod types;
