//! Types as a user writes them by hand, one of each kind, each with the bytes that it declares.
#![tactic(auto)]

pub mod enums;
pub mod gauges;
pub mod groups;
pub mod locked;
pub mod nodes;
pub mod plugins;
pub mod pointers;
pub mod services;
pub mod sinks;
pub mod structs;
pub mod titled;
pub mod trees;
pub mod wrappers;
