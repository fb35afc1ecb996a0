//! The states of the two collectors, and the output of the first: its graph and its warnings.
//!
//! The collector of a flame graph has the arena of paths, the identities met and where its visitors are. The collector
//! of held or of owned bytes has their sum. `allocative` makes one type of the two, which stores the first refusal, and
//! re-exports `FlameGraphOutput`, so its users need not name this crate. All sizes are in bytes.
#![tactic(auto)]

mod children;
pub mod graph_collector;
pub mod output;
pub mod sum_collector;
mod tree;
