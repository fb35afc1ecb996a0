//! Pictures of flame graphs: SVG text, with a box for each path that is wide enough to be seen, and, of a history of
//! profiles, with lines over time. Views of flame graphs, which show what is heavy where its keys are data, and tables
//! of the heaviest paths.
//!
//! All sizes are in bytes. A call that allocates takes an allocator first and returns a `Result`.
#![tactic(auto)]

mod boxes;
pub mod escape;
mod figures;
mod fixed;
pub mod frame;
mod frames;
pub mod history;
pub mod laws;
pub mod options;
pub mod page;
pub mod picture;
mod places;
pub mod table;
pub mod views;
