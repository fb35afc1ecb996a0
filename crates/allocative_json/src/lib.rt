//! Profiles and fields of JSON documents: the calls of the programs `allocative-json` and `allocative-fields`, and the
//! programs themselves over any reader and two writers.
#![tactic(auto)]

pub mod fault;
pub mod fields;
pub mod profile;
pub mod roots;
pub mod run;
pub mod texts;
pub mod words;

pub use crate::fault::Fault;
pub use crate::fields::{FieldsFault, fields_json, fields_json_lines};
pub use crate::profile::{Report, profile_json};
pub use crate::roots::read_roots;
pub use crate::run::{report_fault, run_fields, run_json};
pub use crate::texts::report;
pub use crate::words::{Words, read_words};
