//! The public names that users rely on, by the paths that they write. A name that is gone does not compile.
pub use allocative::{
    Allocative, Described, FlameGraph, FlameGraphBuilder, FlameGraphOutput, IdArc, IdMaker, IdRc,
    Identity, Key, Refusal, Registry, Visitor, ident_key, merge_law, order_law, profile_in_two,
    profile_roots, raw_table_alloc_size_for_len, size_of_owned, size_of_unique,
    size_of_unique_allocated_data, text_law, visit_json_map,
};
pub use allocative_json::{
    Fault, Report, Words, profile_json, read_roots, read_words, report, run_json,
};
