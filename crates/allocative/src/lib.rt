//! Collects what values declare about their memory, and shows it as flame graphs.
//!
//! Values that implement `Allocative` are visited, and each enters what it holds at a `Visitor`. A
//! `FlameGraphBuilder` collects the entries and finishes as a `FlameGraph`, whose text `flamegraph.pl`
//! reads, with a list of warnings.
#![tactic(auto)]

pub mod allocative_trait;
pub mod impls;
mod part;
pub mod run;
pub mod visitor;

pub use crate::allocative_trait::Allocative;
pub use crate::impls::crate_impls::json::visit_json_map;
pub use crate::part::containers::{Buffer, Each, FieldEach, Items, Pairs, Text, Unused};
pub use crate::part::named::{Named, NamedRef};
pub use crate::part::{Declared, Field, Inside, IntoKey, Part, Shared, Unique, Whole};
pub use crate::run::builder::FlameGraphBuilder;
pub use crate::run::profile::{profile_text, profile_value, profile_values};
pub use crate::run::registry::{Registry, profile_roots};
pub use crate::run::size_of::{
    size_of_entries, size_of_owned, size_of_shown, size_of_unique, size_of_unique_allocated_data,
};
pub use crate::run::sum_of_two::profile_in_two;
pub use crate::run::{builder, profile, registry, size_of, sum_of_two};
pub use crate::visitor::slices::are_shown_each;
pub use crate::visitor::{Visitor, by_hand, collector, entries};
pub use allocative_collectors::output::{FlameGraphOutput, WarnedPath};
pub use allocative_described::{
    Described, Layout, raw_table_alloc_size_for_len, raw_table_law, shared_inner_size, up_law,
};
pub use allocative_graph::flamegraph::{Child, FlameGraph, Row, push_path};
pub use allocative_graph::key::Key;
pub use allocative_graph::laws::{
    exact_law, graph_law, graph_sums_law, meaning_law, merge_law, order_law, owned_law,
    path_order_law, plus_law, read_law, rows_law, shared_law, sums_law, text_law,
};
pub use allocative_graph::read::{LEVELS, LineFault, ReadFault};
pub use allocative_graph::refusal::Refusal;
pub use allocative_graph::shared::{IdArc, IdMaker, IdRc, Identity};

/// The [`Key`](crate::Key) of an identifier's text: `ident_key!(count)` is the key of `count`.
#[macro_export]
macro_rules! ident_key {
    ($name:ident) => {
        $crate::Key::new(stringify!($name))
    };
}
