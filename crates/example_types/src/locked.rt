//! A service whose parts lie behind locks of their own, profiled as one graph.

ghost use Rattle.std.specs.Prelude.{◌<◌, ◌^◌, IfOk};
ghost use Rattle.allocative.specs.Graph.{total};

use allocative::{FlameGraphBuilder, FlameGraphOutput, Key, NamedRef, Refusal};
use std::alloc::Global;
use std::sync::{Mutex, RwLock};

/// A service whose parts lie behind locks of their own.
#[derive(Drop)]
pub struct Store {
    pub orders: Mutex<Vec<u64>>,
    pub limit: RwLock<u32>,
}

impl Store {
    /// The graph and the warnings of all parts that no one else holds, each under its name.
    pub fn profile(&self, alloc: Global) -> Result<FlameGraphOutput, Refusal>
        ensures total { IfOk result (λ o. total o.graph < 2 ^ 63) }
    {
        let mut builder = FlameGraphBuilder::new(alloc)?;
        if let Some(orders) = self.orders.try_lock() {
            builder.visit_value(&NamedRef(Key::new("orders"), &*orders))?;
        }
        if let Some(limit) = self.limit.try_read() {
            builder.visit_value(&NamedRef(Key::new("limit"), &*limit))?;
        }
        builder.finish()
    }
}
