//! What a flame graph declares about itself, and the number of its paths.
ghost use Rattle.std.specs.Prelude.{◌^◌, ◌<◌, Some, true, codes};
ghost use Rattle.allocative_described.specs.Layouts.{declared};
ghost use Rattle.std.specs.FinMap.{len};
ghost use Rattle.std.specs.Option.{SomeIff};

use crate::flamegraph::FlameGraph;
use allocative_described::{Described, Layout};

// The node of the root: its children, the sum of their bytes, and its own bytes.
impl Described for FlameGraph {
    ghost layout = { declared (codes "FlameGraph") 40 8 true };

    fn layout() -> Layout {
        Layout::new("FlameGraph", 40, 8, true)
    }
}

impl FlameGraph {
    /// The number of paths, with that of the root. `None` exactly if it exceeds `usize::MAX`. It allocates nothing.
    #[tactic(auto, using(crate::proofs::Nodes::counting))]
    pub fn path_count(&self) -> Option<usize>
        ensures { SomeIff result (len self.now < 2 ^ 64) (len self.now) }
    {
        let mut count: usize = 1;
        for child in &self.children {
            count = count.checked_add(child.graph.path_count()?)?;
        }
        Some(count)
    }
}
