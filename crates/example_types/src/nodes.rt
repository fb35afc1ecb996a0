//! A tree of a user's own type.
#![tactic(auto, using(allocative::proofs::Parts::parts))]

ghost use Rattle.std.specs.Prelude.{codes, Some, true};
ghost use Rattle.allocative.specs.Layouts.{declared};
ghost use Rattle.allocative.specs.Shows as shows;
ghost use Rattle.allocative.specs.StdShows.{Leaf};
ghost use Rattle.allocative.specs.Levels.{recursive, plain, child, both, inside, field, vec_of};
ghost use Rattle.example_types.specs.declared.nodes.Node.{out-Node};

use allocative::{Allocative, Described, Field, Inside, Layout, Part, Refusal, Visitor};

/// A node and the nodes below it.
#[derive(Drop)]
pub struct Node {
    pub label: u32,
    pub children: Vec<Node>,
}

impl Described for Node {
    ghost layout = { declared (codes "Node") 32 8 true };

    fn layout() -> Layout {
        Layout::new("Node", 32, 8, true)
    }
}

impl Allocative for Node {
    ghost may_show = { recursive (λ n. inside (codes "Node") 32 (both
        (plain (shows.Field (codes "label") (Some 4) (Leaf (codes "u32") 4)))
        (field (codes "children") (Some 24) (vec_of 32 child (out-Node n).children)))) };

    fn visit(&self, visitor: &mut Visitor<'_>) -> Result<(), Refusal> {
        let label = Field("label", &self.label);
        let children = Field("children", &self.children);
        Inside("Node", 32, (label, children)).enter(visitor)
    }
}
