//! An enum that holds itself in boxes.
#![tactic(auto, using(allocative::proofs::Parts::parts))]

ghost use Rattle.std.specs.Prelude.{codes, true};
ghost use Rattle.allocative.specs.Layouts.{declared};
ghost use Rattle.allocative.specs.Levels.{recursive};
ghost use Rattle.example_types.specs.Trees.{tree_level};

use allocative::{Allocative, Described, Field, Inside, Layout, Part, Refusal, Visitor};

/// A number, or two trees.
#[derive(Drop)]
pub enum Tree {
    Leaf(u64),
    Fork(Box<Tree>, Box<Tree>),
}

impl Described for Tree {
    ghost layout = { declared (codes "Tree") 24 8 true };

    fn layout() -> Layout {
        Layout::new("Tree", 24, 8, true)
    }
}

impl Allocative for Tree {
    ghost may_show = { recursive tree_level };

    ghost is_strict = { true };

    fn visit(&self, visitor: &mut Visitor<'_>) -> Result<(), Refusal> {
        match self {
            Tree::Leaf(value) => {
                let value = Field("Leaf", value);
                Inside("Tree", 24, value).enter(visitor)
            }
            Tree::Fork(left, right) => {
                let left = Field("left", left);
                let right = Field("right", right);
                Inside("Tree", 24, (left, right)).enter(visitor)
            }
        }
    }
}
