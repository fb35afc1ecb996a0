//! A type behind which `bin/implement --in-place` put its implementations.

use allocative::{Allocative, Field};

/// A struct of one field.
#[derive(Drop)]
pub struct OfOne {
    pub number: u64,
} // a comment behind it
// allocative: begin
ghost use Rattle.std.specs.Prelude.{codes, true};
ghost use Rattle.allocative.specs.Shows as shows;
ghost use Rattle.allocative.specs.Layouts.{empty, pad_to_align, ◌with◌};

use allocative::{Described, Layout, Part, Refusal, Visitor, Whole};

impl Described for OfOne {
    ghost layout = { pad_to_align (empty (codes "OfOne")
        with ⟦<u64 as Described>⟧.layout) };

    fn layout() -> Layout {
        Layout::empty("OfOne").with(u64::layout()).pad_to_align()
    }
}

#[tactic(auto, using(allocative::proofs::Parts::parts))]
impl Allocative for OfOne {
    ghost may_show = { λ x. shows.Field (codes "OfOne") ⟦<OfOne as Described>⟧.layout.size
        (shows.Field (codes "number") ⟦<u64 as Described>⟧.layout.size (⟦<u64 as Allocative>⟧.may_show x.number)) };

    ghost is_strict = { true };

    fn visit(&self, visitor: &mut Visitor<'_>) -> Result<(), Refusal> {
        let number = Field("number", &self.number);
        Whole(self, number).enter(visitor)
    }
}
// allocative: end
