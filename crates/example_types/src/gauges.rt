//! A visit that returns a refusal of its own.
#![tactic(auto, using(allocative::proofs::Parts::parts))]

ghost use Rattle.std.specs.Prelude.{codes, Some};
ghost use Rattle.allocative.specs.Shows.{Inside, Field};

use allocative::{Allocative, Field, Inside, Part, Refusal, Visitor};

/// A gauge, which does not show a reading of 0.
#[derive(Drop)]
pub struct Gauge {
    pub reading: u64,
}

impl Allocative for Gauge {
    ghost may_show = { λ g. Inside (codes "Gauge") 8
        (Field (codes "reading") (Some 8) (⟦<u64 as Allocative>⟧.may_show g.reading)) };

    #[tactic(auto, using(allocative::proofs::Parts::parts, allocative::proofs::Parts::refusing))]
    fn visit(&self, visitor: &mut Visitor<'_>) -> Result<(), Refusal> {
        if self.reading == 0 {
            return Err(visitor.refuse(Refusal::TooLarge));
        }
        Inside("Gauge", 8, Field("reading", &self.reading)).enter(visitor)
    }
}
