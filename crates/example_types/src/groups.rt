//! A part of one's own, which stands for some fields of a struct.
#![tactic(auto, using(allocative::proofs::Parts::parts))]

ghost use Rattle.std.specs.Prelude.{codes, Some};
ghost use Rattle.allocative.specs.Shows.{Inside, Field, Both};

use allocative::{Allocative, Field, Inside, Part, Refusal, Visitor};

/// What someone buys.
#[derive(Drop)]
pub struct Sale {
    pub name: String,
    pub number: u64,
    pub amount: u32,
}

/// The fields of a sale that say who buys.
#[derive(Drop)]
struct Buyer<'a>(&'a Sale);

impl<'a> Part for Buyer<'a> {
    ghost may_show = { λ b. Both
        (Field (codes "name") (Some 24) (⟦<String as Allocative>⟧.may_show b.0.now.name))
        (Field (codes "number") (Some 8) (⟦<u64 as Allocative>⟧.may_show b.0.now.number)) };

    fn enter(self, visitor: &mut Visitor<'_>) -> Result<(), Refusal> {
        let name = Field("name", &self.0.name);
        let number = Field("number", &self.0.number);
        (name, number).enter(visitor)
    }
}

impl Allocative for Sale {
    ghost may_show = { λ s. Inside (codes "Sale") 40 (Both
        (Both
        (Field (codes "name") (Some 24) (⟦<String as Allocative>⟧.may_show s.name))
        (Field (codes "number") (Some 8) (⟦<u64 as Allocative>⟧.may_show s.number)))
        (Field (codes "amount") (Some 4) (⟦<u32 as Allocative>⟧.may_show s.amount))) };

    fn visit(&self, visitor: &mut Visitor<'_>) -> Result<(), Refusal> {
        let amount = Field("amount", &self.amount);
        Inside("Sale", 40, (Buyer(self), amount)).enter(visitor)
    }
}
