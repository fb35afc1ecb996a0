//! Structs, one of them with a type parameter.
#![tactic(auto, using(allocative::proofs::Parts::parts))]

ghost use Rattle.std.specs.Prelude.{◌&&◌, true, codes, Some};
ghost use Rattle.allocative.specs.Shows.{Inside, Field, Both};

use allocative::{Allocative, Described, Field, Inside, Part, Refusal, Visitor};

/// A point on a grid.
#[derive(Drop)]
pub struct Point {
    pub x: u32,
    pub y: u32,
}

impl Allocative for Point {
    ghost may_show = { λ p. Inside (codes "Point") 8 (Both
        (Field (codes "x") (Some 4) (⟦<u32 as Allocative>⟧.may_show p.x))
        (Field (codes "y") (Some 4) (⟦<u32 as Allocative>⟧.may_show p.y))) };

    ghost is_strict = { true };

    fn visit(&self, visitor: &mut Visitor<'_>) -> Result<(), Refusal> {
        let x = Field("x", &self.x);
        let y = Field("y", &self.y);
        Inside("Point", 8, (x, y)).enter(visitor)
    }
}

/// A value with its name, and whether someone has read it.
#[derive(Drop)]
pub struct Named<T> {
    pub name: String,
    pub value: T,
    pub is_read: bool,
}

impl<T: Allocative + Described> Allocative for Named<T> {
    ghost may_show = { λ n. Inside (codes "Named") 64 (Both
        (Field (codes "name") (Some 24) (⟦<String as Allocative>⟧.may_show n.name)) (Both
        (Field (codes "value") T.layout.size (T.may_show n.value))
        (Field (codes "is_read") (Some 1) (⟦<bool as Allocative>⟧.may_show n.is_read)))) };

    ghost is_strict = { T.is_strict && true };

    fn visit(&self, visitor: &mut Visitor<'_>) -> Result<(), Refusal> {
        let name = Field("name", &self.name);
        let value = Field("value", &self.value);
        let is_read = Field("is_read", &self.is_read);
        Inside("Named", 64, (name, value, is_read)).enter(visitor)
    }
}
