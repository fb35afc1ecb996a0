//! An enum whose variants have none to five fields.
#![tactic(auto, using(allocative::proofs::Parts::parts))]

ghost use Rattle.std.specs.Prelude.{true, codes, Some};
ghost use Rattle.allocative.specs.Shows.{Nothing, Inside, Field, Both};

use allocative::{Allocative, Field, Inside, Part, Refusal, Visitor};

/// A request of a client to a store.
#[derive(Drop)]
pub enum Request {
    Ping,
    Count(u64),
    Move(u32, u32),
    Draw(u16, u16, u16, u16, String),
}

impl Allocative for Request {
    ghost use Rattle.example_types.specs.declared.enums.Request.TheVariants.{Ping, Count, Move, Draw};

    ghost may_show = { λ r. Inside (codes "Request") 40 (elim r [
      | Ping ↦ Nothing
      | Count n ↦ Field (codes "Count") (Some 8) (⟦<u64 as Allocative>⟧.may_show n)
      | Move n m ↦ Both
          (Field (codes "from") (Some 4) (⟦<u32 as Allocative>⟧.may_show n))
          (Field (codes "to") (Some 4) (⟦<u32 as Allocative>⟧.may_show m))
      | Draw a b w h s ↦ Both
          (Field (codes "left") (Some 2) (⟦<u16 as Allocative>⟧.may_show a)) (Both
          (Field (codes "top") (Some 2) (⟦<u16 as Allocative>⟧.may_show b)) (Both
          (Field (codes "width") (Some 2) (⟦<u16 as Allocative>⟧.may_show w)) (Both
          (Field (codes "height") (Some 2) (⟦<u16 as Allocative>⟧.may_show h))
          (Field (codes "text") (Some 24) (⟦<String as Allocative>⟧.may_show s)))))
    ]) };

    ghost is_strict = { true };

    fn visit(&self, visitor: &mut Visitor<'_>) -> Result<(), Refusal> {
        let key = "Request";
        match self {
            Request::Ping => Inside(key, 40, ()).enter(visitor),
            Request::Count(count) => {
                let count = Field("Count", count);
                Inside(key, 40, count).enter(visitor)
            }
            Request::Move(from, to) => {
                let from = Field("from", from);
                let to = Field("to", to);
                Inside(key, 40, (from, to)).enter(visitor)
            }
            Request::Draw(left, top, width, height, text) => {
                let left = Field("left", left);
                let top = Field("top", top);
                let width = Field("width", width);
                let height = Field("height", height);
                let text = Field("text", text);
                Inside(key, 40, (left, top, width, height, text)).enter(visitor)
            }
        }
    }
}
