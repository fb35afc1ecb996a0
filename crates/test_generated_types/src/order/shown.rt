//! What the types of `order` show. `bin/implement` of `allocative` wrote it.
#![tactic(auto, using(allocative::proofs::Parts::parts))]

ghost use Rattle.std.specs.Prelude.{codes, true};
ghost use Rattle.allocative.specs.Shows as shows;
ghost use Rattle.allocative.specs.Layouts.{empty, pad_to_align, ◌with◌};

use super::*;
use allocative::{Allocative, Described, Field, Layout, Part, Refusal, Visitor, Whole};

impl Described for Order {
    ghost layout = { pad_to_align (empty (codes "Order")
        with ⟦<u64 as Described>⟧.layout
        with ⟦<String as Described>⟧.layout
        with ⟦<Vec<u32> as Described>⟧.layout) };

    fn layout() -> Layout {
        Layout::empty("Order")
            .with(u64::layout())
            .with(String::layout())
            .with(<Vec<u32>>::layout())
            .pad_to_align()
    }
}

impl Allocative for Order {
    ghost may_show = { λ x. shows.Field (codes "Order") ⟦<Order as Described>⟧.layout.size
        (shows.Both
        (shows.Field (codes "number") ⟦<u64 as Described>⟧.layout.size (⟦<u64 as Allocative>⟧.may_show x.number)) (shows.Both
        (shows.Field (codes "name") ⟦<String as Described>⟧.layout.size (⟦<String as Allocative>⟧.may_show x.name))
        (shows.Field (codes "marks") ⟦<Vec<u32> as Described>⟧.layout.size (⟦<Vec<u32> as Allocative>⟧.may_show x.marks)))) };

    ghost is_strict = { true };

    fn visit(&self, visitor: &mut Visitor<'_>) -> Result<(), Refusal> {
        let number = Field("number", &self.number);
        let name = Field("name", &self.name);
        let marks = Field("marks", &self.marks);
        Whole(self, (number, name, marks)).enter(visitor)
    }
}
