//! What a kept value shows: the value.
#![tactic(auto, using(allocative::proofs::Parts::parts))]

ghost use Rattle.std.specs.Prelude.{codes};
ghost use Rattle.allocative.specs.Layouts.{empty, ◌with◌, pad_to_align};
ghost use Rattle.allocative.specs.Shows as shows;

use crate::kept::Kept;
use allocative::{Allocative, Described, Field, Layout, Part, Refusal, Visitor, Whole};

impl<V: Allocative + Described> Described for Kept<V> {
    ghost layout = { pad_to_align (empty (codes "Kept") with ⟦<V as Described>⟧.layout
        with ⟦<usize as Described>⟧.layout with ⟦<usize as Described>⟧.layout) };

    fn layout() -> Layout {
        Layout::empty("Kept")
            .with(V::layout())
            .with(usize::layout())
            .with(usize::layout())
            .pad_to_align()
    }
}

impl<V: Allocative + Described> Allocative for Kept<V> {
    ghost may_show = { λ k. shows.Field (codes "Kept") ⟦<Kept<V> as Described>⟧.layout.size
        (shows.Field (codes "value") V.layout.size (V.may_show k.value)) };

    ghost is_strict = { V.is_strict };

    fn visit(&self, visitor: &mut Visitor<'_>) -> Result<(), Refusal> {
        let value = Field("value", &self.value);
        Whole(self, value).enter(visitor)
    }
}
