//! What a history shows: its profiles, the latest first.
#![tactic(auto, using(allocative::proofs::Parts::parts))]

ghost use Rattle.std.specs.Prelude.{codes, true};
ghost use Rattle.allocative.specs.Layouts.{empty, ◌with◌, pad_to_align};
ghost use Rattle.allocative.specs.Shows as shows;

use crate::history::History;
use allocative::{Allocative, Described, Field, FlameGraph, Layout, Part, Refusal, Visitor, Whole};
use std::collections::VecDeque;

impl Described for History {
    ghost layout = { pad_to_align (empty (codes "History") with ⟦<VecDeque<FlameGraph> as Described>⟧.layout
        with ⟦<usize as Described>⟧.layout) };

    fn layout() -> Layout {
        Layout::empty("History")
            .with(<VecDeque<FlameGraph>>::layout())
            .with(usize::layout())
            .pad_to_align()
    }
}

impl Allocative for History {
    ghost may_show = { λ h. shows.Field (codes "History") ⟦<History as Described>⟧.layout.size
        (shows.Field (codes "profiles") ⟦<VecDeque<FlameGraph> as Described>⟧.layout.size
        (⟦<VecDeque<FlameGraph> as Allocative>⟧.may_show h.profiles)) };

    ghost is_strict = { true };

    fn visit(&self, visitor: &mut Visitor<'_>) -> Result<(), Refusal> {
        let profiles = Field("profiles", &self.profiles);
        Whole(self, profiles).enter(visitor)
    }
}
