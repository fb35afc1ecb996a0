//! What the types of `sinks` show. `bin/implement` of `allocative` wrote it.
#![tactic(auto, using(allocative::proofs::Parts::parts))]

ghost use Rattle.std.specs.Prelude.{codes, true, ◌&&◌};
ghost use Rattle.allocative.specs.Shows as shows;
ghost use Rattle.allocative.specs.Layouts.{empty, pad_to_align, ◌or◌, ◌with◌};

use super::*;
use allocative::{Allocative, Declared, Described, Field, Layout, Part, Refusal, Visitor, Whole};

impl Described for Sink {
    ghost layout = { pad_to_align (empty (codes "Sink")
        with ⟦<u8 as Described>⟧.layout
        with (⟦<u64 as Described>⟧.layout
        or ⟦<Vec<u64> as Described>⟧.layout)) };

    fn layout() -> Layout {
        Layout::empty("Sink")
            .with(u8::layout())
            .with(u64::layout().or(<Vec<u64>>::layout()))
            .pad_to_align()
    }
}

impl Allocative for Sink {
    ghost use Rattle.example_types.specs.declared.sinks.Sink.TheVariants.{Sum, All};

    ghost may_show = { λ x. shows.Field (codes "Sink") ⟦<Sink as Described>⟧.layout.size (elim x [
      | Sum a ↦ shows.Field (codes "Sum") ⟦<u64 as Described>⟧.layout.size (⟦<u64 as Allocative>⟧.may_show a)
      | All a ↦ shows.Field (codes "All") ⟦<Vec<u64> as Described>⟧.layout.size (⟦<Vec<u64> as Allocative>⟧.may_show a)
    ]) };

    ghost is_strict = { true };

    fn visit(&self, visitor: &mut Visitor<'_>) -> Result<(), Refusal> {
        match self {
            Sink::Sum(a) => {
                let a = Field("Sum", a);
                Whole(self, a).enter(visitor)
            }
            Sink::All(a) => {
                let a = Field("All", a);
                Whole(self, a).enter(visitor)
            }
        }
    }
}

/// The fields of the variant `Between` of `Test`.
struct TestBetweenFields;

impl Described for TestBetweenFields {
    ghost layout = { pad_to_align (empty (codes "Between")
        with ⟦<u64 as Described>⟧.layout
        with ⟦<u64 as Described>⟧.layout) };

    fn layout() -> Layout {
        Layout::empty("Between")
            .with(u64::layout())
            .with(u64::layout())
            .pad_to_align()
    }
}

impl Described for Test {
    ghost layout = { pad_to_align (empty (codes "Test")
        with ⟦<u8 as Described>⟧.layout
        with (⟦<u64 as Described>⟧.layout
        or (empty (codes "Between")
        with ⟦<u64 as Described>⟧.layout
        with ⟦<u64 as Described>⟧.layout))) };

    fn layout() -> Layout {
        Layout::empty("Test")
            .with(u8::layout())
            .with(u64::layout().or(
                Layout::empty("Between")
                    .with(u64::layout())
                    .with(u64::layout()),
            ))
            .pad_to_align()
    }
}

impl Allocative for Test {
    ghost use Rattle.example_types.specs.declared.sinks.Test.TheVariants.{Above, Between};

    ghost may_show = { λ x. shows.Field (codes "Test") ⟦<Test as Described>⟧.layout.size (elim x [
      | Above a ↦ shows.Field (codes "Above") ⟦<u64 as Described>⟧.layout.size (⟦<u64 as Allocative>⟧.may_show a)
      | Between a b ↦ shows.Field (codes "Between") ⟦<TestBetweenFields as Described>⟧.layout.size
          (shows.Both
          (shows.Field (codes "0") ⟦<u64 as Described>⟧.layout.size (⟦<u64 as Allocative>⟧.may_show a))
          (shows.Field (codes "1") ⟦<u64 as Described>⟧.layout.size (⟦<u64 as Allocative>⟧.may_show b)))
    ]) };

    ghost is_strict = { true };

    fn visit(&self, visitor: &mut Visitor<'_>) -> Result<(), Refusal> {
        match self {
            Test::Above(a) => {
                let a = Field("Above", a);
                Whole(self, a).enter(visitor)
            }
            Test::Between(a, b) => {
                let a = Field("0", a);
                let b = Field("1", b);
                let inside = Declared("Between", <TestBetweenFields>::size(), (a, b));
                Whole(self, inside).enter(visitor)
            }
        }
    }
}

impl<S: Allocative + Described> Described for Sinks<S> {
    ghost layout = { pad_to_align (empty (codes "Sinks")
        with ⟦<Test as Described>⟧.layout
        with ⟦<Vec<Sink> as Described>⟧.layout
        with ⟦<S as Described>⟧.layout) };

    fn layout() -> Layout {
        Layout::empty("Sinks")
            .with(Test::layout())
            .with(<Vec<Sink>>::layout())
            .with(S::layout())
            .pad_to_align()
    }
}

impl<S: Allocative + Described> Allocative for Sinks<S> {
    ghost may_show = { λ x. shows.Field (codes "Sinks") ⟦<Sinks<S> as Described>⟧.layout.size
        (shows.Both
        (shows.Field (codes "test") ⟦<Test as Described>⟧.layout.size (⟦<Test as Allocative>⟧.may_show x.test)) (shows.Both
        (shows.Field (codes "sinks") ⟦<Vec<Sink> as Described>⟧.layout.size (⟦<Vec<Sink> as Allocative>⟧.may_show x.sinks))
        (shows.Field (codes "last") ⟦<S as Described>⟧.layout.size (⟦<S as Allocative>⟧.may_show x.last)))) };

    ghost is_strict = { ⟦<Test as Allocative>⟧.is_strict && (⟦<Vec<Sink> as Allocative>⟧.is_strict && (⟦<S as Allocative>⟧.is_strict)) };

    fn visit(&self, visitor: &mut Visitor<'_>) -> Result<(), Refusal> {
        let test = Field("test", &self.test);
        let sinks = Field("sinks", &self.sinks);
        let last = Field("last", &self.last);
        Whole(self, (test, sinks, last)).enter(visitor)
    }
}
