//! The trait of values that show what they hold.
ghost use Rattle.std.specs.Prelude.{Bool, false};
ghost use Rattle.allocative_graph.specs.Forest.{Forest};
ghost use Rattle.allocative.specs.Visited.{Visited, Effect, AnyEffect};

use crate::{Refusal, Visitor};

/// A value that shows what it holds.
///
/// `may_show` says which forests of entries the value may show: it is the meaning that the type gives to its
/// values. `visit` is proved to enter one of these forests. An implementation builds one value, made of parts,
/// that mirrors `may_show`, and enters it.
///
/// ```
/// #![tactic(auto, using(allocative::proofs::Parts::parts))]
///
/// ghost use Rattle.std.specs.Prelude.{codes, Some};
/// ghost use Rattle.allocative.specs.Shows.{Inside, Field, Both};
///
/// use allocative::{Allocative, Field, Inside, Key, Part, Refusal, Visitor};
///
/// #[derive(Drop)]
/// struct Point {
///     x: u32,
///     y: u32,
/// }
///
/// impl Allocative for Point {
///     ghost may_show = { λ p. Inside (codes "Point") 8 (Both
///         (Field (codes "x") (Some 4) (⟦<u32 as Allocative>⟧.may_show p.x))
///         (Field (codes "y") (Some 4) (⟦<u32 as Allocative>⟧.may_show p.y))) };
///
///     fn visit(&self, visitor: &mut Visitor<'_>) -> Result<(), Refusal> {
///         let x = Field("x", &self.x);
///         let y = Field("y", &self.y);
///         Inside("Point", 8, (x, y)).enter(visitor)
///     }
/// }
/// ```
pub trait Allocative: Drop {
    ghost may_show: { Self → Forest → Type 0 };

    /// Whether each visit fails only if it must: with `TooLarge` only if the collector cannot take all that
    /// the value may show, with `Memory` only in a flame graph, and never with `Open`. A type whose parts are strict
    /// states `true`. One with a parameter states the flags of its parts, joined in their order.
    ghost is_strict: { Bool } = { false };

    /// What more each visit does than `visit` says, as a relation of the collector before, the answer and the collector
    /// after. A type states one only to promise more. Calls that answer what a visit left name it.
    ghost effect: { Self → Effect } = { λ value. AnyEffect };

    /// Enters what the value holds.
    ///
    /// After `Err` the collector has failed. After `Ok` it has failed (an error was hidden), or has more open
    /// visitors than before (one was leaked), or has one more forest, which the value may show. A collector
    /// that had failed stays as it was. The visitor stays where it was.
    fn visit(&self, visitor: &mut Visitor<'_>) -> Result<(), Refusal>
        ensures { Visited is_strict (may_show self.now) (effect self.now)
            visitor.old visitor.new result };
}
