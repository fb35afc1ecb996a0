//! Parts: values that say what another value shows, and enter it.
//!
//! An implementation of `Allocative` builds one part that mirrors its `may_show`, and enters it.
#![tactic(auto, using(crate::proofs::Showing::showing))]

ghost use Rattle.std.specs.Prelude.{◌≡◌, Bool, true, false, ◌&&◌};
ghost use Rattle.allocative_graph.specs.Forest.{Forest};
ghost use Rattle.allocative_graph.specs.Path as path;
ghost use Rattle.allocative_graph.specs.Shows as shows;
ghost use Rattle.allocative.specs.Visited.{Entered};
ghost use Rattle.allocative.specs.Parts.{optional_shows, either_shows};

pub mod containers;
pub mod named;

use crate::{Allocative, Described, Identity, Key, Refusal, Visitor};
use allocative_graph::restore::Restore;
use either::Either;

/// The key that a part takes: a text, as in `Field("name", &self.name)`, or a key, as in
/// `Inside(Key::for_type_name::<T>(), 8, ())`.
pub trait IntoKey: Drop {
    ghost key: { Self → path.Key };

    /// The key of the text, or the key itself. It allocates nothing.
    fn into_key(self) -> Key
        ensures { result ≡ key self };
}

impl IntoKey for Key {
    ghost key = { λ k. k };

    fn into_key(self) -> Key {
        self
    }
}

impl IntoKey for &'static str {
    ghost key = { λ s. s.now };

    fn into_key(self) -> Key {
        Key::new(self)
    }
}

/// Something that a value shows.
///
/// A reference `&value` is the part of what the value shows, with no entry of its own. `()` is no entry, a
/// tuple is its parts in order, an `Option` is its part or nothing, and an `Either` is the part that is there.
pub trait Part: Drop {
    ghost may_show: { Self → Forest → Type 0 };

    /// Whether entering refuses only if it must, as `Allocative` says of visits. The parts of this crate are strict
    /// if the parts and values in them are.
    ghost is_strict: { Bool } = { false };

    /// Enters the part at the visitor.
    ///
    /// The errors of each entry are those of `Visitor::enter`. An `Err` is the collector's first cause, and
    /// then the collector has failed. After `Ok` the collector has one more forest, which the part may show; or
    /// a value's own visit hid an error, and the collector has failed; or a value's own visit leaked a visitor,
    /// and the collector has more open visitors than before. A collector that had failed stays as it was. The
    /// visitor stays where it was.
    fn enter(self, visitor: &mut Visitor<'_>) -> Result<(), Refusal>
        ensures { Entered is_strict (may_show self) visitor.old visitor.new result };
}

impl Part for () {
    ghost may_show = { λ _. shows.Nothing };

    ghost is_strict = { true };

    fn enter(self, _visitor: &mut Visitor<'_>) -> Result<(), Refusal> {
        Ok(())
    }
}

impl<'a, T: Allocative> Part for &'a T {
    ghost may_show = { λ v. T.may_show v.now };

    ghost is_strict = { T.is_strict };

    fn enter(self, visitor: &mut Visitor<'_>) -> Result<(), Refusal> {
        visitor.visit_value(self)
    }
}

/// One inline entry under a key, of a size in bytes, with a part inside it.
///
/// ```
/// let header = Inside("header", 16, ());
/// Inside("Packet", 48, (header, Field("body", &self.body))).enter(visitor)
/// ```
#[derive(Drop)]
pub struct Inside<K, P>(pub K, pub usize, pub P);

impl<K: IntoKey, P: Part> Part for Inside<K, P> {
    ghost may_show = { λ e. shows.Inside (K.key e.0) e.1 (P.may_show e.2) };

    ghost is_strict = { P.is_strict };

    #[inline(always)]
    fn enter(self, visitor: &mut Visitor<'_>) -> Result<(), Refusal> {
        visitor.visit_inside(self.0.into_key(), Some(self.1), self.2)
    }
}

/// One inline entry under a key, of a declared size in bytes, with a part inside it. If there is no size,
/// `enter` returns `TooLarge`.
///
/// ```
/// let first = Field("first", &self.first);
/// Declared(Key::for_type_name::<Pair<T>>(), <Pair<T>>::size(), first).enter(visitor)
/// ```
#[derive(Drop)]
pub struct Declared<K, P>(pub K, pub Option<usize>, pub P);

impl<K: IntoKey, P: Part> Part for Declared<K, P> {
    ghost may_show = { λ e. shows.Field (K.key e.0) e.1 (P.may_show e.2) };

    ghost is_strict = { P.is_strict };

    #[inline(always)]
    fn enter(self, visitor: &mut Visitor<'_>) -> Result<(), Refusal> {
        visitor.visit_inside(self.0.into_key(), self.1, self.2)
    }
}

/// A value's own entry: one inline entry of the name and the size that the value's type declares, with a part inside
/// it. If the type has no size, `enter` returns `TooLarge`.
///
/// ```
/// let name = Field("name", &self.name);
/// let count = Field("count", &self.count);
/// Whole(self, (name, count)).enter(visitor)
/// ```
#[derive(Drop)]
pub struct Whole<'a, T, P>(pub &'a T, pub P);

impl<'a, T: Described, P: Part> Part for Whole<'a, T, P> {
    ghost may_show = { λ e. shows.Field T.layout.name T.layout.size (P.may_show e.1) };

    ghost is_strict = { P.is_strict };

    #[inline(always)]
    fn enter(self, visitor: &mut Visitor<'_>) -> Result<(), Refusal> {
        visitor.visit_inside(Key::for_type_name::<T>(), T::size(), self.1)
    }
}

/// One unique entry under a key, of a size in bytes, with a part inside it: a pointer, and what only it points
/// to.
///
/// ```
/// Inside("Handle", 8, Unique("ptr", 8, &*self.boxed)).enter(visitor)
/// ```
#[derive(Drop)]
pub struct Unique<K, P>(pub K, pub usize, pub P);

impl<K: IntoKey, P: Part> Part for Unique<K, P> {
    ghost may_show = { λ e. shows.Unique (K.key e.0) e.1 (P.may_show e.2) };

    ghost is_strict = { P.is_strict };

    #[inline(always)]
    fn enter(self, visitor: &mut Visitor<'_>) -> Result<(), Refusal> {
        let outer = visitor
            .collector
            .open_entry(self.0.into_key(), Some(self.1), true)?;
        let answer = self.2.enter(visitor);
        visitor.collector.close_entry(outer);
        answer
    }
}

/// A field of a type that is `Described`, as `Field(key, &value)`: one inline entry of its declared size, with
/// what the field shows inside it.
///
/// ```
/// let name = Field("name", &self.name);
/// let count = Field("count", &self.count);
/// Inside("Item", 32, (name, count)).enter(visitor)
/// ```
#[derive(Drop)]
pub struct Field<K, V>(pub K, pub V);

impl<'a, K: IntoKey, T: Allocative + Described> Part for Field<K, &'a T> {
    ghost may_show = { λ f. shows.Field (K.key f.0) T.layout.size (T.may_show f.1.now) };

    ghost is_strict = { T.is_strict };

    #[inline(always)]
    fn enter(self, visitor: &mut Visitor<'_>) -> Result<(), Refusal> {
        visitor.visit_inside(self.0.into_key(), T::size(), self.1)
    }
}

/// One entry of a pointer to a shared value. If the value's identity was not met before, a
/// part is its content, whose paths start at the root. The collector of held bytes enters neither
/// the pointer nor the content, and that of owned bytes the pointer alone.
///
/// ```
/// let pointer = Shared {
///     key: Key::new("ptr"),
///     size: 8,
///     identity: self.table.id(),
///     content: Field("Table", self.table.get()),
/// };
/// Inside("Handle", 8, pointer).enter(visitor)
/// ```
#[derive(Drop)]
pub struct Shared<P> {
    /// The pointer's key.
    pub key: Key,
    /// The pointer's bytes.
    pub size: usize,
    /// The identity of the shared value.
    pub identity: Identity,
    /// The content, which is shown if the identity was not met.
    pub content: P,
}

impl<P: Part> Part for Shared<P> {
    ghost may_show = { λ s. shows.Shared s.key s.size s.identity (P.may_show s.content) };

    ghost is_strict = { P.is_strict };

    fn enter(self, visitor: &mut Visitor<'_>) -> Result<(), Refusal> {
        let is_first = visitor
            .collector
            .open_shared(self.key, self.size, self.identity)?;
        if is_first {
            // Only a flame graph's collector shows contents, and it keeps its own places.
            let answer = self.content.enter(visitor);
            visitor.collector.close_entry(Restore::none());
            return answer;
        }
        Ok(())
    }
}

impl<P: Part> Part for Option<P> {
    ghost may_show = { λ o. optional_shows P.may_show o };

    ghost is_strict = { P.is_strict };

    fn enter(self, visitor: &mut Visitor<'_>) -> Result<(), Refusal> {
        match self {
            None => Ok(()),
            Some(part) => part.enter(visitor),
        }
    }
}

impl<P: Part, Q: Part> Part for Either<P, Q> {
    ghost may_show = { λ c. either_shows P.may_show Q.may_show c };

    ghost is_strict = { P.is_strict && Q.is_strict };

    fn enter(self, visitor: &mut Visitor<'_>) -> Result<(), Refusal> {
        match self {
            Either::Left(part) => part.enter(visitor),
            Either::Right(part) => part.enter(visitor),
        }
    }
}

impl<P: Part> Part for (P,) {
    ghost may_show = { λ e. P.may_show e.0 };

    ghost is_strict = { P.is_strict };

    #[inline(always)]
    fn enter(self, visitor: &mut Visitor<'_>) -> Result<(), Refusal> {
        self.0.enter(visitor)
    }
}

impl<P: Part, Q: Part> Part for (P, Q) {
    ghost may_show = { λ e. shows.Both (P.may_show e.0) (Q.may_show e.1) };

    ghost is_strict = { P.is_strict && Q.is_strict };

    #[inline(always)]
    fn enter(self, visitor: &mut Visitor<'_>) -> Result<(), Refusal> {
        let (first, second) = self;
        first.enter(visitor)?;
        second.enter(visitor)
    }
}

impl<P: Part, Q: Part, R: Part> Part for (P, Q, R) {
    ghost may_show = { λ e. shows.Both (P.may_show e.0) (shows.Both (Q.may_show e.1) (R.may_show e.2)) };

    ghost is_strict = { P.is_strict && (Q.is_strict && R.is_strict) };

    #[inline(always)]
    fn enter(self, visitor: &mut Visitor<'_>) -> Result<(), Refusal> {
        let (first, second, third) = self;
        (first, (second, third)).enter(visitor)
    }
}

impl<P: Part, Q: Part, R: Part, S: Part> Part for (P, Q, R, S) {
    ghost may_show = { λ e. shows.Both (P.may_show e.0)
        (shows.Both (Q.may_show e.1) (shows.Both (R.may_show e.2) (S.may_show e.3))) };

    ghost is_strict = { P.is_strict && (Q.is_strict && (R.is_strict && S.is_strict)) };

    #[inline(always)]
    fn enter(self, visitor: &mut Visitor<'_>) -> Result<(), Refusal> {
        let (first, second, third, fourth) = self;
        (first, (second, third, fourth)).enter(visitor)
    }
}

impl<P: Part, Q: Part, R: Part, S: Part, T: Part> Part for (P, Q, R, S, T) {
    ghost may_show = { λ e. shows.Both (P.may_show e.0)
        (shows.Both (Q.may_show e.1) (shows.Both (R.may_show e.2) (shows.Both (S.may_show e.3) (T.may_show e.4)))) };

    ghost is_strict = { P.is_strict && (Q.is_strict && (R.is_strict && (S.is_strict && T.is_strict))) };

    #[inline(always)]
    fn enter(self, visitor: &mut Visitor<'_>) -> Result<(), Refusal> {
        let (first, second, third, fourth, fifth) = self;
        (first, (second, third, fourth, fifth)).enter(visitor)
    }
}
