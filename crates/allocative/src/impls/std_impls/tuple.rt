//! Tuples, with one entry for each field, named by its position, and arrays. Those of six to eight parts show two
//! groups of parts.

ghost use Rattle.std.specs.Prelude.{◌&&◌, codes};
ghost use Rattle.allocative_graph.specs.Shows as shows;
ghost use Rattle.allocative.specs.Bodies.{slice_of};

use crate::{Allocative, Described, Field, Part, Refusal, Visitor, Whole};

impl<A: Allocative + Described> Allocative for (A,) {
    ghost may_show = { λ p. shows.Field (codes "tuple1") ⟦<(A,) as Described>⟧.layout.size
        (shows.Field (codes "0") A.layout.size (A.may_show p.0)) };

    ghost is_strict = { A.is_strict };

    fn visit(&self, visitor: &mut Visitor<'_>) -> Result<(), Refusal> {
        Whole(self, Field("0", &self.0)).enter(visitor)
    }
}

impl<A: Allocative + Described, B: Allocative + Described> Allocative for (A, B) {
    ghost may_show = { λ p. shows.Field (codes "tuple2") ⟦<(A, B) as Described>⟧.layout.size
        (shows.Both (shows.Field (codes "0") A.layout.size (A.may_show p.0))
        (shows.Field (codes "1") B.layout.size (B.may_show p.1))) };

    ghost is_strict = { A.is_strict && B.is_strict };

    fn visit(&self, visitor: &mut Visitor<'_>) -> Result<(), Refusal> {
        Whole(self, (Field("0", &self.0), Field("1", &self.1))).enter(visitor)
    }
}

impl<A: Allocative + Described, B: Allocative + Described, C: Allocative + Described> Allocative
    for (A, B, C) {
    ghost may_show = { λ p. shows.Field (codes "tuple3") ⟦<(A, B, C) as Described>⟧.layout.size
        (shows.Both (shows.Field (codes "0") A.layout.size (A.may_show p.0))
        (shows.Both (shows.Field (codes "1") B.layout.size (B.may_show p.1))
        (shows.Field (codes "2") C.layout.size (C.may_show p.2)))) };

    ghost is_strict = { A.is_strict && (B.is_strict && C.is_strict) };

    fn visit(&self, visitor: &mut Visitor<'_>) -> Result<(), Refusal> {
        let (a, b, c) = self;
        Whole(self, (Field("0", a), Field("1", b), Field("2", c))).enter(visitor)
    }
}

impl<
    A: Allocative + Described,
    B: Allocative + Described,
    C: Allocative + Described,
    D: Allocative + Described,
> Allocative for (A, B, C, D) {
    ghost may_show = { λ p. shows.Field (codes "tuple4") ⟦<(A, B, C, D) as Described>⟧.layout.size
        (shows.Both (shows.Field (codes "0") A.layout.size (A.may_show p.0))
        (shows.Both (shows.Field (codes "1") B.layout.size (B.may_show p.1))
        (shows.Both (shows.Field (codes "2") C.layout.size (C.may_show p.2))
        (shows.Field (codes "3") D.layout.size (D.may_show p.3))))) };

    ghost is_strict = { A.is_strict && (B.is_strict && (C.is_strict && D.is_strict)) };

    fn visit(&self, visitor: &mut Visitor<'_>) -> Result<(), Refusal> {
        let (a, b, c, d) = self;
        let fields = (Field("0", a), Field("1", b), Field("2", c), Field("3", d));
        Whole(self, fields).enter(visitor)
    }
}

impl<
    A: Allocative + Described,
    B: Allocative + Described,
    C: Allocative + Described,
    D: Allocative + Described,
    E: Allocative + Described,
> Allocative for (A, B, C, D, E) {
    ghost may_show = { λ p. shows.Field (codes "tuple5") ⟦<(A, B, C, D, E) as Described>⟧.layout.size
        (shows.Both (shows.Field (codes "0") A.layout.size (A.may_show p.0))
        (shows.Both (shows.Field (codes "1") B.layout.size (B.may_show p.1))
        (shows.Both (shows.Field (codes "2") C.layout.size (C.may_show p.2))
        (shows.Both (shows.Field (codes "3") D.layout.size (D.may_show p.3))
        (shows.Field (codes "4") E.layout.size (E.may_show p.4)))))) };

    ghost is_strict = { A.is_strict && (B.is_strict && (C.is_strict && (D.is_strict && E.is_strict))) };

    fn visit(&self, visitor: &mut Visitor<'_>) -> Result<(), Refusal> {
        let first = Field("0", &self.0);
        let second = Field("1", &self.1);
        let third = Field("2", &self.2);
        let fourth = Field("3", &self.3);
        let fifth = Field("4", &self.4);
        Whole(self, (first, second, third, fourth, fifth)).enter(visitor)
    }
}

impl<
    A: Allocative + Described,
    B: Allocative + Described,
    C: Allocative + Described,
    D: Allocative + Described,
    E: Allocative + Described,
    F: Allocative + Described,
> Allocative for (A, B, C, D, E, F) {
    ghost may_show = { λ p. shows.Field (codes "tuple6") ⟦<(A, B, C, D, E, F) as Described>⟧.layout.size (shows.Both
        (shows.Both (shows.Field (codes "0") A.layout.size (A.may_show p.0))
        (shows.Both (shows.Field (codes "1") B.layout.size (B.may_show p.1))
        (shows.Field (codes "2") C.layout.size (C.may_show p.2))))
        (shows.Both (shows.Field (codes "3") D.layout.size (D.may_show p.3))
        (shows.Both (shows.Field (codes "4") E.layout.size (E.may_show p.4))
        (shows.Field (codes "5") F.layout.size (F.may_show p.5))))) };

    ghost is_strict = { (A.is_strict && (B.is_strict && C.is_strict))
        && (D.is_strict && (E.is_strict && F.is_strict)) };

    fn visit(&self, visitor: &mut Visitor<'_>) -> Result<(), Refusal> {
        let (a, b, c, d, e, f) = self;
        let front = (Field("0", a), Field("1", b), Field("2", c));
        let back = (Field("3", d), Field("4", e), Field("5", f));
        Whole(self, (front, back)).enter(visitor)
    }
}

impl<
    A: Allocative + Described,
    B: Allocative + Described,
    C: Allocative + Described,
    D: Allocative + Described,
    E: Allocative + Described,
    F: Allocative + Described,
    G: Allocative + Described,
> Allocative for (A, B, C, D, E, F, G) {
    ghost may_show = { λ p. shows.Field (codes "tuple7") ⟦<(A, B, C, D, E, F, G) as Described>⟧.layout.size (shows.Both
        (shows.Both (shows.Field (codes "0") A.layout.size (A.may_show p.0))
        (shows.Both (shows.Field (codes "1") B.layout.size (B.may_show p.1))
        (shows.Field (codes "2") C.layout.size (C.may_show p.2))))
        (shows.Both (shows.Field (codes "3") D.layout.size (D.may_show p.3))
        (shows.Both (shows.Field (codes "4") E.layout.size (E.may_show p.4))
        (shows.Both (shows.Field (codes "5") F.layout.size (F.may_show p.5))
        (shows.Field (codes "6") G.layout.size (G.may_show p.6)))))) };

    ghost is_strict = { (A.is_strict && (B.is_strict && C.is_strict))
        && (D.is_strict && (E.is_strict && (F.is_strict && G.is_strict))) };

    fn visit(&self, visitor: &mut Visitor<'_>) -> Result<(), Refusal> {
        let (a, b, c, d, e, f, g) = self;
        let front = (Field("0", a), Field("1", b), Field("2", c));
        let back = (Field("3", d), Field("4", e), Field("5", f), Field("6", g));
        Whole(self, (front, back)).enter(visitor)
    }
}

impl<
    A: Allocative + Described,
    B: Allocative + Described,
    C: Allocative + Described,
    D: Allocative + Described,
    E: Allocative + Described,
    F: Allocative + Described,
    G: Allocative + Described,
    H: Allocative + Described,
> Allocative for (A, B, C, D, E, F, G, H) {
    ghost may_show = { λ p. shows.Field (codes "tuple8") ⟦<(A, B, C, D, E, F, G, H) as Described>⟧.layout.size
        (shows.Both
        (shows.Both (shows.Field (codes "0") A.layout.size (A.may_show p.0))
        (shows.Both (shows.Field (codes "1") B.layout.size (B.may_show p.1))
        (shows.Both (shows.Field (codes "2") C.layout.size (C.may_show p.2))
        (shows.Field (codes "3") D.layout.size (D.may_show p.3)))))
        (shows.Both (shows.Field (codes "4") E.layout.size (E.may_show p.4))
        (shows.Both (shows.Field (codes "5") F.layout.size (F.may_show p.5))
        (shows.Both (shows.Field (codes "6") G.layout.size (G.may_show p.6))
        (shows.Field (codes "7") H.layout.size (H.may_show p.7)))))) };

    ghost is_strict = { (A.is_strict && (B.is_strict && (C.is_strict && D.is_strict)))
        && (E.is_strict && (F.is_strict && (G.is_strict && H.is_strict))) };

    fn visit(&self, visitor: &mut Visitor<'_>) -> Result<(), Refusal> {
        let (a, b, c, d, e, f, g, h) = self;
        let front = (Field("0", a), Field("1", b), Field("2", c), Field("3", d));
        let back = (Field("4", e), Field("5", f), Field("6", g), Field("7", h));
        Whole(self, (front, back)).enter(visitor)
    }
}

impl<T: Allocative + Described, const N: usize> Allocative for [T; N] {
    ghost may_show = { slice_of T.layout.name T.layout.size T.may_show };

    ghost is_strict = { T.is_strict };

    fn visit(&self, visitor: &mut Visitor<'_>) -> Result<(), Refusal> {
        visitor.visit_slice_of(self)
    }
}
