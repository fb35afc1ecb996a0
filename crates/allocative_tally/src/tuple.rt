//! Tuples, which show one entry for each field.

ghost use Rattle.std.specs.Prelude.{codes};
ghost use Rattle.allocative_tally.specs.{Beside, entries, is_whole, starting};

use crate::field::{FieldMany, SizedMany};
use crate::tally::{CountError, Entries, Tallied, declared};
use allocative::{Described, Refusal, Visitor};

impl<A: Tallied, B: Tallied> Tallied for (A, B) {
    type Tally = (A::Tally, B::Tally);

    ghost shape = { λ t n. entries (codes "tuple2") ⟦<(A, B) as Described>⟧.layout.size n
        (Beside (entries (codes "0") A.layout.size n (A.shape t.0 n))
        (entries (codes "1") B.layout.size n (B.shape t.1 n))) };

    ghost whole = { is_whole (Prim.search starting) };

    fn show(tally: &Self::Tally, count: usize, visitor: &mut Visitor<'_>) -> Result<(), Refusal> {
        let first = FieldMany::<A>("0", &tally.0, count);
        let second = FieldMany::<B>("1", &tally.1, count);
        SizedMany("tuple2", <(A, B)>::size(), count, (first, second)).enter(visitor)
    }

    #[inline(always)]
    fn tally(&self, tally: &mut Self::Tally) -> Result<(), CountError> {
        declared::<(A, B)>()?;
        let first = self.0.tally(&mut tally.0);
        let second = self.1.tally(&mut tally.1);
        first.and(second)
    }
}

impl<A: Tallied, B: Tallied, C: Tallied> Tallied for (A, B, C) {
    type Tally = (A::Tally, B::Tally, C::Tally);

    ghost shape = { λ t n. entries (codes "tuple3") ⟦<(A, B, C) as Described>⟧.layout.size n
        (Beside (entries (codes "0") A.layout.size n (A.shape t.0 n))
        (Beside (entries (codes "1") B.layout.size n (B.shape t.1 n))
        (entries (codes "2") C.layout.size n (C.shape t.2 n)))) };

    ghost whole = { is_whole (Prim.search starting) };

    fn show(tally: &Self::Tally, count: usize, visitor: &mut Visitor<'_>) -> Result<(), Refusal> {
        let first = FieldMany::<A>("0", &tally.0, count);
        let second = FieldMany::<B>("1", &tally.1, count);
        let third = FieldMany::<C>("2", &tally.2, count);
        let inside = (first, (second, third));
        SizedMany("tuple3", <(A, B, C)>::size(), count, inside).enter(visitor)
    }

    #[inline(always)]
    fn tally(&self, tally: &mut Self::Tally) -> Result<(), CountError> {
        declared::<(A, B, C)>()?;
        let first = self.0.tally(&mut tally.0);
        let second = self.1.tally(&mut tally.1);
        let third = self.2.tally(&mut tally.2);
        first.and(second.and(third))
    }
}

impl<A: Tallied, B: Tallied, C: Tallied, D: Tallied> Tallied for (A, B, C, D) {
    type Tally = (A::Tally, B::Tally, C::Tally, D::Tally);

    ghost shape = { λ t n. entries (codes "tuple4") ⟦<(A, B, C, D) as Described>⟧.layout.size n
        (Beside (entries (codes "0") A.layout.size n (A.shape t.0 n))
        (Beside (entries (codes "1") B.layout.size n (B.shape t.1 n))
        (Beside (entries (codes "2") C.layout.size n (C.shape t.2 n))
        (entries (codes "3") D.layout.size n (D.shape t.3 n))))) };

    ghost whole = { is_whole (Prim.search starting) };

    fn show(tally: &Self::Tally, count: usize, visitor: &mut Visitor<'_>) -> Result<(), Refusal> {
        let first = FieldMany::<A>("0", &tally.0, count);
        let second = FieldMany::<B>("1", &tally.1, count);
        let third = FieldMany::<C>("2", &tally.2, count);
        let fourth = FieldMany::<D>("3", &tally.3, count);
        let inside = (first, (second, (third, fourth)));
        SizedMany("tuple4", <(A, B, C, D)>::size(), count, inside).enter(visitor)
    }

    #[inline(always)]
    fn tally(&self, tally: &mut Self::Tally) -> Result<(), CountError> {
        declared::<(A, B, C, D)>()?;
        let first = self.0.tally(&mut tally.0);
        let second = self.1.tally(&mut tally.1);
        let third = self.2.tally(&mut tally.2);
        let fourth = self.3.tally(&mut tally.3);
        first.and(second.and(third.and(fourth)))
    }
}

impl<A: Tallied, B: Tallied, C: Tallied, D: Tallied, E: Tallied> Tallied for (A, B, C, D, E) {
    type Tally = (A::Tally, B::Tally, C::Tally, D::Tally, E::Tally);

    ghost shape = { λ t n. entries (codes "tuple5") ⟦<(A, B, C, D, E) as Described>⟧.layout.size n
        (Beside (entries (codes "0") A.layout.size n (A.shape t.0 n))
        (Beside (entries (codes "1") B.layout.size n (B.shape t.1 n))
        (Beside (entries (codes "2") C.layout.size n (C.shape t.2 n))
        (Beside (entries (codes "3") D.layout.size n (D.shape t.3 n))
        (entries (codes "4") E.layout.size n (E.shape t.4 n)))))) };

    ghost whole = { is_whole (Prim.search starting) };

    fn show(tally: &Self::Tally, count: usize, visitor: &mut Visitor<'_>) -> Result<(), Refusal> {
        let first = FieldMany::<A>("0", &tally.0, count);
        let second = FieldMany::<B>("1", &tally.1, count);
        let third = FieldMany::<C>("2", &tally.2, count);
        let fourth = FieldMany::<D>("3", &tally.3, count);
        let fifth = FieldMany::<E>("4", &tally.4, count);
        let inside = (first, (second, (third, (fourth, fifth))));
        SizedMany("tuple5", <(A, B, C, D, E)>::size(), count, inside).enter(visitor)
    }

    #[inline(always)]
    fn tally(&self, tally: &mut Self::Tally) -> Result<(), CountError> {
        declared::<(A, B, C, D, E)>()?;
        let first = self.0.tally(&mut tally.0);
        let second = self.1.tally(&mut tally.1);
        let third = self.2.tally(&mut tally.2);
        let fourth = self.3.tally(&mut tally.3);
        let fifth = self.4.tally(&mut tally.4);
        first.and(second.and(third.and(fourth.and(fifth))))
    }
}
