//! Types that are one of several: `Option`, `Result` and `Either`.

ghost use Rattle.std.specs.Prelude.{codes};
ghost use Rattle.allocative_tally.specs.{Beside, entries, is_whole, starting};

use crate::field::{FieldMany, OwnTally, SizedMany, count_own};
use crate::tally::{CountError, Entries, Tallied, declared};
use allocative::{Described, Refusal, Visitor};
use either::{Either, Left, Right};

impl<T: Tallied> Tallied for Option<T> {
    type Tally = OwnTally<T::Tally>;

    ghost shape = { λ t n. entries (codes "Option") ⟦<Option<T> as Described>⟧.layout.size n
        (entries (codes "Some") T.layout.size t.count (T.shape t.values t.count)) };

    ghost whole = { is_whole (Prim.search starting) };

    fn show(tally: &Self::Tally, count: usize, visitor: &mut Visitor<'_>) -> Result<(), Refusal> {
        let some = FieldMany::<T>("Some", &tally.values, tally.count);
        SizedMany("Option", <Option<T>>::size(), count, some).enter(visitor)
    }

    #[inline(always)]
    fn tally(&self, tally: &mut Self::Tally) -> Result<(), CountError> {
        declared::<Option<T>>()?;
        match self {
            None => Ok(()),
            Some(value) => count_own(tally, value),
        }
    }
}

/// Values of one of two kinds, counted.
#[derive(Default, Drop)]
pub struct EitherTally<P, Q> {
    first: OwnTally<P>,
    second: OwnTally<Q>,
}

impl<T: Tallied, E: Tallied> Tallied for Result<T, E> {
    type Tally = EitherTally<T::Tally, E::Tally>;

    ghost shape = { λ t n. entries (codes "Result") ⟦<Result<T, E> as Described>⟧.layout.size n
        (Beside (entries (codes "Ok") T.layout.size t.first.count (T.shape t.first.values t.first.count))
        (entries (codes "Err") E.layout.size t.second.count (E.shape t.second.values t.second.count))) };

    ghost whole = { is_whole (Prim.search starting) };

    fn show(tally: &Self::Tally, count: usize, visitor: &mut Visitor<'_>) -> Result<(), Refusal> {
        let ok = FieldMany::<T>("Ok", &tally.first.values, tally.first.count);
        let err = FieldMany::<E>("Err", &tally.second.values, tally.second.count);
        SizedMany("Result", <Result<T, E>>::size(), count, (ok, err)).enter(visitor)
    }

    #[inline(always)]
    fn tally(&self, tally: &mut Self::Tally) -> Result<(), CountError> {
        declared::<Result<T, E>>()?;
        match self {
            Ok(value) => count_own(&mut tally.first, value),
            Err(value) => count_own(&mut tally.second, value),
        }
    }
}

impl<L: Tallied, R: Tallied> Tallied for Either<L, R> {
    type Tally = EitherTally<L::Tally, R::Tally>;

    ghost shape = { λ t n. entries (codes "Either") ⟦<Either<L, R> as Described>⟧.layout.size n
        (Beside (entries (codes "Left") L.layout.size t.first.count (L.shape t.first.values t.first.count))
        (entries (codes "Right") R.layout.size t.second.count (R.shape t.second.values t.second.count))) };

    ghost whole = { is_whole (Prim.search starting) };

    fn show(tally: &Self::Tally, count: usize, visitor: &mut Visitor<'_>) -> Result<(), Refusal> {
        let left = FieldMany::<L>("Left", &tally.first.values, tally.first.count);
        let right = FieldMany::<R>("Right", &tally.second.values, tally.second.count);
        SizedMany("Either", <Either<L, R>>::size(), count, (left, right)).enter(visitor)
    }

    #[inline(always)]
    fn tally(&self, tally: &mut Self::Tally) -> Result<(), CountError> {
        declared::<Either<L, R>>()?;
        match self {
            Left(value) => count_own(&mut tally.first, value),
            Right(value) => count_own(&mut tally.second, value),
        }
    }
}
