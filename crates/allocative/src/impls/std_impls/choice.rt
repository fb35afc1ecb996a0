//! Types that are one of several: `Option`, `Result` and `Bound`.

ghost use Rattle.std.specs.Prelude.{◌&&◌, codes};
ghost use Rattle.allocative_graph.specs.Shows as shows;
ghost use Rattle.allocative.specs.StdShows.{bound_inside, option_inside, result_inside};

use crate::{Allocative, Described, Field, Part, Refusal, Visitor, Whole};
use std::ops::Bound;

impl<T: Allocative + Described> Allocative for Option<T> {
    ghost may_show = { λ o. shows.Field (codes "Option") ⟦<Option<T> as Described>⟧.layout.size
        (option_inside T.layout.size T.may_show o) };

    ghost is_strict = { T.is_strict };

    fn visit(&self, visitor: &mut Visitor<'_>) -> Result<(), Refusal> {
        match self {
            None => Whole(self, ()).enter(visitor),
            Some(value) => Whole(self, Field("Some", value)).enter(visitor),
        }
    }
}

impl<T: Allocative + Described, E: Allocative + Described> Allocative for Result<T, E> {
    ghost may_show = { λ r. shows.Field (codes "Result") ⟦<Result<T, E> as Described>⟧.layout.size
        (result_inside T.layout.size E.layout.size T.may_show E.may_show r) };

    ghost is_strict = { T.is_strict && E.is_strict };

    fn visit(&self, visitor: &mut Visitor<'_>) -> Result<(), Refusal> {
        match self {
            Ok(value) => Whole(self, Field("Ok", value)).enter(visitor),
            Err(error) => Whole(self, Field("Err", error)).enter(visitor),
        }
    }
}

impl<T: Allocative + Described> Allocative for Bound<T> {
    ghost may_show = { λ b. shows.Field (codes "Bound") ⟦<Bound<T> as Described>⟧.layout.size
        (bound_inside T.layout.size T.may_show b) };

    ghost is_strict = { T.is_strict };

    fn visit(&self, visitor: &mut Visitor<'_>) -> Result<(), Refusal> {
        match self {
            Bound::Included(value) => Whole(self, Field("Included", value)).enter(visitor),
            Bound::Excluded(value) => Whole(self, Field("Excluded", value)).enter(visitor),
            Bound::Unbounded => Whole(self, ()).enter(visitor),
        }
    }
}
