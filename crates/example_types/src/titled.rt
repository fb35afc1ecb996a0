//! A shared value under a name, so that the contents of shared pointers to values of one type stand apart.
#![tactic(auto, using(allocative::proofs::Parts::parts))]

use allocative::{Allocative, Described, Layout, Named, Part, Refusal, Visitor};

/// A value under a name, which can be shared: its declared size is that of the value.
#[derive(Drop)]
pub struct Titled<T>(pub Named<T>);

impl<T: Described> Described for Titled<T> {
    ghost layout = { T.layout };

    fn layout() -> Layout {
        T::layout()
    }
}

impl<T: Allocative + Described> Allocative for Titled<T> {
    ghost may_show = { λ t. ⟦<Named<T> as Allocative>⟧.may_show t.0 };

    ghost is_strict = { T.is_strict };

    fn visit(&self, visitor: &mut Visitor<'_>) -> Result<(), Refusal> {
        (&self.0).enter(visitor)
    }
}
