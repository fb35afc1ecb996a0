//! Tuples and arrays: their parts one after another, those of a tuple rounded up to its alignment.

ghost use Rattle.std.specs.Prelude.{Some, codes};
ghost use Rattle.allocative_described.specs.Layouts.{declaration, empty, ◌with◌, pad_to_align};
ghost use Rattle.allocative_described.specs.Sizes.{size_product};

use crate::described::Described;
use crate::layout::{Layout, size_product};

impl<A: Described> Described for (A,) {
    ghost layout = { pad_to_align (empty (codes "tuple1") with A.layout) };

    fn layout() -> Layout {
        Layout::empty("tuple1").with(A::layout()).pad_to_align()
    }
}

impl<A: Described, B: Described> Described for (A, B) {
    ghost layout = { pad_to_align (empty (codes "tuple2") with A.layout with B.layout) };

    fn layout() -> Layout {
        Layout::empty("tuple2")
            .with(A::layout())
            .with(B::layout())
            .pad_to_align()
    }
}

impl<A: Described, B: Described, C: Described> Described for (A, B, C) {
    ghost layout = { pad_to_align (empty (codes "tuple3") with A.layout with B.layout with C.layout) };

    fn layout() -> Layout {
        Layout::empty("tuple3")
            .with(A::layout())
            .with(B::layout())
            .with(C::layout())
            .pad_to_align()
    }
}

impl<A: Described, B: Described, C: Described, D: Described> Described for (A, B, C, D) {
    ghost layout = { pad_to_align (empty (codes "tuple4") with A.layout with B.layout with C.layout with D.layout) };

    fn layout() -> Layout {
        Layout::empty("tuple4")
            .with(A::layout())
            .with(B::layout())
            .with(C::layout())
            .with(D::layout())
            .pad_to_align()
    }
}

impl<A: Described, B: Described, C: Described, D: Described, E: Described> Described
    for (A, B, C, D, E) {
    ghost layout = { pad_to_align (empty (codes "tuple5") with A.layout with B.layout with C.layout with D.layout
        with E.layout) };

    fn layout() -> Layout {
        Layout::empty("tuple5")
            .with(A::layout())
            .with(B::layout())
            .with(C::layout())
            .with(D::layout())
            .with(E::layout())
            .pad_to_align()
    }
}

impl<A: Described, B: Described, C: Described, D: Described, E: Described, F: Described> Described
    for (A, B, C, D, E, F) {
    ghost layout = { pad_to_align (empty (codes "tuple6") with A.layout with B.layout with C.layout with D.layout
        with E.layout with F.layout) };

    fn layout() -> Layout {
        Layout::empty("tuple6")
            .with(A::layout())
            .with(B::layout())
            .with(C::layout())
            .with(D::layout())
            .with(E::layout())
            .with(F::layout())
            .pad_to_align()
    }
}

impl<
    A: Described,
    B: Described,
    C: Described,
    D: Described,
    E: Described,
    F: Described,
    G: Described,
> Described for (A, B, C, D, E, F, G) {
    ghost layout = { pad_to_align (empty (codes "tuple7") with A.layout with B.layout with C.layout with D.layout
        with E.layout with F.layout with G.layout) };

    fn layout() -> Layout {
        Layout::empty("tuple7")
            .with(A::layout())
            .with(B::layout())
            .with(C::layout())
            .with(D::layout())
            .with(E::layout())
            .with(F::layout())
            .with(G::layout())
            .pad_to_align()
    }
}

impl<
    A: Described,
    B: Described,
    C: Described,
    D: Described,
    E: Described,
    F: Described,
    G: Described,
    H: Described,
> Described for (A, B, C, D, E, F, G, H) {
    ghost layout = { pad_to_align (empty (codes "tuple8") with A.layout with B.layout with C.layout with D.layout
        with E.layout with F.layout with G.layout with H.layout) };

    fn layout() -> Layout {
        Layout::empty("tuple8")
            .with(A::layout())
            .with(B::layout())
            .with(C::layout())
            .with(D::layout())
            .with(E::layout())
            .with(F::layout())
            .with(G::layout())
            .with(H::layout())
            .pad_to_align()
    }
}

// N items, one after another.
impl<T: Described, const N: usize> Described for [T; N] {
    ghost layout = { declaration (codes "array") (size_product (Some N) T.layout.size) T.layout.align
        T.layout.needs_drop };

    fn layout() -> Layout {
        let item = T::layout();
        Layout {
            name: "array",
            size: size_product(Some(N), item.size),
            ..item
        }
    }
}
