//! Boxes, references, shared values, `Reverse`, `Wrapping`, `ManuallyDrop` and `PhantomData`. `BoxedSlice` and
//! `BoxedStr` are a pointer to a slice or a text, which has an entry of its own.

ghost use Rattle.std.specs.Prelude.{true, codes, length, Some};
ghost use Rattle.std.specs.Box.{boxed_slice_items, boxed_str_bytes};
ghost use Rattle.std.specs.Mem.{manually_drop_value};
ghost use Rattle.allocative_graph.specs.Shows as shows;
ghost use Rattle.allocative.specs.Bodies.{slice_of};
ghost use Rattle.allocative.specs.StdShows.{shared_inside};

use crate::visitor::slices::bytes_of;
use crate::{
    Allocative, Declared, Described, Field, FieldEach, IdArc, IdRc, Inside, Key, Part, Refusal,
    Shared, Unique, Visitor, Whole, shared_inner_size,
};
use std::boxed::{BoxedSlice, BoxedStr};
use std::cmp::Reverse;
use std::marker::PhantomData;
use std::mem::ManuallyDrop;
use std::num::Wrapping;

impl<T: Allocative> Allocative for Box<T> {
    ghost may_show = { λ b. shows.Field (codes "Box") (Some 8)
        (shows.Unique (codes "ptr") 8 (T.may_show b.value)) };

    ghost is_strict = { T.is_strict };

    fn visit(&self, visitor: &mut Visitor<'_>) -> Result<(), Refusal> {
        Whole(self, Unique("ptr", 8, &**self)).enter(visitor)
    }
}

impl<T: Allocative + Described> Allocative for BoxedSlice<T> {
    ghost may_show = { λ b. shows.Field (codes "Box") (Some 16)
        (shows.Unique (codes "ptr") 16 (slice_of T.layout.name T.layout.size T.may_show (boxed_slice_items b))) };

    ghost is_strict = { T.is_strict };

    fn visit(&self, visitor: &mut Visitor<'_>) -> Result<(), Refusal> {
        let items = self.as_slice();
        let bytes = bytes_of::<T>(Some(items.len()));
        let slice = Declared(Key::for_type_name::<T>(), bytes, FieldEach("data", items));
        Whole(self, Unique("ptr", 16, slice)).enter(visitor)
    }
}

impl Allocative for BoxedStr {
    ghost may_show = { λ b. shows.Field (codes "Box") (Some 16) (shows.Unique (codes "ptr") 16
        (shows.Inside (codes "str") (length (boxed_str_bytes b)) shows.Nothing)) };

    ghost is_strict = { true };

    fn visit(&self, visitor: &mut Visitor<'_>) -> Result<(), Refusal> {
        let text = Inside("str", self.len(), ());
        Whole(self, Unique("ptr", 16, text)).enter(visitor)
    }
}

// What a reference points to is not part of it.
impl<T> Allocative for &'static T {
    ghost may_show = { λ _. shows.Nothing };

    ghost is_strict = { true };

    fn visit(&self, visitor: &mut Visitor<'_>) -> Result<(), Refusal> {
        ().enter(visitor)
    }
}

impl Allocative for &'static str {
    ghost may_show = { λ _. shows.Nothing };

    ghost is_strict = { true };

    fn visit(&self, visitor: &mut Visitor<'_>) -> Result<(), Refusal> {
        ().enter(visitor)
    }
}

impl<T: Allocative + Described> Allocative for IdRc<T> {
    ghost may_show = { λ s. shows.Field (codes "Rc") (Some 8)
        (shared_inside (codes "RcInner") s.id T.layout.size T.layout.align (T.may_show s.value)) };

    ghost is_strict = { T.is_strict };

    fn visit(&self, visitor: &mut Visitor<'_>) -> Result<(), Refusal> {
        let pointer = Shared {
            key: Key::new("ptr"),
            size: 8,
            identity: self.id(),
            content: Declared("RcInner", shared_inner_size::<T>(), self.get()),
        };
        Whole(self, pointer).enter(visitor)
    }
}

impl<T: Allocative + Described> Allocative for IdArc<T> {
    ghost may_show = { λ s. shows.Field (codes "Arc") (Some 8)
        (shared_inside (codes "ArcInner") s.id T.layout.size T.layout.align (T.may_show s.value)) };

    ghost is_strict = { T.is_strict };

    fn visit(&self, visitor: &mut Visitor<'_>) -> Result<(), Refusal> {
        let pointer = Shared {
            key: Key::new("ptr"),
            size: 8,
            identity: self.id(),
            content: Declared("ArcInner", shared_inner_size::<T>(), self.get()),
        };
        Whole(self, pointer).enter(visitor)
    }
}

impl<T: Allocative + Described> Allocative for ManuallyDrop<T> {
    ghost may_show = { λ slot. shows.Field (codes "ManuallyDrop") T.layout.size
        (shows.Field (codes "inner") T.layout.size (T.may_show (manually_drop_value slot))) };

    ghost is_strict = { T.is_strict };

    fn visit(&self, visitor: &mut Visitor<'_>) -> Result<(), Refusal> {
        Whole(self, Field("inner", &**self)).enter(visitor)
    }
}

impl<T> Allocative for PhantomData<T> {
    ghost may_show = { λ _. shows.Nothing };

    ghost is_strict = { true };

    fn visit(&self, visitor: &mut Visitor<'_>) -> Result<(), Refusal> {
        ().enter(visitor)
    }
}

impl<T: Allocative + Described> Allocative for Reverse<T> {
    ghost may_show = { λ x. shows.Field (codes "Reverse") T.layout.size
        (shows.Field (codes "0") T.layout.size (T.may_show x.0)) };

    ghost is_strict = { T.is_strict };

    fn visit(&self, visitor: &mut Visitor<'_>) -> Result<(), Refusal> {
        Whole(self, Field("0", &self.0)).enter(visitor)
    }
}

impl<T: Allocative + Described> Allocative for Wrapping<T> {
    ghost may_show = { λ x. shows.Field (codes "Wrapping") T.layout.size
        (shows.Field (codes "0") T.layout.size (T.may_show x.0)) };

    ghost is_strict = { T.is_strict };

    fn visit(&self, visitor: &mut Visitor<'_>) -> Result<(), Refusal> {
        Whole(self, Field("0", &self.0)).enter(visitor)
    }
}
