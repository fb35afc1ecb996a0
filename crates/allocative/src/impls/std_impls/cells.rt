//! Cells and locks: the value, if it can be had. A contract does not see which value a cell holds.
#![tactic(auto, using(crate::proofs::ContainerMeaning::cells))]

ghost use Rattle.std.specs.Prelude.{codes};
ghost use Rattle.allocative_graph.specs.Shows as shows;
ghost use Rattle.allocative.specs.StdShows.{cell_inside, some_value};

use crate::{Allocative, Described, Field, Part, Refusal, Visitor, Whole};
use std::cell::{Cell, OnceCell, RefCell};
use std::sync::{Mutex, OnceLock, RwLock};

impl<T: Allocative + Described + Copy> Allocative for Cell<T> {
    ghost may_show = { λ _. shows.Field (codes "Cell") T.layout.size (some_value T.layout.size T.may_show) };

    fn visit(&self, visitor: &mut Visitor<'_>) -> Result<(), Refusal> {
        let value = self.get();
        Whole(self, Field("data", &value)).enter(visitor)
    }
}

impl<T: Allocative + Described> Allocative for RefCell<T> {
    ghost may_show = { λ _. shows.Field (codes "RefCell") ⟦<RefCell<T> as Described>⟧.layout.size
        (cell_inside T.layout.size T.may_show) };

    fn visit(&self, visitor: &mut Visitor<'_>) -> Result<(), Refusal> {
        match self.try_borrow() {
            Err(_) => Whole(self, ()).enter(visitor),
            Ok(value) => Whole(self, Field("data", &*value)).enter(visitor),
        }
    }
}

impl<T: Allocative + Described> Allocative for OnceCell<T> {
    ghost may_show = { λ _. shows.Field (codes "OnceCell") ⟦<OnceCell<T> as Described>⟧.layout.size
        (cell_inside T.layout.size T.may_show) };

    fn visit(&self, visitor: &mut Visitor<'_>) -> Result<(), Refusal> {
        match self.get() {
            None => Whole(self, ()).enter(visitor),
            Some(value) => Whole(self, Field("data", value)).enter(visitor),
        }
    }
}

impl<T: Allocative + Described> Allocative for Mutex<T> {
    ghost may_show = { λ _. shows.Field (codes "Mutex") ⟦<Mutex<T> as Described>⟧.layout.size
        (cell_inside T.layout.size T.may_show) };

    fn visit(&self, visitor: &mut Visitor<'_>) -> Result<(), Refusal> {
        match self.try_lock() {
            None => Whole(self, ()).enter(visitor),
            Some(value) => Whole(self, Field("data", &*value)).enter(visitor),
        }
    }
}

impl<T: Allocative + Described> Allocative for RwLock<T> {
    ghost may_show = { λ _. shows.Field (codes "RwLock") ⟦<RwLock<T> as Described>⟧.layout.size
        (cell_inside T.layout.size T.may_show) };

    fn visit(&self, visitor: &mut Visitor<'_>) -> Result<(), Refusal> {
        match self.try_read() {
            None => Whole(self, ()).enter(visitor),
            Some(value) => Whole(self, Field("data", &*value)).enter(visitor),
        }
    }
}

impl<T: Allocative + Described> Allocative for OnceLock<T> {
    ghost may_show = { λ _. shows.Field (codes "OnceLock") ⟦<OnceLock<T> as Described>⟧.layout.size
        (cell_inside T.layout.size T.may_show) };

    fn visit(&self, visitor: &mut Visitor<'_>) -> Result<(), Refusal> {
        match self.get() {
            None => Whole(self, ()).enter(visitor),
            Some(value) => Whole(self, Field("data", value)).enter(visitor),
        }
    }
}
