//! Values shared within one thread.
ghost use Rattle.std.specs.Prelude.{◌≡◌, IfOk, IfErr, Some, true, codes};
ghost use Rattle.allocative_described.specs.Layouts.{declared};

use super::Identity;
use crate::refusal::Refusal;
use allocative_described::{Described, Layout};
use std::alloc::{AllocError, Global};
use std::marker::Model;
use std::rc::Rc;

/// A value with several owners in one thread, and with one identity that all of them have.
#[derive(Drop)]
pub struct IdRc<T: Drop> {
    pointer: Rc<T>,
    id: Identity,
}

impl<T: Drop> Model for IdRc<T> {
    ghost use Rattle.allocative_graph.specs.Identity as specs;

    ghost Value = { specs.Shared T };

    ghost view = { λ s. record { value = s.pointer.value; id = s.id } };
}

impl<T: Drop> IdRc<T> {
    /// Puts the value on the heap, with the identity. It returns an error only when memory runs out, and
    /// then the value is dropped.
    pub fn new(alloc: Global, value: T, id: Identity) -> Result<IdRc<T>, Refusal>
        ensures ok { IfOk result (λ shared. shared ≡ record { value = value; id = id }) }
        ensures memory { IfErr result (λ r. r ≡ Refusal.Memory) }
    {
        let pointer = Rc::new(alloc, value)?;
        Ok(IdRc { pointer, id })
    }

    /// The identity that it was made with.
    pub fn id(&self) -> Identity
        ensures { result ≡ self.now.id }
    {
        self.id
    }

    /// The value that it was made with.
    pub fn get(&self) -> &T
        ensures { result.now ≡ self.now.value }
    {
        &self.pointer
    }
}

impl<T: Drop> Clone for IdRc<T> {
    ghost is_clone = { λ s c. c ≡ s };

    /// One more owner of the value, with its identity.
    fn clone(&self) -> Result<IdRc<T>, AllocError> {
        Ok(IdRc {
            pointer: self.pointer.clone()?,
            id: self.id,
        })
    }
}

impl<T: Drop> Described for IdRc<T> {
    ghost layout = { declared (codes "Rc") 8 8 true };

    fn layout() -> Layout {
        Layout::new("Rc", 8, 8, true)
    }
}
