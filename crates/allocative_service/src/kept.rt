//! A value that a store or a cache keeps, and what is billed for it.
ghost use Rattle.std.specs.Prelude.{◌≡◌};

mod shown;

use crate::book::Billed;
use allocative::{Allocative, Described};

/// A value, and the declared bytes that are billed for it and its key.
#[derive(Drop)]
pub struct Kept<V> {
    /// The value.
    pub value: V,
    /// The declared bytes of its key and of the value together, as each was last measured.
    pub bytes: usize,
    /// The declared bytes of its key.
    pub key_bytes: usize,
}

impl<K: Allocative + Described, V: Allocative + Described> Billed<K> for Kept<V> {
    ghost use Rattle.allocative_service.specs.Kept.{IsBilled, kept_bytes};

    ghost billed = { kept_bytes };

    ghost is_billed = { IsBilled K.layout.size K.may_show V.layout.size V.may_show };

    fn bytes(&self) -> usize {
        self.bytes
    }
}
