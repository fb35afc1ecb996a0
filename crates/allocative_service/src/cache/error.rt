//! Why an insertion is refused.
use allocative::Refusal;
use thiserror::Error;

/// Why a cache did not keep a value.
#[derive(Clone, Copy, Debug, PartialEq, Eq, Error)]
pub enum CacheError {
    /// The key and the value have more declared bytes than the bound.
    #[error("{bytes} bytes do not fit a bound of {bound}")]
    TooLarge {
        /// The declared bytes of the key and the value.
        bytes: usize,
        /// The bound of the cache.
        bound: usize,
    },
    /// The key or the value could not be measured, or their bytes together do not fit a word.
    #[error("not measured: {0}")]
    NotMeasured(Refusal),
    /// Memory ran out.
    #[error("out of memory")]
    Memory,
}

impl From<Refusal> for CacheError {
    ghost use Rattle.std.specs.Prelude.{◌≡◌};
    ghost use Rattle.allocative_service.specs.declared.cache.error.CacheError.TheVariants.{NotMeasured};

    ghost from_gives = { λ refusal error. error ≡ NotMeasured refusal };

    fn from(refusal: Refusal) -> Self {
        CacheError::NotMeasured(refusal)
    }
}

/// A value that a cache or a store does not keep, with its key and the cause.
#[derive(Drop)]
pub struct Refused<K, V, E = CacheError> {
    /// Why the value is not kept.
    pub error: E,
    /// The key that the value would have been under.
    pub key: K,
    /// The value itself.
    pub value: V,
}
