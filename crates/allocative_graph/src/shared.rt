//! Shared values, each with an identity that its clones keep.
ghost use Rattle.std.specs.Prelude.{◌≡◌, Some};
ghost use Rattle.std.specs.Option.{option_map, option_and_then};
ghost use Rattle.allocative_graph.specs.Identity.{number_after};

use std::marker::Model;

mod arc;
mod rc;

pub use arc::IdArc;
pub use rc::IdRc;

/// Tells shared values apart: two values with one identity count as one.
///
/// It has a maker and a number. The maker, a `u64`, separates the identities of one `IdMaker` from those of another.
#[derive(Clone, Copy, PartialEq, Eq, PartialOrd, Ord, Hash, Debug)]
pub struct Identity {
    maker: u64,
    number: u64,
}

impl Model for Identity {
    ghost use Rattle.allocative_graph.specs.Identity as specs;

    ghost Value = { specs.Identity };

    ghost view = { λ i. record { maker = i.maker; number = i.number } };

    ghost inverse = { λ i. record { maker = i.maker; number = i.number } };
}

impl Identity {
    /// The identity with that maker and that number.
    pub fn new(maker: u64, number: u64) -> Identity
        ensures { result ≡ record { maker = maker; number = number } }
    {
        Identity { maker, number }
    }

    /// The word that tells its maker from other makers.
    pub fn maker(self) -> u64
        ensures { result ≡ self.maker }
    {
        self.maker
    }

    /// Its number among the identities of its maker.
    pub fn number(self) -> u64
        ensures { result ≡ self.number }
    {
        self.number
    }
}

/// A number alone is an identity of the maker 0.
impl From<u64> for Identity {
    ghost from_gives = { λ n i. i ≡ record { maker = 0; number = n } };

    fn from(number: u64) -> Identity {
        Identity { maker: 0, number }
    }
}

/// Makes identities with one maker and rising numbers.
///
/// Two `IdMaker`s with the same maker make the same identities.
///
/// ```
/// let mut maker = IdMaker::new(1);
/// let Some(id) = maker.fresh() else {
///     return Err(Refusal::TooLarge);
/// };
/// let shared = IdRc::new(alloc, 7u32, id)?;
/// ```
#[derive(Drop, Debug)]
pub struct IdMaker {
    maker: u64,
    next: Option<u64>,
}

impl Model for IdMaker {
    ghost use Rattle.allocative_graph.specs.Identity as specs;

    ghost Value = { specs.Maker };

    ghost view = { λ m. record { maker = m.maker; next = m.next } };
}

impl IdMaker {
    /// A maker whose first identity has the number 0.
    pub fn new(maker: u64) -> IdMaker
        ensures { result ≡ record { maker = maker; next = Some 0 } }
    {
        IdMaker::starting_at(maker, 0)
    }

    /// A maker whose first identity has the given number.
    pub fn starting_at(maker: u64, first: u64) -> IdMaker
        ensures { result ≡ record { maker = maker; next = Some first } }
    {
        IdMaker {
            maker,
            next: Some(first),
        }
    }

    /// The next identity: each has the number of the one before plus 1. Once the number `u64::MAX` was given,
    /// it always returns `None`.
    pub fn fresh(&mut self) -> Option<Identity>
        ensures identity { result
            ≡ option_map (λ n. record { maker = self.old.maker; number = n }) self.old.next }
        ensures next { self.new
            ≡ record self.old { next = option_and_then number_after self.old.next } }
    {
        let number = self.next?;
        self.next = number.checked_add(1);
        Some(Identity::new(self.maker, number))
    }
}
