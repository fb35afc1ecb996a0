//! The last profiles of a service.
ghost use Rattle.std.specs.Prelude.{◌≡◌, ◌↔◌, [], OnOk, OnErr, IfOk, IfErr, IsErrOf, IsSomeAnd, length, option_map};
ghost use Rattle.std.specs.Map.Iter.{deref_pair};
ghost use Rattle.allocative.specs.Strict.{MayRefuseProfile};
ghost use Rattle.allocative.specs.Graph.{ExceedWord};
ghost use Rattle.allocative_service.specs.Changes.{data_of, changes_of};
ghost use Rattle.allocative_service.specs.History.{profiles_of, most_of, latest_of, two_of, KeepsProfile, TakesProfile};
ghost use Rattle.allocative_service.specs.History.{TakesChanges, RefusesChanges, GrewMostBetween};

pub mod changes;
mod shown;
pub mod text;
mod walk;

pub use crate::history::changes::{Change, by_growth, compare, grew_most};
pub use crate::history::text::report;
use allocative::{Allocative, FlameGraph, Refusal, profile_value};
use std::alloc::{AllocError, Global};
use std::collections::VecDeque;

/// The last profiles of a service, the latest first, up to a number that is given to `new`.
#[derive(Drop)]
pub struct History {
    /// The profiles, the latest first.
    profiles: VecDeque<FlameGraph>,
    /// The most profiles that are kept.
    most: usize,
}

impl History {
    /// An empty history that keeps at most so many profiles. It allocates nothing.
    pub fn new(alloc: Global, most: usize) -> History
        ensures empty { profiles_of result ≡ [] }
        ensures most { most_of result ≡ most }
    {
        History {
            profiles: VecDeque::new(alloc),
            most,
        }
    }

    /// The number of profiles.
    pub fn len(&self) -> usize
        ensures { result ≡ length (profiles_of self.now) }
    {
        self.profiles.len()
    }

    /// Adds a profile as the latest. If there would be too many, the earliest is dropped. The only error is that memory
    /// runs out, and then the history is unchanged.
    pub fn keep(&mut self, profile: FlameGraph) -> Result<(), AllocError>
        ensures kept { OnOk result (KeepsProfile profile self.old self.new) }
        ensures unchanged { OnErr result (profiles_of self.new ≡ profiles_of self.old) }
        ensures most { most_of self.new ≡ most_of self.old }
    {
        self.profiles.push_front(profile)?;
        self.profiles.truncate(self.most);
        Ok(())
    }

    /// Takes a profile of a value, as `profile_value` does, and keeps its graph as the latest. For a strict type the
    /// error is `Memory` if memory runs out, or `TooLarge` if a flame graph cannot take all that the value may show.
    /// After an error the history is unchanged.
    pub fn take_profile<T: Allocative>(&mut self, alloc: Global, value: &T) -> Result<(), Refusal>
        ensures taken { OnOk result (TakesProfile (T.may_show value.now) self.old self.new) }
        ensures refused { IfErr result (MayRefuseProfile T.is_strict (T.may_show value.now)) }
        ensures unchanged { OnErr result (profiles_of self.new ≡ profiles_of self.old) }
        ensures most { most_of self.new ≡ most_of self.old }
    {
        let profile = profile_value(alloc, value)?;
        self.keep(profile.into_flamegraph())?;
        Ok(())
    }

    /// Adds a profile as the latest, as `keep` does, and returns the changes since the one before, as `compare` does.
    /// It is None if there was no profile. A history of one profile is enough for it.
    ///
    /// It returns `TooLarge` exactly if the totals of the two profiles together exceed `usize::MAX`. The only other
    /// error is that memory runs out. After an error the history is unchanged.
    pub fn keep_changes(
        &mut self,
        alloc: Global,
        profile: FlameGraph,
    ) -> Result<Option<Vec<Change>>, Refusal>
        // The profile is kept, and the changes are those since the one before.
        ensures changes { IfOk result (λ found. option_map (λ changes. data_of changes.items) found
            ≡ option_map (λ earlier. changes_of earlier profile) (latest_of self.old)) }
        ensures kept { OnOk result (KeepsProfile profile self.old self.new) }

        // Why there is an error, after which the profiles are as they were.
        ensures too_large { IsErrOf result Refusal.TooLarge
            ↔ IsSomeAnd (latest_of self.old) (λ earlier. ExceedWord earlier profile) }
        ensures never_open { ¬ (IsErrOf result Refusal.Open) }
        ensures unchanged { OnErr result (profiles_of self.new ≡ profiles_of self.old) }

        // The number of profiles that it may keep stays.
        ensures most { most_of self.new ≡ most_of self.old }
    {
        let changes = match self.latest() {
            Some(earlier) => Some(compare(alloc, earlier, &profile)?),
            None => None,
        };
        self.keep(profile)?;
        Ok(changes)
    }

    /// Takes a profile of a value, as `take_profile` does, keeps its graph as the latest, and returns the changes since
    /// the one before, as `keep_changes` does.
    ///
    /// The errors are those of `take_profile`, and `TooLarge` if the totals of the two profiles together exceed
    /// `usize::MAX`, which those of two values never do. After an error the history is unchanged.
    pub fn take_changes<T: Allocative>(
        &mut self,
        alloc: Global,
        value: &T,
    ) -> Result<Option<Vec<Change>>, Refusal>
        ensures taken { IfOk result (λ found. TakesChanges (T.may_show value.now) self.old self.new
            (option_map (λ changes. data_of changes.items) found)) }
        ensures refused { IfErr result
            (RefusesChanges T.is_strict (T.may_show value.now) (latest_of self.old)) }
        ensures unchanged { OnErr result (profiles_of self.new ≡ profiles_of self.old) }
        ensures most { most_of self.new ≡ most_of self.old }
    {
        let profile = profile_value(alloc, value)?;
        self.keep_changes(alloc, profile.into_flamegraph())
    }

    /// The latest profile. It is None if there is no profile.
    pub fn latest(&self) -> Option<&FlameGraph>
        ensures { option_map (λ profile. profile.now) result ≡ latest_of self.now }
    {
        self.profiles.get(0)
    }

    /// Two profiles by their places; the latest has place 0. It is None if one of the places has no profile.
    pub fn pair(&self, earlier: usize, later: usize) -> Option<(&FlameGraph, &FlameGraph)>
        ensures { option_map deref_pair result ≡ two_of self.now earlier later }
    {
        Some((self.profiles.get(earlier)?, self.profiles.get(later)?))
    }

    /// The changes between two profiles by their places, as `compare` returns them. It is None if one of the places
    /// has no profile.
    ///
    /// It returns `TooLarge` exactly if the totals of the two profiles together exceed `usize::MAX`. The only other
    /// error is that memory runs out.
    pub fn between(
        &self,
        alloc: Global,
        earlier: usize,
        later: usize,
    ) -> Result<Option<Vec<Change>>, Refusal>
        ensures changes { IfOk result (λ found. option_map (λ changes. data_of changes.items) found
            ≡ option_map (λ pair. changes_of pair.0 pair.1) (two_of self.now earlier later)) }
        ensures too_large { IsErrOf result Refusal.TooLarge
            ↔ IsSomeAnd (two_of self.now earlier later) (λ pair. ExceedWord pair.0 pair.1) }
        ensures never_open { ¬ (IsErrOf result Refusal.Open) }
    {
        let Some((earlier, later)) = self.pair(earlier, later) else {
            return Ok(None);
        };
        Ok(Some(compare(alloc, earlier, later)?))
    }

    /// The changes of the paths that grew most between the last two profiles, as the function `grew_most` picks them.
    /// It is None if there are fewer than two profiles. The errors are those of `between`.
    pub fn grew_most(&self, alloc: Global, count: usize) -> Result<Option<Vec<Change>>, Refusal>
        ensures grew { IfOk result (λ top. GrewMostBetween count (two_of self.now 1 0)
            (option_map (λ changes. data_of changes.items) top)) }
        ensures too_large { IsErrOf result Refusal.TooLarge
            ↔ IsSomeAnd (two_of self.now 1 0) (λ pair. ExceedWord pair.0 pair.1) }
        ensures never_open { ¬ (IsErrOf result Refusal.Open) }
    {
        let Some(changes) = self.between(alloc, 1, 0)? else {
            return Ok(None);
        };
        Ok(Some(grew_most(alloc, changes.as_slice(), count)?))
    }
}
