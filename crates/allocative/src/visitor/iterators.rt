//! What is entered of the items that an iterator gives: one loop, which `EnterItem` tells how to enter each.
#![tactic(auto, using(crate::proofs::Showing::showing))]

ghost use Rattle.std.specs.Prelude.{Bool, ◌&&◌, codes};
ghost use Rattle.std.specs.Iterator.{IsFinite};
ghost use Rattle.std.specs.Map.Iter.{deref, deref_pair};
ghost use Rattle.allocative_graph.specs.Forest.{Forest};
ghost use Rattle.allocative_graph.specs.Shows.{each_shows, slice_shows};
ghost use Rattle.allocative.specs.Making.{MakesPlanOrGives, KeepsFailure, MakesPlanRun, Done, EntersRun, EntersData};
ghost use Rattle.allocative.specs.Visited.{Entered};
ghost use Rattle.allocative.specs.Bodies.{are_shown_each};
ghost use Rattle.allocative.specs.Runs.{RefusesAlong, RefusesCounted, CountsRun, field_of, pair_shows};

use crate::visitor::slices::are_shown_each;
use crate::{Allocative, Described, Key, Part, Refusal, Visitor};

// The number of items that the iterator gives, or `None` if it does not fit.
fn count_of<A: Drop, I: Iterator<Item = A> + Drop>(items: I) -> Option<usize>
    requires can { I.can_next items }
    requires ends { IsFinite (I.remaining items) }
    ensures { CountsRun I.next_gives items result }
{
    let mut count = Some(0);
    for _item in items {
        count = count.and_then(|before: usize| before.checked_add(1));
    }
    count
}

/// How a loop enters each item that an iterator gives.
pub(crate) trait EnterItem<A>: Drop {
    /// The values that contracts see as items.
    ghost Seen: { Type 0 };

    /// What contracts see of an item.
    ghost seen: { A → Seen };

    /// The forests that entering an item may add.
    ghost may_show: { Self → Seen → Forest → Type 0 };

    /// Whether entering refuses only if it must, as `Part` says.
    ghost is_strict: { Bool };

    /// Enters the item at the visitor.
    fn enter_item(&self, item: A, visitor: &mut Visitor<'_>) -> Result<(), Refusal>
        ensures { Entered is_strict (may_show self.now (seen item))
            visitor.old visitor.new result };
}

/// What the item shows, with no entry of its own.
#[derive(Drop)]
pub(crate) struct Itself;

impl<'a, T: Allocative> EnterItem<&'a T> for Itself {
    ghost Seen = { T };

    ghost seen = { deref };

    ghost may_show = { λ _. T.may_show };

    ghost is_strict = { T.is_strict };

    #[inline(always)]
    fn enter_item(&self, item: &'a T, visitor: &mut Visitor<'_>) -> Result<(), Refusal> {
        item.enter(visitor)
    }
}

/// A field under the key.
#[derive(Drop)]
pub(crate) struct FieldUnder(pub(crate) Key);

impl<'a, T: Allocative + Described> EnterItem<&'a T> for FieldUnder {
    ghost Seen = { T };

    ghost seen = { deref };

    ghost may_show = { λ f. field_of f.0 T.layout.size T.may_show };

    ghost is_strict = { T.is_strict };

    #[inline(always)]
    fn enter_item(&self, item: &'a T, visitor: &mut Visitor<'_>) -> Result<(), Refusal> {
        visitor.visit_field(self.0.copy(), item)
    }
}

/// The fields `key` and `value` of a pair.
#[derive(Drop)]
pub(crate) struct KeyAndValue;

impl<'a, K: Allocative + Described, V: Allocative + Described> EnterItem<(&'a K, &'a V)>
    for KeyAndValue {
    ghost Seen = { K × V };

    ghost seen = { deref_pair };

    ghost may_show = { λ _. pair_shows K.layout.size K.may_show V.layout.size V.may_show };

    ghost is_strict = { K.is_strict && V.is_strict };

    #[inline(always)]
    fn enter_item(&self, item: (&'a K, &'a V), visitor: &mut Visitor<'_>) -> Result<(), Refusal> {
        let (key, value) = item;
        visitor.visit_field(Key::new("key"), key)?;
        visitor.visit_field(Key::new("value"), value)
    }
}

impl Visitor<'_> {
    /// What is entered of each item that the iterator gives, in order.
    pub(crate) fn visit_run<A: Drop, E: EnterItem<A>, I: Iterator<Item = A> + Drop>(
        &mut self,
        how: E,
        items: I,
    ) -> Result<(), Refusal>
        requires can { I.can_next items }
        requires ends { IsFinite (I.remaining items) }
        ensures entered { EntersRun I.next_gives items E.seen
            (each_shows (E.may_show how)) self.old self.new result }
        ensures only_if_full { RefusesAlong E.is_strict I.next_gives items E.seen
            (each_shows (E.may_show how)) self.old self.new result }
        ensures kept { KeepsFailure self.old self.new result }
        ensures plan { MakesPlanOrGives I.next_gives items Done self.old self.new result }
    {
        self.collector.check_failed()?;
        for item in items {
            how.enter_item(item, self)?;
        }
        Ok(())
    }

    /// One inline entry with the item's name and the bytes of all items if the items need no drop or have
    /// size 0, otherwise what each item shows.
    ///
    /// A collector that has failed returns its first cause. The entry is `TooLarge` if the item has no size,
    /// if the count does not fit, or if the bytes do not; its other errors are those of `enter`. If no more
    /// items of size 0 are given than fit a word, items of a strict type are refused only if they must be. The
    /// iterator is one that can be asked for its next item and that ends.
    pub fn visit_iter<'a, T: Allocative + Described + 'a, I: Iterator<Item = &'a T> + Drop>(
        &mut self,
        items: I,
    ) -> Result<(), Refusal>
        requires can { I.can_next items }
        requires ends { IsFinite (I.remaining items) }
        ensures entered { EntersRun I.next_gives items deref
            (slice_shows T.layout.name T.layout.size T.layout.needs_drop T.may_show) self.old self.new result }
        ensures only_if_full { RefusesCounted T.is_strict T.layout.size I.next_gives items deref
            (slice_shows T.layout.name T.layout.size T.layout.needs_drop T.may_show) self.old self.new result }
        ensures kept { KeepsFailure self.old self.new result }
        ensures plan { MakesPlanRun I.next_gives items T.layout.name T.layout.size
            (are_shown_each T.layout.needs_drop T.layout.size) self.old self.new result }
    {
        if are_shown_each::<T>() {
            return self.visit_run(Itself, items);
        }
        let count = count_of(items);
        self.visit_total_bytes::<T>(Key::for_type_name::<T>(), count)
    }

    // The inline entry `data` of 8 bytes, with what is entered of each item that the iterator gives inside it.
    fn visit_run_in_data<A: Drop, E: EnterItem<A>, I: Iterator<Item = A> + Drop>(
        &mut self,
        how: E,
        items: I,
    ) -> Result<(), Refusal>
        requires can { I.can_next items }
        requires ends { IsFinite (I.remaining items) }
        ensures { EntersData E.is_strict I.next_gives items E.seen (E.may_show how)
            self.old self.new result }
    {
        let outer = self.collector.open_entry(Key::new("data"), Some(8), false)?;
        let answer = self.visit_run(how, items);
        self.collector.close_entry(outer);
        answer
    }

    /// The inline entry `data` of 8 bytes, with the fields `key` and `value` for each pair that the
    /// iterator gives inside it.
    ///
    /// A collector that has failed returns its first cause. The errors of the entry are those of
    /// `enter`, and the errors of the fields those of `visit_field`. The iterator is one that can be
    /// asked for its next item and that ends.
    pub fn visit_generic_map_fields<
        'a,
        K: Allocative + Described + 'a,
        V: Allocative + Described + 'a,
        I: Iterator<Item = (&'a K, &'a V)> + Drop,
    >(&mut self, entries: I) -> Result<(), Refusal>
        requires can { I.can_next entries }
        requires ends { IsFinite (I.remaining entries) }
        ensures { EntersData (K.is_strict && V.is_strict) I.next_gives entries deref_pair
            (pair_shows K.layout.size K.may_show V.layout.size V.may_show) self.old self.new result }
    {
        self.visit_run_in_data(KeyAndValue, entries)
    }

    /// The inline entry `data` of 8 bytes, with a field `key` for each key that the iterator gives inside it.
    /// The errors are those of `visit_generic_map_fields`.
    pub fn visit_generic_set_fields<
        'a,
        K: Allocative + Described + 'a,
        I: Iterator<Item = &'a K> + Drop,
    >(&mut self, entries: I) -> Result<(), Refusal>
        requires can { I.can_next entries }
        requires ends { IsFinite (I.remaining entries) }
        ensures { EntersData K.is_strict I.next_gives entries deref
            (field_of (codes "key") K.layout.size K.may_show) self.old self.new result }
    {
        self.visit_run_in_data(FieldUnder(Key::new("key")), entries)
    }
}
