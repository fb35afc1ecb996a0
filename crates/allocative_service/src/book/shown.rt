//! What a book shows: the name of each tenant, and the entries of its account.
#![tactic(auto, using(allocative::proofs::Parts::parts))]

ghost use Rattle.std.specs.Prelude.{codes, ◌&&◌};
ghost use Rattle.allocative.specs.Layouts.{empty, ◌with◌, pad_to_align};
ghost use Rattle.allocative.specs.Runs.{pair_shows};
ghost use Rattle.allocative.specs.Shows as shows;

use crate::book::{Account, Billed, Book};
use allocative::{Allocative, Described, Field, Layout, Part, Refusal, Visitor, Whole};
use std::collections::BTreeMap;

// The measure is a byte, and the budget a word.
impl<K: Ord, E: Billed<K>> Described for Account<K, E> {
    ghost layout = { pad_to_align (empty (codes "Account") with ⟦<BTreeMap<K, E> as Described>⟧.layout
        with ⟦<u8 as Described>⟧.layout with ⟦<usize as Described>⟧.layout with ⟦<usize as Described>⟧.layout
        with ⟦<usize as Described>⟧.layout with ⟦<usize as Described>⟧.layout) };

    fn layout() -> Layout {
        Layout::empty("Account")
            .with(<BTreeMap<K, E>>::layout())
            .with(u8::layout())
            .with(usize::layout())
            .with(usize::layout())
            .with(usize::layout())
            .with(usize::layout())
            .pad_to_align()
    }
}

impl<K: Ord + Allocative + Described, E: Billed<K> + Allocative + Described> Allocative
    for Account<K, E> {
    ghost may_show = { λ a. shows.Field (codes "Account") ⟦<Account<K, E> as Described>⟧.layout.size
        (shows.Field (codes "entries") ⟦<BTreeMap<K, E> as Described>⟧.layout.size
        (shows.Field (codes "BTreeMap") ⟦<BTreeMap<K, E> as Described>⟧.layout.size (shows.Inside (codes "data") 8
        (shows.each_shows (pair_shows K.layout.size K.may_show E.layout.size E.may_show) a.entries)))) };

    ghost is_strict = { K.is_strict && E.is_strict };

    fn visit(&self, visitor: &mut Visitor<'_>) -> Result<(), Refusal> {
        let entries = Field("entries", self.entries());
        Whole(self, entries).enter(visitor)
    }
}

// The measure is a byte, and the allocator has no size.
impl<K: Ord, E: Billed<K>> Described for Book<K, E> {
    ghost layout = { pad_to_align (empty (codes "Book") with ⟦<u8 as Described>⟧.layout
        with ⟦<BTreeMap<String, Account<K, E>> as Described>⟧.layout with ⟦<usize as Described>⟧.layout
        with ⟦<usize as Described>⟧.layout) };

    fn layout() -> Layout {
        Layout::empty("Book")
            .with(u8::layout())
            .with(<BTreeMap<String, Account<K, E>>>::layout())
            .with(usize::layout())
            .with(usize::layout())
            .pad_to_align()
    }
}

impl<K: Ord + Allocative + Described, E: Billed<K> + Allocative + Described> Allocative
    for Book<K, E> {
    ghost may_show = { λ b. shows.Field (codes "Book") ⟦<Book<K, E> as Described>⟧.layout.size
        (shows.Field (codes "accounts") ⟦<BTreeMap<String, Account<K, E>> as Described>⟧.layout.size
        (shows.Field (codes "BTreeMap") ⟦<BTreeMap<String, Account<K, E>> as Described>⟧.layout.size
        (shows.Inside (codes "data") 8 (shows.each_shows (pair_shows ⟦<String as Described>⟧.layout.size
        ⟦<String as Allocative>⟧.may_show ⟦<Account<K, E> as Described>⟧.layout.size
        ⟦<Account<K, E> as Allocative>⟧.may_show) b.accounts)))) };

    ghost is_strict = { K.is_strict && E.is_strict };

    fn visit(&self, visitor: &mut Visitor<'_>) -> Result<(), Refusal> {
        let accounts = Field("accounts", self.accounts());
        Whole(self, accounts).enter(visitor)
    }
}
