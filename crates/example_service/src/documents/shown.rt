//! What the types of `documents` show. `bin/implement` of `allocative` wrote it.
#![tactic(auto, using(allocative::proofs::Parts::parts))]

ghost use Rattle.std.specs.Prelude.{codes, true};
ghost use Rattle.allocative.specs.Shows as shows;
ghost use Rattle.allocative.specs.Layouts.{empty, pad_to_align, ◌with◌};

use super::*;
use allocative::{Allocative, Described, Field, Layout, Part, Refusal, Visitor, Whole};

impl Described for Note {
    ghost layout = { pad_to_align (empty (codes "Note") with ⟦<String as Described>⟧.layout
        with ⟦<u64 as Described>⟧.layout with ⟦<String as Described>⟧.layout) };

    fn layout() -> Layout {
        Layout::empty("Note")
            .with(String::layout())
            .with(u64::layout())
            .with(String::layout())
            .pad_to_align()
    }
}

impl Allocative for Note {
    ghost may_show = { λ x. shows.Field (codes "Note") ⟦<Note as Described>⟧.layout.size (shows.Both
        (shows.Field (codes "tenant") ⟦<String as Described>⟧.layout.size (⟦<String as Allocative>⟧.may_show x.tenant)) (shows.Both
        (shows.Field (codes "key") ⟦<u64 as Described>⟧.layout.size (⟦<u64 as Allocative>⟧.may_show x.key))
        (shows.Field (codes "text") ⟦<String as Described>⟧.layout.size (⟦<String as Allocative>⟧.may_show x.text)))) };

    ghost is_strict = { true };

    fn visit(&self, visitor: &mut Visitor<'_>) -> Result<(), Refusal> {
        let tenant = Field("tenant", &self.tenant);
        let key = Field("key", &self.key);
        let text = Field("text", &self.text);
        Whole(self, (tenant, key, text)).enter(visitor)
    }
}

impl Described for Order {
    ghost layout = { pad_to_align (empty (codes "Order") with ⟦<String as Described>⟧.layout
        with ⟦<u64 as Described>⟧.layout with ⟦<IdRc<Vec<String>> as Described>⟧.layout
        with ⟦<Vec<usize> as Described>⟧.layout) };

    fn layout() -> Layout {
        Layout::empty("Order")
            .with(String::layout())
            .with(u64::layout())
            .with(<IdRc<Vec<String>>>::layout())
            .with(<Vec<usize>>::layout())
            .pad_to_align()
    }
}

impl Allocative for Order {
    ghost may_show = { λ x. shows.Field (codes "Order") ⟦<Order as Described>⟧.layout.size (shows.Both
        (shows.Field (codes "tenant") ⟦<String as Described>⟧.layout.size (⟦<String as Allocative>⟧.may_show x.tenant)) (shows.Both
        (shows.Field (codes "key") ⟦<u64 as Described>⟧.layout.size (⟦<u64 as Allocative>⟧.may_show x.key)) (shows.Both
        (shows.Field (codes "catalogue") ⟦<IdRc<Vec<String>> as Described>⟧.layout.size (⟦<IdRc<Vec<String>> as Allocative>⟧.may_show x.catalogue))
        (shows.Field (codes "items") ⟦<Vec<usize> as Described>⟧.layout.size (⟦<Vec<usize> as Allocative>⟧.may_show x.items))))) };

    ghost is_strict = { true };

    fn visit(&self, visitor: &mut Visitor<'_>) -> Result<(), Refusal> {
        let tenant = Field("tenant", &self.tenant);
        let key = Field("key", &self.key);
        let catalogue = Field("catalogue", &self.catalogue);
        let items = Field("items", &self.items);
        Whole(self, (tenant, key, catalogue, items)).enter(visitor)
    }
}

impl Described for Held {
    ghost layout = { pad_to_align (empty (codes "Held") with ⟦<IdRc<Vec<String>> as Described>⟧.layout
        with ⟦<Vec<Note> as Described>⟧.layout with ⟦<Vec<Order> as Described>⟧.layout) };

    fn layout() -> Layout {
        Layout::empty("Held")
            .with(<IdRc<Vec<String>>>::layout())
            .with(<Vec<Note>>::layout())
            .with(<Vec<Order>>::layout())
            .pad_to_align()
    }
}

impl Allocative for Held {
    ghost may_show = { λ x. shows.Field (codes "Held") ⟦<Held as Described>⟧.layout.size (shows.Both
        (shows.Field (codes "catalogue") ⟦<IdRc<Vec<String>> as Described>⟧.layout.size (⟦<IdRc<Vec<String>> as Allocative>⟧.may_show x.catalogue)) (shows.Both
        (shows.Field (codes "notes") ⟦<Vec<Note> as Described>⟧.layout.size (⟦<Vec<Note> as Allocative>⟧.may_show x.notes))
        (shows.Field (codes "orders") ⟦<Vec<Order> as Described>⟧.layout.size (⟦<Vec<Order> as Allocative>⟧.may_show x.orders)))) };

    ghost is_strict = { true };

    fn visit(&self, visitor: &mut Visitor<'_>) -> Result<(), Refusal> {
        let catalogue = Field("catalogue", &self.catalogue);
        let notes = Field("notes", &self.notes);
        let orders = Field("orders", &self.orders);
        Whole(self, (catalogue, notes, orders)).enter(visitor)
    }
}
