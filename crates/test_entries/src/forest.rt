//! The entries of a root, as a value that shows them.
#![tactic(auto, using(allocative::proofs::Parts::parts))]

ghost use Rattle.std.specs.Prelude.{codes, true};
ghost use Rattle.allocative.specs.Layouts.{declared};
ghost use Rattle.test_entries.specs.Forests.{forest_shows};

use crate::deed::{Deed, Done};
use allocative::{
    Allocative, Described, Identity, Inside, Key, Layout, Part, Refusal, Shared, Unique, Visitor,
};

/// How an entry is made, or what is done in its place.
#[derive(Clone, Copy)]
pub(crate) enum EntryKind {
    Inline,
    Unique,
    Shared(Identity),
    Bad(Deed),
}

/// Entries in order: the kind, the key and the bytes of the first one, the entries inside it or in its content, and the
/// entries that follow it.
#[derive(Drop)]
pub(crate) enum Forest {
    Empty,
    Entry(EntryKind, Key, usize, Box<Forest>, Box<Forest>),
}

/// A forest declares one byte, so that its own size can be told from what it holds.
impl Described for Forest {
    ghost layout = { declared (codes "Forest") 1 1 true };

    fn layout() -> Layout {
        Layout::new("Forest", 1, 1, true)
    }
}

impl Allocative for Forest {
    ghost may_show = { forest_shows };

    fn visit(&self, visitor: &mut Visitor<'_>) -> Result<(), Refusal> {
        let Forest::Entry(kind, key, size, inside, after) = self else {
            return ().enter(visitor);
        };
        let (key, size, inside, after) = (key.copy(), *size, &**inside, &**after);
        match *kind {
            EntryKind::Inline => (Inside(key, size, inside), after).enter(visitor),
            EntryKind::Unique => (Unique(key, size, inside), after).enter(visitor),
            EntryKind::Shared(identity) => {
                let pointer = Shared {
                    key,
                    size,
                    identity,
                    content: inside,
                };
                (pointer, after).enter(visitor)
            }
            EntryKind::Bad(deed) => (Done(deed, key, size, inside), after).enter(visitor),
        }
    }
}
