//! The text of each helper of a visitor, and what the calls for sums count by them.
//!
//! Rows, of which those with keys of their own share a collection: entries that name a type; a field, by a value and by
//! a closure; a boxed object; a text and the empty one; slices and iterators of pairs that need no drop and that do; an
//! empty slice; the pairs of a map, the keys of a set, the members of a document; a buffer with no room, as a graph and
//! as held bytes; and a shared value of which a sum shows no content.
#![tactic(auto, using(allocative::proofs::Parts::parts))]

ghost use Rattle.std.specs.Prelude.{codes, Some, false, length};
ghost use Rattle.allocative.specs.Bodies.{vec_body};
ghost use Rattle.allocative.specs.Layouts.{declared};
ghost use Rattle.allocative.specs.Shows as shows;

use crate::texts::is_output;
use allocative::{
    Allocative, Described, FlameGraphBuilder, FlameGraphOutput, Identity, Inside, Key, Layout,
    Part, Refusal, Unique, Visitor, size_of_entries, size_of_owned, visit_json_map,
};
use serde_json::Value;
use std::alloc::Global;
use std::collections::BTreeMap;
use std::test::Fail;

/// Declares 4 bytes, and whether it needs a drop.
#[derive(Drop)]
struct Pair<const DROPS: bool>;

impl<const DROPS: bool> Described for Pair<DROPS> {
    ghost layout = { declared (codes "Pair") 4 1 DROPS };

    fn layout() -> Layout {
        Layout::new("Pair", 4, 1, DROPS)
    }
}

impl<const DROPS: bool> Allocative for Pair<DROPS> {
    ghost may_show = { λ _. shows.Inside (codes "Pair") 4 (shows.Inside (codes "a") 1 shows.Nothing) };

    fn visit(&self, visitor: &mut Visitor<'_>) -> Result<(), Refusal> {
        Inside("Pair", 4, Inside("a", 1, ())).enter(visitor)
    }
}

const PLAIN: [Pair<false>; 3] = [Pair, Pair, Pair];

const DROPPED: [Pair<true>; 3] = [Pair, Pair, Pair];

/// The body of a buffer of bytes with no room.
#[derive(Drop)]
struct FullBody<'a>(&'a [u8]);

impl<'a> Part for FullBody<'a> {
    ghost may_show = { λ b. vec_body (codes "u8") (Some 1) false
        (λ _. shows.Field (codes "u8") (Some 1) shows.Nothing) b.0.now (length b.0.now) };

    fn enter(self, visitor: &mut Visitor<'_>) -> Result<(), Refusal> {
        visitor.visit_vec_like_body(self.0, self.0.len())
    }
}

/// Enters a byte three times, by each call that enters a type's own name and size.
fn enter_names(root: &mut Visitor<'_>) -> Result<(), Refusal> {
    root.enter_self(&1u8)?.exit();
    root.enter_self_sized::<u8>()?.exit();
    root.visit_simple_sized::<u8>()
}

/// Enters a field, a box, a text and a slice.
fn enter_values(root: &mut Visitor<'_>, _alloc: Global) -> Result<(), Refusal> {
    enter_names(root)?;
    root.visit_field(Key::new("f"), &1u8)?;
    root.visit_boxed_object(&1u8)?;
    root.visit_str("abcdef")?;
    root.visit_slice(&PLAIN)
}

/// Enters a field by a closure, the empty text, the keys of a set, and slices, of which one is empty.
fn enter_others(root: &mut Visitor<'_>, _alloc: Global) -> Result<(), Refusal> {
    root.visit_field_with(Key::new("f"), 4, |inner| {
        inner.visit_simple(Key::new("x"), 1)
    })?;
    root.visit_str("")?;
    root.visit_generic_set_fields([1u8, 2].iter())?;
    root.visit_slice::<u8>(&[])?;
    root.visit_slice(&DROPPED)
}

/// Enters an iterator, the pairs of a map and the members of a document.
fn enter_pairs(root: &mut Visitor<'_>, alloc: Global) -> Result<(), Refusal> {
    let map: BTreeMap<u8, u8> = [(1, 2), (3, 4)].into_iter().collect(alloc)?;
    root.visit_iter(PLAIN.iter())?;
    root.visit_generic_map_fields(map.iter())?;
    match Value::from_str(alloc, "{\"a\":7}") {
        Ok(Value::Object(members)) => visit_json_map(root, &members),
        _ => Err(Refusal::Memory),
    }
}

/// Enters an iterator, a slice with its own entry, a declared size and a buffer.
fn enter_runs(root: &mut Visitor<'_>, _alloc: Global) -> Result<(), Refusal> {
    root.visit_iter(DROPPED.iter())?;
    root.visit_slice_of(&[1u64, 2])?;
    root.enter_sized(Key::new("table"), Some(5))?.exit();
    Unique("ptr", 8, FullBody(&[1, 2, 3])).enter(root)
}

/// What a builder shows after entries at a root visitor.
fn output<F: FnOnce(&mut Visitor<'_>, Global) -> Result<(), Refusal>>(
    alloc: Global,
    enter: F,
) -> Result<FlameGraphOutput, Refusal>
    requires { F.IsAlwaysCallable enter }
{
    let mut builder = FlameGraphBuilder::new(alloc)?;
    let mut root = builder.root_visitor()?;
    enter(&mut root, alloc)?;
    root.exit();
    builder.finish()
}

/// Fails if entries have another text.
fn show<F: FnOnce(&mut Visitor<'_>, Global) -> Result<(), Refusal>>(
    alloc: Global,
    enter: F,
    text: &str,
) -> Result<(), Fail>
    requires { F.IsAlwaysCallable enter }
{
    is_output(&output(alloc, enter)?, text)
}

#[test]
fn helpers(rt: HostRuntime) -> Result<(), Fail> {
    let alloc = rt.alloc();
    let text = "Box;ptr 8\nBox;ptr;u8 1\nPair 12\nf;u8 1\nstr 6\nu8 3\n";
    show(alloc, enter_values, text)?;
    let text = "Pair 9\nPair;a 3\ndata 6\ndata;key;u8 2\nf 3\nf;x 1\n";
    show(alloc, enter_others, text)?;
    let text =
        "Map 16\nMap;data 8\nMap;data;key;String 16\nMap;data;key;String;ptr 8\nMap;data;key;String;ptr;capacity;u8 1\nMap;data;value;Value 16\nMap;data;value;Value;Number;Number 16\nPair 12\ndata 4\ndata;key;u8 2\ndata;value;u8 2\n";
    show(alloc, enter_pairs, text)?;
    let text = "Pair 9\nPair;a 3\nptr 8\nptr;capacity;u8 3\ntable 5\nu64;data;u64 16\n";
    show(alloc, enter_runs, text)
}

#[test]
fn a_full_buffer_holds_its_bytes(rt: HostRuntime) {
    let held = size_of_entries(|visitor| Unique("ptr", 8, FullBody(&[1, 2, 3])).enter(visitor));
    assert!(rt; held == Ok(3));
}

/// The closure ends the test by a panic, since no clause of `enter_shared` says that the visitor stays where it was.
#[test]
#[should_panic(expected = "no content")]
fn a_sum_shows_no_content(rt: HostRuntime) {
    let _never = size_of_entries(|visitor| {
        let content = visitor.enter_shared(Key::new("q"), 8, Identity::from(1));
        assert!(rt; matches!(content, Ok(None)), "a visitor or a refusal");
        panic!(rt; "no content")
    });
}

#[test]
fn a_box_owns_what_it_points_to(rt: HostRuntime) -> Result<(), Fail> {
    let number = (Box::new(rt.alloc(), 7u32)?,);
    assert!(rt; size_of_owned(&number) == Ok(12));
    Ok(())
}
