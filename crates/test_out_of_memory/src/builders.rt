//! A builder that ran out of memory has failed with that cause for good.
use crate::assertions::{assert_output, assert_refused, assert_same, made};
use allocative::{FlameGraphBuilder, Identity, Key, Refusal, Visitor};
use std::alloc::AllocGlobal;
use std::process::Abort;

pub(crate) fn new_builder(rt: &(impl Abort + AllocGlobal)) -> FlameGraphBuilder {
    made(rt, || Ok(FlameGraphBuilder::new(rt.alloc())?))
}

/// Asserts that a call was refused, and for want of memory.
fn assert_failed(rt: &impl Abort, refusal: Option<Refusal>) {
    assert_refused(rt, refusal.expect(rt, "a refusal"));
}

/// Once an entry was refused, the builder returns that error from every call.
fn has_failed(rt: &impl Abort, mut builder: FlameGraphBuilder, refusal: Refusal) {
    assert_refused(rt, refusal);
    assert_failed(rt, builder.root_visitor().err());
    assert_failed(rt, builder.visit_root(&1u8).err());
    assert_failed(rt, builder.finish().err());
}

/// Enters a key with nothing inside it. After an error the same entry returns that error again. Any other answer
/// becomes `Open`, which no test passes with.
fn enter_last(visitor: &mut Visitor<'_>, key: &'static str, size: usize) -> Result<(), Refusal> {
    let entered = visitor.visit_simple(Key::new(key), size);
    if entered.is_err() && visitor.visit_simple(Key::new(key), size) != entered {
        return Err(Refusal::Open);
    }
    entered
}

/// Enters `T 8 {unique ptr 8 {u8 3}}`.
fn enter_owner(root: &mut Visitor<'_>) -> Result<(), Refusal> {
    let mut outer = root.enter(Key::new("T"), 8)?;
    let mut pointer = outer.enter_unique(Key::new("ptr"), 8)?;
    enter_last(&mut pointer, "u8", 3)
}

/// Enters `Struct 10 {a 3, shared p 6 #1 {Shared 13}}`.
fn enter_sharer(root: &mut Visitor<'_>) -> Result<(), Refusal> {
    let mut outer = root.enter(Key::new("Struct"), 10)?;
    enter_last(&mut outer, "a", 3)?;
    match outer.enter_shared(Key::new("p"), 6, Identity::from(1))? {
        Some(mut content) => enter_last(&mut content, "Shared", 13),
        None => Ok(()),
    }
}

/// Enters the same at each of several root visitors.
fn enter_times<F: Fn(&mut Visitor<'_>) -> Result<(), Refusal>>(
    builder: &mut FlameGraphBuilder,
    times: usize,
    enter: F,
) -> Result<(), Refusal>
    requires { F.IsAlwaysCallable enter }
{
    for _ in 0..times {
        let mut root = builder.root_visitor()?;
        enter(&mut root)?;
    }
    Ok(())
}

/// Asserts what a builder is after entries: the text of its graph, or that it has failed.
fn assert_entered(
    rt: &impl Abort,
    builder: FlameGraphBuilder,
    entered: Result<(), Refusal>,
    text: &str,
) {
    match entered {
        Ok(()) => assert_output(rt, builder.finish(), text, ""),
        Err(refusal) => has_failed(rt, builder, refusal),
    }
}

#[test]
fn entries_are_refused(rt: HostRuntime) {
    let mut builder = new_builder(&rt);
    let entered = enter_times(&mut builder, 1, enter_owner);
    assert_entered(&rt, builder, entered, "T;ptr 8\nT;ptr;u8 3\n");
}

#[test]
fn shared_entries_are_refused(rt: HostRuntime) {
    let mut builder = new_builder(&rt);
    let entered = enter_times(&mut builder, 2, enter_sharer);
    let text = "Shared 13\nStruct 2\nStruct;a 6\nStruct;p 12\n";
    assert_entered(&rt, builder, entered, text);
}

/// Asserts what a builder writes after a visit, or that it has failed.
pub(crate) fn assert_visited(
    rt: &impl Abort,
    builder: FlameGraphBuilder,
    visited: Result<(), Refusal>,
    text: &str,
) {
    match visited {
        Ok(()) => match builder.finish_and_write_flame_graph() {
            Ok(written) => assert_same(rt, written.as_str(), text),
            Err(refusal) => assert_refused(rt, refusal),
        },
        Err(refusal) => has_failed(rt, builder, refusal),
    }
}

#[test]
fn a_root_is_refused(rt: HostRuntime) {
    let mut builder = new_builder(&rt);
    let visited = builder.visit_root(&Some(7u32));
    assert_visited(&rt, builder, visited, "Option 4\nOption;Some;u32 4\n");
}
