//! What the calls at a root visitor return, and what their builder returns afterwards.
//!
//! Rows: an entry past the bound, and one after it; an entry of a type whose size does not fit; two refusals by hand; a
//! forgotten root visitor; a forgotten nested one, whose outer ones are left.
use crate::sizes::Huge;
use allocative::{FlameGraphBuilder, Key, Refusal, Visitor};
use std::alloc::Global;
use std::mem::forget;

/// The refusals of three calls.
type Refusals = [Option<Refusal>; 3];

/// Enters all bytes that fit, one more, and none.
fn pass_the_bound(root: &mut Visitor<'_>) -> Refusals {
    let most = root.visit_simple(Key::new("a"), isize::MAX as usize);
    let more = root.visit_simple(Key::new("b"), 1);
    let further = root.visit_simple(Key::new("c"), 0);
    [most.err(), more.err(), further.err()]
}

/// Enters a value without a size, and then no bytes.
fn enter_unsized(root: &mut Visitor<'_>) -> Refusals {
    let entered = root.enter_self_sized::<Option<Huge>>().err();
    let further = root.visit_simple(Key::new("c"), 0).err();
    [None, entered, further]
}

/// Refuses with one cause, and then with another.
fn refuse_twice(root: &mut Visitor<'_>) -> Refusals {
    let first = root.refuse(Refusal::TooLarge);
    [None, Some(first), Some(root.refuse(Refusal::Memory))]
}

/// Forgets a visitor, and leaves the one outside it.
fn forget_nested(root: &mut Visitor<'_>) -> Refusals {
    match root.enter(Key::new("a"), 8) {
        Ok(mut outer) => {
            forget(outer.enter(Key::new("b"), 4));
            outer.exit();
            [None; 3]
        }
        Err(refusal) => [Some(refusal); 3],
    }
}

fn begun(builder: &mut FlameGraphBuilder) -> Option<Refusal> {
    builder.root_visitor().err()
}

/// What `root_visitor`, `visit_root` and `finish` return.
fn after(mut builder: FlameGraphBuilder) -> Refusals {
    let begun = begun(&mut builder);
    let visited = builder.visit_root(&1u8).err();
    [begun, visited, builder.finish().err()]
}

/// What is returned at a root visitor, and by the builder once the visitor is left.
fn refusals<F: FnOnce(&mut Visitor<'_>) -> Refusals>(
    alloc: Global,
    act: F,
) -> Result<[Refusals; 2], Refusal>
    requires { F.IsAlwaysCallable act }
{
    let mut builder = FlameGraphBuilder::new(alloc)?;
    let mut root = builder.root_visitor()?;
    let told = act(&mut root);
    root.exit();
    Ok([told, after(builder)])
}

/// What a builder returns whose root visitor is forgotten.
fn forgotten(alloc: Global) -> Result<Refusals, Refusal> {
    let mut builder = FlameGraphBuilder::new(alloc)?;
    forget(builder.root_visitor()?);
    Ok(after(builder))
}

#[test]
fn a_builder_returns_its_first_cause_for_good(rt: HostRuntime) -> Result<(), Refusal> {
    let alloc = rt.alloc();
    let (large, open) = (Some(Refusal::TooLarge), Some(Refusal::Open));
    let failed = [[None, large, large], [large; 3]];
    for found in [
        refusals(alloc, pass_the_bound)?,
        refusals(alloc, enter_unsized)?,
        refusals(alloc, refuse_twice)?,
    ] {
        assert!(rt; found == failed);
    }
    let nested = refusals(alloc, forget_nested)?;
    assert!(rt; [nested, [[None; 3], forgotten(alloc)?]] == [[[None; 3], [open; 3]]; 2]);
    Ok(())
}
