//! Registries and whole runs after a refused growth.
//!
//! Rows: a number and an option that is not there, registered; a root with one field; a map of one pair.
#![tactic(auto, using(allocative::proofs::Parts::parts))]

ghost use Rattle.std.specs.Prelude.{codes, Some};
ghost use Rattle.allocative.specs.Shows as shows;

use crate::assertions::{assert_count, assert_output, assert_refused, assert_text, boxed, made};
use crate::builders::{assert_visited, new_builder};
use allocative::{
    Allocative, Field, IdArc, IdRc, Identity, Inside, Part, Refusal, Registry, Visitor,
    profile_in_two, profile_roots,
};
use std::alloc::AllocGlobal;
use std::collections::BTreeMap;
use std::process::Abort;
use std::rc::Rc;

/// A root that is refused is handed back. The others are still there, and it is registered then.
#[test]
fn registering_is_refused(rt: HostRuntime) {
    let mut registry = Registry::new(rt.alloc());
    if let Err(back) = registry.register_root(boxed(&rt, 7u32)) {
        assert_count(&rt, registry.roots().len(), 0);
        assert!(rt; registry.register_root(back).is_ok());
    }
    assert_count(&rt, registry.roots().len(), 1);
    if let Err(back) = registry.register_root(boxed(&rt, None::<u32>)) {
        assert_count(&rt, registry.roots().len(), 1);
        assert!(rt; registry.register_root(back).is_ok());
    }
    assert_count(&rt, registry.roots().len(), 2);
    assert_output(&rt, profile_roots(&registry), "Option 8\nu32 4\n", "");
}

/// Asserts that a root was refused, and that there is no other.
fn assert_no_root(rt: &impl Abort, registry: &Registry, refusal: Refusal) {
    assert_refused(rt, refusal);
    assert_count(rt, registry.roots().len(), 0);
}

/// Declares 4 bytes, those of its field.
#[derive(Drop)]
struct TestGlobalRoot {
    x: u32,
}

impl Allocative for TestGlobalRoot {
    ghost may_show = { λ r. shows.Inside (codes "TestGlobalRoot") 4
        (shows.Field (codes "x") (Some 4) (⟦<u32 as Allocative>⟧.may_show r.x)) };

    fn visit(&self, visitor: &mut Visitor<'_>) -> Result<(), Refusal> {
        Inside("TestGlobalRoot", 4, Field("x", &self.x)).enter(visitor)
    }
}

#[test]
fn global_roots_are_refused(rt: HostRuntime) {
    let mut registry = Registry::new(rt.alloc());
    match registry.add_root(boxed(&rt, TestGlobalRoot { x: 7 })) {
        Ok(()) => {
            let mut builder = new_builder(&rt);
            let visited = builder.visit_global_roots(&registry);
            assert_visited(&rt, builder, visited, "TestGlobalRoot;x;u32 4\n");
        }
        Err(refusal) => assert_no_root(&rt, &registry, refusal),
    }
}

#[test]
fn a_map_is_refused(rt: HostRuntime) {
    let map: BTreeMap<u64, u64> = made(&rt, || Ok([(1, 2)].into_iter().collect(rt.alloc())?));
    let mut registry = Registry::new(rt.alloc());
    match registry.add_root(boxed(&rt, map)) {
        Ok(()) => assert_output(
            &rt,
            profile_roots(&registry),
            "BTreeMap 16\nBTreeMap;data;key;u64 8\nBTreeMap;data;value;u64 8\n",
            "Incorrect size declaration for node `BTreeMap;data`, size of self: 8, size of inline children: 16\n",
        ),
        Err(refusal) => assert_no_root(&rt, &registry, refusal),
    }
}

#[test]
fn two_collections_are_refused(rt: HostRuntime) {
    match profile_in_two(rt.alloc(), &[1u8, 2], &[3]) {
        Ok(graph) => assert_text(&rt, &graph, "u8 3\n"),
        Err(refusal) => assert_refused(&rt, refusal),
    }
}

/// Shows nothing, and owns a mark.
#[derive(Drop)]
struct Marked {
    _mark: Rc<()>,
}

impl Allocative for Marked {
    ghost may_show = { λ _. shows.Nothing };

    fn visit(&self, visitor: &mut Visitor<'_>) -> Result<(), Refusal> {
        ().enter(visitor)
    }
}

/// A value that owns the mark too.
fn with_mark(rt: &impl Abort, mark: &Rc<()>) -> Marked {
    Marked {
        _mark: mark.clone().expect(rt, "one more owner"),
    }
}

/// Asserts that a value is kept or, if the call that took it was refused, was dropped.
fn assert_kept_or_dropped<T: Drop>(rt: &impl Abort, mark: &Rc<()>, taken: Result<T, Refusal>) {
    match &taken {
        Ok(_) => assert_count(rt, Rc::strong_count(mark), 2),
        Err(refusal) => {
            assert_refused(rt, *refusal);
            assert_count(rt, Rc::strong_count(mark), 1);
        }
    }
}

#[test]
fn refused_values_are_dropped(rt: HostRuntime) {
    let mark = made(&rt, || Ok(Rc::new(rt.alloc(), ())?));
    let shared = IdRc::new(rt.alloc(), with_mark(&rt, &mark), Identity::from(1));
    assert_kept_or_dropped(&rt, &mark, shared);
    let shared = IdArc::new(rt.alloc(), with_mark(&rt, &mark), Identity::from(2));
    assert_kept_or_dropped(&rt, &mark, shared);
    let mut registry = Registry::new(rt.alloc());
    let added = registry.add_root(boxed(&rt, with_mark(&rt, &mark)));
    assert_kept_or_dropped(&rt, &mark, added);
}
