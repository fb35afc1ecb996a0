//! Types with a name and a size of their own, as rows have them, and what values hold.
//!
//! Rows: a struct with a boxed slice of a hundred bytes; a shared value with an alignment of 64; and the bytes that a
//! box of a box, a box of a number and a boxed slice hold, alone and with the declared size.
#![tactic(auto, using(allocative::proofs::Parts::parts))]

ghost use Rattle.std.specs.Prelude.{codes, Some, false};
ghost use Rattle.allocative.specs.Layouts.{declared};
ghost use Rattle.allocative.specs.Shows as shows;

use crate::texts::made;
use allocative::{
    Allocative, Described, Field, IdArc, Identity, Inside, Layout, Part, Refusal, Visitor,
    size_of_unique, size_of_unique_allocated_data,
};
use std::alloc::{AllocError, Global};
use std::boxed::BoxedSlice;
use std::test::Fail;

/// Declares 24 bytes: bytes as a boxed slice, and a byte.
#[derive(Drop)]
struct TestData {
    data: BoxedSlice<u8>,
    b: u8,
}

impl Allocative for TestData {
    ghost may_show = { λ t. shows.Inside (codes "TestData") 24 (shows.Both
        (shows.Field (codes "data") (Some 16) (⟦<BoxedSlice<u8> as Allocative>⟧.may_show t.data))
        (shows.Field (codes "b") (Some 1) (⟦<u8 as Allocative>⟧.may_show t.b))) };

    fn visit(&self, visitor: &mut Visitor<'_>) -> Result<(), Refusal> {
        let (data, b) = (Field("data", &self.data), Field("b", &self.b));
        Inside("TestData", 24, (data, b)).enter(visitor)
    }
}

/// Declares 64 bytes, and as its alignment too.
#[derive(Drop)]
struct CacheLine(u8);

impl Described for CacheLine {
    ghost layout = { declared (codes "CacheLine") 64 64 false };

    fn layout() -> Layout {
        Layout::new("CacheLine", 64, 64, false)
    }
}

impl Allocative for CacheLine {
    ghost may_show = { λ c. shows.Inside (codes "CacheLine") 64
        (shows.Field (codes "0") (Some 1) (⟦<u8 as Allocative>⟧.may_show c.0)) };

    fn visit(&self, visitor: &mut Visitor<'_>) -> Result<(), Refusal> {
        Inside("CacheLine", 64, Field("0", &self.0)).enter(visitor)
    }
}

fn test_data(alloc: Global) -> Result<TestData, AllocError> {
    let data = BoxedSlice::from_slice(alloc, &[0; 100])?;
    Ok(TestData { data, b: 1 })
}

#[test]
fn named_types(rt: HostRuntime) -> Result<(), Fail> {
    let alloc = rt.alloc();
    let text =
        "TestData 7\nTestData;b;u8 1\nTestData;data;Box;ptr 16\nTestData;data;Box;ptr;u8;data;u8 100\n";
    made(alloc, test_data(alloc), text)?;
    let shared = IdArc::new(alloc, CacheLine(1), Identity::from(1));
    let text = "Arc;ptr 8\nArcInner 64\nArcInner;CacheLine 63\nArcInner;CacheLine;0;u8 1\n";
    made(alloc, shared, text)
}

/// What a root holds, alone and with its declared size.
type Held = [Result<usize, Refusal>; 2];

/// A type of 8 bytes with one field, a box of a type of 16 bytes with a byte and a box.
fn box_of_box(alloc: Global) -> Result<Held, AllocError> {
    let data = (1u8, Box::new(alloc, 7u32)?);
    let boxed = (Box::new(alloc, data)?,);
    Ok([
        size_of_unique_allocated_data(&boxed),
        size_of_unique(&boxed),
    ])
}

/// A type of 8 bytes with one field, a box of a number.
fn box_of_number(alloc: Global) -> Result<Held, AllocError> {
    let boxed = (Box::new(alloc, 7u32)?,);
    Ok([
        size_of_unique_allocated_data(&boxed),
        size_of_unique(&boxed),
    ])
}

/// A type of 16 bytes with one field, a boxed slice.
fn boxed_slice(alloc: Global) -> Result<Held, AllocError> {
    let boxed = (BoxedSlice::from_slice(alloc, &[1u32, 2, 3])?,);
    Ok([
        size_of_unique_allocated_data(&boxed),
        size_of_unique(&boxed),
    ])
}

#[test]
fn boxes_hold_what_they_point_to(rt: HostRuntime) -> Result<(), AllocError> {
    let alloc = rt.alloc();
    let found = [
        box_of_box(alloc)?,
        box_of_number(alloc)?,
        boxed_slice(alloc)?,
    ];
    assert!(rt; found == [[Ok(20), Ok(28)], [Ok(4), Ok(12)], [Ok(12), Ok(28)]]);
    Ok(())
}
