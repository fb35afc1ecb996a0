//! Rows: the text of tuples of bytes, of a boxed option, of a shared number, and of a vector, a queue, a text and a
//! slab with a few items.
use crate::texts::{made, show};
use allocative::{IdRc, Identity};
use slab::Slab;
use std::alloc::{AllocError, Global};
use std::collections::VecDeque;
use std::test::Fail;

#[test]
fn tuples_of_bytes(rt: HostRuntime) -> Result<(), Fail> {
    show(
        rt.alloc(),
        &[
            (&(1u8, 2u8), "tuple2;0;u8 1\ntuple2;1;u8 1\n"),
            (
                &(1u8, 2u8, 3u8),
                "tuple3;0;u8 1\ntuple3;1;u8 1\ntuple3;2;u8 1\n",
            ),
            (
                &(1u8, 2u8, 3u8, 4u8),
                "tuple4;0;u8 1\ntuple4;1;u8 1\ntuple4;2;u8 1\ntuple4;3;u8 1\n",
            ),
            (
                &(1u8, 2u8, 3u8, 4u8, 5u8),
                "tuple5;0;u8 1\ntuple5;1;u8 1\ntuple5;2;u8 1\ntuple5;3;u8 1\ntuple5;4;u8 1\n",
            ),
        ],
    )
}

#[test]
fn pointers(rt: HostRuntime) -> Result<(), Fail> {
    let alloc = rt.alloc();
    let text = "Option 8\nOption;Some;Box;ptr 8\nOption;Some;Box;ptr;u8 1\n";
    made(alloc, Box::new(alloc, 1u8).map(Some), text)?;
    let shared = IdRc::new(alloc, 1u64, Identity::from(1));
    made(alloc, shared, "Rc;ptr 8\nRcInner 16\nRcInner;u64 8\n")
}

fn slab(alloc: Global) -> Result<Slab<u32>, AllocError> {
    let mut slab = Slab::new(alloc);
    slab.insert(1)?;
    slab.insert(2)?;
    Ok(slab)
}

#[test]
fn lists(rt: HostRuntime) -> Result<(), Fail> {
    let alloc = rt.alloc();
    let text = "Vec 16\nVec;ptr 8\nVec;ptr;u8 3\n";
    made(alloc, [1u8, 2, 3].to_vec(alloc), text)?;
    let text = "VecDeque 24\nVecDeque;ptr 8\nVecDeque;ptr;u16 6\n";
    made::<VecDeque<u16>, _>(alloc, [1, 2, 3].into_iter().collect(alloc), text)?;
    let text = "String 16\nString;ptr 8\nString;ptr;capacity;u8 2\n";
    made(alloc, String::from_str(alloc, "ab"), text)?;
    made(alloc, slab(alloc), "Slab 32\nSlab;ptr 8\nSlab;ptr;u32 8\n")
}
