//! Rows: the unused room of each container, by what its `capacity()` returns, and the bytes that a vector with room
//! holds.
use crate::texts::has_room;
use allocative::size_of_unique_allocated_data;
use indexmap::{IndexMap, IndexSet};
use slab::Slab;
use std::alloc::{AllocError, Global};
use std::collections::VecDeque;
use std::test::Fail;

fn bytes(alloc: Global) -> Result<Vec<u8>, AllocError> {
    let mut bytes = Vec::with_capacity(alloc, 100)?;
    bytes.extend_from_slice(&[1, 2, 3])?;
    Ok(bytes)
}

#[test]
fn a_vector(rt: HostRuntime) -> Result<(), Fail> {
    let bytes = bytes(rt.alloc())?;
    assert!(rt; size_of_unique_allocated_data(&bytes) == Ok(bytes.capacity()));
    has_room(rt.alloc(), &bytes, "Vec;ptr", bytes.capacity(), 1)
}

fn queue(alloc: Global) -> Result<VecDeque<u8>, AllocError> {
    let mut bytes = VecDeque::with_capacity(alloc, 100)?;
    for byte in [1, 2, 3] {
        bytes.push_back(byte)?;
    }
    Ok(bytes)
}

#[test]
fn a_queue(rt: HostRuntime) -> Result<(), Fail> {
    let bytes = queue(rt.alloc())?;
    has_room(rt.alloc(), &bytes, "VecDeque;ptr", bytes.capacity(), 1)
}

fn text(alloc: Global) -> Result<String, AllocError> {
    let mut text = String::with_capacity(alloc, 100)?;
    text.push_str("abc")?;
    Ok(text)
}

#[test]
fn a_text(rt: HostRuntime) -> Result<(), Fail> {
    let text = text(rt.alloc())?;
    has_room(rt.alloc(), &text, "String;ptr;capacity", text.capacity(), 1)
}

fn slab(alloc: Global) -> Result<Slab<u8>, AllocError> {
    let mut slab = Slab::new(alloc);
    for byte in [1, 2, 3] {
        slab.insert(byte)?;
    }
    slab.reserve(100)?;
    Ok(slab)
}

#[test]
fn a_slab(rt: HostRuntime) -> Result<(), Fail> {
    let bytes = slab(rt.alloc())?;
    has_room(rt.alloc(), &bytes, "Slab;ptr", bytes.capacity(), 1)
}

fn set(alloc: Global) -> Result<IndexSet<u8>, AllocError> {
    let mut bytes: IndexSet<u8> = [1, 2, 3].into_iter().collect(alloc)?;
    bytes.reserve(100)?;
    Ok(bytes)
}

#[test]
fn a_set(rt: HostRuntime) -> Result<(), Fail> {
    let bytes = set(rt.alloc())?;
    has_room(rt.alloc(), &bytes, "IndexSet;data", bytes.capacity(), 1)
}

fn map(alloc: Global) -> Result<IndexMap<u8, u8>, AllocError> {
    let mut pairs: IndexMap<u8, u8> = [(1, 4), (2, 5), (3, 6)].into_iter().collect(alloc)?;
    pairs.reserve(100)?;
    Ok(pairs)
}

#[test]
fn a_map(rt: HostRuntime) -> Result<(), Fail> {
    let pairs = map(rt.alloc())?;
    has_room(rt.alloc(), &pairs, "IndexMap;data", pairs.capacity(), 2)
}
