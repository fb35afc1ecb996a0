//! The text of each type of another crate, at a concrete type.
use crate::texts::{counted, made, shows};
use allocative::FlameGraph;
use either::Either;
use indexmap::{IndexMap, IndexSet};
use lru::LruCache;
use once_cell::race::OnceBox;
use serde_json::Value;
use slab::Slab;
use smallvec::SmallVec;
use std::alloc::{AllocError, Global};
use std::num::NonZeroUsize;
use std::test::Fail;

#[test]
fn a_document_and_its_number(rt: HostRuntime) -> Result<(), Fail> {
    let value = Value::from_str(rt.alloc(), "7")?;
    shows(rt.alloc(), &value, "Value 16\nValue;Number;Number 16\n")?;
    let number = value.as_number().ok_or("no number")?;
    shows(rt.alloc(), number, "Number 16\n")
}

/// A cell that was set.
fn set_cell(alloc: Global) -> Result<OnceBox<u64>, AllocError> {
    let cell = OnceBox::new(alloc);
    let _set = cell.set(Box::new(alloc, 5)?);
    Ok(cell)
}

fn slab(alloc: Global) -> Result<Slab<Box<u32>>, AllocError> {
    let mut slab = Slab::new(alloc);
    slab.insert(Box::new(alloc, 1)?)?;
    Ok(slab)
}

/// Two pairs with room for 100.
fn two_recent(alloc: Global) -> Result<LruCache<u8, u64>, AllocError> {
    let bound = NonZeroUsize::new(100).unwrap_or(NonZeroUsize::MIN);
    let mut recent = LruCache::new(alloc, bound)?;
    recent.put(1, 2)?;
    recent.put(3, 4)?;
    Ok(recent)
}

#[test]
fn values_in_place_and_behind_a_pointer(rt: HostRuntime) -> Result<(), Fail> {
    let alloc = rt.alloc();
    let right: Either<u8, u64> = Either::Right(1);
    shows(alloc, &right, "Either 8\nEither;Right;u64 8\n")?;
    shows(alloc, &anyhow::Error::msg("refused"), "")?;
    shows(alloc, &OnceBox::<u64>::new(alloc), "OnceBox 8\n")?;
    made(alloc, set_cell(alloc), "OnceBox;ptr 8\nOnceBox;ptr;u64 8\n")?;
    let text = "SmallVec 16\nSmallVec;data;u64 8\n";
    counted::<SmallVec<u64, 2>, _>(alloc, [1].into_iter().collect(alloc), text)?;
    let text = "SmallVec 16\nSmallVec;ptr 8\nSmallVec;ptr;data;u64 24\n";
    counted::<SmallVec<u64, 2>, _>(alloc, [1, 2, 3].into_iter().collect(alloc), text)
}

#[test]
fn lists_and_tables(rt: HostRuntime) -> Result<(), Fail> {
    let alloc = rt.alloc();
    let text = "Slab 32\nSlab;ptr 8\nSlab;ptr;Box;ptr 8\nSlab;ptr;Box;ptr;u32 4\n";
    counted(alloc, slab(alloc), text)?;
    let empty: IndexMap<u64, u64> = IndexMap::new(alloc);
    shows(alloc, &empty, "IndexMap 64\nIndexMap;data 8\n")?;
    let text =
        "IndexMap 56\nIndexMap;data 8\nIndexMap;data;key;u64 8\nIndexMap;data;value;u64 8\nIndexMap;raw_table 8\nIndexMap;raw_table;alloc 36\n";
    counted::<IndexMap<u64, u64>, _>(alloc, [(1, 2)].into_iter().collect(alloc), text)?;
    let text =
        "IndexSet 56\nIndexSet;data 8\nIndexSet;data;value;u16 10\nIndexSet;raw_table 8\nIndexSet;raw_table;alloc 72\n";
    counted::<IndexSet<u16>, _>(alloc, [1, 2, 3, 4, 5].into_iter().collect(alloc), text)?;
    let text =
        "LruCache 56\nLruCache;ptr 8\nLruCache;ptr;key;u8 2\nLruCache;ptr;value;u64 16\nLruCache;raw_table 8\nLruCache;raw_table;alloc 36\n";
    counted(alloc, two_recent(alloc), text)?;
    let text = "FlameGraph 32\nFlameGraph;ptr 8\nFlameGraph;ptr;Child 112\n";
    made(alloc, FlameGraph::read(alloc, "a 1\na;b 2\n"), text)
}
