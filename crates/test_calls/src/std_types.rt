//! The text of each type of std at a concrete type.
use crate::texts::{counted, made, show, shows};
use allocative::{IdArc, IdRc, Identity, Refusal, shared_inner_size};
use either::Either;
use std::alloc::{AllocError, Global};
use std::borrow::CowStr;
use std::boxed::{BoxedSlice, BoxedStr};
use std::cell::{Cell, OnceCell, RefCell};
use std::cmp::{Ordering, Reverse};
use std::collections::{BTreeMap, BTreeSet, BinaryHeap, HashMap, HashSet, LinkedList, VecDeque};
use std::marker::PhantomData;
use std::mem::ManuallyDrop;
use std::net::{IpAddr, Ipv4Addr, Ipv6Addr};
use std::num::{
    NonZeroI8, NonZeroI16, NonZeroI32, NonZeroI64, NonZeroIsize, NonZeroU8, NonZeroU16, NonZeroU32,
    NonZeroU64, NonZeroUsize, Wrapping,
};
use std::ops::Bound;
use std::sync::atomic::{
    AtomicBool, AtomicI8, AtomicI16, AtomicI32, AtomicI64, AtomicIsize, AtomicU8, AtomicU16,
    AtomicU32, AtomicU64, AtomicUsize,
};
use std::sync::{ArcStr, Mutex, OnceLock, RwLock};
use std::test::Fail;
use std::time::{Duration, Instant, SystemTime};

#[test]
fn numbers(rt: HostRuntime) -> Result<(), Fail> {
    show(
        rt.alloc(),
        &[
            (&1u8, "u8 1\n"),
            (&1u16, "u16 2\n"),
            (&1u32, "u32 4\n"),
            (&1u64, "u64 8\n"),
            (&1u128, "u128 16\n"),
            (&1usize, "usize 8\n"),
            (&1i8, "i8 1\n"),
            (&1i16, "i16 2\n"),
            (&1i32, "i32 4\n"),
            (&1i64, "i64 8\n"),
            (&1i128, "i128 16\n"),
            (&1isize, "isize 8\n"),
            (&1.5f32, "f32 4\n"),
            (&1.5f64, "f64 8\n"),
            (&'a', "char 4\n"),
            (&true, "bool 1\n"),
            (&NonZeroU8::MIN, "NonZeroU8 1\n"),
            (&NonZeroU16::MIN, "NonZeroU16 2\n"),
            (&NonZeroU32::MIN, "NonZeroU32 4\n"),
            (&NonZeroU64::MIN, "NonZeroU64 8\n"),
            (&NonZeroUsize::MIN, "NonZeroUsize 8\n"),
            (&NonZeroI8::MIN, "NonZeroI8 1\n"),
            (&NonZeroI16::MIN, "NonZeroI16 2\n"),
            (&NonZeroI32::MIN, "NonZeroI32 4\n"),
            (&NonZeroI64::MIN, "NonZeroI64 8\n"),
            (&NonZeroIsize::MIN, "NonZeroIsize 8\n"),
            (&AtomicU8::new(1), "AtomicU8 1\n"),
            (&AtomicU16::new(1), "AtomicU16 2\n"),
            (&AtomicU32::new(1), "AtomicU32 4\n"),
            (&AtomicU64::new(1), "AtomicU64 8\n"),
            (&AtomicUsize::new(1), "AtomicUsize 8\n"),
            (&AtomicI8::new(1), "AtomicI8 1\n"),
            (&AtomicI16::new(1), "AtomicI16 2\n"),
            (&AtomicI32::new(1), "AtomicI32 4\n"),
            (&AtomicI64::new(1), "AtomicI64 8\n"),
            (&AtomicIsize::new(1), "AtomicIsize 8\n"),
            (&AtomicBool::new(true), "AtomicBool 1\n"),
        ],
    )
}

#[test]
fn addresses_and_times(rt: HostRuntime) -> Result<(), Fail> {
    let (instant, time) = (Instant::now(&rt)?, SystemTime::now(&rt)?);
    let local = Ipv4Addr::new(127, 0, 0, 1);
    show(
        rt.alloc(),
        &[
            (&local, "Ipv4Addr 4\n"),
            (&IpAddr::V4(local), "IpAddr 17\n"),
            (&Ipv6Addr::new(0, 0, 0, 0, 0, 0, 0, 1), "Ipv6Addr 16\n"),
            (&Duration::from_secs(1), "Duration 16\n"),
            (&instant, "Instant 16\n"),
            (&time, "SystemTime 16\n"),
        ],
    )
}

#[test]
fn parts_in_place(rt: HostRuntime) -> Result<(), Fail> {
    let nothing: PhantomData<u8> = PhantomData;
    let error: Result<u8, u16> = Err(1);
    show(
        rt.alloc(),
        &[
            (&(), ""),
            (&nothing, ""),
            (&(1u8,), "tuple1;0;u8 1\n"),
            (&(1u8, 2u32), "tuple2 3\ntuple2;0;u8 1\ntuple2;1;u32 4\n"),
            (&((), (), 1u8), "tuple3;2;u8 1\n"),
            (&((), (), (), 1u8), "tuple4;3;u8 1\n"),
            (&((), (), (), (), 1u8), "tuple5;4;u8 1\n"),
            (&((), (), (), (), (), 1u8), "tuple6;5;u8 1\n"),
            (&((), (), (), (), (), (), 1u8), "tuple7;6;u8 1\n"),
            (&((), (), (), (), (), (), (), 1u8), "tuple8;7;u8 1\n"),
            (&None::<u32>, "Option 8\n"),
            (&Some(1u32), "Option 4\nOption;Some;u32 4\n"),
            (&error, "Result 2\nResult;Err;u16 2\n"),
            (&[1u16, 2, 3], "u16;data;u16 6\n"),
            (&ManuallyDrop::new(1u16), "ManuallyDrop;inner;u16 2\n"),
            (&Reverse(1u32), "Reverse;0;u32 4\n"),
            (&Wrapping(1u16), "Wrapping;0;u16 2\n"),
            (&Ordering::Less, "Ordering 1\n"),
            (&Bound::<u64>::Unbounded, "Bound 16\n"),
            (&Bound::Included(1u32), "Bound 4\nBound;Included;u32 4\n"),
            (&Bound::Excluded(1u8), "Bound 1\nBound;Excluded;u8 1\n"),
        ],
    )
}

#[test]
fn cells_and_locks(rt: HostRuntime) -> Result<(), Fail> {
    show(
        rt.alloc(),
        &[
            (&Cell::new(1u32), "Cell;data;u32 4\n"),
            (&RefCell::new(1u64), "RefCell 8\nRefCell;data;u64 8\n"),
            (&OnceCell::<u64>::new(), "OnceCell 16\n"),
            (&OnceCell::from(5u64), "OnceCell 8\nOnceCell;data;u64 8\n"),
            (&Mutex::new(1u8), "Mutex 7\nMutex;data;u8 1\n"),
            (&RwLock::new(1u64), "RwLock 16\nRwLock;data;u64 8\n"),
            (&OnceLock::<u64>::new(), "OnceLock 16\n"),
            (&OnceLock::from(1u32), "OnceLock 4\nOnceLock;data;u32 4\n"),
        ],
    )
}

#[test]
fn a_cell_or_a_lock_that_is_held_shows_its_own_entry_alone(rt: HostRuntime) -> Result<(), Fail> {
    let cell = RefCell::new(1u64);
    let _written = cell.try_borrow_mut().or(Err("a new cell is free"))?;
    shows(rt.alloc(), &cell, "RefCell 16\n")?;
    let lock = Mutex::new(1u64);
    let _held = lock.try_lock().ok_or("a new lock is free")?;
    shows(rt.alloc(), &lock, "Mutex 16\n")
}

#[test]
fn pointers(rt: HostRuntime) -> Result<(), Fail> {
    let alloc = rt.alloc();
    made(alloc, Ok::<&'static u8, AllocError>(&7), "")?;
    made(alloc, Ok::<&'static str, AllocError>("abc"), "")?;
    made(alloc, ArcStr::from_str(alloc, "abc"), "Arc 16\n")?;
    let text: CowStr<'static> = CowStr::Borrowed("abc");
    made(alloc, Ok::<CowStr<'static>, AllocError>(text), "Cow 24\n")?;
    counted(alloc, Box::new(alloc, 1u64), "Box;ptr 8\nBox;ptr;u64 8\n")?;
    let three = BoxedSlice::from_slice(alloc, &[1u16, 2, 3]);
    counted(alloc, three, "Box;ptr 16\nBox;ptr;u16;data;u16 6\n")?;
    let text = BoxedStr::from_str(alloc, "abc");
    counted(alloc, text, "Box;ptr 16\nBox;ptr;str 3\n")
}

/// A pointer and its clone.
fn two_pointers(alloc: Global) -> Result<(IdRc<u8>, IdRc<u8>), Refusal> {
    let first = IdRc::new(alloc, 1, Identity::from(7))?;
    let second = first.clone()?;
    Ok((first, second))
}

/// A pointer for threads and its clone.
fn two_pointers_for_threads(alloc: Global) -> Result<(IdArc<u8>, IdArc<u8>), Refusal> {
    let first = IdArc::new(alloc, 1, Identity::from(7))?;
    let second = first.clone()?;
    Ok((first, second))
}

#[test]
fn two_pointers_show_one_content(rt: HostRuntime) -> Result<(), Fail> {
    let alloc = rt.alloc();
    let text = "RcInner 23\nRcInner;u8 1\ntuple2;0;Rc;ptr 8\ntuple2;1;Rc;ptr 8\n";
    made(alloc, two_pointers(alloc), text)?;
    let text = "ArcInner 23\nArcInner;u8 1\ntuple2;0;Arc;ptr 8\ntuple2;1;Arc;ptr 8\n";
    made(alloc, two_pointers_for_threads(alloc), text)
}

/// Pairs, one of which points to a number.
fn pairs(alloc: Global) -> Result<Vec<(u8, Option<Box<u64>>)>, AllocError> {
    Ok(vec![in alloc; (1, Some(Box::new(alloc, 2)?)), (3, None)]?)
}

/// Parts of which each has a tally: a text, an `Either` with a `Result`, a pair, a triple of numbers, and four flags.
type Parts = (
    String,
    Either<u8, Result<u8, u16>>,
    (u8, u8),
    (u8, u16, u32),
    (bool, bool, bool, bool),
);

fn parts(alloc: Global) -> Result<Parts, AllocError> {
    let text = String::from_str(alloc, "ab")?;
    let choice = Either::Right(Err(1));
    Ok((text, choice, (1, 2), (1, 2, 3), (true, true, true, true)))
}

#[test]
fn lists(rt: HostRuntime) -> Result<(), Fail> {
    let alloc = rt.alloc();
    let text =
        "Vec 16\nVec;ptr 8\nVec;ptr;tuple2 14\nVec;ptr;tuple2;0;u8 2\nVec;ptr;tuple2;1;Option 24\nVec;ptr;tuple2;1;Option;Some;Box;ptr 8\nVec;ptr;tuple2;1;Option;Some;Box;ptr;u64 8\n";
    counted(alloc, pairs(alloc), text)?;
    let text = "VecDeque 24\nVecDeque;ptr 8\nVecDeque;ptr;array 8\n";
    counted::<VecDeque<[u16; 2]>, _>(alloc, [[1, 2], [3, 4]].into_iter().collect(alloc), text)?;
    let text =
        "LinkedList 16\nLinkedList;ptr 8\nLinkedList;ptr;data;u64 16\nLinkedList;ptr;links 32\n";
    counted(alloc, LinkedList::from_array(alloc, [1u64, 2]), text)?;
    let text = "BinaryHeap 16\nBinaryHeap;ptr 8\nBinaryHeap;ptr;u32 8\n";
    counted(alloc, BinaryHeap::from_array(alloc, [1u32, 2]), text)?;
    let text =
        "tuple5 4\ntuple5;0;String 16\ntuple5;0;String;ptr 8\ntuple5;0;String;ptr;capacity;u8 2\ntuple5;1;Either 2\ntuple5;1;Either;Right;Result 2\ntuple5;1;Either;Right;Result;Err;u16 2\ntuple5;2;tuple2;0;u8 1\ntuple5;2;tuple2;1;u8 1\ntuple5;3;tuple3 1\ntuple5;3;tuple3;0;u8 1\ntuple5;3;tuple3;1;u16 2\ntuple5;3;tuple3;2;u32 4\ntuple5;4;tuple4;0;bool 1\ntuple5;4;tuple4;1;bool 1\ntuple5;4;tuple4;2;bool 1\ntuple5;4;tuple4;3;bool 1\n";
    counted(alloc, parts(alloc), text)
}

#[test]
fn tables(rt: HostRuntime) -> Result<(), Fail> {
    let alloc = rt.alloc();
    let text = "HashSet 40\nHashSet;data;key;u32 8\n";
    counted::<HashSet<u32>, _>(alloc, [1, 2].into_iter().collect(alloc), text)?;
    let text = "HashMap 40\nHashMap;data 4\nHashMap;data;key;u8 2\nHashMap;data;value;u8 2\n";
    counted::<HashMap<u8, u8>, _>(alloc, [(1, 1), (2, 2)].into_iter().collect(alloc), text)?;
    let text = "BTreeSet 16\nBTreeSet;data;key;u32 8\n";
    counted::<BTreeSet<u32>, _>(alloc, [1, 2].into_iter().collect(alloc), text)?;
    let text = "BTreeMap 16\nBTreeMap;data 4\nBTreeMap;data;key;u8 2\nBTreeMap;data;value;u8 2\n";
    counted::<BTreeMap<u8, u8>, _>(alloc, [(1, 1), (2, 2)].into_iter().collect(alloc), text)
}

#[test]
fn two_counts_stand_before_a_shared_value(rt: HostRuntime) {
    assert!(rt; shared_inner_size::<u8>() == Some(24));
}
