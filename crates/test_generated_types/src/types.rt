//! Types for which `bin/implement --counted` wrote the module `shown`: each form that it writes, once.

mod shown;

use std::collections::{BTreeMap, HashMap};
use std::hash::Hash;
use std::ops::Range;

/// Fields by number: six that are shown, one that is passed over, and one that is shown by its size.
#[derive(Drop)]
pub struct Found<'a, const N: usize>(
    pub u8,
    pub u8,
    pub u8,
    pub [u32; N],
    pub BTreeMap<u64, Vec<Event>>,
    // allocative: size 8
    pub f64,
    // allocative: skip
    pub &'a str,
);

/// Values by their names, and the last of them.
#[derive(Drop)]
pub struct Table<K, V>
where
    K: Eq + Hash,
{
    pub values: HashMap<K, V>,
    pub last: V,
}

/// Nothing, a value with its place, which is passed over, or two places.
#[derive(Drop)]
pub enum Placed<T> {
    Nowhere,
    Somewhere(
        T,
        // allocative: skip
        f64,
    ),
    Between(u32, u32),
}

/// What happened in a store: fields that are shown, passed over, or shown by their size.
#[derive(Drop)]
pub enum Event {
    Quiet,
    Note(String),
    Marked(
        // allocative: size 8
        u64,
    ),
    Sale {
        // allocative: size 16
        place: (u64, u64),
        // allocative: skip
        weight: f64,
        shelf: u64,
        prices: Vec<u64>,
    },
}

/// What a cart holds, which is always bought.
#[derive(Drop)]
pub enum Cart {
    BoughtItems { names: Vec<String> },
}

/// A value of a document.
#[derive(Drop)]
pub enum Json {
    Null,
    Table(BTreeMap<String, Json>),
    Pair {
        first: Option<Box<Json>>,
        rest: Vec<Json>,
    },
    Part(Range<u64>, Box<Json>),
}

/// A ring of a fixed length, with a text that is part of the program.
#[derive(Drop)]
pub struct Ring<const N: usize> {
    pub points: [u64; N],
    pub name: &'static str,
}

/// A rope of other ropes.
#[derive(Drop)]
pub enum Rope {
    Of(Vec<Rope>),
}

/// A job, and the jobs before it.
#[cycle(jobs)]
#[derive(Drop)]
pub struct Job {
    pub payload: Payload,
    pub earlier_by_number: HashMap<u64, Job>,
}

/// What a job does.
#[cycle(jobs)]
#[derive(Drop)]
pub enum Payload {
    Nothing,
    Done { job: Box<Job>, within_seconds: u64 },
}
