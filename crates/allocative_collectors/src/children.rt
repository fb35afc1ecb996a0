//! The numbers of a node's children, in an order that the caller keeps.
#![tactic(auto, using(crate::proofs::Chunks::in_chunks))]

ghost use Rattle.std.specs.Prelude.{◌≡◌, ◌-◌, ◌<◌, ◌≤◌, [], ◌++◌, length, IfOk, IfSome, OnOk, OnErr, IsTrue, slice_get, Some};
ghost use Rattle.std.specs.List.{insert};
ghost use Rattle.allocative_collectors.specs.Nodes.{numbers, numbers_in, flat, IsOneList, IsPlace, IsPlaceIn, place_in, flat_place};

use allocative_graph::key::start_of;
use std::alloc::{AllocError, Global};

/// The longest list or chunk that is not split. The chunk that a list becomes is longer until a number is put in it.
pub(crate) const LONGEST: usize = 128;

/// Numbers in an order that the caller keeps.
///
/// Most nodes have few children, and up to three numbers need no memory of their own. Up to `LONGEST` are one
/// list. More are in chunks, so that a number that is put in the middle moves few others. If memory ran out, a longer
/// list may have stayed one. Lists and chunks are in boxes, so that the numbers of each node take 16 bytes here.
#[derive(Drop)]
pub(crate) enum Children {
    Empty,
    One([u32; 1]),
    Two([u32; 2]),
    Three([u32; 3]),
    Few(Box<Vec<u32>>),
    Many(Box<Vec<Chunk>>),
}

/// Numbers that follow one another, at least one.
#[derive(Drop)]
pub(crate) struct Chunk {
    pub(crate) numbers: Vec<u32>,
    /// The start of the first number's key. A guess, as are all starts; callers check them.
    pub(crate) start: u64,
    /// The starts of the numbers' keys, from the first one on, as far as they are known.
    pub(crate) starts: Vec<u64>,
}

/// A place among numbers: a chunk, and a place in it. One list counts as one chunk.
#[derive(Clone, Copy)]
pub(crate) struct Place {
    pub(crate) chunk: usize,
    pub(crate) index: usize,
}

impl Children {
    /// Whether there are no numbers.
    pub(crate) fn is_empty(&self) -> bool
        ensures { IsTrue result → numbers self.now ≡ [] }
    {
        matches!(self, Children::Empty)
    }

    /// The numbers, if they are not in chunks.
    pub(crate) fn as_list(&self) -> &[u32]
        ensures { IsOneList self.now → result.now ≡ numbers self.now }
    {
        match self {
            Children::Empty | Children::Many(_) => &[],
            Children::One(list) => list,
            Children::Two(list) => list,
            Children::Three(list) => list,
            Children::Few(list) => list.as_slice(),
        }
    }

    /// All numbers. Those in chunks are copied into `copies`, which is empty. The only error is that memory runs out.
    pub(crate) fn list<'a>(&'a self, copies: &'a mut Vec<u32>) -> Result<&'a [u32], AllocError>
        requires { copies.old.items ≡ [] }
        ensures { IfOk result (λ list. list.now ≡ numbers self.now) }
    {
        let Children::Many(chunks) = self else {
            return Ok(self.as_list());
        };
        for chunk in chunks.as_slice() {
            copies.extend_from_slice(chunk.numbers.as_slice())?;
        }
        Ok(copies.as_slice())
    }

    /// Puts a number at a place, with its key. The only error is that memory runs out, and then the numbers are as they
    /// were.
    pub(crate) fn insert(
        &mut self,
        alloc: Global,
        place: Place,
        number: u32,
        key: &str,
    ) -> Result<(), AllocError>
        requires { IsPlace self.old place }
        ensures ok { OnOk result
            (numbers self.new ≡ insert (numbers self.old) (flat_place self.old place) number) }
        ensures err { OnErr result (numbers self.new ≡ numbers self.old) }
    {
        match self {
            Children::Empty => *self = Children::One([number]),
            Children::One(list) => *self = Children::Two(two(*list, place.index, number)),
            Children::Two(list) => *self = Children::Three(three(*list, place.index, number)),
            Children::Three(list) => *self = Children::Few(four(
                alloc,
                *list,
                place.index,
                number,
            )?),
            Children::Few(list) if place.index == list.len() => list.push(number)?,
            Children::Few(list) => list.insert(place.index, number)?,
            Children::Many(chunks) => insert_in(chunks, place, number, start_of(key))?,
        }
        Ok(())
    }
}

// One number, and another at an index of at most 1.
fn two(list: [u32; 1], index: usize, number: u32) -> [u32; 2]
    requires { index ≤ length list }
    ensures { result ≡ insert list index number }
{
    let [first] = list;
    if index == 0 {
        [number, first]
    } else {
        [first, number]
    }
}

// Two numbers, and another at an index of at most 2.
fn three(list: [u32; 2], index: usize, number: u32) -> [u32; 3]
    requires { index ≤ length list }
    ensures { result ≡ insert list index number }
{
    let [first, second] = list;
    match index {
        0 => [number, first, second],
        1 => [first, number, second],
        _ => [first, second, number],
    }
}

// Three numbers, and another at an index of at most 3.
fn four(
    alloc: Global,
    list: [u32; 3],
    index: usize,
    number: u32,
) -> Result<Box<Vec<u32>>, AllocError>
    requires { index ≤ length list }
    ensures { IfOk result (λ longer. longer.value.items ≡ insert list index number) }
{
    let mut longer = Vec::with_capacity(alloc, 8)?;
    longer.extend_from_slice(&list)?;
    longer.insert(index, number)?;
    Ok(Box::new(alloc, longer)?)
}

impl Chunk {
    // Puts a number at a place of the chunk, with the start of its key.
    fn insert(&mut self, index: usize, number: u32, start: u64) -> Result<(), AllocError>
        requires { index ≤ length (numbers_in self.old) }
        ensures ok { OnOk result (numbers_in self.new ≡ insert (numbers_in self.old) index number) }
        ensures err { OnErr result (numbers_in self.new ≡ numbers_in self.old) }
    {
        self.numbers.insert(index, number)?;
        if index == 0 {
            self.start = start;
        }
        put_start(&mut self.starts, index, start);
        Ok(())
    }

    // Takes the upper half of the numbers away. The only error is that memory runs out, and then the numbers are as
    // they were; some starts may be forgotten.
    fn cut(&mut self) -> Result<Chunk, AllocError>
        ensures ok { IfOk result
            (λ upper. numbers_in self.old ≡ numbers_in self.new ++ numbers_in upper) }
        ensures err { OnErr result (numbers_in self.new ≡ numbers_in self.old) }
    {
        let half = self.numbers.len() / 2;
        let known = self.starts.len().min(half);
        let starts = self.starts.split_off(known)?;
        let numbers = self.numbers.split_off(half)?;
        // If the start of the upper half's first number was forgotten, the last one before it stands for it.
        let start = *starts.first().or(self.starts.last()).unwrap_or(&self.start);
        Ok(Chunk {
            numbers,
            start,
            starts,
        })
    }
}

/// The number at a place. That at the end of a chunk is the first one of the next chunk.
pub(crate) fn number_at(chunks: &[Chunk], place: Place) -> Option<u32>
    ensures place { IfSome result (λ number. IsPlaceIn chunks.now place) }
    ensures number { IfSome result
        (λ number. slice_get (flat chunks.now) (place_in chunks.now place) ≡ Some number) }
{
    let chunk = chunks.get(place.chunk)?;
    if let Some(number) = chunk.numbers.get(place.index) {
        return Some(*number);
    }
    if place.index != chunk.numbers.len() {
        return None;
    }
    let next = chunks.get(place.chunk + 1)?;
    Some(*next.numbers.first()?)
}

/// The last number of the chunks, and the place behind it: in a new chunk, if the last one is full.
pub(crate) fn last_in(chunks: &[Chunk]) -> Option<(u32, Place)>
    ensures place { IfSome result (λ end. IsPlaceIn chunks.now end.1) }
    ensures last { IfSome result
        (λ end. slice_get (flat chunks.now) (length (flat chunks.now) - 1) ≡ Some end.0) }
    ensures behind { IfSome result (λ end. place_in chunks.now end.1 ≡ length (flat chunks.now)) }
{
    let chunk = chunks.len().checked_sub(1)?;
    let numbers = chunks[chunk].numbers.as_slice();
    let number = *numbers.last()?;
    let index = numbers.len();
    if index < LONGEST {
        return Some((number, Place { chunk, index }));
    }
    let behind = Place {
        chunk: chunk + 1,
        index: 0,
    };
    Some((number, behind))
}

// Puts the start of a key at an index. If memory runs out, the later ones are forgotten.
fn put_start(starts: &mut Vec<u64>, index: usize, start: u64) {
    if index <= starts.len() && starts.insert(index, start).is_err() {
        starts.truncate(index);
    }
}

// Puts a number at a place of the chunks, with the start of its key.
#[inline(never)]
fn insert_in(
    chunks: &mut Vec<Chunk>,
    place: Place,
    number: u32,
    start: u64,
) -> Result<(), AllocError>
    requires { IsPlaceIn chunks.old.items place }
    ensures ok { OnOk result
        (flat chunks.new.items ≡ insert (flat chunks.old.items) (place_in chunks.old.items place) number) }
    ensures err { OnErr result (flat chunks.new.items ≡ flat chunks.old.items) }
{
    if place.chunk < chunks.len() {
        let Ok(()) = chunks[place.chunk].insert(place.index, number, start) else {
            return Err(AllocError);
        };
        cut_at(chunks, place.chunk);
    } else {
        let alloc = *chunks.allocator();
        let mut numbers = Vec::with_capacity(alloc, LONGEST + 1)?;
        let mut starts = Vec::with_capacity(alloc, LONGEST + 1)?;
        numbers.push(number)?;
        starts.push(start)?;
        chunks.push(Chunk {
            numbers,
            start,
            starts,
        })?;
    }
    Ok(())
}

// Cuts a chunk in two if it has more than `LONGEST` numbers. If memory runs out it stays whole.
fn cut_at(chunks: &mut Vec<Chunk>, at: usize)
    requires { at < length chunks.old.items }
    ensures { flat chunks.new.items ≡ flat chunks.old.items }
{
    if chunks[at].numbers.len() <= LONGEST || chunks.reserve(1).is_err() {
        return;
    }
    let Ok(upper) = chunks[at].cut() else {
        return;
    };
    let Ok(()) = chunks.insert(at + 1, upper) else {
        unreachable!()
    };
}
