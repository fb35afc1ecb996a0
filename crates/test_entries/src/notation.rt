//! Reads the roots of a row, as `T 8 {unique ptr 8 {u8 3}, shared p 8 #1 {C 16}}`.
use crate::deed::Deed;
use crate::forest::{EntryKind, Forest};
use allocative::{Identity, Key, Refusal};
use std::alloc::{AllocError, Global};
use std::io::{self, ErrorKind};

/// One entry. The deeper entries directly after it are inside it, or in its content if it is a pointer to a
/// shared value.
#[derive(Drop)]
struct Entry {
    depth: u8,
    kind: EntryKind,
    key: Key,
    size: usize,
}

/// An identity: `#7` is number 7 of maker 0, and `(1,7)` that of maker 1.
fn identity_of(word: &str) -> Option<Identity> {
    if let Some(number) = word.strip_prefix('#') {
        return Some(Identity::from(number.parse::<u64>().ok()?));
    }
    let (maker, number) = word.strip_prefix('(')?.strip_suffix(')')?.split_once(',')?;
    Some(Identity::new(maker.parse::<u64>().ok()?, number.parse::<u64>().ok()?))
}

/// A refusal by its name.
fn refusal_of(name: &str) -> Option<Refusal> {
    match name {
        "Memory" => Some(Refusal::Memory),
        "TooLarge" => Some(Refusal::TooLarge),
        "Open" => Some(Refusal::Open),
        _ => None,
    }
}

/// The entry of a kind, a key and a size.
fn labelled(depth: u8, kind: EntryKind, label: &'static str) -> Option<Entry> {
    let (key, size) = label.rsplit_once(' ')?;
    Some(Entry {
        depth,
        kind,
        size: size.parse::<usize>().ok()?,
        key: Key::new(key),
    })
}

/// The entry of a text, whose first word may say the kind.
fn entry_of(depth: u8, text: &'static str) -> Option<Entry> {
    if text == "hide" {
        return labelled(depth, EntryKind::Bad(Deed::Hide), "hidden 0");
    }
    let (word, rest) = text.split_once(' ')?;
    match word {
        "unique" => labelled(depth, EntryKind::Unique, rest),
        "shared" => {
            let (label, identity) = rest.rsplit_once(' ')?;
            labelled(depth, EntryKind::Shared(identity_of(identity)?), label)
        }
        "refuse" => {
            let deed = Deed::Refuse(refusal_of(rest)?);
            labelled(depth, EntryKind::Bad(deed), "refused 0")
        }
        "answer" => {
            let (refusal, label) = rest.split_once(' ')?;
            let deed = Deed::Answer(refusal_of(refusal)?);
            labelled(depth, EntryKind::Bad(deed), label)
        }
        "hold" => labelled(depth, EntryKind::Bad(Deed::Hold), rest),
        "forget" => labelled(depth, EntryKind::Bad(Deed::Forget), rest),
        "forget_content" => {
            let (label, identity) = rest.rsplit_once(' ')?;
            let deed = Deed::ForgetContent(identity_of(identity)?);
            labelled(depth, EntryKind::Bad(deed), label)
        }
        _ => labelled(depth, EntryKind::Inline, text),
    }
}

/// The entries of a line. Those in a brace are one deeper than the entry before it.
fn entries_of(alloc: Global, line: &'static str) -> io::Result<Vec<Entry>> {
    let mut entries = Vec::new(alloc);
    let mut depth = 0u8;
    for (place, opened) in line.split('{').enumerate() {
        if place > 0 {
            depth = depth.checked_add(1).ok_or(ErrorKind::InvalidData)?;
        }
        for (place, text) in opened.split('}').enumerate() {
            if place > 0 {
                depth = depth.checked_sub(1).ok_or(ErrorKind::InvalidData)?;
            }
            for text in text.split(", ").filter(|text| !text.trim().is_empty()) {
                entries.push(entry_of(depth, text.trim()).ok_or(ErrorKind::InvalidData)?)?;
            }
        }
    }
    Ok(entries)
}

/// The forest of the entries that have this depth, up to the first one that is less deep.
fn forest_of(alloc: Global, entries: &[Entry], depth: usize) -> Result<Forest, AllocError> {
    let Some((entry, rest)) = entries.split_first() else {
        return Ok(Forest::Empty);
    };
    let own = usize::from(entry.depth);
    if own < depth {
        return Ok(Forest::Empty);
    }
    if own > depth {
        return forest_of(alloc, rest, depth);
    }
    let inside = Box::new(alloc, forest_of(alloc, rest, own + 1)?)?;
    let after = Box::new(alloc, forest_of(alloc, rest, depth)?)?;
    let key = entry.key.copy();
    Ok(Forest::Entry(entry.kind, key, entry.size, inside, after))
}

/// The root of a line. The line `nothing` is a root without entries.
pub(crate) fn root_of(alloc: Global, line: &'static str) -> io::Result<Forest> {
    if line == "nothing" {
        return Ok(Forest::Empty);
    }
    let entries = entries_of(alloc, line)?;
    Ok(forest_of(alloc, &entries, 0)?)
}

/// Adds the roots of some lines, one of each line.
pub(crate) fn push_roots(
    alloc: Global,
    roots: &mut Vec<Forest>,
    lines: &'static str,
) -> io::Result<()> {
    for line in lines.lines() {
        roots.push(root_of(alloc, line)?)?;
    }
    Ok(())
}
