//! The fields of JSON documents: a flame graph with the bytes that the values at each path declare.
ghost use Rattle.std.specs.Prelude.{◌≡◌, ◌≤◌, ◌++◌, false, true, None, Some, IfOk, IfErr, OnOk, MatchResult, map, length, codes, string_bytes, vec_capacity};
ghost use Rattle.serde_json.specs.View.{view};
ghost use Rattle.allocative_graph.specs.Graph.{text};
ghost use Rattle.allocative_graph.specs.Rows.{sum_of_all};
ghost use Rattle.allocative_json.specs.Fields.{escaped_char, escaped, bytes_alone, array_bytes, value_below, member_below, member_of, fields_of, AddsDocument, AddsLine, is_blank, TakesLine, WritesSum, RefusesDocument, RefusesLine, RefusesGraph, Makes, AreFields, RefusesFields, AreFieldsFor, MayEndFields};
ghost use Rattle.allocative_json.specs.Fault.{fault_of};
ghost use Rattle.allocative_json.specs.Roots.{IsDocument};
ghost use Rattle.allocative_json.specs.Run.{StopsReading};
ghost use Rattle.allocative_json.specs.declared.fields.FieldsFault.TheVariants.{Other};

use crate::fault::Fault;
use allocative::{Child, FlameGraph, Key, Refusal};
use serde_json::{Map, Value};
use std::alloc::{AllocError, Global};
use std::collections::HashSet;
use std::fmt::InlineText;
use std::io::{BufRead, ErrorKind};
use std::mem;

/// Why there is no text of fields.
#[derive(Clone, Copy)]
pub enum FieldsFault {
    /// A text is not JSON: its line, counted from 1, its column in bytes, which is 0 before the first byte of a line,
    /// and what is wrong there.
    NotJson(usize, usize, InlineText<40>),
    /// Any other fault.
    Other(Fault),
}

impl From<Fault> for FieldsFault {
    ghost from_gives = { λ f g. g ≡ Other f };

    fn from(fault: Fault) -> FieldsFault {
        FieldsFault::Other(fault)
    }
}

impl From<Refusal> for FieldsFault {
    ghost from_gives = { λ r f. f ≡ Other (fault_of r) };

    fn from(refusal: Refusal) -> FieldsFault {
        FieldsFault::Other(Fault::from(refusal))
    }
}

// Appends a character of a name.
fn push_char(c: char, text: &mut String) -> Result<(), AllocError>
    ensures { OnOk result (string_bytes text.new ≡ string_bytes text.old ++ escaped_char c) }
{
    match c {
        '%' => text.push_str("%25"),
        ';' => text.push_str("%3B"),
        '[' => text.push_str("%5B"),
        '\n' => text.push_str("%0A"),
        '\r' => text.push_str("%0D"),
        c => text.push(c),
    }
}

// The name, with five characters escaped.
fn escaped(alloc: Global, name: &str) -> Result<String, AllocError>
    ensures { IfOk result (λ made. string_bytes made ≡ escaped name.now) }
{
    let mut made = String::new(alloc);
    for c in name.chars() {
        push_char(c, &mut made)?;
    }
    Ok(made)
}

// The texts of keys, which stay in memory until the process ends. Each is there once.
type Texts = HashSet<&'static str>;

// The key of a member of this name.
fn key_of(alloc: Global, name: &str, texts: &mut Texts) -> Result<Key, AllocError>
    ensures { IfOk result (λ key. key ≡ escaped name.now) }
{
    let made = escaped(alloc, name)?;
    if let Some(text) = texts.get(made.as_str()) {
        return Ok(Key::new(text));
    }
    let text: &'static str = Box::leak(Box::new(alloc, made)?).as_str();
    texts.insert(text)?;
    Ok(Key::new(text))
}

// A graph whose root alone has bytes.
#[tactic(auto, using(crate::proofs::FieldsLemmas::refusing))]
fn bytes_alone(alloc: Global, size: usize) -> Result<FlameGraph, Refusal>
    ensures { Makes (bytes_alone size) result }
{
    let mut graph = FlameGraph::default(alloc);
    graph.add_self(size)?;
    Ok(graph)
}

// A member of this name, whose value has this graph.
#[tactic(auto, using(crate::proofs::FieldsLemmas::refusing))]
fn member_of(
    alloc: Global,
    name: &String,
    value: FlameGraph,
    texts: &mut Texts,
) -> Result<Child, Refusal>
    ensures { MatchResult result (λ child. child ≡ member_below (name.now, value))
        (RefusesGraph (member_below (name.now, value)).graph) }
{
    let mut graph = value;
    graph.add_self(24 + name.capacity())?;
    let key = key_of(alloc, name.as_str(), texts)?;
    Ok(Child { key, graph })
}

// The fields of a value.
#[cycle(fields)]
fn graph_of(alloc: Global, value: &Value, texts: &mut Texts) -> Result<FlameGraph, Refusal>
    ensures { Makes (fields_of value.now) result }
{
    match value {
        Value::String(text) => bytes_alone(alloc, 32 + text.capacity()),
        Value::Array(items) => graph_of_items(alloc, items, texts),
        Value::Object(members) => graph_of_members(alloc, members, texts),
        _ => bytes_alone(alloc, 32),
    }
}

// The fields of an array, which has 32 bytes and as many for each unused place: all items together under `[]`.
#[cycle(fields)]
#[tactic(auto, using(crate::proofs::FieldsLemmas::refusing))]
fn graph_of_items(
    alloc: Global,
    items: &Vec<Value>,
    texts: &mut Texts,
) -> Result<FlameGraph, Refusal>
    ensures { Makes (sum_of_all
        (bytes_alone (array_bytes (length items.now.items) (vec_capacity items.now)))
        (map (value_below (codes "[]")) items.now.items)) result }
{
    let places = 1 + (items.capacity() - items.len());
    let Some(size) = places.checked_mul(32) else {
        return Err(Refusal::TooLarge);
    };
    let mut graph = bytes_alone(alloc, size)?;
    for item in items {
        graph.add_child(Key::new("[]"), graph_of(alloc, item, texts)?)?;
    }
    Ok(graph)
}

// The fields of an object: each member under its name.
#[cycle(fields)]
#[tactic(auto, using(crate::proofs::FieldsLemmas::refusing))]
fn graph_of_members(
    alloc: Global,
    members: &Map<String, Value>,
    texts: &mut Texts,
) -> Result<FlameGraph, Refusal>
    ensures { Makes (sum_of_all (bytes_alone 32) (map member_of members.now.entries)) result }
{
    let mut children = Vec::with_capacity(alloc, members.len())?;
    for (name, member) in members.iter() {
        let value = graph_of(alloc, member, texts)?;
        children.push(member_of(alloc, name, value, texts)?)?;
    }
    let mut graph = bytes_alone(alloc, 32)?;
    graph.add_children(children)?;
    Ok(graph)
}

// The fields of some documents, or why they are not added up.
type Sum = Result<FlameGraph, Refusal>;

// The sum of some documents and of one more, each of which stands under `$`. A sum that is refused stays so.
#[tactic(auto, using(crate::proofs::FieldsLemmas::adding))]
fn add_document(alloc: Global, sum: Sum, document: &Value, texts: &mut Texts) -> Sum
    ensures { AddsDocument document.now sum result }
{
    let mut graph = sum?;
    graph.add_child(Key::new("$"), graph_of(alloc, document, texts)?)?;
    Ok(graph)
}

// The text of a sum.
#[tactic(auto, using(crate::proofs::FieldsLemmas::writing))]
fn text_of(sum: Sum) -> Result<String, FieldsFault>
    ensures { WritesSum sum result }
{
    Ok(sum?.write()?)
}

// What an error says before its place.
fn said_by(error: serde_json::Error) -> InlineText<40> {
    let text = InlineText::<40>::of(error);
    match text.as_str().split_once(" at ") {
        Some((said, _place)) => InlineText::of(said),
        None => text,
    }
}

// Reads a text as a document. If it is a line, its number is given.
#[tactic(auto, using(crate::proofs::FieldsLemmas::reading))]
fn read_document(alloc: Global, text: &[u8], line: Option<usize>) -> Result<Value, FieldsFault>
    ensures ok { IfOk result (λ document. IsDocument text.now (view document)) }
    ensures err { IfErr result (RefusesDocument text.now line) }
{
    match Value::from_slice(alloc, text) {
        Ok(document) => Ok(document),
        Err(error) if error.is_memory() => Err(FieldsFault::Other(Fault::Memory)),
        Err(error) => Err(FieldsFault::NotJson(
            line.unwrap_or(error.line()),
            error.column(),
            said_by(error),
        )),
    }
}

// The first line that is not white space alone, or nothing.
fn first_line(input: &[u8]) -> &[u8]
    ensures { length result.now ≤ length input.now }
{
    let Some(start) = input.iter().position(|byte| !byte.is_ascii_whitespace()) else {
        return &[];
    };
    let text = &input[start..];
    match text.iter().position(|byte| *byte == b'\n') {
        Some(end) => &text[..end],
        None => text,
    }
}

// Reads an input as one document. If it is none, but its first line is, the fault says how to read lines.
fn read_whole(alloc: Global, input: &[u8]) -> Result<Value, FieldsFault>
    ensures ok { IfOk result (λ document. IsDocument input.now (view document)) }
    ensures err { IfErr result (RefusesDocument input.now None) }
{
    let read = read_document(alloc, input, None);
    let Err(FieldsFault::NotJson(line, column, said)) = read else {
        return read;
    };
    match read_document(alloc, first_line(input), None) {
        Ok(_first) => Err(FieldsFault::NotJson(
            line,
            column,
            InlineText::of("if each line is a document, give --lines"),
        )),
        Err(FieldsFault::NotJson(..)) => Err(FieldsFault::NotJson(line, column, said)),
        Err(fault) => Err(fault),
    }
}

/// The fields of the document that `serde_json` reads from the input, as collapsed stacks: at each path the bytes that
/// the values there declare. The document and the texts of keys stay in memory until the process ends.
///
/// A path begins with `$`. A member of an object stands under its name, in which `%`, `;`, `[`, a line feed and a
/// carriage return are `%25`, `%3B`, `%5B`, `%0A` and `%0D`, and all items of an array stand under `[]`. A value has 32
/// bytes, a text also its capacity, an array 32 for each unused place, and a member 24 and the capacity of its name.
///
/// It returns `FieldsFault::NotJson` only if `serde_json` refuses the input for a reason other than memory, and
/// `Fault::TooLarge` only if the bytes of the document exceed `usize::MAX`, with some room in its texts, names and
/// arrays. No contract of `serde_json` bounds the room that its reader leaves. So the clause says nothing of
/// `Fault::TooLarge` for a document with a text, an array or a member of an object. Otherwise the error is
/// `Fault::Memory`, which an empty input never causes.
pub fn fields_json(alloc: Global, input: &[u8]) -> Result<String, FieldsFault>
    ensures ok { IfOk result (λ made. AreFields false input.now (string_bytes made)) }
    ensures err { IfErr result (RefusesFields false input.now) }
{
    let document = read_whole(alloc, input)?;
    let none = Ok(FlameGraph::default(alloc));
    let sum = add_document(alloc, none, &document, &mut HashSet::new(alloc));
    // The process is about to end, which frees the document faster than a drop of each value.
    mem::forget(document);
    text_of(sum)
}

// Whether a text is white space alone.
fn is_blank(text: &[u8]) -> bool
    ensures { result ≡ is_blank text.now }
{
    text.iter().all(|byte| byte.is_ascii_whitespace())
}

// Reads the next line, without its line feed, in place of what the buffer has. Returns whether a line feed ended it.
fn read_line<R: BufRead>(input: &mut R, line: &mut Vec<u8>) -> Result<bool, Fault>
    ensures ok { IfOk result (λ is_ended. TakesLine is_ended (R.remaining input.old)
        (R.remaining input.new) line.new.items) }
    ensures err { IfErr result (StopsReading None) }
{
    line.clear();
    match input.read_until(b'\n', line) {
        Ok(_count) if line.last() == Some(&b'\n') => {
            let _feed = line.pop();
            Ok(true)
        }
        Ok(_count) => Ok(false),
        Err(error) if error.kind() == ErrorKind::OutOfMemory => Err(Fault::Memory),
        Err(_) => Err(Fault::Reading),
    }
}

// The sum of some documents and, if it is not blank, of a line with this number.
#[tactic(auto, using(crate::proofs::FieldsLemmas::adding_lines))]
fn add_line(
    alloc: Global,
    sum: Sum,
    line: &[u8],
    number: usize,
    texts: &mut Texts,
) -> Result<Sum, FieldsFault>
    ensures ok { IfOk result (AddsLine line.now sum) }
    ensures err { IfErr result (RefusesLine line.now number) }
{
    if is_blank(line) {
        return Ok(sum);
    }
    let document = read_document(alloc, line, Some(number))?;
    Ok(add_document(alloc, sum, &document, texts))
}

/// The fields of the documents of a reader, one a line, as `fields_json` gives them of one document: all add up under
/// `$`, and lines of white space alone are skipped. A document is dropped before the next line is read, and the texts
/// of keys stay in memory until the process ends. It reads up to the first line that is no document.
///
/// It returns `FieldsFault::NotJson` for the first line that `serde_json` refuses for a reason other than memory, and
/// `Fault::TooLarge` as `fields_json` does, if all lines are documents. Otherwise the error is `Fault::Memory`, or
/// `Fault::Reading` if a read fails.
#[tactic(auto, using(crate::proofs::FieldsLemmas::by_lines))]
pub fn fields_json_lines<R: BufRead>(alloc: Global, input: &mut R) -> Result<String, FieldsFault>
    ensures ok { IfOk result
        (λ made. AreFieldsFor (Some true) (R.remaining input.old) (string_bytes made)) }
    ensures err { IfErr result (MayEndFields (Some true) (R.remaining input.old)) }
{
    let mut texts = HashSet::new(alloc);
    let mut sum = Ok(FlameGraph::default(alloc));
    let mut line = Vec::new(alloc);
    for number in 1..usize::MAX {
        let is_ended = read_line(input, &mut line)?;
        sum = add_line(alloc, sum, line.as_slice(), number, &mut texts)?;
        if !is_ended {
            return text_of(sum);
        }
    }
    Err(FieldsFault::Other(Fault::Reading))
}
