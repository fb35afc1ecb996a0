//! Graphs by hand, a deep one, and keys and numbers of identities.
//!
//! Rows: a root with bytes of its own; a child that is added twice; a child without bytes between the root and a line,
//! and the clone; totals past the bound; a graph added to an empty one; keys against joined texts, and a key that looks
//! like a path; a new builder, two collections and a root without entries; the macro of keys; the last number of a
//! maker; keys that are made of numbers, and the children that have them.
use crate::texts::{is_graph, is_output, is_text};
use allocative::{
    FlameGraph, FlameGraphBuilder, IdMaker, Identity, Key, LEVELS, Refusal, ident_key,
    profile_in_two, profile_text, profile_value,
};
use std::alloc::Global;
use std::hash::{DefaultHasher, Hash, Hasher};
use std::test::Fail;

/// Keys and bytes of children.
type Sizes = &'static [(&'static str, usize)];

/// The bytes of a root; its children, each with its bytes and with children; the text; the total.
type Row = (
    usize,
    &'static [(&'static str, usize, Sizes)],
    &'static str,
    usize,
);

const ROWS: [Row; 7] = [
    (5, &[], "", 5),
    (0, &[("x", 10, &[])], "x 10\n", 10),
    (0, &[("a", 3, &[]), ("a", 4, &[])], "a 7\n", 7),
    (
        0,
        &[("b", 1, &[]), ("a", 0, &[("c", 2)])],
        "a;c 2\nb 1\n",
        3,
    ),
    (
        0,
        &[("a", 2, &[("x", 1)]), ("a!", 2, &[])],
        "a 2\na;x 1\na! 2\n",
        5,
    ),
    (0, &[("a;b", 1, &[])], "a;b 1\n", 1),
    (0, &[("a", 0, &[("b", 1)])], "a;b 1\n", 1),
];

/// A graph of these bytes, with children that have none.
fn with_sizes(alloc: Global, own: usize, sizes: Sizes) -> Result<FlameGraph, Refusal> {
    let mut graph = FlameGraph::default(alloc);
    graph.add_self(own)?;
    for &(key, size) in sizes {
        let mut child = FlameGraph::default(alloc);
        child.add_self(size)?;
        graph.add_child(Key::new(key), child)?;
    }
    Ok(graph)
}

fn graph_of(alloc: Global, row: &Row) -> Result<FlameGraph, Refusal> {
    let mut graph = with_sizes(alloc, row.0, &[])?;
    for &(key, size, below) in row.1 {
        graph.add_child(Key::new(key), with_sizes(alloc, size, below)?)?;
    }
    Ok(graph)
}

/// The graph of a row, its clone, and its sum with an empty one.
fn forms(alloc: Global, row: &Row) -> Result<[FlameGraph; 3], Refusal> {
    let graph = graph_of(alloc, row)?;
    let mut sum = FlameGraph::default(alloc);
    sum.add(graph.clone()?)?;
    Ok([graph.clone()?, graph, sum])
}

/// The graphs of a root that shows nothing, and of two collections of nothing.
fn of_nothing(alloc: Global) -> Result<[FlameGraph; 2], Refusal> {
    let nothing = profile_value(alloc, &())?.into_flamegraph();
    Ok([nothing, profile_in_two::<u8>(alloc, &[], &[])?])
}

#[test]
fn graphs_have_their_lines(rt: HostRuntime) -> Result<(), Fail> {
    for row in &ROWS {
        for graph in &forms(rt.alloc(), row)? {
            is_graph(graph, row.2, row.3)?;
        }
    }
    Ok(())
}

#[test]
fn nothing_has_no_line(rt: HostRuntime) -> Result<(), Fail> {
    let output = FlameGraphBuilder::new(rt.alloc())?.finish()?;
    is_output(&output, "")?;
    is_graph(output.flamegraph(), "", 0)?;
    for graph in &of_nothing(rt.alloc())? {
        is_graph(graph, "", 0)?;
    }
    let text = FlameGraphBuilder::new(rt.alloc())?.finish_and_write_flame_graph()?;
    is_text(text.as_str(), "")
}

#[test]
fn a_total_has_a_bound(rt: HostRuntime) -> Result<(), Fail> {
    let mut graph = with_sizes(rt.alloc(), usize::MAX, &[])?;
    let own = graph.add_self(1);
    let child = graph.add_child(Key::new("a"), with_sizes(rt.alloc(), 1, &[])?);
    assert!(rt; [own, child] == [Err(Refusal::TooLarge); 2]);
    is_graph(&graph, "", usize::MAX)
}

/// What a hasher finishes with that is fed a key, and one that is fed a text's hash.
fn hashes(key: &Key, text: &str) -> [u64; 2] {
    let (mut by_key, mut by_text) = (DefaultHasher::new(), DefaultHasher::new());
    key.hash(&mut by_key);
    by_text.write_u64(Key::hash_of(text));
    [by_key.finish(), by_text.finish()]
}

#[test]
fn keys_have_their_macro_and_makers_an_end(rt: HostRuntime) {
    let (made, new) = (ident_key!(foo), Key::new("foo"));
    let [by_macro, of_text] = hashes(&made, "foo");
    assert!(rt; made == new && hashes(&new, "foo") == [by_macro; 2] && by_macro == of_text);
    assert!(rt; made == Key::new_unchecked(Key::hash_of("foo"), "foo"));
    let mut last = IdMaker::starting_at(0, u64::MAX);
    let made = [last.fresh(), last.fresh(), last.fresh()];
    assert!(rt; made == [Some(Identity::new(0, u64::MAX)), None, None]);
}

/// A graph with 5 bytes of its own, and a child for each of two numbers.
fn of_numbers(alloc: Global) -> Result<FlameGraph, Refusal> {
    let mut graph = with_sizes(alloc, 5, &[])?;
    for number in [2usize, 1] {
        let name = format!(in alloc; "shelf {number}")?;
        let key = Key::leaked(alloc, name.as_str())?;
        graph.add_child(key, with_sizes(alloc, number, &[])?)?;
    }
    Ok(graph)
}

#[test]
fn children_leave_a_graph(rt: HostRuntime) -> Result<(), Fail> {
    let mut text = String::new(rt.alloc());
    for child in of_numbers(rt.alloc())?.into_children() {
        write!(
            text,
            "{}: {}\n",
            child.key.as_str(),
            child.graph.total_size()
        )?;
    }
    is_text(text.as_str(), "shelf 1: 1\nshelf 2: 2\n")
}

#[test]
fn a_value_has_its_text(rt: HostRuntime) -> Result<(), Fail> {
    let text = profile_text(rt.alloc(), &Some(7u32))?;
    is_text(text.as_str(), "Option 4\nOption;Some;u32 4\n")
}

/// Functions over a graph call themselves once for each key of a path, so the stack has to be deep enough.
#[test]
fn a_path_may_have_ten_thousand_keys(rt: HostRuntime) -> Result<(), Fail> {
    let mut text: String = (1..LEVELS).map(|_| "a;").collect(rt.alloc())?;
    text.push_str("a 1\n")?;
    let text = str::from_utf8(text.into_bytes().leak()).unwrap_or("");
    is_graph(&FlameGraph::read(rt.alloc(), text)?, text, 1)
}
