//! What the keys become that a pattern matches.

use allocative_graph::flamegraph::FlameGraph;
use allocative_graph::key::Key;
use allocative_picture::views::by_last_key;
use regex::{Matcher, Regex};
use std::alloc::{AllocError, Global};
use std::collections::HashMap;

// What a key becomes that a pattern matches: what the first group matched, or `{}` if it matched nothing.
fn new_name(matcher: &mut Matcher<'_>, key: &'static str) -> Option<&'static str> {
    let captures = matcher.captures(key)?;
    match captures.get(1) {
        Some(group) => Some(group.as_str()),
        None => Some("{}"),
    }
}

// Adds what the keys of a graph become to a table.
fn put_names(
    alloc: Global,
    matcher: &mut Matcher<'_>,
    graph: &FlameGraph,
    names: &mut HashMap<Key, Key>,
) -> Result<(), AllocError> {
    let keys = by_last_key(alloc, graph)?;
    for child in keys.children() {
        if let Some(name) = new_name(matcher, child.key.as_str()) {
            names.insert(child.key.copy(), Key::new(name))?;
        }
    }
    Ok(())
}

/// The keys of some graphs that a pattern matches, and what each becomes; none if there is no pattern. Each is matched
/// once in a graph. The only error is that memory runs out.
pub fn names_of(
    alloc: Global,
    pattern: Option<&Regex>,
    graphs: &[&FlameGraph],
) -> Result<HashMap<Key, Key>, AllocError> {
    let mut names = HashMap::new(alloc);
    let Some(pattern) = pattern else {
        return Ok(names);
    };
    let mut matcher = pattern.matcher(alloc)?;
    for graph in graphs {
        put_names(alloc, &mut matcher, graph, &mut names)?;
    }
    Ok(names)
}
