//! The walk over two profiles, side by side.
ghost use Rattle.std.specs.Prelude.{◌≡◌, ◌++◌, ◌==◌, [], ◌∷◌, IfNone, OnOk, cond, map, option_map};
ghost use Rattle.std.specs.FinMap.{entries};
ghost use Rattle.allocative.specs.Graph.{default, size_at, sum_of};
ghost use Rattle.allocative_service.specs.Changes.{data_of};
ghost use Rattle.allocative_service.specs.Walk.{changes_behind, next_of};

use crate::history::changes::Change;
use allocative::{Child, FlameGraph};
use std::alloc::AllocError;
use std::cmp::Ordering;

/// The graph that a list of children has at a key, and the children after it.
type Taken<'a> = (&'a FlameGraph, &'a [Child]);

// The first key of two lists of children, and what is taken of each. Of a list without the key `missing` is taken.
fn next_of<'a>(
    earlier: &'a [Child],
    later: &'a [Child],
    missing: &'a FlameGraph,
) -> Option<(&'static str, Taken<'a>, Taken<'a>)>
    requires { missing.now ≡ default }
    ensures next { option_map
        (λ n. (n.0.now, (n.1.0.now, n.1.1.now), (n.2.0.now, n.2.1.now))) result
        ≡ next_of earlier.now later.now }
    ensures end { IfNone result ((earlier.now ≡ []) × (later.now ≡ [])) }
{
    match (earlier, later) {
        ([], []) => None,
        ([one, rest @ ..], []) => Some((one.key.as_str(), (&one.graph, rest), (missing, later))),
        ([], [one, rest @ ..]) => Some((one.key.as_str(), (missing, earlier), (&one.graph, rest))),
        ([one, mine @ ..], [other, theirs @ ..]) => {
            let (left, right) = ((&one.graph, mine), (&other.graph, theirs));
            match one.key.cmp(&other.key) {
                Ordering::Less => Some((one.key.as_str(), left, (missing, later))),
                Ordering::Equal => Some((one.key.as_str(), left, right)),
                Ordering::Greater => Some((other.key.as_str(), (missing, earlier), right)),
            }
        }
    }
}

// Appends the change of a path, if its bytes differ.
fn push_change(
    path: &Vec<&'static str>,
    earlier: usize,
    later: usize,
    changes: &mut Vec<Change>,
) -> Result<(), AllocError>
    ensures { OnOk result (data_of changes.new.items
        ≡ data_of changes.old.items ++ cond (earlier == later) []
        (record { path = map (λ k. k.now) path.now.items; earlier = earlier; later = later } ∷ [])) }
{
    if earlier == later {
        return Ok(());
    }
    changes.push(Change {
        path: path.clone()?,
        earlier,
        later,
    })?;
    Ok(())
}

/// Appends the changes of the paths of two graphs, each path after the given keys. `missing` stands for a graph that is
/// not there.
pub(crate) fn push_changes(
    earlier: &FlameGraph,
    later: &FlameGraph,
    missing: &FlameGraph,
    path: &mut Vec<&'static str>,
    changes: &mut Vec<Change>,
) -> Result<(), AllocError>
    requires { missing.now ≡ default }
    ensures path { OnOk result (path.new.items ≡ path.old.items) }
    ensures changes { OnOk result (data_of changes.new.items ≡ data_of changes.old.items
        ++ changes_behind (size_at earlier.now) (size_at later.now) (map (λ k. k.now) path.old.items)
        (entries (sum_of earlier.now later.now))) }
{
    push_change(path, earlier.self_size(), later.self_size(), changes)?;
    let mut mine = earlier.children();
    let mut theirs = later.children();
    while let Some((key, left, right)) = next_of(mine, theirs, missing) {
        path.push(key)?;
        push_changes(left.0, right.0, missing, path, changes)?;
        path.pop();
        mine = left.1;
        theirs = right.1;
    }
    Ok(())
}
