//! Where the boxes of a path's children begin.
ghost use Rattle.std.specs.Prelude.{◌+◌, ◌^◌, ◌<◌, IfOk};
ghost use Rattle.allocative_graph.specs.Representation.Children.{InOrder};
ghost use Rattle.allocative_graph.specs.Rows.{total_of};
ghost use Rattle.allocative_picture.specs.Places.{AreInOrder, AreStarts};

use crate::options::Order;
use allocative_graph::flamegraph::Child;
use std::alloc::{AllocError, Global};
use std::cmp::Reverse;

/// A child: its bytes with all below it, and its number among the children. By size, the one that is drawn first is the
/// least.
#[derive(Clone, Copy, PartialEq, Eq, PartialOrd, Ord)]
struct Place {
    bytes: Reverse<usize>,
    index: usize,
}

/// Some children in the order in which they are drawn.
fn in_order(alloc: Global, order: Order, children: &[Child]) -> Result<Vec<Place>, AllocError>
    ensures { IfOk result (λ places. AreInOrder order children.now places.items) }
{
    let mut places = Vec::with_capacity(alloc, children.len())?;
    for (index, child) in children.iter().enumerate() {
        let bytes = Reverse(child.graph.total_size());
        places.push(Place { bytes, index })?;
    }
    match order {
        Order::Key => Ok(places),
        Order::Size => {
            places.sort()?;
            Ok(places)
        }
    }
}

/// How many bytes come before each child, if `first` bytes come before the first that is drawn. It is a call of its
/// own, so that a level of the walk takes less of the stack.
#[inline(never)]
pub(crate) fn starts(
    alloc: Global,
    order: Order,
    first: usize,
    children: &[Child],
) -> Result<Vec<usize>, AllocError>
    requires sorted { InOrder children.now }
    requires fits { first + total_of children.now < 2 ^ 64 }
    ensures { IfOk result (λ starts. AreStarts order first children.now starts.items) }
{
    let mut starts = vec![in alloc; 0; children.len()]?;
    let mut next = first;
    let places = in_order(alloc, order, children)?;
    for place in &places {
        starts[place.index] = next;
        next += place.bytes.0;
    }
    Ok(starts)
}
