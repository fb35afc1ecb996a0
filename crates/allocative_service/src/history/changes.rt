//! The differences between two profiles, path by path.
ghost use Rattle.std.specs.Prelude.{◌≡◌, ◌+◌, ◌-◌, ◌↔◌, cond, filter, IfOk, IsErrOf};
ghost use Rattle.allocative.specs.Graph.{ExceedWord};
ghost use Rattle.allocative_service.specs.Changes.{change_data, data_of, growth, rank, shrinkage, changes_of, is_grown};
ghost use Rattle.allocative_service.specs.Changes.{GrewMost, HasEach, IsByGrowth};

use crate::history::walk::push_changes;
use allocative::{FlameGraph, Refusal};
use std::alloc::{AllocError, Global};

/// A path whose own bytes differ between two profiles. A path that a profile does not have counts as 0 bytes there.
#[derive(Drop)]
pub struct Change {
    /// The keys of the path, from the root on.
    pub path: Vec<&'static str>,
    /// The path's own bytes in the earlier profile.
    pub earlier: usize,
    /// The path's own bytes in the later profile.
    pub later: usize,
}

impl Change {
    /// A copy of the change. The only error is that memory runs out.
    pub fn copy(&self) -> Result<Change, AllocError>
        ensures { IfOk result (λ change. change_data change ≡ change_data self.now) }
    {
        Ok(Change {
            path: self.path.clone()?,
            earlier: self.earlier,
            later: self.later,
        })
    }

    /// The number of bytes by which the path grew, which is 0 if it shrank.
    pub fn growth(&self) -> usize
        ensures { result ≡ growth (change_data self.now) }
    {
        self.later.saturating_sub(self.earlier)
    }

    /// The number of bytes by which the path shrank, which is 0 if it grew.
    pub fn shrinkage(&self) -> usize
        ensures { result ≡ shrinkage (change_data self.now) }
    {
        self.earlier.saturating_sub(self.later)
    }
}

/// The changes from one profile to another: exactly the paths whose bytes differ, each with its bytes in both, in the
/// order of paths. A change holds its whole path, so the changes of a chain take the square of its depth;
/// `change_picture` of the crate `allocative_picture` needs no list.
///
/// It returns `TooLarge` exactly if the two totals together exceed `usize::MAX`. The totals of two finished profiles
/// never do. The only other error is that memory runs out.
pub fn compare(
    alloc: Global,
    earlier: &FlameGraph,
    later: &FlameGraph,
) -> Result<Vec<Change>, Refusal>
    ensures each { IfOk result (λ changes. HasEach earlier.now later.now (data_of changes.items)) }
    ensures ordered { IfOk result
        (λ changes. data_of changes.items ≡ changes_of earlier.now later.now) }
    ensures too_large { IsErrOf result Refusal.TooLarge ↔ ExceedWord earlier.now later.now }
    ensures never_open { ¬ (IsErrOf result Refusal.Open) }
{
    if later.total_size() > usize::MAX - earlier.total_size() {
        return Err(Refusal::TooLarge);
    }
    let missing = FlameGraph::default(alloc);
    let mut path: Vec<&'static str> = Vec::new(alloc);
    let mut changes = Vec::new(alloc);
    push_changes(earlier, later, &missing, &mut path, &mut changes)?;
    Ok(changes)
}

/// The changes of the paths that grew most, up to a count, the greatest growth first. A path that had no bytes before
/// counts as grown. The only error is that memory runs out.
#[tactic(auto, using(crate::proofs::Compared::grew_first))]
pub fn grew_most(alloc: Global, changes: &[Change], count: usize) -> Result<Vec<Change>, AllocError>
    ensures { IfOk result (λ top. GrewMost count (data_of changes.now) (data_of top.items)) }
{
    let mut grown = sorted(alloc, changes, true)?;
    grown.truncate(count);
    Ok(grown)
}

/// The changes, the greatest growth first and the greatest shrinkage last. The only error is that memory runs out.
pub fn by_growth(alloc: Global, changes: &[Change]) -> Result<Vec<Change>, AllocError>
    ensures { IfOk result (λ list. IsByGrowth (data_of changes.now) (data_of list.items)) }
{
    sorted(alloc, changes, false)
}

/// The changes, or only those that grew, by growth, the greatest first.
fn sorted(alloc: Global, changes: &[Change], only_grown: bool) -> Result<Vec<Change>, AllocError>
    ensures { IfOk result (λ list. IsByGrowth
        (cond only_grown (filter is_grown (data_of changes.now)) (data_of changes.now)) (data_of list.items)) }
{
    let mut list = Vec::new(alloc);
    for change in changes {
        if !only_grown || change.earlier < change.later {
            list.push(change.copy()?)?;
        }
    }
    list.sort_by_key(
        |change: &Change| -> u128
            ensures { result ≡ rank (change_data change.entry.now) }
        { (usize::MAX - change.later) as u128 + change.earlier as u128 },
    )?;
    Ok(list)
}
