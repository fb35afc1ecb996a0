//! Makes the report of a document.
#![tactic(auto, using(allocative::proofs::Parts::parts))]

ghost use Rattle.std.specs.Prelude.{true, IfOk, IfErr};
ghost use Rattle.allocative.specs.Strict.{MayRefuseProfile};
ghost use Rattle.allocative.specs.Visits.{IsProfileOf};
ghost use Rattle.allocative_json.specs.Profile.{roots_show, IsReportOf, IsRightReport, RefusesRoots, RefusesReport};

use crate::fault::Fault;
use crate::roots::read_roots;
use crate::texts::report;
use allocative::{
    Allocative, FlameGraphOutput, Part, Refusal, Registry, Visitor, profile_roots, profile_value,
};
use serde_json::Value;
use std::alloc::Global;
use std::collections::BTreeSet;

/// What a run prints.
#[derive(Drop)]
pub struct Report {
    /// The lines of the flame graph.
    pub profile: String,
    /// The warnings, one per line.
    pub warnings: String,
}

// A document, and the set of its numbers if there is one.
#[derive(Drop)]
struct Roots<'a> {
    document: &'a Value,
    numbers: &'a Option<BTreeSet<i128>>,
}

impl Allocative for Roots<'_> {
    ghost may_show = { λ r. roots_show r.document.now r.numbers.now };

    ghost is_strict = { true };

    fn visit(&self, visitor: &mut Visitor<'_>) -> Result<(), Refusal> {
        match self.numbers {
            Some(numbers) => (self.document, numbers).enter(visitor),
            None => (self.document, ()).enter(visitor),
        }
    }
}

// The graph and the warnings of these roots, each boxed and registered, the document first.
fn profile_by_registry(
    alloc: Global,
    document: Value,
    numbers: Option<BTreeSet<i128>>,
) -> Result<FlameGraphOutput, Refusal>
    ensures profile { IfOk result (IsProfileOf (roots_show document numbers)) }
    ensures refused { IfErr result (MayRefuseProfile true (roots_show document numbers)) }
{
    let mut registry = Registry::new(alloc);
    registry.add_root(Box::new(alloc, document)?)?;
    let Some(numbers) = numbers else {
        return profile_roots(&registry);
    };
    registry.add_root(Box::new(alloc, numbers)?)?;
    let count = registry.roots().len();
    prove!(count == 2);
    profile_roots(&registry)
}

/// The report of these roots, each visited by its own `visit`.
#[tactic(auto, using(crate::proofs::Reports::reporting))]
pub(crate) fn report_of(
    alloc: Global,
    document: &Value,
    numbers: &Option<BTreeSet<i128>>,
    exact: bool,
) -> Result<Report, Fault>
    ensures ok { IfOk result (IsReportOf (roots_show document.now numbers.now) exact) }
    ensures err { IfErr result (RefusesRoots (roots_show document.now numbers.now)) }
{
    let output = profile_value(alloc, &Roots { document, numbers })?;
    report(alloc, &output, exact)
}

/// The report of these roots, each boxed, and visited by a registry.
#[tactic(auto, using(crate::proofs::Reports::reporting))]
pub(crate) fn report_by_registry(
    alloc: Global,
    document: Value,
    numbers: Option<BTreeSet<i128>>,
    exact: bool,
) -> Result<Report, Fault>
    ensures ok { IfOk result (IsReportOf (roots_show document numbers) exact) }
    ensures err { IfErr result (RefusesRoots (roots_show document numbers)) }
{
    let output = profile_by_registry(alloc, document, numbers)?;
    report(alloc, &output, exact)
}

/// The texts for the input: the profile of its document and, with `index`, of the set of its numbers, and the
/// warnings. With `exact` the profile is without the lines whose last key is `unused_capacity`. The roots are visited
/// by their own `visit`.
///
/// It returns `Fault::NotJson` and `Fault::NotWhole` if `read_roots` does, and `Fault::TooLarge` only if the numbers of
/// the document are whole and the sizes of the roots exceed the bound of a flame graph, with some room in its texts and
/// arrays. No contract of `serde_json` bounds the room that its reader leaves. So the clause says nothing of
/// `Fault::TooLarge` for a document with a text, an array or a member of an object. Otherwise the error is
/// `Fault::Memory`, which an empty input never causes.
#[tactic(auto, using(crate::proofs::Reports::refused_report))]
pub fn profile_json(alloc: Global, input: &[u8], index: bool, exact: bool) -> Result<Report, Fault>
    ensures ok { IfOk result (IsRightReport input.now index exact) }
    ensures err { IfErr result (RefusesReport input.now index) }
{
    let (document, numbers) = read_roots(alloc, input, index)?;
    report_of(alloc, &document, &numbers, exact)
}
