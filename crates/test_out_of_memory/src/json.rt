//! The calls of the JSON program after a refused growth: Memory is their only fault, and a lent output is unchanged.
use crate::assertions::{assert_same, made};
use allocative::{FlameGraphOutput, Registry, profile_roots};
use allocative_json::{Fault, Report, profile_json, read_roots, report};
use std::alloc::Global;
use std::process::Abort;

pub(crate) const FAR_NUMBERS: &[u8] =
    b"[18446744073709551615,-9223372036854775808,18446744073709551615]";

pub(crate) const THREE_NUMBERS: &str =
    "BTreeSet 16\nBTreeSet;data;key;i128 32\nValue 8\nValue;Array;Vec 16\nValue;Array;Vec;ptr 8\nValue;Array;Vec;ptr;Value 48\nValue;Array;Vec;ptr;Value;Number;Number 48\n";

pub(crate) const SHORT_DATA: &str =
    "Incorrect size declaration for node `BTreeSet;data`, size of self: 8, size of inline children: 32\n";

fn assert_texts(rt: &impl Abort, report: &Report, profile: &str, warnings: &str) {
    assert_same(rt, report.profile.as_str(), profile);
    assert_same(rt, report.warnings.as_str(), warnings);
}

#[test]
fn a_profile_of_json_is_refused(rt: HostRuntime) {
    let report = made(&rt, || profile_json(rt.alloc(), FAR_NUMBERS, true, true));
    assert_texts(&rt, &report, THREE_NUMBERS, SHORT_DATA);
}

/// The profile of a document and its numbers, by roots that are boxed here.
fn boxed(alloc: Global) -> Result<FlameGraphOutput, Fault> {
    let (document, numbers) = read_roots(alloc, FAR_NUMBERS, true)?;
    let mut registry = Registry::new(alloc);
    registry.add_root(Box::new(alloc, document)?)?;
    registry.add_root(Box::new(alloc, numbers.ok_or(Fault::NotWhole)?)?)?;
    Ok(profile_roots(&registry)?)
}

#[test]
fn a_report_of_boxed_numbers_is_refused(rt: HostRuntime) {
    let output = made(&rt, || boxed(rt.alloc()));
    let report = made(&rt, || report(rt.alloc(), &output, true));
    assert_texts(&rt, &report, THREE_NUMBERS, SHORT_DATA);
}
