//! Reads a document and its numbers.
ghost use Rattle.std.specs.Prelude.{◌≡◌, IsTrue, OnOk, IfOk, IfErr};
ghost use Rattle.std.specs.List.{list_all};
ghost use Rattle.std.specs.Ordering.{int_cmp};
ghost use Rattle.std.specs.BTreeSet.{IsOrdered};
ghost use Rattle.serde_json.specs.View.{view, items_view, members_view};
ghost use Rattle.allocative_json.specs.Roots.{is_whole, is_whole_number, numbers_of, items_numbers, members_numbers, AddsNumbers, AreRoots, RefusesInput};

use crate::fault::Fault;
use serde_json::{Map, Value};
use std::alloc::{AllocError, Global};
use std::collections::BTreeSet;

// Returns whether each number of the document is whole. With `index` it adds those that are to the set.
#[cycle(numbers)]
fn add_numbers(value: &Value, index: bool, set: &mut BTreeSet<i128>) -> Result<bool, AllocError>
    ensures whole { IfOk result (λ all_whole. all_whole ≡ is_whole (view value.now)) }
    ensures keys { OnOk result (IsTrue index
        → AddsNumbers (numbers_of (view value.now)) set.old set.new) }
    ensures ordered { IsOrdered int_cmp set.old → IsOrdered int_cmp set.new }
{
    match value {
        Value::Number(number) => match number.as_i128() {
            Some(whole) => {
                if index {
                    set.insert(whole)?;
                }
                Ok(true)
            }
            None => Ok(false),
        },
        Value::Array(items) => add_items(items, index, set),
        Value::Object(members) => add_members(members, index, set),
        _ => Ok(true),
    }
}

#[cycle(numbers)]
fn add_items(items: &Vec<Value>, index: bool, set: &mut BTreeSet<i128>) -> Result<bool, AllocError>
    ensures whole { IfOk result
        (λ all_whole. all_whole ≡ list_all is_whole_number (items_numbers (items_view items.now.items))) }
    ensures keys { OnOk result (IsTrue index
        → AddsNumbers (items_numbers (items_view items.now.items)) set.old set.new) }
    ensures ordered { IsOrdered int_cmp set.old → IsOrdered int_cmp set.new }
{
    let mut all_whole = true;
    for item in items {
        all_whole = all_whole & add_numbers(item, index, set)?;
    }
    Ok(all_whole)
}

#[cycle(numbers)]
fn add_members(
    members: &Map<String, Value>,
    index: bool,
    set: &mut BTreeSet<i128>,
) -> Result<bool, AllocError>
    ensures whole { IfOk result
        (λ all_whole. all_whole ≡ list_all is_whole_number (members_numbers (members_view members.now.entries))) }
    ensures keys { OnOk result (IsTrue index
        → AddsNumbers (members_numbers (members_view members.now.entries)) set.old set.new) }
    ensures ordered { IsOrdered int_cmp set.old → IsOrdered int_cmp set.new }
{
    let mut all_whole = true;
    for (_key, member) in members.iter() {
        all_whole = all_whole & add_numbers(member, index, set)?;
    }
    Ok(all_whole)
}

/// The document that `serde_json` reads from the input and, exactly with `index`, the set of its whole
/// numbers at any depth.
///
/// It returns `Fault::NotJson` only if `serde_json` refuses the input for a reason other than memory, `Fault::NotWhole`
/// only if the document has a number that is neither an i64 nor a u64, and otherwise `Fault::Memory`, which an empty
/// input never causes.
#[tactic(auto, using(crate::proofs::Reports::some_text))]
pub fn read_roots(
    alloc: Global,
    input: &[u8],
    index: bool,
) -> Result<(Value, Option<BTreeSet<i128>>), Fault>
    ensures ok { IfOk result (λ roots. AreRoots input.now index (view roots.0) roots.1) }
    ensures err { IfErr result (RefusesInput input.now) }
{
    let document = Value::from_slice(alloc, input)?;
    let mut numbers = BTreeSet::new(alloc);
    if !add_numbers(&document, index, &mut numbers)? {
        return Err(Fault::NotWhole);
    }
    if index {
        return Ok((document, Some(numbers)));
    }
    Ok((document, None))
}
