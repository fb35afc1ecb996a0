//! JSON values, their numbers, and their maps.

ghost use Rattle.std.specs.Prelude.{true, Some, codes, String};
ghost use Rattle.std.specs.declared.alloc.Global.{Global};
ghost use Rattle.std.specs.Map.Iter.{deref_pair};
ghost use Rattle.allocative.specs.JsonShows.{number_shows, stored_string, stored_members, stored_value, stored_map};
ghost use Rattle.allocative.specs.Making.{MakesFirst};
ghost use Rattle.allocative.specs.Runs.{pair_shows};
ghost use Rattle.allocative.specs.Visited.{Entered};

use crate::visitor::iterators::EnterItem;
use crate::{
    Allocative, Buffer, Declared, Each, Field, Inside, Key, Part, Refusal, Unique, Visitor,
};
use serde_json::{Map, Number, Value};

impl Allocative for Number {
    ghost may_show = { λ n. number_shows };

    ghost is_strict = { true };

    fn visit(&self, visitor: &mut Visitor<'_>) -> Result<(), Refusal> {
        Inside("Number", 16, ()).enter(visitor)
    }
}

// The fields `key` and `value` of a member. Each value has 32 bytes.
#[derive(Drop)]
struct MemberFields;

impl<'a, V: Allocative> EnterItem<(&'a String, &'a V)> for MemberFields {
    ghost Seen = { String Global × V };

    ghost seen = { deref_pair };

    ghost may_show = { λ _. pair_shows (Some 24) stored_string (Some 32) V.may_show };

    ghost is_strict = { V.is_strict };

    #[inline(always)]
    fn enter_item(
        &self,
        member: (&'a String, &'a V),
        visitor: &mut Visitor<'_>,
    ) -> Result<(), Refusal> {
        let (key, value) = member;
        let value = Declared("value", Some(32), value);
        (Field("key", key), value).enter(visitor)
    }
}

// The fields of each member of an object.
#[derive(Drop)]
struct Members<M>(M);

impl<'a, V: Allocative> Part for Members<&'a Map<String, V>> {
    ghost may_show = { λ m. stored_members V.may_show m.0.now.entries };

    ghost is_strict = { V.is_strict };

    fn enter(self, visitor: &mut Visitor<'_>) -> Result<(), Refusal> {
        visitor.visit_run(MemberFields, self.0.iter())
    }
}

impl Allocative for Value {
    ghost may_show = { stored_value };

    ghost is_strict = { true };

    fn visit(&self, visitor: &mut Visitor<'_>) -> Result<(), Refusal> {
        let name = "Value";
        match self {
            Value::Null => Inside(name, 32, ()).enter(visitor),
            Value::Bool(_) => Inside(name, 32, ()).enter(visitor),
            Value::Number(number) => {
                Inside(name, 32, Inside("Number", 16, number)).enter(visitor)
            }
            Value::String(text) => { Inside(name, 32, Inside("String", 24, text)).enter(visitor) }
            Value::Array(items) => {
                let buffer = Buffer {
                    items: Each(items),
                    item_size: Some(32),
                    count: items.len(),
                    capacity: items.capacity(),
                };
                let items = Declared("Vec", Some(24), buffer);
                Inside(name, 32, Inside("Array", 24, items)).enter(visitor)
            }
            Value::Object(map) => {
                let data = Unique("data", 8, Members(map));
                let map = Inside("Map", 24, data);
                Inside(name, 32, Inside("Object", 24, map)).enter(visitor)
            }
        }
    }
}

/// What a JSON map shows: one entry `Map`, inside it a unique entry `data`, and inside that the fields `key`
/// and `value` of each pair, in the map's order.
///
/// A collector that has failed returns its first cause. Each entry's errors are those of `Visitor::enter`.
#[tactic(auto, using(crate::proofs::Showing::showing))]
pub fn visit_json_map(visitor: &mut Visitor<'_>, map: &Map<String, Value>) -> Result<(), Refusal>
    ensures entered { Entered true (stored_map map.now.entries) visitor.old visitor.new result }
    ensures first { MakesFirst (codes "Map") (Some 24) visitor.old visitor.new result }
{
    let outer = visitor
        .collector
        .open_entry(Key::new("Map"), Some(24), false)?;
    let answer = Unique("data", 8, Members(map)).enter(visitor);
    visitor.collector.close_entry(outer);
    answer
}
