//! What the types of `types` show. `bin/implement` of `allocative` wrote it.
#![tactic(auto, using(allocative::proofs::Parts::parts))]

ghost use Rattle.std.specs.Prelude.{Some, codes, false, true, ◌&&◌};
ghost use Rattle.allocative.specs.Shows as shows;
ghost use Rattle.allocative.specs.Layouts.{declared, empty, pad_to_align, ◌or◌, ◌with◌};
ghost use Rattle.allocative.specs.Levels.{both, both_levels, box_of, btree_map_of, child, field, first, hash_map_of, opened, option_in, pair_in, plain, recursive, second, vec_in};
ghost use Rattle.allocative_tally.specs.Whole.{is_whole, starting};
ghost use Rattle.allocative_tally.specs.Shapes.{Beside, NoEntry, entries};
ghost use Rattle.test_generated_types.specs.declared.types.Job.{out-Job};
ghost use Rattle.test_generated_types.specs.declared.types.Json.{Json-F, out-Json};
ghost use Rattle.test_generated_types.specs.declared.types.Payload.{Payload-F, out-Payload};
ghost use Rattle.test_generated_types.specs.declared.types.Rope.{Rope-F, out-Rope};

use super::*;
use allocative::{
    Allocative, Declared, Described, Field, Inside, Layout, Part, Refusal, Visitor, Whole,
};
use allocative_tally::field::{CountedField, FieldMany, OwnTally, SizedMany, TypedMany, count_own};
use allocative_tally::tally::{CountError, Entries, Tallied, added, declared};

impl<'a, const N: usize> Allocative for Found<'a, N> {
    ghost may_show = { λ x. shows.Field (codes "Found") (pad_to_align (empty (codes "Found")
        with ⟦<u8 as Described>⟧.layout
        with ⟦<u8 as Described>⟧.layout
        with ⟦<u8 as Described>⟧.layout
        with ⟦<[u32; N] as Described>⟧.layout
        with ⟦<BTreeMap<u64, Vec<Event>> as Described>⟧.layout
        with declared (codes "part5") 8 8 false
        with declared (codes "part6") 16 8 false)).size
        (shows.Both
        (shows.Both
        (shows.Field (codes "0") ⟦<u8 as Described>⟧.layout.size (⟦<u8 as Allocative>⟧.may_show x.0)) (shows.Both
        (shows.Field (codes "1") ⟦<u8 as Described>⟧.layout.size (⟦<u8 as Allocative>⟧.may_show x.1)) (shows.Both
        (shows.Field (codes "2") ⟦<u8 as Described>⟧.layout.size (⟦<u8 as Allocative>⟧.may_show x.2)) (shows.Both
        (shows.Field (codes "3") ⟦<[u32; N] as Described>⟧.layout.size (⟦<[u32; N] as Allocative>⟧.may_show x.3))
        (shows.Field (codes "4") ⟦<BTreeMap<u64, Vec<Event>> as Described>⟧.layout.size (⟦<BTreeMap<u64, Vec<Event>> as Allocative>⟧.may_show x.4))))))
        (shows.Inside (codes "5") 8 shows.Nothing)) };

    ghost is_strict = { true };

    fn visit(&self, visitor: &mut Visitor<'_>) -> Result<(), Refusal> {
        let a = Field("0", &self.0);
        let b = Field("1", &self.1);
        let c = Field("2", &self.2);
        let d = Field("3", &self.3);
        let e = CountedField("4", &self.4);
        let f = Inside("5", 8, ());
        Declared(
            "Found",
            Layout::empty("Found")
                .with(u8::layout())
                .with(u8::layout())
                .with(u8::layout())
                .with(<[u32; N]>::layout())
                .with(<BTreeMap<u64, Vec<Event>>>::layout())
                .with(Layout::new("part5", 8, 8, false))
                .with(Layout::new("part6", 16, 8, false))
                .pad_to_align()
                .size(),
            ((a, b, c, d, e), f),
        )
        .enter(visitor)
    }
}

impl<K: Allocative + Described, V: Allocative + Described> Described for Table<K, V>
where
    K: Eq + Hash,
{
    ghost layout = { pad_to_align (empty (codes "Table")
        with ⟦<HashMap<K, V> as Described>⟧.layout
        with ⟦<V as Described>⟧.layout) };

    fn layout() -> Layout {
        Layout::empty("Table")
            .with(<HashMap<K, V>>::layout())
            .with(V::layout())
            .pad_to_align()
    }
}

impl<K: Allocative + Described, V: Allocative + Described> Allocative for Table<K, V>
where
    K: Eq + Hash,
{
    ghost may_show = { λ x. shows.Field (codes "Table") ⟦<Table<K, V> as Described>⟧.layout.size
        (shows.Both
        (shows.Field (codes "values") ⟦<HashMap<K, V> as Described>⟧.layout.size (⟦<HashMap<K, V> as Allocative>⟧.may_show x.values))
        (shows.Field (codes "last") ⟦<V as Described>⟧.layout.size (⟦<V as Allocative>⟧.may_show x.last))) };

    ghost is_strict = { ⟦<HashMap<K, V> as Allocative>⟧.is_strict && (⟦<V as Allocative>⟧.is_strict) };

    fn visit(&self, visitor: &mut Visitor<'_>) -> Result<(), Refusal> {
        let values = Field("values", &self.values);
        let last = Field("last", &self.last);
        Whole(self, (values, last)).enter(visitor)
    }
}

/// Values of `Table`, counted.
#[derive(Default, Drop)]
pub struct TableTally<S1, S2> {
    values: S1,
    last: S2,
}

impl<K: Tallied, V: Tallied> Tallied for Table<K, V>
where
    K: Eq + Hash,
{
    type Tally = TableTally<<HashMap<K, V> as Tallied>::Tally, <V as Tallied>::Tally>;

    ghost shape = { λ tally count. entries (codes "Table") ⟦<Table<K, V> as Described>⟧.layout.size count
        (Beside (entries (codes "values") ⟦<HashMap<K, V> as Described>⟧.layout.size count (⟦<HashMap<K, V> as Tallied>⟧.shape tally.values count))
        (entries (codes "last") ⟦<V as Described>⟧.layout.size count (⟦<V as Tallied>⟧.shape tally.last count))) };

    ghost whole = { is_whole (Prim.search starting) };

    fn show(tally: &Self::Tally, count: usize, visitor: &mut Visitor<'_>) -> Result<(), Refusal> {
        TypedMany(
            std::marker::PhantomData::<Table<K, V>>,
            "Table",
            count,
            (
                FieldMany::<HashMap<K, V>>("values", &tally.values, count),
                FieldMany::<V>("last", &tally.last, count),
            ),
        )
        .enter(visitor)
    }

    #[inline(always)]
    fn tally(&self, tally: &mut Self::Tally) -> Result<(), CountError> {
        declared::<Table<K, V>>()?;
        let values = Tallied::tally(&self.values, &mut tally.values);
        let last = Tallied::tally(&self.last, &mut tally.last);
        values.and(last)
    }
}

/// The fields of the variant `Between` of `Placed`.
struct PlacedBetweenFields;

impl Described for PlacedBetweenFields {
    ghost layout = { pad_to_align (empty (codes "Between")
        with ⟦<u32 as Described>⟧.layout
        with ⟦<u32 as Described>⟧.layout) };

    fn layout() -> Layout {
        Layout::empty("Between")
            .with(u32::layout())
            .with(u32::layout())
            .pad_to_align()
    }
}

impl<T: Allocative + Described> Described for Placed<T> {
    ghost layout = { pad_to_align (empty (codes "Placed")
        with ⟦<u8 as Described>⟧.layout
        with (empty (codes "Somewhere")
        with ⟦<T as Described>⟧.layout
        with declared (codes "part1") 8 8 false
        or (empty (codes "Between")
        with ⟦<u32 as Described>⟧.layout
        with ⟦<u32 as Described>⟧.layout))) };

    fn layout() -> Layout {
        Layout::empty("Placed")
            .with(u8::layout())
            .with(
                Layout::empty("Somewhere")
                    .with(T::layout())
                    .with(Layout::new("part1", 8, 8, false))
                    .or(
                        Layout::empty("Between")
                            .with(u32::layout())
                            .with(u32::layout()),
                    ),
            )
            .pad_to_align()
    }
}

impl<T: Allocative + Described> Allocative for Placed<T> {
    ghost use Rattle.test_generated_types.specs.declared.types.Placed.TheVariants.{Nowhere, Somewhere, Between};

    ghost may_show = { λ x. shows.Field (codes "Placed") ⟦<Placed<T> as Described>⟧.layout.size (elim x [
      | Nowhere ↦ shows.Nothing
      | Somewhere a b ↦ shows.Field (codes "Somewhere") (pad_to_align (empty (codes "Somewhere")
          with ⟦<T as Described>⟧.layout
          with declared (codes "part1") 8 8 false)).size
          (shows.Field (codes "0") ⟦<T as Described>⟧.layout.size (⟦<T as Allocative>⟧.may_show a))
      | Between a b ↦ shows.Field (codes "Between") ⟦<PlacedBetweenFields as Described>⟧.layout.size
          (shows.Both
          (shows.Field (codes "0") ⟦<u32 as Described>⟧.layout.size (⟦<u32 as Allocative>⟧.may_show a))
          (shows.Field (codes "1") ⟦<u32 as Described>⟧.layout.size (⟦<u32 as Allocative>⟧.may_show b)))
    ]) };

    ghost is_strict = { T.is_strict };

    fn visit(&self, visitor: &mut Visitor<'_>) -> Result<(), Refusal> {
        match self {
            Placed::Nowhere => Whole(self, ()).enter(visitor),
            Placed::Somewhere(a, _) => {
                let a = Field("0", a);
                let inside = Declared(
                    "Somewhere",
                    Layout::empty("Somewhere")
                        .with(T::layout())
                        .with(Layout::new("part1", 8, 8, false))
                        .pad_to_align()
                        .size(),
                    a,
                );
                Whole(self, inside).enter(visitor)
            }
            Placed::Between(a, b) => {
                let a = Field("0", a);
                let b = Field("1", b);
                let inside = Declared("Between", <PlacedBetweenFields>::size(), (a, b));
                Whole(self, inside).enter(visitor)
            }
        }
    }
}

/// The fields of the variant `Sale` of `Event`.
struct EventSaleFields;

impl Described for EventSaleFields {
    ghost layout = { pad_to_align (empty (codes "Sale")
        with declared (codes "place") 16 8 false
        with declared (codes "weight") 8 8 false
        with ⟦<u64 as Described>⟧.layout
        with ⟦<Vec<u64> as Described>⟧.layout) };

    fn layout() -> Layout {
        Layout::empty("Sale")
            .with(Layout::new("place", 16, 8, false))
            .with(Layout::new("weight", 8, 8, false))
            .with(u64::layout())
            .with(<Vec<u64>>::layout())
            .pad_to_align()
    }
}

impl Described for Event {
    ghost layout = { pad_to_align (empty (codes "Event")
        with ⟦<u8 as Described>⟧.layout
        with (⟦<String as Described>⟧.layout
        or declared (codes "part0") 8 8 false
        or (empty (codes "Sale")
        with declared (codes "place") 16 8 false
        with declared (codes "weight") 8 8 false
        with ⟦<u64 as Described>⟧.layout
        with ⟦<Vec<u64> as Described>⟧.layout))) };

    fn layout() -> Layout {
        Layout::empty("Event")
            .with(u8::layout())
            .with(
                String::layout().or(Layout::new("part0", 8, 8, false)).or(
                    Layout::empty("Sale")
                        .with(Layout::new("place", 16, 8, false))
                        .with(Layout::new("weight", 8, 8, false))
                        .with(u64::layout())
                        .with(<Vec<u64>>::layout()),
                ),
            )
            .pad_to_align()
    }
}

impl Allocative for Event {
    ghost use Rattle.test_generated_types.specs.declared.types.Event.TheVariants.{Quiet, Note, Marked, Sale};

    ghost may_show = { λ x. shows.Field (codes "Event") ⟦<Event as Described>⟧.layout.size (elim x [
      | Quiet ↦ shows.Nothing
      | Note a ↦ shows.Field (codes "Note") ⟦<String as Described>⟧.layout.size (⟦<String as Allocative>⟧.may_show a)
      | Marked a ↦ shows.Inside (codes "Marked") 8 shows.Nothing
      | Sale a b c d ↦ shows.Field (codes "Sale") ⟦<EventSaleFields as Described>⟧.layout.size
          (shows.Both
          (shows.Inside (codes "place") 16 shows.Nothing) (shows.Both
          (shows.Field (codes "shelf") ⟦<u64 as Described>⟧.layout.size (⟦<u64 as Allocative>⟧.may_show c))
          (shows.Field (codes "prices") ⟦<Vec<u64> as Described>⟧.layout.size (⟦<Vec<u64> as Allocative>⟧.may_show d))))
    ]) };

    ghost is_strict = { true };

    fn visit(&self, visitor: &mut Visitor<'_>) -> Result<(), Refusal> {
        match self {
            Event::Quiet => Whole(self, ()).enter(visitor),
            Event::Note(a) => {
                let a = Field("Note", a);
                Whole(self, a).enter(visitor)
            }
            Event::Marked(_) => {
                let a = Inside("Marked", 8, ());
                Whole(self, a).enter(visitor)
            }
            Event::Sale { shelf, prices, .. } => {
                let place = Inside("place", 16, ());
                let shelf = Field("shelf", shelf);
                let prices = CountedField("prices", prices);
                let inside = Declared("Sale", <EventSaleFields>::size(), (place, shelf, prices));
                Whole(self, inside).enter(visitor)
            }
        }
    }
}

/// Values of `Event`, counted.
#[derive(Default, Drop)]
pub struct EventTally {
    note_value: OwnTally<<String as Tallied>::Tally>,
    marked_value: usize,
    sale_count: usize,
    sale_shelf: <u64 as Tallied>::Tally,
    sale_prices: <Vec<u64> as Tallied>::Tally,
}

impl Tallied for Event {
    type Tally = EventTally;

    ghost shape = { λ tally count. entries (codes "Event") ⟦<Event as Described>⟧.layout.size count
        (Beside (entries (codes "Note") ⟦<String as Described>⟧.layout.size tally.note_value.count (⟦<String as Tallied>⟧.shape tally.note_value.values tally.note_value.count))
        (Beside (entries (codes "Marked") (Some 8) tally.marked_value
        NoEntry)
        (entries (codes "Sale") ⟦<EventSaleFields as Described>⟧.layout.size tally.sale_count
        (Beside (entries (codes "place") (Some 16) tally.sale_count
        NoEntry)
        (Beside (entries (codes "shelf") ⟦<u64 as Described>⟧.layout.size tally.sale_count (⟦<u64 as Tallied>⟧.shape tally.sale_shelf tally.sale_count))
        (entries (codes "prices") ⟦<Vec<u64> as Described>⟧.layout.size tally.sale_count (⟦<Vec<u64> as Tallied>⟧.shape tally.sale_prices tally.sale_count))))))) };

    ghost whole = { is_whole (Prim.search starting) };

    fn show(tally: &Self::Tally, count: usize, visitor: &mut Visitor<'_>) -> Result<(), Refusal> {
        TypedMany(
            std::marker::PhantomData::<Event>,
            "Event",
            count,
            (
                FieldMany::<String>("Note", &tally.note_value.values, tally.note_value.count),
                (
                    SizedMany("Marked", Some(8), tally.marked_value, ()),
                    TypedMany(
                        std::marker::PhantomData::<EventSaleFields>,
                        "Sale",
                        tally.sale_count,
                        (
                            SizedMany("place", Some(16), tally.sale_count, ()),
                            (
                                FieldMany::<u64>("shelf", &tally.sale_shelf, tally.sale_count),
                                FieldMany::<Vec<u64>>(
                                    "prices",
                                    &tally.sale_prices,
                                    tally.sale_count,
                                ),
                            ),
                        ),
                    ),
                ),
            ),
        )
        .enter(visitor)
    }

    #[inline(always)]
    fn tally(&self, tally: &mut Self::Tally) -> Result<(), CountError> {
        declared::<Event>()?;
        match self {
            Event::Quiet => Ok(()),
            Event::Note(a) => count_own(&mut tally.note_value, a),
            Event::Marked(_) => {
                tally.marked_value = added(tally.marked_value, 1)?;
                Ok(())
            }
            Event::Sale { shelf, prices, .. } => {
                declared::<EventSaleFields>()?;
                tally.sale_count = added(tally.sale_count, 1)?;
                let shelf = Tallied::tally(shelf, &mut tally.sale_shelf);
                let prices = Tallied::tally(prices, &mut tally.sale_prices);
                shelf.and(prices)
            }
        }
    }
}

/// The fields of the variant `BoughtItems` of `Cart`.
struct CartBoughtItemsFields;

impl Described for CartBoughtItemsFields {
    ghost layout = { pad_to_align (empty (codes "BoughtItems")
        with ⟦<Vec<String> as Described>⟧.layout) };

    fn layout() -> Layout {
        Layout::empty("BoughtItems")
            .with(<Vec<String>>::layout())
            .pad_to_align()
    }
}

impl Described for Cart {
    ghost layout = { pad_to_align (empty (codes "Cart")
        with ⟦<u8 as Described>⟧.layout
        with ⟦<Vec<String> as Described>⟧.layout) };

    fn layout() -> Layout {
        Layout::empty("Cart")
            .with(u8::layout())
            .with(<Vec<String>>::layout())
            .pad_to_align()
    }
}

impl Allocative for Cart {
    ghost use Rattle.test_generated_types.specs.declared.types.Cart.TheVariants.{BoughtItems};

    ghost may_show = { λ x. shows.Field (codes "Cart") ⟦<Cart as Described>⟧.layout.size (elim x [
      | BoughtItems a ↦ shows.Field (codes "BoughtItems") ⟦<CartBoughtItemsFields as Described>⟧.layout.size
          (shows.Field (codes "names") ⟦<Vec<String> as Described>⟧.layout.size (⟦<Vec<String> as Allocative>⟧.may_show a))
    ]) };

    ghost is_strict = { true };

    fn visit(&self, visitor: &mut Visitor<'_>) -> Result<(), Refusal> {
        match self {
            Cart::BoughtItems { names } => {
                let names = CountedField("names", names);
                let inside = Declared("BoughtItems", <CartBoughtItemsFields>::size(), names);
                Whole(self, inside).enter(visitor)
            }
        }
    }
}

/// Values of `Cart`, counted.
#[derive(Default, Drop)]
pub struct CartTally {
    bought_items_count: usize,
    bought_items_names: <Vec<String> as Tallied>::Tally,
}

impl Tallied for Cart {
    type Tally = CartTally;

    ghost shape = { λ tally count. entries (codes "Cart") ⟦<Cart as Described>⟧.layout.size count
        (entries (codes "BoughtItems") ⟦<CartBoughtItemsFields as Described>⟧.layout.size tally.bought_items_count
        (entries (codes "names") ⟦<Vec<String> as Described>⟧.layout.size tally.bought_items_count (⟦<Vec<String> as Tallied>⟧.shape tally.bought_items_names tally.bought_items_count))) };

    ghost whole = { is_whole (Prim.search starting) };

    fn show(tally: &Self::Tally, count: usize, visitor: &mut Visitor<'_>) -> Result<(), Refusal> {
        TypedMany(
            std::marker::PhantomData::<Cart>,
            "Cart",
            count,
            TypedMany(
                std::marker::PhantomData::<CartBoughtItemsFields>,
                "BoughtItems",
                tally.bought_items_count,
                FieldMany::<Vec<String>>(
                    "names",
                    &tally.bought_items_names,
                    tally.bought_items_count,
                ),
            ),
        )
        .enter(visitor)
    }

    #[inline(always)]
    fn tally(&self, tally: &mut Self::Tally) -> Result<(), CountError> {
        declared::<Cart>()?;
        match self {
            Cart::BoughtItems { names } => {
                declared::<CartBoughtItemsFields>()?;
                tally.bought_items_count = added(tally.bought_items_count, 1)?;
                let names = Tallied::tally(names, &mut tally.bought_items_names);
                names
            }
        }
    }
}

/// The fields of the variant `Pair` of `Json`.
struct JsonPairFields;

impl Described for JsonPairFields {
    ghost layout = { pad_to_align (empty (codes "Pair")
        with ⟦<Option<Box<Json>> as Described>⟧.layout
        with ⟦<Vec<Json> as Described>⟧.layout) };

    fn layout() -> Layout {
        Layout::empty("Pair")
            .with(<Option<Box<Json>>>::layout())
            .with(<Vec<Json>>::layout())
            .pad_to_align()
    }
}

/// The fields of the variant `Part` of `Json`.
struct JsonPartFields;

impl Described for JsonPartFields {
    ghost layout = { pad_to_align (empty (codes "Part")
        with declared (codes "part0") 16 8 false
        with ⟦<Box<Json> as Described>⟧.layout) };

    fn layout() -> Layout {
        Layout::empty("Part")
            .with(Layout::new("part0", 16, 8, false))
            .with(<Box<Json>>::layout())
            .pad_to_align()
    }
}

impl Described for Json {
    ghost layout = { pad_to_align (empty (codes "Json")
        with ⟦<u8 as Described>⟧.layout
        with (⟦<BTreeMap<String, Json> as Described>⟧.layout
        or (empty (codes "Pair")
        with ⟦<Option<Box<Json>> as Described>⟧.layout
        with ⟦<Vec<Json> as Described>⟧.layout)
        or (empty (codes "Part")
        with declared (codes "part0") 16 8 false
        with ⟦<Box<Json> as Described>⟧.layout))) };

    fn layout() -> Layout {
        Layout::empty("Json")
            .with(u8::layout())
            .with(
                <BTreeMap<String, Json>>::layout()
                    .or(
                        Layout::empty("Pair")
                            .with(<Option<Box<Json>>>::layout())
                            .with(<Vec<Json>>::layout()),
                    )
                    .or(
                        Layout::empty("Part")
                            .with(Layout::new("part0", 16, 8, false))
                            .with(<Box<Json>>::layout()),
                    ),
            )
            .pad_to_align()
    }
}

impl Allocative for Json {
    ghost may_show = { recursive (opened out-Json (λ x. field (codes "Json") ⟦<Json as Described>⟧.layout.size (elim x [
      | Json-F.Null ↦ plain shows.Nothing
      | Json-F.Table a ↦ field (codes "Table") ⟦<BTreeMap<String, Json> as Described>⟧.layout.size (btree_map_of (pair_in ⟦<String as Described>⟧.layout.size ⟦<String as Allocative>⟧.may_show ⟦<Json as Described>⟧.layout.size child) a.entries)
      | Json-F.Pair a b ↦ field (codes "Pair") ⟦<JsonPairFields as Described>⟧.layout.size
          (both
          (field (codes "first") ⟦<Option<Box<Json>> as Described>⟧.layout.size (option_in ⟦<Option<Box<Json>> as Described>⟧.layout.size ⟦<Box<Json> as Described>⟧.layout.size (λ y. box_of (child y.value)) a))
          (field (codes "rest") ⟦<Vec<Json> as Described>⟧.layout.size (vec_in ⟦<Json as Described>⟧.layout.size child b)))
      | Json-F.Part a b ↦ field (codes "Part") ⟦<JsonPartFields as Described>⟧.layout.size
          (both
          (plain (shows.Inside (codes "0") 16 (shows.Inside (codes "Range") 16 shows.Nothing)))
          (field (codes "1") ⟦<Box<Json> as Described>⟧.layout.size (box_of (child b.value))))
    ]))) };

    ghost is_strict = { true };

    fn visit(&self, visitor: &mut Visitor<'_>) -> Result<(), Refusal> {
        match self {
            Json::Null => Declared("Json", <Self as Described>::size(), ()).enter(visitor),
            Json::Table(a) => {
                let a = Field("Table", a);
                Declared("Json", <Self as Described>::size(), a).enter(visitor)
            }
            Json::Pair { first, rest } => {
                let first = Field("first", first);
                let rest = Field("rest", rest);
                let inside = Declared("Pair", <JsonPairFields>::size(), (first, rest));
                Declared("Json", <Self as Described>::size(), inside).enter(visitor)
            }
            Json::Part(_a, b) => {
                let a = Inside("0", 16, Inside("Range", 16, ()));
                let b = Field("1", b);
                let inside = Declared("Part", <JsonPartFields>::size(), (a, b));
                Declared("Json", <Self as Described>::size(), inside).enter(visitor)
            }
        }
    }
}

impl<const N: usize> Described for Ring<N> {
    ghost layout = { pad_to_align (empty (codes "Ring")
        with ⟦<[u64; N] as Described>⟧.layout
        with ⟦<&'static str as Described>⟧.layout) };

    fn layout() -> Layout {
        Layout::empty("Ring")
            .with(<[u64; N]>::layout())
            .with(<&'static str>::layout())
            .pad_to_align()
    }
}

impl<const N: usize> Allocative for Ring<N> {
    ghost may_show = { λ x. shows.Field (codes "Ring") ⟦<Ring<N> as Described>⟧.layout.size
        (shows.Both
        (shows.Field (codes "points") ⟦<[u64; N] as Described>⟧.layout.size (⟦<[u64; N] as Allocative>⟧.may_show x.points))
        (shows.Field (codes "name") ⟦<&'static str as Described>⟧.layout.size (⟦<&'static str as Allocative>⟧.may_show x.name))) };

    ghost is_strict = { true };

    fn visit(&self, visitor: &mut Visitor<'_>) -> Result<(), Refusal> {
        let points = Field("points", &self.points);
        let name = Field("name", &self.name);
        Whole(self, (points, name)).enter(visitor)
    }
}

impl Described for Rope {
    ghost layout = { pad_to_align (empty (codes "Rope")
        with ⟦<u8 as Described>⟧.layout
        with ⟦<Vec<Rope> as Described>⟧.layout) };

    fn layout() -> Layout {
        Layout::empty("Rope")
            .with(u8::layout())
            .with(<Vec<Rope>>::layout())
            .pad_to_align()
    }
}

impl Allocative for Rope {
    ghost may_show = { recursive (opened out-Rope (λ x. field (codes "Rope") ⟦<Rope as Described>⟧.layout.size (elim x [
      | Rope-F.Of a ↦ field (codes "Of") ⟦<Vec<Rope> as Described>⟧.layout.size (vec_in ⟦<Rope as Described>⟧.layout.size child a)
    ]))) };

    ghost is_strict = { true };

    fn visit(&self, visitor: &mut Visitor<'_>) -> Result<(), Refusal> {
        match self {
            Rope::Of(a) => {
                let a = Field("Of", a);
                Declared("Rope", <Self as Described>::size(), a).enter(visitor)
            }
        }
    }
}

impl Described for Job {
    ghost layout = { pad_to_align (empty (codes "Job")
        with ⟦<Payload as Described>⟧.layout
        with ⟦<HashMap<u64, Job> as Described>⟧.layout) };

    fn layout() -> Layout {
        Layout::empty("Job")
            .with(Payload::layout())
            .with(<HashMap<u64, Job>>::layout())
            .pad_to_align()
    }
}

impl Allocative for Job {
    ghost may_show = { λ x. recursive (both_levels
        (λ x. field (codes "Job") ⟦<Job as Described>⟧.layout.size (both
        (field (codes "payload") ⟦<Payload as Described>⟧.layout.size (child (second (out-Job x).payload)))
        (field (codes "earlier_by_number") ⟦<HashMap<u64, Job> as Described>⟧.layout.size (hash_map_of (pair_in ⟦<u64 as Described>⟧.layout.size ⟦<u64 as Allocative>⟧.may_show ⟦<Job as Described>⟧.layout.size (λ y. child (first y))) (out-Job x).earlier_by_number.entries))))
        (opened out-Payload (λ x. field (codes "Payload") ⟦<Payload as Described>⟧.layout.size (elim x [
          | Payload-F.Nothing ↦ plain shows.Nothing
          | Payload-F.Done a b ↦ field (codes "Done") ⟦<PayloadDoneFields as Described>⟧.layout.size
              (both
              (field (codes "job") ⟦<Box<Job> as Described>⟧.layout.size (box_of (child (first a.value))))
              (plain (shows.Field (codes "within_seconds") ⟦<u64 as Described>⟧.layout.size (⟦<u64 as Allocative>⟧.may_show b))))
        ])))) (first x) };

    ghost is_strict = { true };

    #[cycle(jobs)]
    fn visit(&self, visitor: &mut Visitor<'_>) -> Result<(), Refusal> {
        let payload = Field("payload", &self.payload);
        let earlier_by_number = Field("earlier_by_number", &self.earlier_by_number);
        Declared(
            "Job",
            <Self as Described>::size(),
            (payload, earlier_by_number),
        )
        .enter(visitor)
    }
}

/// The fields of the variant `Done` of `Payload`.
struct PayloadDoneFields;

impl Described for PayloadDoneFields {
    ghost layout = { pad_to_align (empty (codes "Done")
        with ⟦<Box<Job> as Described>⟧.layout
        with ⟦<u64 as Described>⟧.layout) };

    fn layout() -> Layout {
        Layout::empty("Done")
            .with(<Box<Job>>::layout())
            .with(u64::layout())
            .pad_to_align()
    }
}

impl Described for Payload {
    ghost layout = { pad_to_align (empty (codes "Payload")
        with ⟦<u8 as Described>⟧.layout
        with (empty (codes "Done")
        with ⟦<Box<Job> as Described>⟧.layout
        with ⟦<u64 as Described>⟧.layout)) };

    fn layout() -> Layout {
        Layout::empty("Payload")
            .with(u8::layout())
            .with(
                Layout::empty("Done")
                    .with(<Box<Job>>::layout())
                    .with(u64::layout()),
            )
            .pad_to_align()
    }
}

impl Allocative for Payload {
    ghost may_show = { λ x. recursive (both_levels
        (λ x. field (codes "Job") ⟦<Job as Described>⟧.layout.size (both
        (field (codes "payload") ⟦<Payload as Described>⟧.layout.size (child (second (out-Job x).payload)))
        (field (codes "earlier_by_number") ⟦<HashMap<u64, Job> as Described>⟧.layout.size (hash_map_of (pair_in ⟦<u64 as Described>⟧.layout.size ⟦<u64 as Allocative>⟧.may_show ⟦<Job as Described>⟧.layout.size (λ y. child (first y))) (out-Job x).earlier_by_number.entries))))
        (opened out-Payload (λ x. field (codes "Payload") ⟦<Payload as Described>⟧.layout.size (elim x [
          | Payload-F.Nothing ↦ plain shows.Nothing
          | Payload-F.Done a b ↦ field (codes "Done") ⟦<PayloadDoneFields as Described>⟧.layout.size
              (both
              (field (codes "job") ⟦<Box<Job> as Described>⟧.layout.size (box_of (child (first a.value))))
              (plain (shows.Field (codes "within_seconds") ⟦<u64 as Described>⟧.layout.size (⟦<u64 as Allocative>⟧.may_show b))))
        ])))) (second x) };

    ghost is_strict = { true };

    #[cycle(jobs)]
    fn visit(&self, visitor: &mut Visitor<'_>) -> Result<(), Refusal> {
        match self {
            Payload::Nothing => Declared("Payload", <Self as Described>::size(), ()).enter(visitor),
            Payload::Done {
                job,
                within_seconds,
            } => {
                let job = Field("job", job);
                let within_seconds = Field("within_seconds", within_seconds);
                let inside = Declared("Done", <PayloadDoneFields>::size(), (job, within_seconds));
                Declared("Payload", <Self as Described>::size(), inside).enter(visitor)
            }
        }
    }
}
