//! What no clause of the services says: that nothing is measured too early, what the services show, that what leaves a
//! cache is dropped, that profiles are compared, and the order of paths that grew alike.
#![tactic(auto, using(allocative::proofs::Parts::parts))]

ghost use Rattle.allocative.specs.Shows.{Nothing};

use crate::texts::{is_graph, is_text, made};
use allocative::{Allocative, FlameGraph, Part, Refusal, Visitor};
use allocative_service::cache::BoundedCache;
use allocative_service::history::{History, compare, grew_most, report};
use allocative_service::ledger::{Budget, Ledger, Rejection};
use allocative_service::measure::Measure;
use allocative_service::store::Store;
use example_types::pointers::PageLink;
use std::alloc::{AllocError, Global};
use std::cell::Cell;
use std::rc::Rc;
use std::test::Fail;

/// A value without entries that counts its visits.
#[derive(Drop)]
struct Watched(Cell<u8>);

impl Allocative for Watched {
    ghost may_show = { λ _. Nothing };

    fn visit(&self, visitor: &mut Visitor<'_>) -> Result<(), Refusal> {
        self.0.set(self.0.get().wrapping_add(1));
        ().enter(visitor)
    }
}

/// Offers a value without an account, without an entry, once as it is admitted, and under a taken number.
fn offer(alloc: Global, watched: &Box<Watched>) -> Result<(), Rejection> {
    let mut ledger = Ledger::new(alloc, Measure::Owned);
    let _without_account = [
        ledger.admit("a", 1, watched),
        ledger.measure_again("a", 1, watched),
    ];
    ledger.open("a", Budget { limit: 8 })?;
    let _without_entry = ledger.measure_again("a", 1, watched);
    ledger.admit("a", 1, watched)?;
    let _taken = ledger.admit("a", 1, watched);
    Ok(())
}

#[test]
fn only_what_may_be_admitted_is_measured(rt: HostRuntime) -> Result<(), Fail> {
    let watched = Box::new(rt.alloc(), Watched(Cell::new(0)))?;
    offer(rt.alloc(), &watched)?;
    assert!(rt; watched.0.get() == 1);
    Ok(())
}

/// Two numbers in a cache that has room for both.
fn two_kept(alloc: Global) -> Result<BoundedCache<u8, u64>, AllocError> {
    let mut cache = BoundedCache::new(alloc, Measure::Owned, 18)?;
    let _first = cache.insert(1, 2, |_key, _value| ());
    let _second = cache.insert(3, 4, |_key, _value| ());
    Ok(cache)
}

/// A ledger with one entry of one tenant.
fn one_admitted(alloc: Global) -> Result<Ledger, Rejection> {
    let mut ledger = Ledger::new(alloc, Measure::Owned);
    ledger.open("ada", Budget { limit: 8 })?;
    let _bytes = ledger.admit("ada", 1, &2u64)?;
    Ok(ledger)
}

/// A store with one value of one tenant.
fn one_put(alloc: Global) -> Result<Store<u64, u64>, Rejection> {
    let mut store = Store::new(alloc, Measure::Owned);
    store.open("ada", Budget { limit: 16 })?;
    match store.put("ada", 1, 2) {
        Ok(_had) => Ok(store),
        Err(refused) => Err(refused.error),
    }
}

/// A history of one profile, of a number.
fn one_profile(alloc: Global) -> Result<History, Refusal> {
    let mut history = History::new(alloc, 2);
    history.take_profile(alloc, &1u64)?;
    Ok(history)
}

#[test]
fn services_show_what_they_keep(rt: HostRuntime) -> Result<(), Fail> {
    let alloc = rt.alloc();
    let text =
        "BoundedCache 24\nBoundedCache;entries;LruCache 56\nBoundedCache;entries;LruCache;ptr 8\nBoundedCache;entries;LruCache;ptr;key;u8 2\nBoundedCache;entries;LruCache;ptr;value;Kept 32\nBoundedCache;entries;LruCache;ptr;value;Kept;value;u64 16\nBoundedCache;entries;LruCache;raw_table 8\nBoundedCache;entries;LruCache;raw_table;alloc 36\n";
    made(alloc, two_kept(alloc), text)?;
    let text =
        "Book 24\nBook;accounts;BTreeMap 16\nBook;accounts;BTreeMap;data;key;String 16\nBook;accounts;BTreeMap;data;key;String;ptr 8\nBook;accounts;BTreeMap;data;key;String;ptr;capacity;u8 3\nBook;accounts;BTreeMap;data;value;Account 40\nBook;accounts;BTreeMap;data;value;Account;entries;BTreeMap 16\nBook;accounts;BTreeMap;data;value;Account;entries;BTreeMap;data;key;u64 8\nBook;accounts;BTreeMap;data;value;Account;entries;BTreeMap;data;value;usize 8\nIncorrect size declaration for node `Book;accounts;BTreeMap;data`, size of self: 8, size of inline children: 88\nIncorrect size declaration for node `Book;accounts;BTreeMap;data;value;Account;entries;BTreeMap;data`, size of self: 8, size of inline children: 16\n";
    made(alloc, one_admitted(alloc), text)?;
    let text =
        "Book 24\nBook;accounts;BTreeMap 16\nBook;accounts;BTreeMap;data;key;String 16\nBook;accounts;BTreeMap;data;key;String;ptr 8\nBook;accounts;BTreeMap;data;key;String;ptr;capacity;u8 3\nBook;accounts;BTreeMap;data;value;Account 40\nBook;accounts;BTreeMap;data;value;Account;entries;BTreeMap 16\nBook;accounts;BTreeMap;data;value;Account;entries;BTreeMap;data;key;u64 8\nBook;accounts;BTreeMap;data;value;Account;entries;BTreeMap;data;value;Kept 16\nBook;accounts;BTreeMap;data;value;Account;entries;BTreeMap;data;value;Kept;value;u64 8\nIncorrect size declaration for node `Book;accounts;BTreeMap;data`, size of self: 8, size of inline children: 88\nIncorrect size declaration for node `Book;accounts;BTreeMap;data;value;Account;entries;BTreeMap;data`, size of self: 8, size of inline children: 32\n";
    made(alloc, one_put(alloc), text)?;
    let text =
        "History 8\nHistory;profiles;VecDeque 24\nHistory;profiles;VecDeque;ptr 8\nHistory;profiles;VecDeque;ptr;FlameGraph 32\nHistory;profiles;VecDeque;ptr;FlameGraph;ptr 8\nHistory;profiles;VecDeque;ptr;FlameGraph;ptr;Child 56\n";
    made(alloc, one_profile(alloc), text)
}

/// Inserts a boxed link of 24 bytes that owns the mark. It drops the page that the key had, and those that go.
fn insert(
    alloc: Global,
    pages: &mut BoundedCache<u8, Box<PageLink<u8>>>,
    key: u8,
    mark: &Rc<u8>,
) -> Result<(), AllocError> {
    let page = mark.clone()?;
    let link = Box::new(alloc, PageLink { number: 7, page })?;
    let _kept = pages.insert(key, link, |_key, _page| ());
    Ok(())
}

/// The owners of the mark after one of two pages was replaced and then one evicted, and after the cache is cleared.
fn owners(alloc: Global, mark: &Rc<u8>) -> Result<[usize; 2], AllocError> {
    let mut pages = BoundedCache::new(alloc, Measure::Unique, 50)?;
    for key in [1, 2, 2, 3] {
        insert(alloc, &mut pages, key, mark)?;
    }
    let kept = Rc::strong_count(mark);
    pages.clear();
    Ok([kept, Rc::strong_count(mark)])
}

#[test]
fn what_leaves_a_cache_is_dropped(rt: HostRuntime) -> Result<(), AllocError> {
    let mark = Rc::new(rt.alloc(), 0)?;
    let found = owners(rt.alloc(), &mark)?;
    assert!(rt; found == [3, 1]);
    Ok(())
}

/// The history keeps one profile.
#[test]
fn a_profile_is_compared_with_the_one_before(rt: HostRuntime) -> Result<(), Fail> {
    let alloc = rt.alloc();
    let mut history = History::new(alloc, 1);
    assert!(rt; history.take_changes(alloc, &1u8)?.is_none());
    let changes = history.take_changes(alloc, &1u64)?.ok_or("no changes")?;
    let text = report(alloc, changes.as_slice())?;
    is_text(
        text.as_str(),
        "8 bytes more, 1 bytes less\n0 -> 8 u64\n1 -> 0 u8\n",
    )?;
    let latest = history.latest().ok_or("no profile")?;
    is_graph(latest, "u64 8\n", 8)
}

/// Changes of three paths, of which two grew alike.
#[test]
fn paths_that_grew_alike_are_in_order(rt: HostRuntime) -> Result<(), Fail> {
    let alloc = rt.alloc();
    let earlier = FlameGraph::read(alloc, "d 5\n")?;
    let later = FlameGraph::read(alloc, "c 1\nb 2\na 1\nd 5\n")?;
    let changes = compare(alloc, &earlier, &later)?;
    let top = grew_most(alloc, changes.as_slice(), 2)?;
    let text = report(alloc, top.as_slice())?;
    is_text(
        text.as_str(),
        "3 bytes more, 0 bytes less\n0 -> 2 b\n0 -> 1 a\n",
    )
}

/// Puts a text under the key `page`.
fn put_page(alloc: Global, store: &mut Store<String, String>, text: &str) -> Result<(), Fail> {
    let key = String::from_str(alloc, "page")?;
    let page = String::from_str(alloc, text)?;
    if store.put("ada", key, page).is_err() {
        return Err("a page is within the limit".into());
    }
    Ok(())
}

#[test]
fn a_store_bills_keys_with_values(rt: HostRuntime) -> Result<(), Fail> {
    let alloc = rt.alloc();
    let mut store = Store::new(alloc, Measure::Owned);
    let key = String::from_str(alloc, "page")?;
    store.open("ada", Budget { limit: 60 })?;
    put_page(alloc, &mut store, "a text")?;
    assert_eq!(rt; store.bytes_of("ada"), Some(58));
    put_page(alloc, &mut store, "")?;
    assert_eq!(rt; store.bytes_of("ada"), Some(52));
    assert_eq!(rt; store.largest_of("ada"), Some((&key, 52)));
    assert_eq!(rt; store.reset_peak("ada"), Some(58));
    assert_eq!(rt; store.peak_of("ada"), Some(52));
    assert!(rt; store.get("ada", &key).is_some());
    assert!(rt; store.remove("ada", &key).is_some());
    assert_eq!(rt; store.bytes(), 0);
    Ok(())
}
