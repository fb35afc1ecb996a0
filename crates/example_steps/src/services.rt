//! A budget for one value, and what a ledger, a store and a cache answer.
use allocative_service::cache::BoundedCache;
use allocative_service::ledger::{Budget, Ledger};
use allocative_service::measure::Measure;
use allocative_service::store::Store;
use anyhow::Result;
use std::alloc::Global;

/// Prints whether a note is within a budget, before and after it has grown.
pub(crate) fn print_budget(rt: &impl Print, alloc: Global) -> Result<()> {
    let budget = Budget { limit: 40 };
    let mut note = String::from_str(alloc, "twelve bytes")?;
    let bytes = budget.admit(alloc, Measure::Shown, &note)?;
    println!(rt; "{bytes} bytes")?;
    note.push_str(" and more")?;
    match budget.admit(alloc, Measure::Shown, &note) {
        Ok(bytes) => println!(rt; "{bytes} bytes")?,
        Err(rejection) => println!(rt; "{rejection}")?,
    }
    Ok(())
}

/// Prints the bytes of two tenants, of whom one has an account.
pub(crate) fn print_ledger(rt: &impl Print, alloc: Global) -> Result<()> {
    let mut ledger = Ledger::new(alloc, Measure::Unique);
    ledger.open("acme", Budget { limit: 100 })?;
    ledger.admit("acme", 1, &7u64)?;
    for tenant in ["acme", "birch"] {
        match ledger.bytes_of(tenant) {
            Some(bytes) => println!(rt; "{tenant} has {bytes} bytes")?,
            None => println!(rt; "{tenant} has no account")?,
        }
    }
    Ok(())
}

/// Puts a note into a store, and prints the bytes of all notes, or why it is not kept.
fn put_note(rt: &impl Print, notes: &mut Store<u64, String>, key: u64, note: String) -> Result<()> {
    match notes.put("acme", key, note) {
        Ok(_had) => println!(rt; "{} bytes", notes.bytes())?,
        Err(refused) => println!(rt; "{}", refused.error)?,
    }
    Ok(())
}

/// Prints the bytes of a store: a note grows past the limit, another is refused, and is kept once the first is gone.
pub(crate) fn print_store(rt: &impl Print, alloc: Global) -> Result<()> {
    let mut notes = Store::new(alloc, Measure::Owned);
    notes.open("acme", Budget { limit: 48 })?;
    put_note(rt, &mut notes, 1, String::from_str(alloc, "twelve bytes")?)?;
    let mut pushed = Ok(());
    let changed = notes.change("acme", &1, |note: &mut String| {
        pushed = note.push_str(" and more");
    });
    pushed?;
    if let Ok(Some(standing)) = changed {
        println!(rt; "{} bytes, {} too many", standing.bytes, standing.excess)?;
    }
    put_note(rt, &mut notes, 2, String::from_str(alloc, "twelve bytes")?)?;
    if notes.remove("acme", &1).is_some() {
        put_note(rt, &mut notes, 2, String::from_str(alloc, "twelve bytes")?)?;
    }
    Ok(())
}

/// Prints the pages of two keys, of which a cache has one, and its bytes.
pub(crate) fn print_cache(rt: &impl Print, alloc: Global) -> Result<()> {
    let mut pages: BoundedCache<u64, u64> = BoundedCache::new(alloc, Measure::Shown, 100)?;
    if pages.is_empty() && pages.measure() == Measure::Shown {
        println!(rt; "no page yet")?;
    }
    if pages.insert(1, 7, |_key, _page| ()).is_err() {
        println!(rt; "not kept")?;
    }
    for key in [1u64, 2] {
        match pages.get(&key) {
            Some(page) => println!(rt; "page {key}: {page}")?,
            None => println!(rt; "page {key}: not there")?,
        }
    }
    if pages.contains(&1) {
        println!(rt; "{} bytes of pages", pages.bytes())?;
    }
    Ok(())
}
