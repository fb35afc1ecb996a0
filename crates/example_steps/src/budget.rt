//! Keeps a note within a budget, shows it by a page that is kept, and says how much it grew.
use allocative_service::cache::BoundedCache;
use allocative_service::history::{History, report};
use allocative_service::ledger::{Budget, Ledger};
use allocative_service::measure::Measure;
use anyhow::Result;
use std::alloc::Global;

/// Prints the bytes of a note before and after it has grown, and those of its pages.
pub(crate) fn serve(rt: &impl Print, alloc: Global) -> Result<()> {
    let mut ledger = Ledger::new(alloc, Measure::Shown);
    let mut history = History::new(alloc, 1);
    let mut note = String::from_str(alloc, "twelve bytes")?;
    ledger.open("acme", Budget { limit: 40 })?;
    println!(rt; "{} bytes", ledger.admit("acme", 1, &note)?)?;
    history.take_profile(alloc, &note)?;
    note.push_str(" and more")?;
    match ledger.measure_again("acme", 1, &note) {
        Ok(bytes) => println!(rt; "{bytes} bytes")?,
        Err(rejection) => println!(rt; "{rejection}")?,
    }
    let standing = ledger.enter_growth("acme", 1, &note)?;
    println!(rt; "{} bytes, {} too many", standing.bytes, standing.excess)?;
    if let Some(changes) = history.take_changes(alloc, &note)? {
        print!(rt; "{}", report(alloc, changes.as_slice())?)?;
    }
    keep_pages(rt, alloc)
}

fn keep_pages(rt: &impl Print, alloc: Global) -> Result<()> {
    let mut pages = BoundedCache::new(alloc, Measure::Shown, 90)?;
    for number in 1u64..=3 {
        let page = String::from_str(alloc, "twelve bytes")?;
        let kept = pages.insert(number, page, |_number, _page| ());
        if let Err(refused) = kept {
            println!(rt; "not kept: {}", refused.error)?;
        }
    }
    println!(rt; "{} pages of {} bytes", pages.len(), pages.bytes())?;
    Ok(())
}
