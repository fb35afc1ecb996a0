//! A service whose tenants keep notes and orders. It reads a command a line from standard input, and prints what comes
//! of each: a tenant's documents stay within a limit, pages of documents within another, and profiles say what grew.
#![tactic(auto)]

mod documents;
mod inbox;
mod request;
mod service;

use allocative::Refusal;
use allocative_service::ledger::{Budget, Ledger};
use allocative_service::measure::Measure;
use anyhow::Result;
use inbox::admit_text;
use request::read_request;
use service::Service;
use std::io;

/// The account of the line that is answered. Lines with more bytes than its limit are not read.
const LINES: &str = "lines";

fn main(rt: HostRuntime) -> Result<()> {
    let alloc = rt.alloc();
    let mut service = Service::new(alloc, &["tea", "bread", "salt", "dried figs"])?;
    let mut inbox = Ledger::new(alloc, Measure::Owned);
    inbox.open(LINES, Budget { limit: 200 })?;
    let input = io::read_to_string(alloc, rt.reader())?;
    for line in input.lines() {
        println!(rt; "> {line}")?;
        let text = String::from_str(alloc, line).map_err(Refusal::from)?;
        match admit_text(&mut inbox, LINES, 1, &text) {
            Ok(_bytes) => match read_request(text.as_str()) {
                Some(request) => print!(rt; "{}", service.answer(&request)?)?,
                None => println!(rt; "not understood")?,
            },
            Err(rejection) if rejection.is_limit() => println!(rt; "not read: {rejection}")?,
            Err(rejection) => return Err(rejection.into()),
        }
        inbox.release(LINES, 1);
    }
    Ok(())
}
