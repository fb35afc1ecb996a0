//! Runs the rows of the files that its arguments name: worked examples of plain entries, as data.
//!
//! A row has roots in the notation of the model, and what they print, hold or are refused with. Each row is run by the
//! public calls of `allocative`. The program names what differs, and fails if anything does.
#![tactic(auto)]

mod checks;
mod deed;
mod forest;
mod notation;
mod row;

use checks::is_right;
use row::Row;
use std::alloc::Global;
use std::rt::Files;
use std::{env, fs, io};

/// Whether a row is right. If not, it prints what differs.
fn is_right_row(rt: &impl Print, alloc: Global, row: Row) -> io::Result<bool> {
    match is_right(rt, alloc, row) {
        Ok(is_right) => Ok(is_right),
        Err(error) => {
            println!(rt; "{}: {error}", row.name())?;
            Ok(false)
        }
    }
}

/// How many rows there are, and how many of them are wrong.
#[derive(Clone, Copy)]
struct Counts {
    rows: u64,
    wrong: u64,
}

/// Runs rows and counts them. The lines before the first row are passed over.
fn run(rt: &impl Print, alloc: Global, rows: &'static str, counts: &mut Counts) -> io::Result<()> {
    for part in rows.split("\n== ").skip(1) {
        counts.rows = counts.rows.wrapping_add(1);
        if !is_right_row(rt, alloc, Row(part))? {
            counts.wrong = counts.wrong.wrapping_add(1);
        }
    }
    Ok(())
}

/// The text of a file. Keys last as long as the program, so it is never freed.
fn read_rows<R: Files + AllocGlobal>(rt: &R, file: &str) -> io::Result<&'static str> {
    let text = fs::read_to_string(rt, file)?;
    Ok(str::from_utf8(text.into_bytes().leak()).or(Err(io::ErrorKind::InvalidData))?)
}

fn main(rt: HostRuntime) -> io::Result<()> {
    let mut counts = Counts { rows: 0, wrong: 0 };
    for file in env::args(&rt)?.skip(1) {
        let rows = read_rows(&rt, file.as_str())?;
        run(&rt, rt.alloc(), rows, &mut counts)?;
    }
    let Counts { rows, wrong } = counts;
    if wrong > 0 {
        println!(rt; "{wrong} of {rows} rows are wrong")?;
        return Err(io::Error::other("a row is wrong"));
    }
    println!(rt; "{rows} rows are right")?;
    Ok(())
}
