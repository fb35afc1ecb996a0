//! Reads a JSON document from standard input. With the first word `profile` it writes what the document declares about
//! its memory, in the form that `flamegraph.pl` reads, and warnings to standard error; with `fields` how many bytes
//! each of its fields declares.
#![tactic(auto)]

use allocative_json::{Fault, report_fault, run_fields, run_json};
use std::alloc::Global;
use std::env;
use std::io::{ErrorKind, Read, Write};
use std::process::ExitCode;
use std::rt::Env;

// The words after the program's name. A word that is not UTF-8 is unknown.
fn words_of<R: Env + AllocGlobal>(rt: &R) -> Result<Vec<String>, Fault> {
    match env::args(rt) {
        Ok(args) => Ok(args.skip(1).collect(rt.alloc())?),
        Err(error) if error.kind() == ErrorKind::OutOfMemory => Err(Fault::Memory),
        Err(_) => Err(Fault::Words),
    }
}

// The beginning of a line, if the words cannot be read: the first one alone names the program.
fn start_of<R: Env>(rt: &R) -> &'static str {
    let mut word = [0u8; 8];
    match rt.arg(1, &mut word) {
        Ok(len) if word[..len].starts_with(b"fields") => "allocative-fields: ",
        _ => "allocative-json: ",
    }
}

// Runs the program that the first word names.
fn run<R: Read, W: Write, E: Write>(
    alloc: Global,
    words: &[String],
    input: &mut R,
    output: &mut W,
    errors: &mut E,
) -> u8 {
    match words.split_first() {
        Some((first, words)) if first.as_str() == "profile" => {
            run_json(alloc, words, input, output, errors)
        }
        Some((first, words)) if first.as_str() == "fields" => {
            run_fields(alloc, words, input, output, errors)
        }
        _ => report_fault(errors, "allocative-json: ", Fault::Words),
    }
}

fn main(rt: HostRuntime) -> ExitCode {
    let mut input = rt.reader();
    let mut output = std::io::writer(&rt);
    let mut errors = rt.stderr();
    let status = match words_of(&rt) {
        Ok(words) => run(
            rt.alloc(),
            words.as_slice(),
            &mut input,
            &mut output,
            &mut errors,
        ),
        Err(fault) => report_fault(&mut errors, start_of(&rt), fault),
    };
    ExitCode::from(status)
}
