//! Adds up collapsed stacks of standard input and of files, and writes their picture, as SVG, to standard output.
//! Files of an earlier profile may be named, and the picture then shows the change.
#![tactic(auto)]

mod arguments;
mod differential;
mod fault;
mod names;
mod run;

use arguments::{Arguments, read_arguments};
use fault::{Fault, Source, report};
use run::{Text, read_text, run};
use std::env;
use std::fs::File;
use std::io::{ErrorKind, Read, Write};
use std::process::ExitCode;
use std::rt::{Env, Files};

// Returns the arguments of the program. One that is not UTF-8 is refused.
fn arguments_of<'a, R: Env + AllocGlobal>(rt: &R) -> Result<Vec<String>, Fault<'a>> {
    match env::args(rt) {
        Ok(args) => Ok(args.skip(1).collect(rt.alloc())?),
        Err(error) if error.kind() == ErrorKind::OutOfMemory => Err(Fault::Memory),
        Err(_) => {
            let reason = String::from_str(rt.alloc(), "an argument is not UTF-8")?;
            Err(Fault::Arguments(reason))
        }
    }
}

// Reads all bytes of a file.
fn read_file<'a, R: Files + AllocGlobal>(rt: &R, name: &'a str) -> Result<Text<'a>, Fault<'a>> {
    match File::open(rt, name) {
        Ok(mut file) => read_text(rt.alloc(), Source::File(name), &mut file),
        Err(error) if error.kind() == ErrorKind::OutOfMemory => Err(Fault::Memory),
        Err(error) => Err(Fault::Reading(Source::File(name), error.kind())),
    }
}

// Reads the files of these names.
fn read_files<'a, R: Files + AllocGlobal>(
    rt: &R,
    names: &[&'a str],
) -> Result<Vec<Text<'a>>, Fault<'a>> {
    let mut texts = Vec::new(rt.alloc());
    for name in names {
        texts.push(read_file(rt, name)?)?;
    }
    Ok(texts)
}

// Does what the arguments ask for.
fn run_on_files<'a, S: Files + AllocGlobal, R: Read, W: Write>(
    rt: &S,
    asked: &Arguments<'a>,
    input: &mut R,
    output: &mut W,
) -> Result<(), Fault<'a>> {
    let before = read_files(rt, asked.before.as_slice())?;
    let after = read_files(rt, asked.after.as_slice())?;
    let (before, after) = (before.as_slice(), after.as_slice());
    run(rt.alloc(), asked, before, after, input, output)
}

fn main(rt: HostRuntime) -> ExitCode {
    let mut input = rt.reader();
    let mut output = std::io::writer(&rt);
    let mut errors = rt.stderr();
    let words = match arguments_of(&rt) {
        Ok(words) => words,
        Err(fault) => return ExitCode::from(report(Err(fault), &mut errors)),
    };
    let ended = match read_arguments(rt.alloc(), words.as_slice()) {
        Ok(asked) => run_on_files(&rt, &asked, &mut input, &mut output),
        Err(fault) => Err(fault),
    };
    ExitCode::from(report(ended, &mut errors))
}
