//! Why a run fails, and the line that says so.
ghost use Rattle.std.specs.Prelude.{◌≡◌, ◌<◌, OnOk, IfErr};
ghost use Rattle.allocative_picture_filter.specs.Fault.{fault_of, name_of};
ghost use Rattle.allocative_picture_filter.specs.declared.fault.Fault.TheVariants.{Memory};

use allocative_graph::read::LineFault;
use allocative_graph::refusal::Refusal;
use allocative_io::write_line;
use itoa::Buffer;
use std::alloc::{AllocError, AllocFailed};
use std::io::{self, ErrorKind, Write};

/// Where a text comes from.
#[derive(Clone, Copy, Debug, PartialEq, Eq)]
pub enum Source<'a> {
    /// The input.
    Input,
    /// The file of this name.
    File(&'a str),
}

/// Why a run failed.
#[derive(Debug, Drop, PartialEq, Eq)]
pub enum Fault<'a> {
    /// Memory ran out.
    Memory,
    /// The line of this number is the first of a text that is none, and this is wrong with it.
    Line(Source<'a>, usize, LineFault),
    /// A text is not UTF-8.
    NotText(Source<'a>),
    /// A text has a line that is not blank, and each such line ends in two counts.
    TwoCounts(Source<'a>),
    /// The bytes of all lines of a profile, or those of what a change is made of, together exceed `usize::MAX`.
    TooLarge,
    /// The arguments are wrong, for this reason.
    Arguments(String),
    /// A read failed, with an error of this kind.
    Reading(Source<'a>, ErrorKind),
    /// A write failed.
    Writing,
    /// The profile has 0 bytes, and is asked to have some.
    Empty,
}

impl Fault<'_> {
    /// Returns the status with which the program ends.
    pub fn status(&self) -> u8
        ensures { 0 < result }
    {
        match self {
            Fault::Memory => 1,
            Fault::Line(_, _, LineFault::TooLarge) => 4,
            Fault::Line(_, _, _) => 2,
            Fault::NotText(_) => 3,
            Fault::TwoCounts(_) => 2,
            Fault::TooLarge => 4,
            Fault::Arguments(_) => 5,
            Fault::Reading(_, _) => 6,
            Fault::Writing => 7,
            Fault::Empty => 8,
        }
    }
}

/// The name of a file, or another of the input.
pub fn name_of<'a>(source: Source<'a>, input: &'a str) -> &'a str
    ensures { result.now ≡ name_of source.entry input.now }
{
    match source {
        Source::Input => input,
        Source::File(name) => name,
    }
}

// Why a read failed, as the end of a line, if there is more to say than that it did.
fn cause(kind: ErrorKind) -> &'static str {
    match kind {
        ErrorKind::NotFound => ": no such file",
        ErrorKind::PermissionDenied => ": no permission",
        ErrorKind::IsADirectory => ": it is a directory",
        _ => "",
    }
}

// What is wrong with a line, as the end of a line.
fn what_is_wrong(wrong: LineFault) -> &'static str {
    match wrong {
        LineFault::TooLarge => " has a number that does not fit",
        LineFault::TooDeep => " has more than 10000 keys",
        _ => " is not a path, a space and a number of bytes",
    }
}

// Writes the line that has these pieces behind the program's name.
fn say<'a, E: Write>(
    errors: &mut E,
    first: &'a str,
    second: &'a str,
    third: &'a str,
    fourth: &'a str,
    fifth: &'a str,
) -> io::Result<()> {
    let name = "allocative-picture: ";
    write_line(errors, &[name, first, second, third, fourth, fifth])
}

// Writes the line of a fault: the program's name, and why the run failed. It takes no memory.
fn write_fault<E: Write>(errors: &mut E, fault: &Fault<'_>) -> io::Result<()> {
    match fault {
        Fault::Memory => say(errors, "out of memory", "", "", "", ""),
        Fault::Line(source, number, wrong) => {
            let mut digits = Buffer::new();
            let number = digits.format(*number);
            let text = name_of(*source, "the input");
            say(errors, "line ", number, " of ", text, what_is_wrong(*wrong))
        }
        Fault::NotText(source) => {
            let text = name_of(*source, "a text");
            say(errors, text, " is not UTF-8", "", "", "")
        }
        Fault::TwoCounts(source) => {
            let text = name_of(*source, "the input");
            let counts = " has two counts: give the earlier stacks by --before";
            say(errors, "each line of ", text, counts, "", "")
        }
        Fault::TooLarge => say(errors, "sizes do not fit", "", "", "", ""),
        Fault::Arguments(reason) => say(errors, reason.as_str(), "", "", "", ""),
        Fault::Reading(source, kind) => {
            let text = name_of(*source, "input");
            say(errors, "cannot read ", text, cause(*kind), "", "")
        }
        Fault::Writing => say(errors, "cannot write output", "", "", "", ""),
        Fault::Empty => say(errors, "the profile has 0 bytes", "", "", "", ""),
    }
}

/// Returns the status of a run that ended so: 0, or that of its fault, whose line is written to the errors. A line that
/// cannot be written does not change the status.
pub fn report<E: Write>(ended: Result<(), Fault<'_>>, errors: &mut E) -> u8
    ensures ok { OnOk ended.entry ((result ≡ 0) × (errors.new ≡ errors.old)) }
    ensures fault { IfErr ended.entry (λ _. 0 < result) }
{
    match ended {
        Ok(()) => 0,
        Err(fault) => {
            let _unwritten = write_fault(errors, &fault);
            fault.status()
        }
    }
}

impl From<AllocError> for Fault<'_> {
    ghost from_gives = { λ _ f. f ≡ Memory };

    fn from(_refused: AllocError) -> Self {
        Fault::Memory
    }
}

impl<T: Drop> From<AllocFailed<T>> for Fault<'_> {
    ghost from_gives = { λ _ f. f ≡ Memory };

    fn from(_refused: AllocFailed<T>) -> Self {
        Fault::Memory
    }
}

/// A graph or a picture is refused with `TooLarge` or `Memory` alone.
impl From<Refusal> for Fault<'_> {
    ghost from_gives = { λ r f. f ≡ fault_of r };

    fn from(refusal: Refusal) -> Self {
        match refusal {
            Refusal::TooLarge => Fault::TooLarge,
            Refusal::Memory | Refusal::Open => Fault::Memory,
        }
    }
}
