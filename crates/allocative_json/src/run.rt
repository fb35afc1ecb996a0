//! The programs `allocative-json` and `allocative-fields`, over any reader and two writers.
ghost use Rattle.std.specs.Prelude.{◌≡◌, ◌≢◌, None, OnOk, IfOk, IfErr, IfSome, string_bytes};
ghost use Rattle.allocative_io.specs.Streams.{AppendsBeginning};
ghost use Rattle.allocative_json.specs.Fault.{status_of, line_of};
ghost use Rattle.allocative_json.specs.Fields.{lines_asked, fields_status, place_line, fields_line, AreFieldsFor, MayEndFields, EndsWithFields, CutsOffFields, FailsFields};
ghost use Rattle.allocative_json.specs.Profile.{IsRightReport, RefusesReport};
ghost use Rattle.allocative_json.specs.Run.{StopsReading, IsReportFor, IsWritten, IsBegun, EndsWell, EndsCutOff, EndsIn, MayEndRun, program, words_of, AreWords};

use crate::fault::Fault;
use crate::fields::{FieldsFault, fields_json, fields_json_lines};
use crate::profile::{Report, report_by_registry, report_of};
use crate::roots::read_roots;
use crate::words::{Words, read_words};
use allocative_io::{ReadError, read_input, write_line, write_text};
use itoa::Buffer;
use std::alloc::Global;
use std::io::{self, BufReader, Read, Write};
use std::mem;

/// Reads to the end of the input. It returns `Fault::Reading` if a read fails, and `Fault::Memory` if memory
/// runs out, which an empty input never causes.
pub(crate) fn read_bytes<R: Read>(alloc: Global, input: &mut R) -> Result<Vec<u8>, Fault>
    ensures ok { IfOk result
        (λ bytes. IfSome (R.remaining input.old) (λ known. bytes.items ≡ known)) }
    ensures err { IfErr result (StopsReading (R.remaining input.old)) }
{
    match read_input(alloc, input) {
        Ok(bytes) => Ok(bytes),
        Err(ReadError::Memory) => Err(Fault::Memory),
        Err(ReadError::Failed(_)) => Err(Fault::Reading),
    }
}

/// Writes the line of the fault and returns its status, even if the line cannot be written. The line begins with
/// `start`: the name of the program, a colon and a space. If a write fails, a beginning of the line is written.
pub fn report_fault<E: Write>(errors: &mut E, start: &'static str, fault: Fault) -> u8
    ensures status { result ≡ status_of fault }
    ensures line { AppendsBeginning (E.contents errors.old) (E.contents errors.new)
        (line_of start.now fault) }
{
    let _is_whole = write_line(errors, &[start, fault.message()]);
    fault.status()
}

// Makes the report of the input, with a registry if it is asked for.
#[tactic(auto, using(crate::proofs::Reports::refused_report))]
fn profile_as_asked(alloc: Global, asked: Words, input: &[u8]) -> Result<Report, Fault>
    ensures ok { IfOk result (IsRightReport input.now asked.index asked.exact) }
    ensures err { IfErr result (RefusesReport input.now asked.index) }
{
    let (document, numbers) = read_roots(alloc, input, asked.index)?;
    if asked.registry {
        return report_by_registry(alloc, document, numbers, asked.exact);
    }
    let made = report_of(alloc, &document, &numbers, asked.exact);
    // The process is about to end, which frees the document faster than a drop of each value.
    mem::forget((document, numbers));
    made
}

// Parses the words, reads the input, and makes its report.
#[tactic(auto, using(crate::proofs::Reports::report_for))]
fn make_report<R: Read>(alloc: Global, words: &[String], input: &mut R) -> Result<Report, Fault>
    ensures ok { IfOk result (IsReportFor (words_of words.now) (R.remaining input.old)) }
    ensures err { IfErr result (MayEndRun (words_of words.now) (R.remaining input.old)) }
    ensures unread { ¬ AreWords (words_of words.now) → input.new ≡ input.old }
{
    let asked = read_words(words)?;
    let bytes = read_bytes(alloc, input)?;
    profile_as_asked(alloc, asked, bytes.as_slice())
}

// Writes the profile to the output, and then the warnings to the errors.
fn write_report<W: Write, E: Write>(
    report: &Report,
    output: &mut W,
    errors: &mut E,
) -> io::Result<()>
    ensures whole { OnOk result (IsWritten (W.contents output.old) (W.contents output.new)
        (E.contents errors.old) (E.contents errors.new) report.now) }
    ensures beginning { IsBegun (W.contents output.old) (W.contents output.new)
        (E.contents errors.old) (E.contents errors.new) report.now }
{
    write_text(output, report.profile.as_str())?;
    write_text(errors, report.warnings.as_str())
}

/// Runs the whole program and returns its status. The document stays in memory until the process ends, unless a
/// registry has it.
///
/// Profile and warnings are made before anything is written. With status 0 the profile is on the output and the
/// warnings are on the errors. With status 7 a beginning of the profile is on the output, and no warning is on the
/// errors unless the whole profile is written. With any other status nothing is written to the output. With every
/// status but 0 the line of the fault is written last to the errors, or a beginning of it if that fails, and the status
/// is that of the fault. If the words are not accepted, nothing is read. The status is 4 only if `profile_json` may
/// return `Fault::TooLarge`, and never 8. With the word `registry` the roots are boxed and visited by a registry, and
/// the same clauses hold.
pub fn run_json<R: Read, W: Write, E: Write>(
    alloc: Global,
    words: &[String],
    input: &mut R,
    output: &mut W,
    errors: &mut E,
) -> u8
    ensures well { result ≡ 0 → EndsWell (words_of words.now) (R.remaining input.old)
        (W.contents output.old) (W.contents output.new)
        (E.contents errors.old) (E.contents errors.new) }
    ensures cut_off { result ≡ 7 → EndsCutOff (words_of words.now) (R.remaining input.old)
        (W.contents output.old) (W.contents output.new)
        (E.contents errors.old) (E.contents errors.new) }
    ensures fault { result ≢ 0 → result ≢ 7
        → EndsIn program (MayEndRun (words_of words.now) (R.remaining input.old))
        (E.contents errors.old) (E.contents errors.new) result }
    ensures untouched { result ≢ 0 → result ≢ 7 → output.new ≡ output.old }
    ensures unread { ¬ AreWords (words_of words.now) → input.new ≡ input.old }
{
    match make_report(alloc, words, input) {
        Ok(report) => match write_report(&report, output, errors) {
            Ok(()) => 0,
            Err(_) => report_fault(errors, "allocative-json: ", Fault::Writing),
        },
        Err(fault) => report_fault(errors, "allocative-json: ", fault),
    }
}

// Whether documents are lines, or `None` if a word is not accepted.
fn lines_asked(words: &[String]) -> Option<bool>
    ensures { result ≡ lines_asked words.now }
{
    let Some((word, others)) = words.split_first() else {
        return Some(false);
    };
    if others.is_empty() && word.as_str() == "--lines" {
        Some(true)
    } else {
        None
    }
}

// Parses the words, reads the input, and makes the text of its fields.
#[tactic(auto, using(crate::proofs::FieldsLemmas::run_of_fields))]
fn make_fields<R: Read>(
    alloc: Global,
    words: &[String],
    input: &mut R,
) -> Result<String, FieldsFault>
    ensures ok { IfOk result (λ made. AreFieldsFor (lines_asked words.now)
        (R.remaining input.old) (string_bytes made)) }
    ensures err { IfErr result
        (MayEndFields (lines_asked words.now) (R.remaining input.old)) }
    ensures unread { lines_asked words.now ≡ None → input.new ≡ input.old }
{
    let Some(by_lines) = lines_asked(words) else {
        return Err(FieldsFault::Other(Fault::Words));
    };
    if by_lines {
        let Ok(mut lines) = BufReader::new(alloc, input) else {
            return Err(FieldsFault::Other(Fault::Memory));
        };
        return fields_json_lines(alloc, &mut lines);
    }
    let bytes = read_bytes(alloc, input)?;
    fields_json(alloc, bytes.as_slice())
}

// Writes the line of a text that is not JSON.
fn say_place<'a, E: Write>(errors: &mut E, line: &'a str, column: &'a str, said: &'a str)
    ensures { AppendsBeginning (E.contents errors.old) (E.contents errors.new)
        (place_line line.entry.now column.entry.now said.entry.now) }
{
    let _is_whole = write_line(
        errors,
        &[
            "allocative-fields: input is not JSON: line ",
            line,
            ", column ",
            column,
            ": ",
            said,
        ],
    );
}

// Writes the line of the fault and returns its status, even if the line cannot be written.
fn report_fields_fault<E: Write>(errors: &mut E, fault: FieldsFault) -> u8
    ensures status { result ≡ fields_status fault }
    ensures line { AppendsBeginning (E.contents errors.old) (E.contents errors.new)
        (fields_line fault) }
{
    match fault {
        FieldsFault::NotJson(line, column, said) => {
            let mut lines = Buffer::new();
            let mut columns = Buffer::new();
            say_place(
                errors,
                lines.format(line),
                columns.format(column),
                said.as_str(),
            );
            Fault::NotJson.status()
        }
        FieldsFault::Other(fault) => report_fault(errors, "allocative-fields: ", fault),
    }
}

/// Runs the program `allocative-fields` and returns its status. It accepts one word, `--lines`: then each line of the
/// input is a document. If the words are not accepted, nothing is read.
///
/// The text is made before anything is written. With status 0 it is on the output, and with status 7 a beginning of it.
/// With any other status nothing is written to the output. With every status but 0 the line of the fault is written to
/// the errors, or a beginning of it if that fails, and the status is that of the fault. The line of a text that is not
/// JSON has its place. No clause says which place that is, but that by lines its line is the first that is neither JSON
/// nor blank.
pub fn run_fields<R: Read, W: Write, E: Write>(
    alloc: Global,
    words: &[String],
    input: &mut R,
    output: &mut W,
    errors: &mut E,
) -> u8
    ensures well { result ≡ 0 → EndsWithFields (lines_asked words.now)
        (R.remaining input.old) (W.contents output.old) (W.contents output.new) }
    ensures cut_off { result ≡ 7 → CutsOffFields (lines_asked words.now)
        (R.remaining input.old) (W.contents output.old) (W.contents output.new)
        (E.contents errors.old) (E.contents errors.new) }
    ensures fault { result ≢ 0 → result ≢ 7 → FailsFields (lines_asked words.now)
        (R.remaining input.old) (E.contents errors.old) (E.contents errors.new) result }
    ensures untouched { result ≢ 0 → result ≢ 7 → output.new ≡ output.old }
    ensures unread { lines_asked words.now ≡ None → input.new ≡ input.old }
{
    match make_fields(alloc, words, input) {
        Ok(text) => match write_text(output, text.as_str()) {
            Ok(()) => 0,
            Err(_) => report_fault(errors, "allocative-fields: ", Fault::Writing),
        },
        Err(fault) => report_fields_fault(errors, fault),
    }
}
