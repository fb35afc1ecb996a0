//! The worked rows of `bin/allocative-json`, by `run_json` over a reader and two writers of these tests: profiles with
//! and without `exact`, `index` and `registry`, refused words, broken input, and a read or a write that fails. A run
//! with a refused growth ends for want of memory, and a run that is made anew is right.
use crate::assertions::{assert_count, assert_same, made};
use crate::json::{FAR_NUMBERS, SHORT_DATA, THREE_NUMBERS};
use allocative_json::{Fault, run_json};
use std::alloc::{AllocGlobal, Global};
use std::io::{self, ErrorKind, Read, Write};
use std::process::Abort;

/// The words and the input of a run, and the status, the output and the errors that it ends with.
#[derive(Clone, Copy)]
struct Row(&'static str, &'static [u8], u8, &'static str, &'static str);

const NO_MEMORY: &str = "allocative-json: out of memory\n";

const NOT_JSON: &str = "allocative-json: input is not JSON\n";

const NOT_WHOLE: &str = "allocative-json: a number is not a 64-bit whole number\n";

const NO_WORDS: &str = "allocative-json: unknown or repeated word\n";

const UNREAD: &str = "allocative-json: cannot read input\n";

const UNWRITTEN: &str = "allocative-json: cannot write output\n";

const TWO_NUMBERS: &str =
    "BTreeSet 16\nBTreeSet;data;key;i128 32\nValue 8\nValue;Array;Vec 16\nValue;Array;Vec;ptr 8\nValue;Array;Vec;ptr;Value 32\nValue;Array;Vec;ptr;Value;Number;Number 32\n";

const ONE_MEMBER: &str =
    "Value 8\nValue;Object;Map 16\nValue;Object;Map;data 8\nValue;Object;Map;data;key;String 16\nValue;Object;Map;data;key;String;ptr 8\nValue;Object;Map;data;key;String;ptr;capacity;u8 2\nValue;Object;Map;data;value;Value 16\nValue;Object;Map;data;value;Value;Number;Number 16\n";

const LAST_MEMBER: &str =
    "Value 8\nValue;Object;Map 16\nValue;Object;Map;data 8\nValue;Object;Map;data;key;String 16\nValue;Object;Map;data;key;String;ptr 8\nValue;Object;Map;data;key;String;ptr;capacity;u8 1\nValue;Object;Map;data;value;Value 16\nValue;Object;Map;data;value;Value;Number;Number 16\n";

const LISTS: &str =
    "Value 8\nValue;Array;Vec 16\nValue;Array;Vec;ptr 8\nValue;Array;Vec;ptr;Value 40\nValue;Array;Vec;ptr;Value;Array;Vec 16\nValue;Array;Vec;ptr;Value;Array;Vec;ptr 8\nValue;Array;Vec;ptr;Value;Array;Vec;ptr;Value 16\nValue;Array;Vec;ptr;Value;Array;Vec;ptr;Value;Number;Number 16\n";

const NO_LETTER: &str = "Value 8\nValue;String;String 16\nValue;String;String;ptr 8\n";

const NO_MEMBER: &str = "Value 8\nValue;Object;Map 16\nValue;Object;Map;data 8\n";

const NO_NUMBER: &str = "BTreeSet 16\nBTreeSet;data 8\nValue 32\n";

const ROWS: [Row; 24] = [
    Row("exact index", b"[7,8]", 0, TWO_NUMBERS, SHORT_DATA),
    Row("exact", b"{\"ab\":1}", 0, ONE_MEMBER, ""),
    Row("exact", b"[1", 2, "", NOT_JSON),
    Row("exact", b"1.5", 3, "", NOT_WHOLE),
    Row("registry", b"true", 0, "Value 32\n", ""),
    Row("all", b"true", 5, "", NO_WORDS),
    Row("exact exact", b"true", 5, "", NO_WORDS),
    Row("", b"", 2, "", NOT_JSON),
    Row("exact", b"\"\"", 0, NO_LETTER, ""),
    Row("exact", b"{}", 0, NO_MEMBER, ""),
    Row("index", b"true", 0, NO_NUMBER, ""),
    Row("exact index", FAR_NUMBERS, 0, THREE_NUMBERS, SHORT_DATA),
    Row(
        "registry index exact",
        FAR_NUMBERS,
        0,
        THREE_NUMBERS,
        SHORT_DATA,
    ),
    Row("exact", b"[true,[3]]", 0, LISTS, ""),
    Row("exact", b"{\"a\":1.5,\"a\":1}", 0, LAST_MEMBER, ""),
    Row("", b"{\"a\":1,\"a\":1.5}", 3, "", NOT_WHOLE),
    Row("", b"[1.5,2", 2, "", NOT_JSON),
    Row("", b"{\"a\":1,}", 2, "", NOT_JSON),
    Row("", b"tru", 2, "", NOT_JSON),
    Row("", b"1 2", 2, "", NOT_JSON),
    Row("", b"\xff", 2, "", NOT_JSON),
    Row("", b"1e2", 3, "", NOT_WHOLE),
    Row("", b"18446744073709551616", 3, "", NOT_WHOLE),
    Row("registry index exact", b"[7,8]", 0, TWO_NUMBERS, SHORT_DATA),
];

/// Which call of a run fails: none, the read at the end of the input, or the first write of the profile or the
/// warnings.
#[derive(Clone, Copy, PartialEq, Eq)]
enum Failing {
    Nothing,
    Reading,
    Profile,
    Warnings,
}

/// Gives some bytes, and then ends or fails.
#[derive(Drop)]
struct Input<'a> {
    bytes: &'a [u8],
    fails: bool,
}

impl Read for Input<'_> {
    fn read(&mut self, buf: &mut [u8]) -> io::Result<usize> {
        if self.fails && self.bytes.is_empty() {
            return Err(ErrorKind::Other.into());
        }
        self.bytes.read(buf)
    }
}

/// A buffer, whose first write may fail.
#[derive(Drop)]
struct Output {
    bytes: Vec<u8>,
    fails: bool,
}

impl Write for Output {
    fn write(&mut self, buf: &[u8]) -> io::Result<usize> {
        if self.fails {
            self.fails = false;
            return Err(ErrorKind::Other.into());
        }
        self.bytes.write(buf)
    }

    fn flush(&mut self) -> io::Result<()> {
        Ok(())
    }
}

/// A writer with room for each text of these tests.
fn writer(rt: &(impl Abort + AllocGlobal), fails: bool) -> Output {
    let bytes = made(rt, || Ok(Vec::with_capacity(rt.alloc(), 1 << 20)?));
    Output { bytes, fails }
}

fn words_of(alloc: Global, text: &str) -> Result<Vec<String>, Fault> {
    let mut words = Vec::new(alloc);
    for word in text.split_ascii_whitespace() {
        words.push(String::from_str(alloc, word)?)?;
    }
    Ok(words)
}

/// The status of a run, its output and its errors.
fn run(
    rt: &(impl Abort + AllocGlobal),
    failing: Failing,
    words: &str,
    bytes: &[u8],
) -> (u8, Vec<u8>, Vec<u8>) {
    let words = made(rt, || words_of(rt.alloc(), words));
    let mut input = Input {
        bytes,
        fails: failing == Failing::Reading,
    };
    let mut profile = writer(rt, failing == Failing::Profile);
    let mut errors = writer(rt, failing == Failing::Warnings);
    let status = run_json(rt.alloc(), &words, &mut input, &mut profile, &mut errors);
    (status, profile.bytes, errors.bytes)
}

fn assert_bytes(rt: &impl Abort, bytes: &[u8], want: &str) {
    assert_same(rt, str::from_utf8(bytes).expect(rt, "a text"), want);
}

/// Asserts how a run ends. If it ends for want of memory, which it says unless that write fails, it is made anew.
fn assert_run(rt: &(impl Abort + AllocGlobal), failing: Failing, row: &Row) {
    let &Row(words, bytes, want, output, errors) = row;
    let mut ran = run(rt, failing, words, bytes);
    if ran.0 == 1 {
        assert_bytes(rt, ran.1.as_slice(), "");
        let is_told = failing != Failing::Warnings;
        assert_bytes(rt, ran.2.as_slice(), if is_told { NO_MEMORY } else { "" });
        ran = run(rt, failing, words, bytes);
    }
    assert_bytes(rt, ran.2.as_slice(), errors);
    assert_bytes(rt, ran.1.as_slice(), output);
    assert_count(rt, usize::from(ran.0), usize::from(want));
}

#[test]
fn rows_of_the_program(rt: HostRuntime) {
    for row in &ROWS {
        assert_run(&rt, Failing::Nothing, row);
    }
}

#[test]
fn a_read_or_a_write_fails(rt: HostRuntime) {
    let unread = Row("", b"true", 6, "", UNREAD);
    assert_run(&rt, Failing::Reading, &unread);
    let unwritten = Row("", b"true", 7, "", UNWRITTEN);
    assert_run(&rt, Failing::Profile, &unwritten);
    let unwarned = Row("exact index", b"[7,8]", 7, TWO_NUMBERS, UNWRITTEN);
    assert_run(&rt, Failing::Warnings, &unwarned);
}

/// The text of empty arrays, each in the one before.
fn arrays(alloc: Global, levels: u8) -> Result<Vec<u8>, Fault> {
    let levels = usize::from(levels);
    let mut text = vec![in alloc; b'['; levels]?;
    text.resize(2 * levels, b']')?;
    Ok(text)
}

#[test]
fn an_input_nests_127_levels(rt: HostRuntime) {
    for (levels, want) in [(127, 0), (128, 2)] {
        let text = made(&rt, || arrays(rt.alloc(), levels));
        let mut ran = run(&rt, Failing::Nothing, "", &text);
        if ran.0 == 1 {
            ran = run(&rt, Failing::Nothing, "", &text);
        }
        assert_eq!(rt; ran.0, want);
    }
}
