//! What the programs share: they read all bytes of an input, and write a text to an output or the line of a fault.
#![tactic(auto)]

ghost use Rattle.std.specs.Prelude.{◌≡◌, ◌%◌, ◌<◌, ◌≤◌, true, length, take, map, slice_index, IfOk, IfErr, IfSome, OnOk};
ghost use Rattle.std.specs.Char.{digit_char, is_ascii_control};
ghost use Rattle.std.specs.Io.KnownBytes.{Appends};
ghost use Rattle.allocative_io.specs.Lines.{printable, line_of};
ghost use Rattle.allocative_io.specs.Streams.{StopsReading, AppendsBeginning};

use std::alloc::{AllocError, Global};
use std::io::{self, ErrorKind, Read, Write};

/// Why an input is not read.
#[derive(Clone, Copy, Debug, PartialEq, Eq)]
pub enum ReadError {
    /// Memory ran out.
    Memory,
    /// A read failed, with an error of this kind.
    Failed(ErrorKind),
}

impl From<AllocError> for ReadError {
    ghost use Rattle.std.specs.Prelude.{◌≡◌};
    ghost use Rattle.allocative_io.specs.declared.ReadError.TheVariants.{Memory};

    ghost from_gives = { λ _ u. u ≡ Memory };

    fn from(_refused: AllocError) -> ReadError {
        ReadError::Memory
    }
}

/// Reads to the end of the input. It returns `ReadError::Failed` if a read fails, and `ReadError::Memory` if memory
/// runs out, which an empty input never causes. An interrupted read is repeated.
pub fn read_input<R: Read>(alloc: Global, input: &mut R) -> Result<Vec<u8>, ReadError>
    ensures ok { IfOk result (λ bytes.
        IfSome (R.remaining input.old) (λ known. bytes.items ≡ known)) }
    ensures err { IfErr result (StopsReading (R.remaining input.old)) }
{
    let mut bytes = Vec::new(alloc);
    let mut piece = [0u8; 4096];
    for _ in 0..u64::MAX {
        match input.read(&mut piece) {
            Ok(0) => return Ok(bytes),
            Ok(count) => bytes.extend_from_slice(&piece[..count])?,
            Err(error) if error.kind() == ErrorKind::Interrupted => {}
            Err(error) => return Err(ReadError::Failed(error.kind())),
        }
    }
    Err(ReadError::Failed(ErrorKind::Other))
}

// Writes and flushes all bytes. If a write fails, a beginning of them is written. An interrupted write is repeated.
#[tactic(auto, using(crate::proofs::Writes::writing))]
fn write_bytes<W: Write>(output: &mut W, bytes: &[u8]) -> io::Result<()>
    ensures whole { OnOk result (Appends (W.contents output.old) (W.contents output.new) bytes.now) }
    ensures beginning { AppendsBeginning (W.contents output.old) (W.contents output.new) bytes.now }
{
    let mut rest = bytes;
    for _ in 0..u64::MAX {
        if rest.is_empty() {
            return output.flush();
        }
        match output.write(rest) {
            Ok(0) => return Err(ErrorKind::WriteZero.into()),
            Ok(count) => rest = &rest[count..],
            Err(error) if error.kind() == ErrorKind::Interrupted => {}
            Err(error) => return Err(error),
        }
    }
    Err(ErrorKind::WriteZero.into())
}

/// Writes and flushes the whole text. If a write fails, a beginning of it is written. An interrupted write is repeated.
pub fn write_text<W: Write>(output: &mut W, text: &str) -> io::Result<()>
    ensures whole { OnOk result (Appends (W.contents output.old) (W.contents output.new) text.now) }
    ensures beginning { AppendsBeginning (W.contents output.old) (W.contents output.new) text.now }
{
    write_bytes(output, text.as_bytes())
}

// How many bytes come before the first control character.
#[tactic(auto, using(crate::proofs::Printed::plain_more))]
fn plain_len(bytes: &[u8]) -> usize
    ensures within { result ≤ length bytes.now }
    ensures plain { printable (take result bytes.now) ≡ take result bytes.now }
    ensures control { result < length bytes.now
        → is_ascii_control (slice_index bytes.now result) ≡ true }
{
    for (at, byte) in bytes.iter().enumerate() {
        if byte.is_ascii_control() {
            return at;
        }
    }
    bytes.len()
}

// The last hexadecimal digit of a number.
fn last_digit(value: u8) -> u8
    ensures { result ≡ digit_char (value % 16) }
{
    match value % 16 {
        digit if digit < 10 => b'0' + digit,
        digit => b'a' - 10 + digit,
    }
}

// Writes a text with its control characters as `\x` and two digits.
#[tactic(auto, using(crate::proofs::Writes::passing))]
fn write_printable<W: Write>(output: &mut W, text: &str) -> io::Result<()>
    ensures whole { OnOk result
        (Appends (W.contents output.old) (W.contents output.new) (printable text.now)) }
    ensures beginning { AppendsBeginning
        (W.contents output.old) (W.contents output.new) (printable text.now) }
{
    let mut rest = text.as_bytes();
    while let Some((byte, after)) = rest.split_first() {
        if byte.is_ascii_control() {
            let (high, low) = (last_digit(*byte / 16), last_digit(*byte));
            write_bytes(output, &[b'\\', b'x', high, low])?;
            rest = after;
            continue;
        }
        let (plain, others) = rest.split_at(plain_len(rest));
        write_bytes(output, plain)?;
        rest = others;
    }
    Ok(())
}

/// Writes a line: the texts one after another, with each control character of ASCII in them as `\x` and two digits, and
/// a line feed. It takes no memory. If a write fails, a beginning of the line is written.
#[tactic(auto, using(crate::proofs::Writes::passing))]
pub fn write_line<W: Write>(output: &mut W, texts: &[&str]) -> io::Result<()>
    ensures whole { OnOk result (Appends (W.contents output.old) (W.contents output.new)
        (line_of (map (λ text. text.now) texts.now))) }
    ensures beginning { AppendsBeginning (W.contents output.old) (W.contents output.new)
        (line_of (map (λ text. text.now) texts.now)) }
{
    for text in texts {
        write_printable(output, text)?;
    }
    write_text(output, "\n")
}
