//! Reading the text of a flame graph: collapsed stacks, of this library or of any other profiler.
ghost use Rattle.std.specs.Prelude.{◌≡◌, ℕ, ◌^◌, ◌≤◌, ◌↔◌, IsTrue, IfOk, IfErr, IsErrOf, map, sum_by};
ghost use Rattle.std.specs.Str.Parse.{IsNumeral};
ghost use Rattle.allocative_graph.specs.Graph.{default};
ghost use Rattle.allocative_graph.specs.declared.read.ReadFault.TheVariants.{Memory};
ghost use Rattle.allocative_graph.specs.Read.{line_stack, IsStack, IsWrong, SaysStacks, IsRead, Exceeds, ReadsBack, TellsFault};
ghost use Rattle.allocative_graph.specs.Representation.Children.{sum_of_stacks};

use crate::flamegraph::{FlameGraph, add_at};
use std::alloc::{AllocError, AllocFailed, Global};
use thiserror::Error;

/// The greatest number of keys that a path of a text may have. Functions over a graph call themselves once for each
/// key of a path, and 8 MiB of stack are enough for so many.
pub const LEVELS: usize = 10_000;

/// What is wrong with a line.
#[derive(Clone, Copy, Debug, PartialEq, Eq, Error)]
pub enum LineFault {
    /// There is no space.
    #[error("there is no space")]
    NoSpace,
    /// There is nothing before the last space.
    #[error("there is no path before the last space")]
    NoPath,
    /// What follows the last space is not digits alone.
    #[error("there is no number of bytes behind the last space")]
    NoNumber,
    /// The number exceeds `usize::MAX`.
    #[error("the number of bytes exceeds usize::MAX")]
    TooLarge,
    /// The path has more than `LEVELS` keys.
    #[error("the path has more than 10000 keys")]
    TooDeep,
}

/// Why a text is not read.
#[derive(Clone, Copy, Debug, PartialEq, Eq, Error)]
pub enum ReadFault {
    /// Memory ran out.
    #[error("out of memory")]
    Memory,
    /// The bytes of all lines together exceed `usize::MAX`.
    #[error("sizes do not fit")]
    TooLarge,
    /// The number of the first line that is not a path, a space and a number of bytes, and what is wrong with it. Lines
    /// are counted from 1.
    #[error("line {0} is not a path, a space and a number of bytes: {1}")]
    Line(usize, LineFault),
}

impl From<AllocError> for ReadFault {
    ghost from_gives = { λ _ f. f ≡ Memory };

    fn from(_refused: AllocError) -> ReadFault {
        ReadFault::Memory
    }
}

impl<T: Drop> From<AllocFailed<T>> for ReadFault {
    ghost from_gives = { λ _ f. f ≡ Memory };

    fn from(_refused: AllocFailed<T>) -> ReadFault {
        ReadFault::Memory
    }
}

impl FlameGraph {
    /// The graph of collapsed stacks. Each line of the text is a path, its last space and the bytes of that path in
    /// decimal digits. A path is its keys with `;` between them. Lines may come in any order, and equal paths add up.
    /// The keys are parts of the text, so nothing of it is copied.
    ///
    /// A line ends at a line feed, or at a carriage return and a line feed; the last one may end with the text. A key
    /// may be empty, and may have spaces, but a path has at least one byte. Blank lines are skipped. It returns `Line`
    /// for any other line that is not of this form, or whose path has more than [`LEVELS`] keys, and `TooLarge` only if
    /// the bytes of all lines together exceed `usize::MAX`. The only other error is that memory runs out.
    pub fn read(alloc: Global, text: &'static str) -> Result<FlameGraph, ReadFault>
        ensures graph { IfOk result (λ graph. IsRead text.now graph) }
        ensures line { TellsFault text.now result }
        ensures too_large { IsErrOf result ReadFault.TooLarge → Exceeds text.now }
        ensures reads_back { IfOk result (λ graph. ReadsBack text.now graph) }
    {
        let mut lines = read_lines(alloc, text)?;
        // Almost every key is then added behind those that are there. The result of a sum does not depend on it.
        lines.sort_unstable_by(|a: &Line, b: &Line| a.path.cmp(b.path));
        add_up(alloc, lines.as_slice())
    }
}

// A line of a text.
#[derive(Clone, Copy)]
struct Line {
    // The keys, with `;` between them.
    path: &'static str,
    // The bytes of the path alone.
    size: usize,
}

/// Whether a text is one decimal digit or more, and nothing else.
pub fn is_numeral(text: &str) -> bool
    ensures { IsTrue result ↔ IsNumeral 10 text.now }
{
    !text.is_empty() && text.as_bytes().iter().all(|b| b.is_ascii_digit())
}

// Reads one line.
#[tactic(auto, using(crate::proofs::ReadBack::no_space))]
fn read_line(line: &'static str) -> Result<Line, LineFault>
    ensures ok { IfOk result (λ read. IsStack line.now (line_stack read)) }
    ensures wrong { IfErr result (λ w. IsWrong w line.now) }
{
    let Some((path, size)) = line.rsplit_once(' ') else {
        return Err(LineFault::NoSpace);
    };
    if path.is_empty() {
        return Err(LineFault::NoPath);
    }
    if !is_numeral(size) {
        return Err(LineFault::NoNumber);
    }
    let Ok(size) = size.parse::<usize>() else {
        return Err(LineFault::TooLarge);
    };
    if path.split(';').count() > LEVELS {
        return Err(LineFault::TooDeep);
    }
    Ok(Line { path, size })
}

// Reads the lines of a text up to the first that is none. Blank lines are counted, and passed over.
fn read_lines(alloc: Global, text: &'static str) -> Result<Vec<Line>, ReadFault>
    ensures ok { IfOk result (λ lines. SaysStacks text.now (map line_stack lines.items)) }
    ensures line { TellsFault text.now result }
    ensures fits { ¬ (IsErrOf result ReadFault.TooLarge) }
{
    let mut lines = Vec::new(alloc);
    let mut number = 0usize;
    for line in text.lines() {
        number = number.saturating_add(1);
        if line.is_empty() {
            continue;
        }
        match read_line(line) {
            Ok(read) => lines.push(read)?,
            Err(wrong) => return Err(ReadFault::Line(number, wrong)),
        }
    }
    Ok(lines)
}

// The sum of the graphs of some lines.
#[tactic(auto, using(std::proofs::Common::take_all, crate::proofs::ReadBack::lines_exceed))]
fn add_up(alloc: Global, lines: &[Line]) -> Result<FlameGraph, ReadFault>
    ensures graph { IfOk result (λ graph. graph ≡ sum_of_stacks default (map line_stack lines.now)) }
    ensures too_large { IsErrOf result ReadFault.TooLarge → 2 ^ 64 ≤ sum_by (λ l. l.size) lines.now }
    ensures no_fault { (n : ℕ) (w : LineFault) → ¬ (IsErrOf result (ReadFault.Line n w)) }
{
    let mut graph = FlameGraph::default(alloc);
    let mut keys: Vec<&'static str> = Vec::new(alloc);
    for line in lines {
        if line.size > usize::MAX - graph.total_size() {
            return Err(ReadFault::TooLarge);
        }
        keys.clear();
        keys.extend(line.path.split(';'))?;
        add_at(&mut graph, keys.as_slice(), line.size)?;
    }
    Ok(graph)
}
