//! The texts that a run writes.
ghost use Rattle.std.specs.Prelude.{◌≡◌, ◌++◌, OnOk, IfOk, MatchResult, string_bytes};
ghost use Rattle.allocative.specs.Graph.{last_key};
ghost use Rattle.allocative_json.specs.Profile.{kept_line, kept_lines, AreTexts};

use crate::fault::Fault;
use crate::profile::Report;
use allocative::FlameGraphOutput;
use std::alloc::{AllocError, Global};

// The last key of a line: the text after its last `;` and before its last space.
fn last_key(line: &str) -> &str
    ensures { result.now ≡ last_key line.now }
{
    let Some((keys, _size)) = line.rsplit_once(' ') else {
        return "";
    };
    match keys.rsplit_once(';') {
        Some((_path, key)) => key,
        None => keys,
    }
}

// Appends a line, unless it is one of unused capacity.
fn push_line(line: &str, text: &mut String) -> Result<(), AllocError>
    ensures { OnOk result (string_bytes text.new ≡ string_bytes text.old ++ kept_line line.now) }
{
    if "unused_capacity" != last_key(line) {
        write!(text, "{line}\n")?;
    }
    Ok(())
}

// A text without its lines of unused capacity.
fn without_unused(alloc: Global, text: &str) -> Result<String, AllocError>
    ensures { IfOk result (λ kept. string_bytes kept ≡ kept_lines text.now) }
{
    let mut kept = String::new(alloc);
    let mut rest = text;
    while let Some((line, after)) = rest.split_once('\n') {
        push_line(line, &mut kept)?;
        rest = after;
    }
    Ok(kept)
}

/// The text of the output's graph, and its warnings. With `exact` the text is without the lines whose last key is
/// `unused_capacity`. A line's last key stands after its last `;`, or from its beginning, and before its last space,
/// even if a key has such characters. The only error is that memory runs out.
pub fn report(alloc: Global, output: &FlameGraphOutput, exact: bool) -> Result<Report, Fault>
    ensures { MatchResult result (AreTexts exact output.now) (λ f. f ≡ Fault.Memory) }
{
    let text = output.flamegraph().write()?;
    let warnings = output.warnings()?;
    let profile = if exact {
        without_unused(alloc, text.as_str())?
    } else {
        text
    };
    Ok(Report { profile, warnings })
}
