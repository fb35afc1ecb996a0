//! The parts of a picture around its boxes.
ghost use Rattle.std.specs.Prelude.{◌≡◌, ◌+◌, ◌*◌, ◌^◌, ◌<◌, ◌≤◌, Some, OnOk, map, flat_map, codes};
ghost use Rattle.allocative_graph.specs.Format.{AppendsText};
ghost use Rattle.allocative_collectors.specs.Warned.{warning_of};
ghost use Rattle.allocative_picture.specs.Frames.{frame_data};
ghost use Rattle.allocative_picture.specs.Boxes.{element};
ghost use Rattle.allocative_picture.specs.Picture.{all_of, legend_of, subject_text, bottom, opening, narrow_hint, heading, warning_line, warning_lines};

use crate::boxes::{Comparison, Difference, push_element};
use crate::escape::escaped;
use crate::figures::Full;
use crate::fixed::{LEGEND, STYLE, TOOLS};
use crate::frame::Frame;
use allocative_collectors::output::WarnedPath;
use std::alloc::{AllocError, Global};
use std::fmt;

/// The subject of a picture, with its totals in bytes.
#[derive(Clone, Copy)]
pub enum Subject {
    /// A profile.
    Profile {
        /// The bytes of the profile.
        bytes: usize,
    },
    /// The change from one profile to another, drawn as their sum.
    Change {
        /// The bytes of the earlier profile.
        before: usize,
        /// The bytes of the later profile.
        after: usize,
    },
}

impl Subject {
    /// The bytes that the whole width stands for.
    pub(crate) fn all(self) -> u128
        ensures { result ≡ all_of self }
    {
        match self {
            Subject::Profile { bytes } => bytes as u128,
            Subject::Change { before, after } => before as u128 + after as u128,
        }
    }

    /// The legend of the colours of a change and its height in pixels. A profile has none.
    pub(crate) fn legend(self) -> (&'static str, u128)
        ensures text { result.0.now ≡ (legend_of self).0 }
        ensures height { result.1 ≡ (legend_of self).1 }
        ensures bound { result.1 ≤ 16 }
    {
        match self {
            Subject::Profile { .. } => ("", 0),
            Subject::Change { .. } => (LEGEND, 16),
        }
    }
}

/// The subject of a picture and its unit, printed as its totals.
#[derive(Clone, Copy)]
pub(crate) struct Totals<'a>(pub Subject, pub &'a str);

#[tactic(auto, unfolding(crate::specs::Picture::subject_text))]
impl fmt::Display for Totals<'_> {
    ghost output = { λ t. Some (subject_text t.1.now t.0) };

    fn fmt<W: fmt::Write>(&self, f: &mut fmt::Formatter<W>) -> fmt::Result {
        let Totals(subject, unit) = *self;
        match subject {
            Subject::Profile { bytes } if unit == "bytes" => {
                write!(f, "{} declared", Full(bytes, unit))
            }
            Subject::Profile { bytes } => write!(f, "{} in all", Full(bytes, unit)),
            Subject::Change { before, after } => {
                let change = Difference(before, after, unit);
                write!(f, "{}, {change}", Comparison(change))
            }
        }
    }
}

/// A subject is printed as its totals in bytes.
impl fmt::Display for Subject {
    ghost output = { λ s. Some (subject_text (codes "bytes") s) };

    fn fmt<W: fmt::Write>(&self, f: &mut fmt::Formatter<W>) -> fmt::Result {
        write!(f, "{}", Totals(*self, "bytes"))
    }
}

/// The height in pixels that is ten pixels below the lowest box of the frames.
#[tactic(auto, unfolding(crate::specs::Picture::levels))]
pub(crate) fn bottom(frames: &[Frame<'_>]) -> u128
    ensures bottom { result ≡ bottom (map frame_data frames.now) }
    ensures bound { result < 2 ^ 70 }
{
    let mut levels = 0u128;
    for frame in frames {
        levels = levels.max(frame.depth as u128 + 1);
    }
    64 + 18 * levels
}

/// Appends the beginning of a picture, with the style and the title of the document, which is markup. Browsers look for
/// that title through all boxes if there is none. The height is in pixels.
#[tactic(auto, unfolding(crate::specs::Picture::opening))]
pub(crate) fn push_opening(height: u128, title: &str, text: &mut String) -> Result<(), AllocError>
    ensures { OnOk result (AppendsText text.old text.new (opening height title.now)) }
{
    write!(
        text,
        "<svg xmlns=\"http://www.w3.org/2000/svg\" width=\"100%\" height=\"{height}\" font-size=\"12\">\n{STYLE}<title>{title}</title>\n"
    )?;
    Ok(())
}

/// What helps against paths without a box, if there are so many.
fn narrow_hint(narrow: usize) -> &'static str
    ensures { result.now ≡ narrow_hint narrow }
{
    match narrow {
        0 => "",
        _ => ": lower `narrowest`, or draw an `outline`",
    }
}

/// Appends the title of a picture, the totals, the number of paths with a box, the number of the others, which are too
/// narrow for one, and the labels that the script makes clickable. The title and the unit are markup.
pub(crate) fn push_heading(
    title: &str,
    unit: &str,
    subject: Subject,
    drawn: usize,
    paths: usize,
    text: &mut String,
) -> Result<(), AllocError>
    ensures { OnOk result (AppendsText text.old text.new (heading title.now unit.now subject drawn paths)) }
{
    let totals = Totals(subject, unit);
    let narrow = paths.saturating_sub(drawn);
    let hint = narrow_hint(narrow);
    write!(
        text,
        "<text class=\"title\" x=\"8\" y=\"22\">{title}</text>\n\
        <text class=\"sum say\" x=\"8\" y=\"42\">{totals}; {drawn} paths drawn, \
        {narrow} too narrow even for zoom{hint}</text>\n{TOOLS}"
    )?;
    Ok(())
}

/// Appends the boxes of frames.
pub(crate) fn push_boxes(
    alloc: Global,
    unit: &str,
    all: u128,
    frames: &[Frame<'_>],
    text: &mut String,
) -> Result<(), AllocError>
    ensures { OnOk result
        (AppendsText text.old text.new (flat_map (element unit.now all) (map frame_data frames.now))) }
{
    for frame in frames {
        push_element(alloc, unit, all, frame, text)?;
    }
    Ok(())
}

/// Appends the line of a path's warning, at a height in pixels.
fn push_warning(
    alloc: Global,
    y: u128,
    warned: &WarnedPath,
    text: &mut String,
) -> Result<(), AllocError>
    ensures { OnOk result
        (AppendsText text.old text.new (warning_line y (warning_of warned.now))) }
{
    let mut said = String::new(alloc);
    warned.push_warning(&mut said)?;
    let line = escaped(alloc, said.as_str())?;
    write!(
        text,
        "<text class=\"warn\" x=\"8\" y=\"{y}\">{line}</text>\n"
    )?;
    Ok(())
}

/// Appends the lines of the warnings of some paths, with the first at a height in pixels.
pub(crate) fn push_warnings(
    alloc: Global,
    top: u128,
    warned: &[WarnedPath],
    text: &mut String,
) -> Result<(), AllocError>
    requires { top < 2 ^ 80 }
    ensures { OnOk result
        (AppendsText text.old text.new (warning_lines top (map warning_of warned.now))) }
{
    let mut y = top;
    for one in warned {
        push_warning(alloc, y, one, text)?;
        y += 16;
    }
    Ok(())
}
