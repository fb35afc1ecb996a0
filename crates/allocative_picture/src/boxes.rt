//! The boxes of frames: their places, classes, colours and figures.
ghost use Rattle.std.specs.Prelude.{◌≡◌, ◌+◌, ◌*◌, ◌^◌, ◌<◌, Some, OnOk, ◌-◌, ◌≤◌};
ghost use Rattle.allocative_graph.specs.Format.{AppendsText};
ghost use Rattle.allocative_picture.specs.Frames.{frame_data};
ghost use Rattle.allocative_picture.specs.Boxes.{edge, width, is_drawn, figure_text, declared_text, title_text, viewport, element, shade, paint_text, change_text, both_text, class_text, change_class, fit_text};

use crate::escape::escaped;
use crate::figures::{Amount, Full, Percent, Place, is_also_in_full};
use crate::frame::{Frame, Mark};
use allocative_graph::key::Key;
use std::alloc::{AllocError, Global};
use std::fmt;

/// The bytes of a path in an earlier profile and those in a later one, and their unit. They are printed as their
/// difference with a sign, for example `+1.5 KiB`, or as `unchanged`.
#[derive(Clone, Copy)]
pub(crate) struct Difference<'a>(pub usize, pub usize, pub &'a str);

/// A change, printed as the amounts before and after.
#[derive(Clone, Copy)]
pub(crate) struct Comparison<'a>(pub Difference<'a>);

/// A frame, printed as the paint of its box: red if bytes grew, blue if they shrank, and none if they are equal
/// or the class gives the colour.
#[derive(Clone, Copy)]
pub(crate) struct Paint<'a>(pub Frame<'a>);

/// One component of a colour. It is 236 if nothing changed, and reaches `full` when `change` is `all`.
fn shade(full: u128, change: usize, all: u128) -> u128
    requires full { full ≤ 236 }
    requires some { 0 < all }
    ensures { result ≡ shade full change all }
{
    236_u128.saturating_sub((236 - full) * change as u128 / all)
}

#[tactic(auto, unfolding(crate::specs::Boxes::change_text))]
impl fmt::Display for Difference<'_> {
    ghost output = { λ c. Some (change_text c.2.now c.0 c.1) };

    fn fmt<W: fmt::Write>(&self, f: &mut fmt::Formatter<W>) -> fmt::Result {
        let Difference(before, after, unit) = *self;
        if before == after {
            write!(f, "unchanged")
        } else if before < after {
            write!(f, "+{}", Amount(after - before, unit))
        } else {
            write!(f, "-{}", Amount(before - after, unit))
        }
    }
}

#[tactic(auto, unfolding(crate::specs::Boxes::both_text))]
impl fmt::Display for Comparison<'_> {
    ghost output = { λ c. Some (both_text c.0.2.now c.0.0 c.0.1) };

    fn fmt<W: fmt::Write>(&self, f: &mut fmt::Formatter<W>) -> fmt::Result {
        let Difference(before, after, unit) = self.0;
        let (earlier, later) = (Amount(before, unit), Amount(after, unit));
        write!(f, "{earlier} before, {later} after")?;
        if is_also_in_full(before.max(after), unit) {
            write!(f, " ({before} and {after} {unit})")?;
        }
        Ok(())
    }
}

#[tactic(auto, unfolding(crate::specs::Boxes::paint_text, crate::specs::Boxes::change_paint))]
impl fmt::Display for Paint<'_> {
    ghost output = { λ p. Some (paint_text (p.0).mark (frame_data p.0)) };

    fn fmt<W: fmt::Write>(&self, f: &mut fmt::Formatter<W>) -> fmt::Result {
        let Mark::Changed { was } = self.0.mark else {
            return Ok(());
        };
        let (before, after) = (was, self.0.whole.saturating_sub(was));
        if before == after {
            return Ok(());
        }
        let all = before as u128 + after as u128;
        let ((red, green, blue), change) = if before < after {
            ((214, 40, 40), after - before)
        } else {
            ((29, 95, 191), before - after)
        };
        let (red, green, blue) = (
            shade(red, change, all),
            shade(green, change, all),
            shade(blue, change, all),
        );
        write!(f, " style=\"fill:rgb({red},{green},{blue})\"")
    }
}

/// A frame, printed as the class of its box.
#[derive(Clone, Copy)]
pub(crate) struct Class<'a>(pub Frame<'a>);

#[tactic(auto, unfolding(crate::specs::Boxes::class_text, crate::specs::Boxes::key_class))]
impl fmt::Display for Class<'_> {
    ghost output = { λ c. Some (class_text (c.0).mark (frame_data c.0)) };

    fn fmt<W: fmt::Write>(&self, f: &mut fmt::Formatter<W>) -> fmt::Result {
        let Frame {
            depth,
            key,
            whole,
            mark,
            ..
        } = self.0;
        match mark {
            Mark::Plain if depth == 0 => write!(f, "root"),
            Mark::Plain if key == "unused_capacity" => write!(f, "spare"),
            Mark::Plain => write!(f, "k{}", Key::hash_of(key) % 12),
            Mark::Warned => write!(f, "warned"),
            Mark::Changed { was } => write!(f, "{}", change_class(was, whole.saturating_sub(was))),
        }
    }
}

/// The class of a path by its bytes before and after.
#[tactic(auto, unfolding(crate::specs::Boxes::change_class))]
fn change_class(before: usize, after: usize) -> &'static str
    ensures { result.now ≡ change_class before after }
{
    let difference = if before < after {
        after - before
    } else {
        before - after
    };
    if before == after {
        "same"
    } else if before as u128 + (after as u128) < 2 * difference as u128 {
        "full"
    } else {
        "moved"
    }
}

/// The classes that hide the texts of a box that is so many millionths wide, in a window of 1000 pixels: both if it is
/// below 24 pixels, and otherwise the figure, if it may not fit beside a key of so many bytes.
#[tactic(auto, unfolding(crate::specs::Boxes::fit_text))]
pub(crate) fn fit(units: u128, bytes: usize) -> &'static str
    ensures { result.now ≡ fit_text units bytes }
{
    if units < 24_000 {
        " thin brief"
    } else if units < 1000 * (8 * bytes as u128 + 120) {
        " brief"
    } else {
        ""
    }
}

/// The place of a number of bytes on a line of a million units that stands for all bytes, rounded down.
pub(crate) fn edge(all: u128, bytes: u128) -> u128
    requires { bytes < 2 ^ 65 }
    ensures { result ≡ edge all bytes }
{
    if all == 0 {
        return 0;
    }
    bytes * 1_000_000 / all
}

/// The width of a frame's box.
fn width(all: u128, frame: &Frame<'_>) -> u128
    ensures { result ≡ width all (frame_data frame.now) }
{
    let before = frame.before as u128;
    edge(all, before + frame.whole as u128).saturating_sub(edge(all, before))
}

/// Whether a frame has a box: its width is neither 0 nor less than the least width.
pub(crate) fn is_drawn(least: u32, all: u128, frame: &Frame<'_>) -> bool
    ensures { result ≡ is_drawn least all (frame_data frame.now) }
{
    let width = width(all, frame);
    width != 0 && width >= least as u128
}

/// A frame, the share of its bytes and their unit, printed as the frame's bytes and their share of all.
#[derive(Clone, Copy)]
struct Declared<'a>(Frame<'a>, Percent, &'a str);

#[tactic(auto, unfolding(crate::specs::Boxes::declared_text))]
impl fmt::Display for Declared<'_> {
    ghost output = { λ d. Some (declared_text d.2.now d.1.0 (frame_data d.0)) };

    fn fmt<W: fmt::Write>(&self, f: &mut fmt::Formatter<W>) -> fmt::Result {
        let Declared(frame, share, unit) = *self;
        let whole = Full(frame.whole, unit);
        if frame.own == frame.whole {
            return write!(f, "{whole}, {share}% of all");
        }
        let own = Full(frame.own, unit);
        write!(f, "{whole}, {share}% of all\n{own} of its own")
    }
}

/// A frame, printed as the title of its box after the key.
#[derive(Clone, Copy)]
struct Title<'a>(Declared<'a>);

#[tactic(auto, unfolding(crate::specs::Boxes::title_text))]
impl fmt::Display for Title<'_> {
    ghost output = { λ t. Some (title_text t.0.2.now t.0.1.0 t.0.0.mark (frame_data t.0.0)) };

    fn fmt<W: fmt::Write>(&self, f: &mut fmt::Formatter<W>) -> fmt::Result {
        let declared = self.0;
        let Declared(frame, _, unit) = declared;
        match frame.mark {
            Mark::Plain => write!(f, "{declared}"),
            Mark::Warned => write!(
                f,
                "{declared}\ndeclared smaller than its parts: see the warnings"
            ),
            Mark::Changed { was } => {
                let change = Difference(was, frame.whole.saturating_sub(was), unit);
                write!(f, "{}\n{change}", Comparison(change))
            }
        }
    }
}

/// A frame and the unit of its bytes, printed as the figure after its key.
#[derive(Clone, Copy)]
struct Figure<'a>(Frame<'a>, &'a str);

#[tactic(auto, unfolding(crate::specs::Boxes::figure_text))]
impl fmt::Display for Figure<'_> {
    ghost output = { λ g. Some (figure_text g.1.now g.0.mark (frame_data g.0)) };

    fn fmt<W: fmt::Write>(&self, f: &mut fmt::Formatter<W>) -> fmt::Result {
        let (whole, unit) = (self.0.whole, self.1);
        match self.0.mark {
            Mark::Plain | Mark::Warned => write!(f, "{}", Amount(whole, unit)),
            Mark::Changed { was } => {
                write!(f, "{}", Difference(was, whole.saturating_sub(was), unit))
            }
        }
    }
}

/// Appends the beginning of a frame's box.
fn push_viewport(all: u128, frame: &Frame<'_>, text: &mut String) -> Result<(), AllocError>
    ensures { OnOk result (AppendsText text.old text.new (viewport all (frame_data frame.now))) }
{
    let units = width(all, frame);
    let (class, fit) = (Class(*frame), fit(units, frame.key.len()));
    let (x, width) = (Place(edge(all, frame.before as u128)), Place(units));
    let y = 54 + 18 * frame.depth as u128;
    write!(
        text,
        "<svg class=\"b {class}{fit}\" x=\"{x}\" y=\"{y}\" width=\"{width}\" height=\"18\">"
    )?;
    Ok(())
}

/// Appends the box of a frame. The unit is markup. The only error is that memory runs out.
pub(crate) fn push_element(
    alloc: Global,
    unit: &str,
    all: u128,
    frame: &Frame<'_>,
    text: &mut String,
) -> Result<(), AllocError>
    ensures { OnOk result (AppendsText text.old text.new (element unit.now all (frame_data frame.now))) }
{
    push_viewport(all, frame, text)?;
    let key = escaped(alloc, frame.key)?;
    let share = Percent(edge(all, frame.whole as u128));
    let title = Title(Declared(*frame, share, unit));
    let (paint, figure) = (Paint(*frame), Figure(*frame, unit));
    write!(
        text,
        "<title>{key}\n{title}</title><rect width=\"100%\" height=\"100%\" rx=\"2\"{paint}/>\
        <text x=\"4\" y=\"13\">{key}<tspan class=\"n\" dx=\"8\">{figure}</tspan></text></svg>\n"
    )?;
    Ok(())
}
