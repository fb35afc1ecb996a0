//! The picture of a history of profiles.
ghost use Rattle.std.specs.Prelude.{◌≡◌, ◌↔◌, IfOk, IsErrOf, OnOk, map, option_copied, string_bytes};
ghost use Rattle.allocative_graph.specs.Format.{AppendsText};
ghost use Rattle.allocative_graph.specs.Graph.{ExceedWord, default};
ghost use Rattle.allocative_graph.specs.Path.{texts};
ghost use Rattle.allocative_picture.specs.History.{IsHistoryPicture, chart, chart_heading, colour_of, first_graph, first_of, greatest, inner_opening, last_graph, last_of, line, name_of, names, path_line, path_lines, point, points, row, segment, segments, sizes, totals, y_of};
ghost use Rattle.allocative_picture.specs.Boxes.{edge};
ghost use Rattle.allocative_picture.specs.Table.{weight_of};

use crate::boxes::edge;
use crate::escape::escaped;
use crate::figures::{Full, Place};
use crate::fixed::{CHANGE, CHART, CLOSING};
use crate::frame::Frame;
use crate::options::Options;
use crate::page::{Subject, Totals, push_opening};
use crate::picture::{change_of, height_of, push_change, push_content};
use crate::table::{Heavy, most_changed};
use allocative_graph::flamegraph::{FlameGraph, push_path};
use allocative_graph::refusal::Refusal;
use std::alloc::{AllocError, Global};

/// One profile of a history.
#[derive(Drop)]
pub struct Moment<'a> {
    /// The name of the profile. It may be any text.
    pub name: &'a str,
    /// The profile.
    pub graph: FlameGraph,
}

/// The scale of a chart: the number of the last moment, and the bytes at the top.
#[derive(Clone, Copy)]
pub(crate) struct Scale {
    last: usize,
    top: usize,
}

impl Scale {
    /// The place of the moment with a number.
    fn x(self, number: usize) -> Place
        ensures { result.0 ≡ edge self.last number }
    {
        Place(edge(self.last as u128, number as u128))
    }

    /// The height of some bytes in pixels from the top.
    fn y(self, bytes: usize) -> u128
        ensures { result ≡ y_of self bytes }
    {
        if self.top == 0 {
            return 150;
        }
        150_u128.saturating_sub(bytes as u128 * 150 / self.top as u128)
    }
}

/// The graph of the first moment, or the graph given, which is empty, if there is none.
pub fn first_graph<'a>(moments: &'a [Moment<'_>], none: &'a FlameGraph) -> &'a FlameGraph
    requires { none.now ≡ default }
    ensures { result.now ≡ first_graph moments.now }
{
    match moments.first() {
        Some(moment) => &moment.graph,
        None => none,
    }
}

/// The graph of the last moment, or the graph given, which is empty, if there is none.
pub fn last_graph<'a>(moments: &'a [Moment<'_>], none: &'a FlameGraph) -> &'a FlameGraph
    requires { none.now ≡ default }
    ensures { result.now ≡ last_graph moments.now }
{
    match moments.last() {
        Some(moment) => &moment.graph,
        None => none,
    }
}

/// The total of each moment.
fn totals(alloc: Global, moments: &[Moment<'_>]) -> Result<Vec<usize>, AllocError>
    ensures { IfOk result (λ made. made.items ≡ totals moments.now) }
{
    let mut made = Vec::new(alloc);
    for moment in moments {
        made.push(moment.graph.total_size())?;
    }
    Ok(made)
}

/// The own bytes of a path in each moment.
fn sizes(
    alloc: Global,
    path: &[&'static str],
    moments: &[Moment<'_>],
) -> Result<Vec<usize>, AllocError>
    ensures { IfOk result (λ made. made.items ≡ sizes (texts path.now) moments.now) }
{
    let mut made = Vec::new(alloc);
    for moment in moments {
        made.push(moment.graph.size_at(path))?;
    }
    Ok(made)
}

/// The greatest of some numbers, and 0 if there is none.
fn greatest(numbers: &[usize]) -> usize
    ensures { result ≡ greatest numbers.now }
{
    let mut most = 0;
    for number in numbers {
        most = most.max(*number);
    }
    most
}

/// The first and the last of some numbers, and 0 for both if there is none.
fn ends(numbers: &[usize]) -> (usize, usize)
    ensures first { result.0 ≡ first_of numbers.now }
    ensures last { result.1 ≡ last_of numbers.now }
{
    let first = numbers.first().copied().unwrap_or(0);
    let last = numbers.last().copied().unwrap_or(0);
    (first, last)
}

/// Appends the part of a line that ends at the moment with a number, from so many bytes at the moment before to so many
/// at this one.
#[tactic(auto, unfolding(crate::specs::History::segment))]
fn push_segment(
    scale: Scale,
    number: usize,
    was: usize,
    bytes: usize,
    text: &mut String,
) -> Result<(), AllocError>
    ensures { OnOk result (AppendsText text.old text.new (segment scale number was bytes)) }
{
    let (x1, y1) = (scale.x(number.saturating_sub(1)), scale.y(was));
    let (x2, y2) = (scale.x(number), scale.y(bytes));
    write!(
        text,
        "<line x1=\"{x1}\" y1=\"{y1}\" x2=\"{x2}\" y2=\"{y2}\"/>\n"
    )?;
    Ok(())
}

/// Appends the parts of a line through so many bytes in each moment, with those of the first given.
fn push_segments(
    scale: Scale,
    first: usize,
    sizes: &[usize],
    text: &mut String,
) -> Result<(), AllocError>
    ensures { OnOk result (AppendsText text.old text.new (segments scale 0 first sizes.now)) }
{
    let mut was = first;
    for (number, bytes) in sizes.iter().enumerate() {
        push_segment(scale, number, was, *bytes, text)?;
        was = *bytes;
    }
    Ok(())
}

/// The number of the colour of the line with a number: 0 for the total, which is the first line, and one of eight for
/// the others.
fn colour_of(number: usize) -> usize
    ensures { result ≡ colour_of number }
{
    match number {
        0 => 0,
        _ => 1 + (number - 1) % 8,
    }
}

/// Appends the row of the line with a number in the legend, from its first and its last bytes. The name and the unit
/// are markup.
#[tactic(auto, unfolding(crate::specs::History::row))]
fn push_row(
    unit: &str,
    number: usize,
    name: &str,
    ends: (usize, usize),
    text: &mut String,
) -> Result<(), AllocError>
    ensures { OnOk result (AppendsText text.old text.new (row unit.now number name.now ends.0 ends.1)) }
{
    let (before, after) = ends;
    let figures = Totals(Subject::Change { before, after }, unit);
    let y = 178 + 16 * number as u128;
    write!(
        text,
        "<svg y=\"{y}\" height=\"16\"><line x1=\"3\" x2=\"14\" y1=\"8\" y2=\"8\"/>\
        <text class=\"row\" x=\"20\" y=\"12\">{figures}<tspan dx=\".7em\">{name}</tspan></text></svg></g>\n"
    )?;
    Ok(())
}

/// Appends the line with a number through so many bytes in each moment, and its row in the legend. The name and the
/// unit are markup.
#[tactic(auto, unfolding(crate::specs::History::line))]
fn push_line(
    scale: Scale,
    unit: &str,
    number: usize,
    name: &str,
    sizes: &[usize],
    text: &mut String,
) -> Result<(), AllocError>
    ensures { OnOk result (AppendsText text.old text.new (line scale unit.now number name.now sizes.now)) }
{
    let colour = colour_of(number);
    let ends = ends(sizes);
    write!(text, "<g class=\"line l{colour}\"><title>{name}</title>\n")?;
    push_segments(scale, ends.0, sizes, text)?;
    push_row(unit, number, name, ends, text)?;
    Ok(())
}

/// Appends the line of a path through its own bytes in each moment.
fn push_path_line(
    alloc: Global,
    scale: Scale,
    unit: &str,
    moments: &[Moment<'_>],
    number: usize,
    changed: &Heavy,
    text: &mut String,
) -> Result<(), AllocError>
    ensures { OnOk result
        (AppendsText text.old text.new (path_line scale unit.now moments.now number (weight_of changed.now))) }
{
    let path = changed.path.as_slice();
    let mut keys = String::new(alloc);
    push_path(path, &mut keys)?;
    let name = escaped(alloc, keys.as_str())?;
    let bytes = sizes(alloc, path, moments)?;
    push_line(scale, unit, number, name.as_str(), bytes.as_slice(), text)?;
    Ok(())
}

/// Appends the lines of some paths.
fn push_path_lines(
    alloc: Global,
    scale: Scale,
    unit: &str,
    moments: &[Moment<'_>],
    changed: &[Heavy],
    text: &mut String,
) -> Result<(), AllocError>
    ensures { OnOk result
        (AppendsText text.old text.new (path_lines scale unit.now moments.now 1 (map weight_of changed.now))) }
{
    for (index, one) in changed.iter().enumerate() {
        push_path_line(alloc, scale, unit, moments, index + 1, one, text)?;
    }
    Ok(())
}

/// Appends the point of the total of the moment with a number, with a title.
fn push_point(
    alloc: Global,
    scale: Scale,
    unit: &str,
    number: usize,
    moment: &Moment<'_>,
    text: &mut String,
) -> Result<(), AllocError>
    ensures { OnOk result (AppendsText text.old text.new (point scale unit.now number moment.now)) }
{
    let name = escaped(alloc, moment.name)?;
    let bytes = moment.graph.total_size();
    let (x, y, figure) = (scale.x(number), scale.y(bytes), Full(bytes, unit));
    write!(
        text,
        "<circle cx=\"{x}\" cy=\"{y}\" r=\"4\"><title>{name}\n{figure}</title></circle>\n"
    )?;
    Ok(())
}

/// Appends the points of the totals of some moments.
fn push_points(
    alloc: Global,
    scale: Scale,
    unit: &str,
    moments: &[Moment<'_>],
    text: &mut String,
) -> Result<(), AllocError>
    ensures { OnOk result (AppendsText text.old text.new (points scale unit.now 0 moments.now)) }
{
    for (number, moment) in moments.iter().enumerate() {
        push_point(alloc, scale, unit, number, moment, text)?;
    }
    Ok(())
}

/// Appends the title above a chart of so many moments, the greatest total, and the beginning of the chart with its
/// frame. The title and the unit are markup.
#[tactic(auto, unfolding(crate::specs::History::chart_heading))]
fn push_chart_heading(
    title: &str,
    unit: &str,
    moments: usize,
    top: usize,
    text: &mut String,
) -> Result<(), AllocError>
    ensures { OnOk result (AppendsText text.old text.new (chart_heading title.now unit.now moments top)) }
{
    let figure = Full(top, unit);
    write!(
        text,
        "<text class=\"title\" x=\"8\" y=\"22\">{title}</text>\n\
        <text class=\"sum\" x=\"8\" y=\"42\">Profiles: {moments}, the greatest total: {figure}</text>\n{CHART}"
    )?;
    Ok(())
}

/// The name of a moment, and no text if there is none.
fn name_of<'a>(moment: Option<&Moment<'a>>) -> &'a str
    ensures { result.now ≡ name_of (option_copied moment.entry) }
{
    match moment {
        Some(moment) => moment.name,
        None => "",
    }
}

/// Appends the names of the first and the last moment, and the end of the chart.
fn push_names(alloc: Global, moments: &[Moment<'_>], text: &mut String) -> Result<(), AllocError>
    ensures { OnOk result (AppendsText text.old text.new (names moments.now)) }
{
    let (first, last) = (name_of(moments.first()), name_of(moments.last()));
    let (first, last) = (escaped(alloc, first)?, escaped(alloc, last)?);
    write!(
        text,
        "<svg y=\"154\" width=\"49%\" height=\"18\"><text class=\"sum\" y=\"12\">{first}</text></svg>\n\
        <svg x=\"51%\" y=\"154\" width=\"49%\" height=\"18\"><text class=\"sum\" x=\"100%\" y=\"12\" \
        text-anchor=\"end\">{last}</text></svg>\n</svg>\n"
    )?;
    Ok(())
}

/// Appends the chart of some moments with the lines of some paths. The title and the unit are markup.
fn push_chart(
    alloc: Global,
    title: &str,
    unit: &str,
    moments: &[Moment<'_>],
    changed: &[Heavy],
    text: &mut String,
) -> Result<(), AllocError>
    ensures { OnOk result
        (AppendsText text.old text.new (chart title.now unit.now (map weight_of changed.now) moments.now)) }
{
    let totals = totals(alloc, moments)?;
    let top = greatest(totals.as_slice());
    let last = moments.len().saturating_sub(1);
    let scale = Scale { last, top };
    push_chart_heading(title, unit, moments.len(), top, text)?;
    push_line(scale, unit, 0, "all", totals.as_slice(), text)?;
    push_path_lines(alloc, scale, unit, moments, changed, text)?;
    push_points(alloc, scale, unit, moments, text)?;
    push_names(alloc, moments, text)?;
    Ok(())
}

/// Appends the beginning of the picture of the change, at a place and with a height in pixels.
#[tactic(auto, unfolding(crate::specs::History::inner_opening))]
fn push_inner_opening(place: u128, height: u128, text: &mut String) -> Result<(), AllocError>
    ensures { OnOk result (AppendsText text.old text.new (inner_opening place height)) }
{
    write!(text, "<svg y=\"{place}\" height=\"{height}\">\n")?;
    Ok(())
}

/// The picture of a history of profiles, the oldest first, as an SVG document.
///
/// A chart has the totals over time, with one line for each of the paths that grew or shrank most from the first to the
/// last profile by their own size, at most so many; a path that did neither has none. Below the chart is the picture of
/// the change from the first to the last profile, as `change_picture` draws it. The title is above the chart.
///
/// It returns `TooLarge` exactly if the totals of the first and the last profile together exceed `usize::MAX`. The only
/// other error is that memory runs out.
pub fn history_picture(
    alloc: Global,
    moments: &[Moment<'_>],
    most: usize,
    options: &Options<'_>,
) -> Result<String, Refusal>
    ensures text { IfOk result (λ made. IsHistoryPicture options.now most moments.now (string_bytes made)) }
    ensures too_large { IsErrOf result Refusal.TooLarge
        ↔ ExceedWord (first_graph moments.now) (last_graph moments.now) }
    ensures never_open { ¬ (IsErrOf result Refusal.Open) }
{
    let none = FlameGraph::default(alloc);
    let first = first_graph(&*moments, &none);
    let last = last_graph(&*moments, &none);
    let mut frames: Vec<Frame<'static>> = Vec::new(alloc);
    let paths = push_change(first, last, options, &mut frames)?;
    let changed = most_changed(alloc, first, last, most)?;
    let (subject, frames) = (change_of(first, last), frames.as_slice());
    let place = 262 + 16 * changed.len() as u128;
    let height = height_of(subject, frames, options);
    let title = escaped(alloc, options.title)?;
    let unit = escaped(alloc, options.unit)?;
    let (title, unit) = (title.as_str(), unit.as_str());
    let mut text = String::new(alloc);
    push_opening(place + height, title, &mut text)?;
    push_chart(alloc, title, unit, moments, changed.as_slice(), &mut text)?;
    push_inner_opening(place, height, &mut text)?;
    push_content(alloc, CHANGE, subject, frames, paths, options, &mut text)?;
    text.push_str(CLOSING)?;
    text.push_str("</svg>\n")?;
    Ok(text)
}
