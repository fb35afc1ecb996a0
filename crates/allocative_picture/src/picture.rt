//! The pictures of profiles and of changes.
ghost use Rattle.std.specs.Prelude.{◌≡◌, ◌++◌, ◌↔◌, ◌<◌, ◌^◌, IfErr, IfOk, IsErrOf, OnOk, length, map};
ghost use Rattle.allocative_graph.specs.Format.{AppendsText, ReturnsText};
ghost use Rattle.allocative_graph.specs.Graph.{ExceedWord};
ghost use Rattle.allocative_picture.specs.Frames.{frame_data, frames_of, mark_by};
ghost use Rattle.allocative_picture.specs.Picture.{change_drawing, change_frames, change_of, content_of, drawing, drawing_of, height_of, profile_drawing, wide_of};

use crate::escape::escaped;
use crate::fixed::CLOSING;
use crate::frame::Frame;
use crate::frames::{Marks, Shown, graph_of_warned, push_frames, push_wide};
use crate::options::Options;
use crate::page::{Subject, bottom, push_boxes, push_heading, push_opening, push_warnings};
use allocative_graph::flamegraph::FlameGraph;
use allocative_graph::refusal::Refusal;
use std::alloc::{AllocError, Global};

/// The picture of a flame graph, as an SVG document.
///
/// The root is at the top, and each path is below its parent. A box is as wide as the bytes of its path and of all
/// paths below it. The only error is that memory runs out.
pub fn picture(alloc: Global, graph: &FlameGraph, options: &Options<'_>) -> Result<String, Refusal>
    ensures text { ReturnsText result (profile_drawing options.now graph.now) }
    ensures memory { IfErr result (λ r. r ≡ Refusal.Memory) }
{
    let subject = Subject::Profile {
        bytes: graph.total_size(),
    };
    let warned = graph_of_warned(alloc, options.warned)?;
    let mut frames: Vec<Frame<'static>> = Vec::new(alloc);
    let paths = push_graph(subject, Marks::Warned, &warned, graph, options, &mut frames)?;
    Ok(draw_wide(alloc, subject, frames.as_slice(), paths, options)?)
}

/// The picture of the change from one flame graph to another, as an SVG document.
///
/// It is the picture of their sum: a box is as wide as its bytes before and after together. It is red if bytes grew
/// and blue if they shrank, and its colour is the fuller the greater the difference is relative to the sum.
///
/// It returns `TooLarge` exactly if the two totals together exceed `usize::MAX`. The only other error is that memory
/// runs out.
pub fn change_picture(
    alloc: Global,
    before: &FlameGraph,
    after: &FlameGraph,
    options: &Options<'_>,
) -> Result<String, Refusal>
    ensures text { ReturnsText result (change_drawing options.now before.now after.now) }
    ensures too_large { IsErrOf result Refusal.TooLarge ↔ ExceedWord before.now after.now }
    ensures never_open { ¬ (IsErrOf result Refusal.Open) }
{
    let subject = change_of(before, after);
    let mut frames: Vec<Frame<'static>> = Vec::new(alloc);
    let paths = push_change(before, after, options, &mut frames)?;
    Ok(draw_wide(alloc, subject, frames.as_slice(), paths, options)?)
}

/// The subject of the picture of the change from one flame graph to another.
pub(crate) fn change_of(before: &FlameGraph, after: &FlameGraph) -> Subject
    ensures { result ≡ change_of before.now after.now }
{
    Subject::Change {
        before: before.total_size(),
        after: after.total_size(),
    }
}

/// Appends the frames of the change from one flame graph to another that are wide enough for a box, and returns the
/// number of all its paths.
///
/// It returns `TooLarge` exactly if the two totals together exceed `usize::MAX`. The only other error is that memory
/// runs out.
pub(crate) fn push_change(
    before: &FlameGraph,
    after: &FlameGraph,
    options: &Options<'_>,
    frames: &mut Vec<Frame<'static>>,
) -> Result<usize, Refusal>
    ensures frames { OnOk result (map frame_data frames.new.items ≡ map frame_data frames.old.items
        ++ wide_of (change_of before.now after.now) options.now (change_frames options.now before.now after.now)) }
    ensures paths { IfOk result (λ paths. paths ≡ length (change_frames options.now before.now after.now)) }
    ensures too_large { IsErrOf result Refusal.TooLarge ↔ ExceedWord before.now after.now }
    ensures never_open { ¬ (IsErrOf result Refusal.Open) }
{
    if after.total_size() > usize::MAX - before.total_size() {
        return Err(Refusal::TooLarge);
    }
    let subject = change_of(before, after);
    let mut both = before.clone()?;
    both.add(after.clone()?)?;
    Ok(push_graph(subject, Marks::Earlier, before, &both, options, frames)?)
}

/// Appends the frames of a flame graph that are wide enough for a box, with the marks that another one gives, and
/// returns the number of its paths.
fn push_graph(
    subject: Subject,
    marks: Marks,
    other: &FlameGraph,
    graph: &FlameGraph,
    options: &Options<'_>,
    frames: &mut Vec<Frame<'static>>,
) -> Result<usize, AllocError>
    ensures frames { OnOk result (map frame_data frames.new.items ≡ map frame_data frames.old.items
        ++ wide_of subject options.now (frames_of options.now.order (mark_by marks other.now) graph.now)) }
    ensures paths { IfOk result
        (λ paths. paths ≡ length (frames_of options.now.order (mark_by marks other.now) graph.now)) }
{
    let shown = Shown {
        marks,
        other,
        least: options.narrowest,
        all: subject.all(),
        order: options.order,
    };
    let mut path: Vec<&'static str> = Vec::new(*frames.allocator());
    // The contract of `total_size` says that all bytes fit a `usize`, so no sum below overflows.
    let _all = graph.total_size();
    push_frames(&shown, graph, Some(other), &mut path, 0, frames)?;
    let paths = graph.path_count().ok_or(AllocError)?;
    Ok(paths)
}

/// The picture of some frames, as an SVG document. The frames are expected in the order of paths, with the totals of
/// the subject. Otherwise the boxes may not fit together.
///
/// The only error is that memory runs out.
pub fn draw(
    alloc: Global,
    subject: Subject,
    frames: &[Frame<'_>],
    options: &Options<'_>,
) -> Result<String, AllocError>
    ensures { ReturnsText result (drawing subject options.now (map frame_data frames.now)) }
{
    let mut wide = Vec::new(alloc);
    for frame in frames {
        push_wide(options.narrowest, subject.all(), *frame, &mut wide)?;
    }
    draw_wide(alloc, subject, wide.as_slice(), frames.len(), options)
}

/// The picture of so many paths, if the frames are those that are wide enough for a box.
fn draw_wide(
    alloc: Global,
    subject: Subject,
    frames: &[Frame<'_>],
    paths: usize,
    options: &Options<'_>,
) -> Result<String, AllocError>
    ensures { ReturnsText result
        (drawing_of subject options.now (map frame_data frames.now) paths) }
{
    let height = height_of(subject, frames, options);
    let title = escaped(alloc, options.title)?;
    let title = title.as_str();
    let mut text = String::new(alloc);
    push_opening(height, title, &mut text)?;
    push_content(alloc, title, subject, frames, paths, options, &mut text)?;
    text.push_str(CLOSING)?;
    Ok(text)
}

/// The height in pixels of a picture of the frames that are wide enough for a box.
pub(crate) fn height_of(subject: Subject, frames: &[Frame<'_>], options: &Options<'_>) -> u128
    ensures height { result ≡ height_of subject options.now (map frame_data frames.now) }
    ensures bound { result < 2 ^ 80 }
{
    let (_, legend) = subject.legend();
    bottom(frames) + 8 + 16 * options.warned.len() as u128 + legend
}

/// Appends what stands between the beginning and the end of the picture of so many paths, if the frames are those that
/// are wide enough for a box. The title is markup.
pub(crate) fn push_content(
    alloc: Global,
    title: &str,
    subject: Subject,
    frames: &[Frame<'_>],
    paths: usize,
    options: &Options<'_>,
    text: &mut String,
) -> Result<(), AllocError>
    ensures { OnOk result (AppendsText text.old text.new
        (content_of title.now subject options.now (map frame_data frames.now) paths)) }
{
    let unit = escaped(alloc, options.unit)?;
    let unit = unit.as_str();
    let (legend, _) = subject.legend();
    push_heading(title, unit, subject, frames.len(), paths, text)?;
    text.push_str(legend)?;
    push_boxes(alloc, unit, subject.all(), frames, text)?;
    push_warnings(alloc, bottom(frames) + 14, options.warned, text)?;
    Ok(())
}
