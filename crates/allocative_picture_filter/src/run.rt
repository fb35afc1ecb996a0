//! The whole program, over any reader and two writers.
ghost use Rattle.std.specs.List.{AllZip};
ghost use Rattle.std.specs.Prelude.{◌≡◌, ◌≢◌, ◌+◌, ◌^◌, ◌≤◌, ◌⊎◌, ◌↔◌, IsTrue, true, false, cond, ℕ, OnOk, IfOk, IfErr, IfSome, IsErrOf, List, map, string_bytes};
ghost use Rattle.std.specs.Io.KnownBytes.{Appends};
ghost use Rattle.allocative_graph.specs.Graph.{Graph, default, total};
ghost use Rattle.allocative_io.specs.Streams.{AppendsBeginning};
ghost use Rattle.allocative_picture_filter.specs.Fault.{IsReadingOf};
ghost use Rattle.allocative_picture.specs.History.{first_graph, last_graph};
ghost use Rattle.allocative_picture_filter.specs.Run.{sourced, without_mark, named_texts, Reads, Adds, AddUp, StopsReading, StopsAdding, StopsAddingUp, StopsSums, StopsReadingEach, StopsMoments, StopsGathering, Stops, IsMade, IsMadeOfSums, IsMadeOfMoments, IsMomentOf, IsMomentShown, DrawsMoments, IsShown, IsOptions, IsTableOf, Shows, Writes, guide_of, guide_of_moments, is_change, is_outlined, limit_of, part_of, renamed, size_of, turned, within};
ghost use Rattle.allocative_graph.specs.Path.{Key};
ghost use Rattle.allocative_picture.specs.Views.{IsOutline, new_key};

use crate::arguments::Arguments;
use crate::differential::is_differential;
use crate::fault::{Fault, Source, name_of};
use crate::names::names_of;
use allocative_graph::flamegraph::FlameGraph;
use allocative_graph::key::Key;
use allocative_graph::read::ReadFault;
use allocative_graph::refusal::Refusal;
use allocative_io::{ReadError, read_input, write_text};
use allocative_picture::history::{Moment, first_graph, history_picture, last_graph};
use allocative_picture::options::Options;
use allocative_picture::picture::{change_picture, picture};
use allocative_picture::table::{Size, growth_table, table};
use allocative_picture::views::{by_last_key, fold_keys, only, outline, reverse, without};
use std::alloc::{AllocError, Global};
use std::collections::HashMap;
use std::io::{Read, Write};

/// A text, and where it comes from. Its bytes are kept as long as the program runs, since the keys of a graph are
/// parts of them.
#[derive(Clone, Copy)]
pub struct Text<'a> {
    /// Where the text comes from.
    pub source: Source<'a>,
    /// The bytes, without a byte-order mark at their beginning.
    pub bytes: &'static [u8],
}

// The bytes behind a byte-order mark at their beginning, or all of them if there is none.
fn without_mark(bytes: &'static [u8]) -> &'static [u8]
    ensures { result.now ≡ without_mark bytes.now }
{
    if bytes.starts_with(b"\xEF\xBB\xBF") {
        &bytes[3..]
    } else {
        bytes
    }
}

/// Reads all bytes of a reader, and leaves out a byte-order mark at their beginning. It fails with `Fault::Reading` if
/// a read fails. The only other error is `Fault::Memory`.
pub fn read_text<'a, R: Read>(
    alloc: Global,
    source: Source<'a>,
    input: &mut R,
) -> Result<Text<'a>, Fault<'a>>
    ensures ok { IfOk result
        (λ text. IfSome (R.remaining input.old) (λ known. text.bytes.now ≡ without_mark known)) }
    ensures source { IfOk result (λ text. text.source ≡ source.entry) }
    ensures err { IfErr result (λ f. (f ≡ Fault.Memory) ⊎ IsReadingOf source.entry f) }
{
    match read_input(alloc, input) {
        Ok(bytes) => Ok(Text {
            source,
            bytes: without_mark(bytes.leak()),
        }),
        Err(ReadError::Memory) => Err(Fault::Memory),
        Err(ReadError::Failed(kind)) => Err(Fault::Reading(source, kind)),
    }
}

// Writes a text to the output. If a write fails, a beginning of the text is written.
fn write_output<W: Write>(output: &mut W, text: &str) -> Result<(), Fault<'static>>
    ensures whole { OnOk result (Appends (W.contents output.old) (W.contents output.new) text.now) }
    ensures beginning { AppendsBeginning (W.contents output.old) (W.contents output.new) text.now }
    ensures err { IfErr result (λ f. f ≡ Fault.Writing) }
{
    write_text(output, text).map_err(|_| Fault::Writing)
}

// The graph of a text.
fn graph_of<'a>(alloc: Global, text: &Text<'a>) -> Result<FlameGraph, Fault<'a>>
    ensures ok { IfOk result (Reads (sourced text.now)) }
    ensures stops { IfErr result (StopsReading (sourced text.now)) }
{
    let Ok(lines) = str::from_utf8(text.bytes) else {
        return Err(Fault::NotText(text.source));
    };
    if is_differential(lines) {
        return Err(Fault::TwoCounts(text.source));
    }
    match FlameGraph::read(alloc, lines) {
        Ok(graph) => Ok(graph),
        Err(ReadFault::Memory) => Err(Fault::Memory),
        Err(ReadFault::TooLarge) => Err(Fault::TooLarge),
        Err(ReadFault::Line(number, wrong)) => Err(Fault::Line(text.source, number, wrong)),
    }
}

// Adds the graph of a text to another.
#[tactic(auto, using(crate::proofs::Faults::stopping))]
fn add_text<'a>(alloc: Global, text: &Text<'a>, graph: &mut FlameGraph) -> Result<(), Fault<'a>>
    ensures ok { OnOk result (Adds graph.old (sourced text.now) graph.new) }
    ensures stops { IfErr result (StopsAdding graph.old (sourced text.now)) }
{
    graph.add(graph_of(alloc, text)?)?;
    Ok(())
}

// The graph that some texts add up to.
#[tactic(auto, using(crate::proofs::Sums::adding))]
fn graph_of_all<'a>(alloc: Global, texts: &[Text<'a>]) -> Result<FlameGraph, Fault<'a>>
    ensures ok { IfOk result (AddUp (map sourced texts.now)) }
    ensures stops { IfErr result (StopsAddingUp default (map sourced texts.now)) }
{
    let mut graph = FlameGraph::default(alloc);
    for text in texts {
        add_text(alloc, text, &mut graph)?;
    }
    Ok(graph)
}

// The texts in the order in which they are named, with the input at its place if it is read too.
fn named_texts<'a, R: Read>(
    alloc: Global,
    files: &[Text<'a>],
    input_at: Option<usize>,
    input: &mut R,
) -> Result<Vec<Text<'a>>, Fault<'a>>
    ensures ok { IfOk result (λ texts. IfSome (R.remaining input.old)
        (λ known. map sourced texts.items ≡ named_texts files.now input_at known)) }
    ensures unread { IfErr result (StopsGathering input_at) }
{
    let mut texts = Vec::from_slice(alloc, files)?;
    let Some(place) = input_at else {
        return Ok(texts);
    };
    let text = read_text(alloc, Source::Input, input)?;
    let at = place.min(files.len());
    texts.insert(at, text)?;
    Ok(texts)
}

// Whether a profile is asked not to be empty, and has 0 bytes.
fn is_refused(not_empty: bool, profile: &FlameGraph) -> bool
    ensures { IsTrue result ↔ (IsTrue not_empty × (total profile.now ≡ 0)) }
{
    not_empty && profile.total_size() == 0
}

// What a graph has within the paths that are asked for, or the graph itself if none is.
fn within(alloc: Global, asked: &Arguments<'_>, graph: FlameGraph) -> Result<FlameGraph, AllocError>
    ensures { IfOk result (λ made. made ≡ within asked.now graph) }
{
    if asked.only.is_empty() {
        return Ok(graph);
    }
    only(alloc, &graph, asked.only.as_slice())
}

// The part of a graph that is asked for.
fn part_of(
    alloc: Global,
    asked: &Arguments<'_>,
    graph: FlameGraph,
) -> Result<FlameGraph, AllocError>
    ensures { IfOk result (λ made. made ≡ part_of asked.now graph) }
{
    let kept = within(alloc, asked, graph)?;
    if asked.without.is_empty() {
        return Ok(kept);
    }
    without(alloc, &kept, asked.without.as_slice())
}

// Whether a change is asked for, if there are so many earlier texts.
fn is_change(asked: &Arguments<'_>, before: usize) -> bool
    ensures { result ≡ is_change asked.now before }
{
    !(asked.as_text || before == 0)
}

// Whether graphs are outlined.
fn is_outlined(asked: &Arguments<'_>) -> bool
    ensures { result ≡ is_outlined asked.now }
{
    !(asked.depth == 0 && asked.fold == 0)
}

// A number that limits, or the greatest one if it is 0.
fn limit_of(number: u32) -> usize
    ensures { result ≡ limit_of number }
{
    if number == 0 {
        return usize::MAX;
    }
    number as usize
}

// The graph in which children are counted. If nothing is outlined, none is made.
fn guide_of(
    alloc: Global,
    asked: &Arguments<'_>,
    change: bool,
    earlier: &FlameGraph,
    later: &FlameGraph,
) -> Result<FlameGraph, Refusal>
    ensures guide { IfOk result
        (λ guide. is_outlined asked.now ≡ true → guide ≡ guide_of change earlier.now later.now) }
    ensures too_large { IsErrOf result Refusal.TooLarge
        → 2 ^ 64 ≤ cond change (total earlier.now + total later.now) 0 }
{
    if !is_outlined(asked) {
        return Ok(FlameGraph::default(alloc));
    }
    let mut guide = later.clone()?;
    if change {
        guide.add(earlier.clone()?)?;
    }
    Ok(guide)
}

// The outline of a graph that the arguments ask for, or the graph itself.
fn outline_of(
    alloc: Global,
    asked: &Arguments<'_>,
    guide: FlameGraph,
    graph: FlameGraph,
) -> Result<FlameGraph, AllocError>
    ensures outlined { IfOk result (λ made. is_outlined asked.now ≡ true
        → IsOutline (limit_of asked.now.depth) (limit_of asked.now.fold) guide graph made) }
    ensures whole { IfOk result (λ made. is_outlined asked.now ≡ false → made ≡ graph) }
    ensures total { IfOk result (λ made. total made ≡ total graph) }
{
    if !is_outlined(asked) {
        return Ok(graph);
    }
    outline(
        alloc,
        guide,
        graph,
        limit_of(asked.depth),
        limit_of(asked.fold),
    )
}

// What is shown of a graph.
fn shown(
    alloc: Global,
    asked: &Arguments<'_>,
    guide: FlameGraph,
    graph: FlameGraph,
) -> Result<FlameGraph, AllocError>
    ensures shown { IfOk result (λ made. (u : Graph)
        → (is_outlined asked.now ≡ true → guide ≡ u) → IsShown asked.now u graph made) }
    ensures total { IfOk result (λ made. total made ≡ total graph) }
{
    let outlined = outline_of(alloc, asked, guide, graph)?;
    if asked.by_last_key {
        return by_last_key(alloc, &outlined);
    }
    Ok(outlined)
}

// What is shown of the earlier graph of a change. Otherwise nothing is, and no copy of the guide is made.
fn shown_before(
    alloc: Global,
    asked: &Arguments<'_>,
    change: bool,
    guide: &FlameGraph,
    earlier: FlameGraph,
) -> Result<FlameGraph, AllocError>
    ensures shown { IfOk result (λ made. change ≡ true → (u : Graph)
        → (is_outlined asked.now ≡ true → guide.now ≡ u) → IsShown asked.now u earlier made) }
    ensures total { IfOk result (λ made. total made ≡ total earlier) }
{
    if !change {
        return Ok(earlier);
    }
    shown(alloc, asked, guide.clone()?, earlier)
}

// Which bytes a table shows.
fn size_of(asked: &Arguments<'_>) -> Size
    ensures { result ≡ size_of asked.now }
{
    if asked.inclusive {
        Size::Total
    } else {
        Size::Own
    }
}

// The table of what is shown, or of how it grew.
fn table_of(
    alloc: Global,
    asked: &Arguments<'_>,
    change: bool,
    earlier: &FlameGraph,
    later: &FlameGraph,
) -> Result<String, AllocError>
    ensures { IfOk result (λ made. IsTableOf asked.now change earlier.now later.now (string_bytes made)) }
{
    let (size, most) = (size_of(asked), asked.top as usize);
    if change {
        growth_table(alloc, earlier, later, size, most)
    } else {
        table(alloc, later, size, most)
    }
}

// The options of the picture that is asked for.
fn options_of<'a>(asked: &Arguments<'a>) -> Options<'a>
    ensures { IsOptions asked.now result }
{
    Options {
        title: asked.title,
        narrowest: asked.narrowest,
        unit: asked.unit,
        order: asked.order,
        ..Options::default()
    }
}

// What is written of what is shown: the text, the table, the picture, or that of a change.
fn written(
    alloc: Global,
    asked: &Arguments<'_>,
    change: bool,
    earlier: &FlameGraph,
    later: &FlameGraph,
) -> Result<String, Refusal>
    ensures ok { IfOk result
        (λ made. Writes asked.now change earlier.now later.now (string_bytes made)) }
    ensures too_large { IsErrOf result Refusal.TooLarge
        → 2 ^ 64 ≤ cond change (total earlier.now + total later.now) 0 }
{
    let options = options_of(asked);
    if asked.as_text {
        later.write()
    } else if asked.top > 0 {
        Ok(table_of(alloc, asked, change, earlier, later)?)
    } else if change {
        change_picture(alloc, earlier, later, &options)
    } else {
        picture(alloc, later, &options)
    }
}

// The graph, or that with the keys of a table if keys are replaced.
fn renamed(
    alloc: Global,
    asked: &Arguments<'_>,
    names: &HashMap<Key, Key>,
    graph: FlameGraph,
) -> Result<FlameGraph, AllocError>
    ensures renamed { IfOk result (λ made. made ≡ renamed asked.now (new_key names.now) graph) }
    ensures total { IfOk result (λ made. total made ≡ total graph) }
{
    match asked.fold_key {
        None => Ok(graph),
        Some(_) => fold_keys(alloc, names, &graph),
    }
}

// The graph with the keys of a table if keys are replaced, and with the reversed paths if these are asked for.
fn turned(
    alloc: Global,
    asked: &Arguments<'_>,
    names: &HashMap<Key, Key>,
    graph: FlameGraph,
) -> Result<FlameGraph, AllocError>
    ensures turned { IfOk result (λ made. made ≡ turned asked.now (new_key names.now) graph) }
    ensures total { IfOk result (λ made. total made ≡ total graph) }
{
    let renamed = renamed(alloc, asked, names, graph)?;
    if asked.reverse {
        return reverse(alloc, &renamed);
    }
    Ok(renamed)
}

// Makes what the arguments ask for of the graphs of the earlier texts and of the others, whose paths are turned.
fn made_of_turned(
    alloc: Global,
    asked: &Arguments<'_>,
    change: bool,
    earlier: FlameGraph,
    later: FlameGraph,
) -> Result<String, Refusal>
    ensures ok { IfOk result (λ made. Shows asked.now change earlier later (string_bytes made)) }
    ensures too_large { IsErrOf result Refusal.TooLarge
        → 2 ^ 64 ≤ cond change (total earlier + total later) 0 }
{
    let guide = guide_of(alloc, asked, change, &earlier, &later)?;
    let shown_earlier = shown_before(alloc, asked, change, &guide, earlier)?;
    let shown_later = shown(alloc, asked, guide, later)?;
    written(alloc, asked, change, &shown_earlier, &shown_later)
}

// Makes what the arguments ask for of the graphs of the earlier texts and of the others.
fn made_of(
    alloc: Global,
    asked: &Arguments<'_>,
    change: bool,
    earlier: FlameGraph,
    later: FlameGraph,
) -> Result<String, Refusal>
    ensures ok { IfOk result (λ made. (names : Key → Key) × Shows asked.now change (turned asked.now names earlier)
        (turned asked.now names later) (string_bytes made)) }
    ensures too_large { IsErrOf result Refusal.TooLarge
        → 2 ^ 64 ≤ cond change (total earlier + total later) 0 }
{
    let names = names_of(alloc, asked.fold_key.as_ref(), &[&earlier, &later])?;
    let turned_earlier = turned(alloc, asked, &names, earlier)?;
    let turned_later = turned(alloc, asked, &names, later)?;
    made_of_turned(alloc, asked, change, turned_earlier, turned_later)
}

// Makes what the arguments ask for of texts that add up.
#[tactic(auto, using(crate::proofs::Faults::stopping))]
fn made_of_sums<'a>(
    alloc: Global,
    asked: &Arguments<'a>,
    before: &[Text<'a>],
    after: &[Text<'a>],
) -> Result<String, Fault<'a>>
    ensures ok { IfOk result (λ made. IsMadeOfSums asked.now before.now (map sourced after.now) (string_bytes made)) }
    ensures stops { IfErr result (StopsSums asked.now before.now (map sourced after.now)) }
{
    let earlier = graph_of_all(alloc, before)?;
    let later = graph_of_all(alloc, after)?;
    let earlier_part = part_of(alloc, asked, earlier)?;
    let later_part = part_of(alloc, asked, later)?;
    if is_refused(asked.not_empty, &later_part) {
        return Err(Fault::Empty);
    }
    let change = is_change(asked, before.len());
    Ok(made_of(alloc, asked, change, earlier_part, later_part)?)
}

// The moment of a text: its name, and the part of its graph that is asked for.
fn moment_of<'a>(
    alloc: Global,
    asked: &Arguments<'_>,
    text: &Text<'a>,
) -> Result<Moment<'a>, Fault<'a>>
    ensures ok { IfOk result (IsMomentOf asked.now (sourced text.now)) }
    ensures stops { IfErr result (StopsReading (sourced text.now)) }
{
    let graph = graph_of(alloc, text)?;
    Ok(Moment {
        name: name_of(text.source, "-"),
        graph: part_of(alloc, asked, graph)?,
    })
}

// The moments of some texts.
fn moments_of<'a>(
    alloc: Global,
    asked: &Arguments<'_>,
    texts: &[Text<'a>],
) -> Result<Vec<Moment<'a>>, Fault<'a>>
    ensures ok { IfOk result (λ moments. AllZip (IsMomentOf asked.now) (map sourced texts.now) moments.items) }
    ensures stops { IfErr result (StopsReadingEach (map sourced texts.now)) }
{
    let mut moments = Vec::new(alloc);
    for text in texts {
        moments.push(moment_of(alloc, asked, text)?)?;
    }
    Ok(moments)
}

// What is shown of a moment.
fn shown_moment<'a>(
    alloc: Global,
    asked: &Arguments<'_>,
    names: &HashMap<Key, Key>,
    guide: &FlameGraph,
    moment: Moment<'a>,
) -> Result<Moment<'a>, AllocError>
    ensures shown { IfOk result (λ made. (u : Graph) → (is_outlined asked.now ≡ true → guide.now ≡ u)
        → IsMomentShown asked.now (new_key names.now) u moment.entry made) }
    ensures total { IfOk result (λ made. total made.graph ≡ total moment.entry.graph) }
{
    let turned = turned(alloc, asked, names, moment.graph)?;
    Ok(Moment {
        name: moment.name,
        graph: shown(alloc, asked, guide.clone()?, turned)?,
    })
}

// What is shown of some moments.
fn shown_moments<'a>(
    alloc: Global,
    asked: &Arguments<'_>,
    names: &HashMap<Key, Key>,
    guide: &FlameGraph,
    moments: Vec<Moment<'a>>,
) -> Result<Vec<Moment<'a>>, AllocError>
    ensures shown { IfOk result (λ made. (u : Graph) → (is_outlined asked.now ≡ true → guide.now ≡ u)
        → AllZip (IsMomentShown asked.now (new_key names.now) u) moments.entry.items made.items) }
    ensures totals { IfOk result
        (λ made. map (λ m. total m.graph) made.items ≡ map (λ m. total m.graph) moments.entry.items) }
{
    let mut made = Vec::new(alloc);
    for moment in moments {
        made.push(shown_moment(alloc, asked, names, guide, moment)?)?;
    }
    Ok(made)
}

// Whether the last moment is asked not to be empty, and has 0 bytes.
fn is_last_refused(alloc: Global, asked: &Arguments<'_>, moments: &[Moment<'_>]) -> bool
    ensures { IsTrue result ↔ (IsTrue asked.now.not_empty × (total (last_graph moments.now) ≡ 0)) }
{
    let none = FlameGraph::default(alloc);
    is_refused(asked.not_empty, last_graph(moments, &none))
}

// The graph in which the children of a history are counted. If nothing is outlined, none is made.
fn guide_of_moments(
    alloc: Global,
    asked: &Arguments<'_>,
    names: &HashMap<Key, Key>,
    moments: &[Moment<'_>],
) -> Result<FlameGraph, Refusal>
    ensures guide { IfOk result (λ guide. is_outlined asked.now ≡ true
        → guide ≡ guide_of_moments asked.now (new_key names.now) moments.now) }
    ensures too_large { IsErrOf result Refusal.TooLarge
        → 2 ^ 64 ≤ total (first_graph moments.now) + total (last_graph moments.now) }
{
    let none = FlameGraph::default(alloc);
    let first = first_graph(&*moments, &none).clone()?;
    let last = last_graph(&*moments, &none).clone()?;
    let turned_first = turned(alloc, asked, names, first)?;
    let turned_last = turned(alloc, asked, names, last)?;
    guide_of(alloc, asked, true, &turned_first, &turned_last)
}

// What the keys of some moments become.
fn names_of_moments(
    alloc: Global,
    asked: &Arguments<'_>,
    moments: &[Moment<'_>],
) -> Result<HashMap<Key, Key>, AllocError> {
    let graphs: Vec<&FlameGraph> = moments.iter().map(|moment| &moment.graph).collect(alloc)?;
    names_of(alloc, asked.fold_key.as_ref(), graphs.as_slice())
}

// How many paths have a line in the picture of a history, besides that of the total.
const LINES: usize = 8;

// The picture of a history of what is shown of some moments.
fn drawn_moments(
    alloc: Global,
    asked: &Arguments<'_>,
    moments: Vec<Moment<'_>>,
) -> Result<String, Refusal>
    ensures ok { IfOk result (λ made. DrawsMoments asked.now moments.entry.items (string_bytes made)) }
    ensures too_large { IsErrOf result Refusal.TooLarge
        → 2 ^ 64 ≤ total (first_graph moments.entry.items) + total (last_graph moments.entry.items) }
{
    let names = names_of_moments(alloc, asked, moments.as_slice())?;
    let guide = guide_of_moments(alloc, asked, &names, moments.as_slice())?;
    let shown = shown_moments(alloc, asked, &names, &guide, moments)?;
    history_picture(alloc, shown.as_slice(), LINES, &options_of(asked))
}

// Makes the picture of a history, in which each text is a profile.
#[tactic(auto, using(crate::proofs::Faults::stopping))]
fn made_of_moments<'a>(
    alloc: Global,
    asked: &Arguments<'a>,
    texts: &[Text<'a>],
) -> Result<String, Fault<'a>>
    ensures ok { IfOk result (λ made. IsMadeOfMoments asked.now (map sourced texts.now) (string_bytes made)) }
    ensures stops { IfErr result (StopsMoments asked.now (map sourced texts.now)) }
{
    let moments = moments_of(alloc, asked, texts)?;
    if is_last_refused(alloc, asked, moments.as_slice()) {
        return Err(Fault::Empty);
    }
    Ok(drawn_moments(alloc, asked, moments)?)
}

// Makes what the arguments ask for.
#[tactic(auto, using(crate::proofs::Faults::stopping))]
fn make<'a, R: Read>(
    alloc: Global,
    asked: &Arguments<'a>,
    before: &[Text<'a>],
    after: &[Text<'a>],
    input: &mut R,
) -> Result<String, Fault<'a>>
    ensures ok { IfOk result (λ made. IfSome (R.remaining input.old)
        (λ known. IsMade asked.now before.now (named_texts after.now asked.now.input_at known)
        (string_bytes made))) }
    ensures stops { IfErr result
        (λ f. IfSome (R.remaining input.old) (λ known. Stops asked.now before.now after.now known f)) }
{
    let texts = named_texts(alloc, after, asked.input_at, input)?;
    if asked.history {
        return made_of_moments(alloc, asked, texts.as_slice());
    }
    made_of_sums(alloc, asked, before, texts.as_slice())
}

/// Runs the program but for reading its arguments and files.
///
/// After Ok what the arguments ask for is on the output: the picture of the graph that all texts add up to, that of the
/// change to it from the graph of the earlier texts, the table of either, its text, or the picture of a history, in
/// which each text is a profile. After `Fault::Writing` a beginning of that is on the output. After any other fault
/// nothing goes to the output. The input is read first. Then the earlier texts are added up, and then the others in the
/// order in which they are named, with the input at its place; those of a history are read in that order. The fault is
/// the first one. It is `Fault::TooLarge` if the bytes of all lines of a profile exceed `usize::MAX`, or those of both
/// parts, if a change is drawn or outlined, or of the first and the last part of a history.
#[tactic(auto, using(crate::proofs::Faults::stopping))]
pub fn run<'a, R: Read, W: Write>(
    alloc: Global,
    asked: &Arguments<'a>,
    before: &[Text<'a>],
    after: &[Text<'a>],
    input: &mut R,
    output: &mut W,
) -> Result<(), Fault<'a>>
    ensures made { OnOk result (IfSome (R.remaining input.old)
        (λ known. (made : List ℕ) × IsMade asked.now before.now (named_texts after.now asked.now.input_at known) made
        × Appends (W.contents output.old) (W.contents output.new) made)) }
    ensures unwritten { IfErr result (λ f. f ≡ Fault.Writing → IfSome (R.remaining input.old)
        (λ known. (made : List ℕ) × IsMade asked.now before.now (named_texts after.now asked.now.input_at known) made
        × AppendsBeginning (W.contents output.old) (W.contents output.new) made)) }
    ensures stopped { IfErr result (λ f. f ≢ Fault.Writing
        → IfSome (R.remaining input.old) (λ known. Stops asked.now before.now after.now known f)) }
    ensures untouched { IfErr result (λ f. f ≢ Fault.Writing → output.new ≡ output.old) }
{
    let made = make(alloc, asked, before, after, input)?;
    write_output(output, made.as_str())
}
