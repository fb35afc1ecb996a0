//! What a finished collector returns: a flame graph and its warnings.
ghost use Rattle.std.specs.Prelude.{◌≡◌, ◌++◌, IfOk, MatchResult, string_bytes, map, filter, not};
ghost use Rattle.allocative_collectors.specs.Warned.{warning_of, warning_lines, is_std_entry};

use allocative_graph::flamegraph::{FlameGraph, push_path};
use allocative_graph::refusal::Refusal;
use std::alloc::{AllocError, Global};
use std::marker::Model;

/// A path with a warning: it was never unique, and declares fewer bytes than the paths one key below it together.
#[derive(Drop)]
pub struct WarnedPath {
    /// The keys from the root on.
    pub path: Vec<&'static str>,
    /// The bytes that the path declares, which the warning calls its size of self.
    pub self_size: usize,
    /// The bytes that the paths one key below it declare together, which the warning calls its size of inline children.
    pub children_size: usize,
}

impl WarnedPath {
    ghost use Rattle.allocative_graph.specs.Graph.{warning_text};
    ghost use Rattle.allocative_collectors.specs.Warned.{warning_of, is_std_data};

    /// Whether the path is the entry `data` of a map or a set of std. Such a path has a warning as soon as its contents
    /// exceed 8 bytes. It ends in `BTreeMap`, `BTreeSet`, `HashMap` or `HashSet`, and then `data`. The keys alone
    /// decide, so a type of your own with one of these names counts too.
    #[tactic(auto, using(crate::proofs::Arena::last_keys))]
    pub fn is_of_std(&self) -> bool
        ensures { result ≡ is_std_data (warning_of self.now).path }
    {
        match self.path.as_slice() {
            [.., collection, entry] => is_std_entry(collection, entry),
            _ => false,
        }
    }

    /// Appends the warning of the path, without a line feed. The only error is that memory runs out, and then the text
    /// is as it was.
    pub fn push_warning(&self, text: &mut String) -> Result<(), AllocError>
        ensures { MatchResult result
            (λ _. string_bytes text.new ≡ string_bytes text.old ++ warning_text (warning_of self.now))
            (λ _. string_bytes text.new ≡ string_bytes text.old) }
    {
        let alloc = *text.allocator();
        let mut path = String::new(alloc);
        push_path(self.path.as_slice(), &mut path)?;
        let (path, own, parts) = (path.as_str(), self.self_size, self.children_size);
        let warning = format!(in alloc;
            "Incorrect size declaration for node `{path}`, size of self: {own}, size of inline children: {parts}"
        )?;
        text.push_str(warning.as_str())
    }

    /// A copy. The only error is that memory runs out.
    fn copy(&self) -> Result<WarnedPath, AllocError>
        ensures { IfOk result (λ copy. warning_of copy ≡ warning_of self.now) }
    {
        Ok(WarnedPath {
            path: self.path.clone()?,
            self_size: self.self_size,
            children_size: self.children_size,
        })
    }
}

/// A finished flame graph, and its warnings.
#[derive(Drop)]
pub struct FlameGraphOutput {
    flamegraph: FlameGraph,
    warnings: String,
    warned: Vec<WarnedPath>,
}

impl Model for FlameGraphOutput {
    ghost use Rattle.std.specs.Prelude.{string_bytes, map};
    ghost use Rattle.allocative_graph.specs.Visits.{Profile};
    ghost use Rattle.allocative_graph.specs.Representation.Codes.{profile_code};
    ghost use Rattle.allocative_collectors.specs.Warned.{warning_of};

    ghost Value = { Profile };

    ghost coded = { profile_code };

    ghost view = { λ o. record {
      graph = o.flamegraph;
      warnings = string_bytes o.warnings;
      warned = map warning_of o.warned.items;
    } };
}

impl FlameGraphOutput {
    ghost use Rattle.allocative_collectors.specs.Warned.{warning_of, warning_lines, is_std_data};

    /// The graph, the paths that have a warning, and the text of the warnings, which is made from the paths. The only
    /// error is that memory runs out.
    pub(crate) fn new(
        alloc: Global,
        flamegraph: FlameGraph,
        warned: Vec<WarnedPath>,
    ) -> Result<FlameGraphOutput, AllocError>
        ensures graph { IfOk result (λ o. o.graph ≡ flamegraph) }
        ensures warnings { IfOk result
            (λ o. o.warnings ≡ warning_lines (map warning_of warned.items)) }
        ensures warned { IfOk result (λ o. o.warned ≡ map warning_of warned.items) }
    {
        let warnings = warning_lines(alloc, warned.as_slice())?;
        Ok(FlameGraphOutput {
            flamegraph,
            warnings,
            warned,
        })
    }

    /// The finished graph, lent.
    pub fn flamegraph(&self) -> &FlameGraph
        ensures { result.now ≡ self.now.graph }
    {
        &self.flamegraph
    }

    /// The graph alone. The warnings are dropped.
    pub fn into_flamegraph(self) -> FlameGraph
        ensures { result ≡ self.graph }
    {
        let FlameGraphOutput { flamegraph, .. } = self;
        flamegraph
    }

    /// A copy of the warnings' text. The only error is that memory runs out.
    pub fn warnings(&self) -> Result<String, Refusal>
        ensures { MatchResult result
            (λ copy. string_bytes copy ≡ self.now.warnings) (λ r. r ≡ Refusal.Memory) }
    {
        Ok(self.warnings.clone()?)
    }

    /// The warnings' text, with a line for each. The call allocates nothing.
    pub fn warnings_text(&self) -> &str
        ensures { result.now ≡ self.now.warnings }
    {
        self.warnings.as_str()
    }

    /// The paths with a warning, in the order of paths. It is the order of the text's lines. The call allocates
    /// nothing.
    pub fn warned_paths(&self) -> &[WarnedPath]
        ensures { map warning_of result.now ≡ self.now.warned }
    {
        self.warned.as_slice()
    }

    /// Copies of all warned paths but those of std's maps and sets, in order. Left out are those for which `is_of_std`
    /// is true. The only error is that memory runs out.
    pub fn warned_paths_outside_std(&self) -> Result<Vec<WarnedPath>, AllocError>
        ensures { IfOk result
            (λ paths. map warning_of paths.items ≡ filter (λ w. not (is_std_data w.path)) self.now.warned) }
    {
        let warned = self.warned_paths();
        let mut paths = Vec::new(*self.warned.allocator());
        for one in warned {
            if !one.is_of_std() {
                paths.push(one.copy()?)?;
            }
        }
        Ok(paths)
    }
}

/// Whether two keys are the name of a map or a set of std and `data`.
fn is_std_entry(collection: &str, entry: &str) -> bool
    ensures { result ≡ is_std_entry collection.now entry.now }
{
    let is_tree = collection == "BTreeMap" || collection == "BTreeSet";
    let is_table = collection == "HashMap" || collection == "HashSet";
    entry == "data" && (is_tree || is_table)
}

/// The text of the warnings of some paths: a line for each, in their order.
fn warning_lines(alloc: Global, warned: &[WarnedPath]) -> Result<String, AllocError>
    ensures { IfOk result (λ text. string_bytes text ≡ warning_lines (map warning_of warned.now)) }
{
    let mut text = String::new(alloc);
    for one in warned {
        one.push_warning(&mut text)?;
        text.push_str("\n")?;
    }
    Ok(text)
}
