//! The laws of the definitions. Each is a function without parameters, whose contract is the law.
#![tactic(auto, using(crate::proofs::LawsHold::laws))]

ghost use Rattle.allocative_graph.specs.Laws.{OrderLaw, MeaningLaw, MergeLaw, TextLaw, SumsLaw, PlusLaw, SharedLaw, PathOrderLaw, GraphSumsLaw, GraphLaw, ExactLaw, ReadLaw};
ghost use Rattle.allocative_graph.specs.Owned.{OwnedLaw};
ghost use Rattle.allocative_graph.specs.WorkedExamples.{WorkedExamples};

/// Two whole showings that agree up to order reach the same identities, and have the same graph, text and warnings.
pub fn order_law()
    ensures { OrderLaw }
{}

/// A whole showing shows the contents of exactly the identities that it reaches. Its entries are its own and,
/// once for each identity reached, those of that identity's content.
pub fn meaning_law()
    ensures { MeaningLaw }
{}

/// If no identity is reached by both and their sums can be added, the graphs of two whole showings add up.
pub fn merge_law()
    ensures { MergeLaw }
{}

/// If no key has a `;` or a line feed, graphs with equal texts have equal sizes at each path but the root.
/// The law is about graphs whose totals fit a word, as that of every `FlameGraph` does.
pub fn text_law()
    ensures { TextLaw }
{}

/// If no key has a `;` or a line feed, dropping the lines whose last key is `unused_capacity` drops
/// the paths that end in it.
pub fn exact_law()
    ensures { ExactLaw }
{}

/// If no key has a `;` or a line feed, the text of a graph is read as a graph with its sizes at each path but the
/// root. The law is about graphs whose totals fit a word, as that of every `FlameGraph` does. No line of such a text is
/// refused if each of its paths has at most `LEVELS` keys and is not one empty key.
pub fn read_law()
    ensures { ReadLaw }
{}

/// The sums of a bag, in closed form.
pub fn sums_law()
    ensures { SumsLaw }
{}

/// In each collector, one forest followed by another is both in one, and entering, adding a forest and leaving
/// is the entry with the forest inside it.
pub fn plus_law()
    ensures { PlusLaw }
{}

/// How shared entries add up: a content starts at the root, the collector of held bytes stays as it is, and that of
/// owned bytes counts the pointer.
pub fn shared_law()
    ensures { SharedLaw }
{}

/// A prefix of a path comes before it. Otherwise the first keys that differ decide, by their bytes.
pub fn path_order_law()
    ensures { PathOrderLaw }
{}

/// Adding graphs is commutative and associative, an empty graph changes nothing, and totals add up.
pub fn graph_sums_law()
    ensures { GraphSumsLaw }
{}

/// The graph of some sums has the root with 0 and exactly the paths of the sums, each with what remains of its bytes.
pub fn graph_law()
    ensures { GraphLaw }
{}

/// What forests own adds up, in any order of the entries. It is the total of the graph of the own entries if those at
/// each path are alike: each is unique, or none is and each has at least the bytes directly inside it,
/// or none is and each has at most those.
pub fn owned_law()
    ensures { OwnedLaw }
{}

/// Worked examples: what some showings print, and how many bytes some hold.
pub fn rows_law()
    ensures { WorkedExamples }
{}
