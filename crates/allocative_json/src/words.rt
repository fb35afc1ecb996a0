//! The words that the program accepts.
ghost use Rattle.std.specs.Prelude.{◌≡◌, ◌↔◌, IsTrue, Contains, MatchResult};
ghost use Rattle.allocative_json.specs.Run.{words_of, IsKnown, AreWords, Asks};

use crate::fault::Fault;

/// What the program is asked for.
#[derive(Clone, Copy, Debug, PartialEq, Eq, Drop)]
pub struct Words {
    /// Drop the lines whose last key is `unused_capacity`.
    pub exact: bool,
    /// Show the set of the document's numbers as a second root.
    pub index: bool,
    /// Box the roots, and visit them by a registry.
    pub registry: bool,
}

// Whether a word is among the words.
fn has(words: &[String], word: &str) -> bool
    ensures { IsTrue result ↔ Contains (words_of words.now) word.now }
{
    words.iter().any(|other| other.as_str() == word)
}

// Whether a word is one of the three, and not among those before it.
fn is_accepted(word: &str, earlier: &[String]) -> bool
    ensures { IsTrue result ↔ (IsKnown word.now × ¬ Contains (words_of earlier.now) word.now) }
{
    let is_known = word == "exact" || word == "index" || word == "registry";
    is_known && !has(earlier, word)
}

/// Parses the words. It returns `Ok` exactly if each word is `exact`, `index` or `registry` and none is
/// repeated, and otherwise `Fault::Words`. It allocates nothing.
pub fn read_words(words: &[String]) -> Result<Words, Fault>
    ensures { MatchResult result
        (λ asked. AreWords (words_of words.now) × Asks (words_of words.now) asked)
        (λ f. (f ≡ Fault.Words) × ¬ AreWords (words_of words.now)) }
{
    for (at, word) in words.iter().enumerate() {
        if !is_accepted(word.as_str(), &words[..at]) {
            return Err(Fault::Words);
        }
    }
    Ok(Words {
        exact: has(words, "exact"),
        index: has(words, "index"),
        registry: has(words, "registry"),
    })
}
