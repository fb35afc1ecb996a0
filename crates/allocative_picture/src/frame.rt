//! The frames that a picture is drawn from.

/// A path of a profile, as a picture shows it.
///
/// The frames of a profile are in the order of paths: a path comes before those below it, and paths with one parent are
/// ordered by the bytes of their last keys. Each begins where the order of children places it.
#[derive(Clone, Copy)]
pub struct Frame<'a> {
    /// The number of keys of the path, which is 0 for the root.
    pub depth: usize,
    /// The last key of the path, or the name of the root. It may be any text.
    pub key: &'a str,
    /// The bytes of the path alone.
    pub own: usize,
    /// The bytes of the path and of all paths below it.
    pub whole: usize,
    /// The own bytes of all paths whose boxes begin before its box, together.
    pub before: usize,
    /// What else is known about the path.
    pub mark: Mark,
}

/// What is known about a path besides its bytes.
#[derive(Clone, Copy)]
pub enum Mark {
    /// Nothing.
    Plain,
    /// The path has a warning: it declares fewer bytes than its parts.
    Warned,
    /// The frame belongs to the sum of two profiles.
    Changed {
        /// The bytes of the path and of all paths below it in the earlier profile.
        was: usize,
    },
}
