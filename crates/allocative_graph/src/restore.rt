//! The figure of an entry, which leaving an entry inside it restores.
ghost use Rattle.std.specs.Prelude.{◌≡◌};
ghost use Rattle.allocative_graph.specs.Collector.{no_outer};

/// What a sum of bytes needs to know of an entry for those directly inside it, in bytes. A visitor keeps the figure of
/// the entry outside and hands it back to the collector as it is left. The collector of a flame graph needs none.
#[derive(Clone, Copy)]
pub enum Restore {
    /// For held bytes: whether the entry is unique.
    Held(bool),
    /// For owned bytes: the spare bytes of the entry, which no entry directly inside it has taken. A unique entry has
    /// none, nor has the root.
    Owned(usize),
}

impl Restore {
    /// The figure if nothing outside counts.
    #[inline(always)]
    pub fn none() -> Restore
        ensures { result ≡ no_outer }
    {
        Restore::Held(false)
    }
}
