//! What others load, whose types only they know: a trait object reports its own bytes.
#![tactic(auto, using(allocative::proofs::Parts::parts))]

ghost use Rattle.std.specs.Prelude.{◌≡◌, codes, true, ℕ};
ghost use Rattle.allocative.specs.Layouts.{declared};
ghost use Rattle.allocative.specs.Shows.{Nothing, Inside, Unique};

use allocative::{Allocative, Described, Inside, Layout, Part, Refusal, Unique, Visitor};

/// What a service loads.
pub trait Plugin: Drop {
    /// The bytes that it has on the heap.
    fn bytes(&self) -> usize;
}

/// A loaded plugin. It shows the bytes that the plugin reports; no clause says how many these are.
#[derive(Drop)]
pub struct Loaded {
    pub plugin: Box<dyn Plugin>,
}

impl Described for Loaded {
    ghost layout = { declared (codes "Loaded") 16 8 true };

    fn layout() -> Layout
        ensures { result ≡ declared (codes "Loaded") 16 8 true }
    {
        Layout::new("Loaded", 16, 8, true)
    }
}

impl Allocative for Loaded {
    ghost may_show = { λ _ f. (bytes : ℕ) × Inside (codes "Loaded") 16
        (Unique (codes "plugin") 16 (Inside (codes "reported") bytes Nothing)) f };

    fn visit(&self, visitor: &mut Visitor<'_>) -> Result<(), Refusal> {
        let reported = Inside("reported", self.plugin.bytes(), ());
        Inside("Loaded", 16, Unique("plugin", 16, reported)).enter(visitor)
    }
}
