//! Roots by the list, and whole runs over them.
#![tactic(auto, using(crate::proofs::Roots::running))]

ghost use Rattle.std.specs.Prelude.{◌≡◌, ◌++◌, ◌∷◌, [], MatchResult, IfOk, IfErr};
ghost use Rattle.allocative_graph.specs.Shows.{each_shows};
ghost use Rattle.allocative.specs.Roots.{roots_of, are_strict};
ghost use Rattle.allocative_graph.specs.Visits.{VisitsRoot, IsProfileOf};
ghost use Rattle.allocative.specs.Strict.{MayRefuseProfile, RootFailsOnlyIfFull};

use crate::{Allocative, FlameGraphBuilder, FlameGraphOutput, Refusal};
use std::alloc::Global;

/// A list of boxed roots.
///
/// ```
/// let mut registry = Registry::new(alloc);
/// let number: Box<u32> = Box::new(alloc, 7)?;
/// registry.add_root(number)?;
/// let output = profile_roots(&registry)?;
/// assert_eq!(rt; output.flamegraph().write()?.as_str(), "u32 4\n");
/// ```
#[derive(Drop)]
pub struct Registry {
    roots: Vec<Box<dyn Allocative>>,
}

impl Registry {
    /// No roots. It takes no memory.
    pub fn new(alloc: Global) -> Registry
        ensures { roots_of result ≡ [] }
    {
        Registry {
            roots: Vec::new(alloc),
        }
    }

    /// Puts a root last. If memory runs out, it returns `Memory`, drops the root, and leaves the list as it was.
    /// `register_root` hands the root back.
    pub fn add_root(&mut self, root: Box<dyn Allocative>) -> Result<(), Refusal>
        ensures { MatchResult result
            (λ _. roots_of self.new ≡ roots_of self.old ++ root ∷ [])
            (λ refusal. (refusal ≡ Refusal.Memory) × (roots_of self.new ≡ roots_of self.old)) }
    {
        self.roots.push(root)?;
        Ok(())
    }

    /// Puts a root last. If memory runs out, it hands the root back as its error, and leaves the list as it was.
    pub fn register_root(&mut self, root: Box<dyn Allocative>) -> Result<(), Box<dyn Allocative>>
        ensures { MatchResult result
            (λ _. roots_of self.new ≡ roots_of self.old ++ root ∷ [])
            (λ back. (back ≡ root) × (roots_of self.new ≡ roots_of self.old)) }
    {
        match self.roots.push(root) {
            Ok(()) => Ok(()),
            Err(refused) => Err(refused.value),
        }
    }

    /// The roots in order.
    pub fn roots(&self) -> &[Box<dyn Allocative>]
        ensures { result.now ≡ roots_of self.now }
    {
        &self.roots
    }
}

impl FlameGraphBuilder {
    /// Visits the registry's roots in order, up to the first refusal, each as `visit_root` does.
    ///
    /// If the types of all roots are strict, and the builder has not failed and has no open visitor, it fails only with
    /// `Memory`, or with `TooLarge` if not all that the roots may show together can be added.
    pub fn visit_global_roots(&mut self, registry: &Registry) -> Result<(), Refusal>
        ensures visits_root { VisitsRoot (each_shows may_show (roots_of registry.now))
            self.old result self.new }
        ensures only_if_full { RootFailsOnlyIfFull (are_strict Allocative-box registry.now)
            (each_shows may_show (roots_of registry.now)) self.old result self.new }
    {
        self.check()?;
        let roots = registry.roots();
        for root in roots {
            self.visit_root(root.as_ref())?;
        }
        Ok(())
    }
}

/// Graph and warnings of the registry's roots.
///
/// The graph has exactly the paths of the roots' own entries and, once for each identity reached, of the first
/// content shown for it; each path has its declared bytes less those declared one step below, never below zero, or
/// all if it was ever unique. The warnings have a line for each path but the root that was never unique and has
/// fewer bytes than the paths one key below it together.
///
/// It fails with `Memory` if memory runs out, or with the error of the first root that fails: the first cause of its
/// own visit, or `Open` if that leaked a visitor. If the types of all roots are strict, it fails only with `Memory`, or
/// with `TooLarge` if a flame graph cannot take all that the roots may show together; otherwise no clause says which
/// refusal it is.
pub fn profile_roots(registry: &Registry) -> Result<FlameGraphOutput, Refusal>
    ensures profile { IfOk result (IsProfileOf (each_shows may_show (roots_of registry.now))) }
    ensures refused { IfErr result (MayRefuseProfile (are_strict Allocative-box registry.now)
        (each_shows may_show (roots_of registry.now))) }
{
    let mut builder = FlameGraphBuilder::new(*registry.roots.allocator())?;
    builder.visit_global_roots(registry)?;
    builder.finish()
}
