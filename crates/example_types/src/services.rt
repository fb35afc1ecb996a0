//! A service that keeps its roots in a struct of its own, and is profiled by a method.
#![tactic(auto, using(allocative::proofs::Parts::parts))]

ghost use Rattle.std.specs.Prelude.{◌≡◌, ◌++◌, ◌∷◌, [], codes, false, IfOk, MatchResult, Some};
ghost use Rattle.allocative.specs.Layouts.{declared};
ghost use Rattle.allocative.specs.Shows.{Inside, Field, each_shows};
ghost use Rattle.allocative.specs.Visits.{IsProfileOf};

use allocative::{
    Allocative, Described, Field, FlameGraphOutput, Inside, Layout, Named, Part, Refusal, Visitor,
    profile_values,
};
use std::alloc::Global;

/// What one sensor counted.
#[derive(Drop)]
pub struct Sensor {
    pub count: u64,
}

impl Described for Sensor {
    ghost layout = { declared (codes "Sensor") 8 8 false };

    fn layout() -> Layout {
        Layout::new("Sensor", 8, 8, false)
    }
}

impl Allocative for Sensor {
    ghost may_show = { λ s. Inside (codes "Sensor") 8
        (Field (codes "count") (Some 8) (⟦<u64 as Allocative>⟧.may_show s.count)) };

    fn visit(&self, visitor: &mut Visitor<'_>) -> Result<(), Refusal> {
        let count = Field("count", &self.count);
        Inside("Sensor", 8, count).enter(visitor)
    }
}

/// Sensors by their names, each a root.
#[derive(Drop)]
pub struct Sensors {
    roots: Vec<Named<Sensor>>,
}

impl Sensors {
    /// A service without sensors. It allocates nothing.
    pub fn new(alloc: Global) -> Sensors
        ensures { result.roots.items ≡ [] }
    {
        Sensors {
            roots: Vec::new(alloc),
        }
    }

    /// Adds a sensor after the others. Where memory runs out, the sensor is returned and nothing changes.
    pub fn register(&mut self, sensor: Named<Sensor>) -> Result<(), Named<Sensor>>
        ensures { MatchResult result
            (λ _. self.new.roots.items ≡ self.old.roots.items ++ sensor ∷ [])
            (λ back. (back ≡ sensor) × (self.new.roots.items ≡ self.old.roots.items)) }
    {
        match self.roots.push(sensor) {
            Ok(()) => Ok(()),
            Err(refused) => Err(refused.value),
        }
    }

    /// The graph and the warnings of all sensors. It fails if memory runs out, or if a sensor's own
    /// visit fails.
    pub fn profile(&self) -> Result<FlameGraphOutput, Refusal>
        ensures { IfOk result
            (IsProfileOf (each_shows ⟦<Named<Sensor> as Allocative>⟧.may_show self.now.roots.items)) }
    {
        profile_values(*self.roots.allocator(), &self.roots)
    }
}
