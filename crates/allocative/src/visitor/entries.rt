//! What implementations enter: entries with their parts.
#![tactic(auto, using(crate::proofs::Showing::showing))]

ghost use Rattle.std.specs.Prelude.{true, codes, length, Some};
ghost use Rattle.allocative_graph.specs.Shows.{Inside, Unique, Field, Nothing};
ghost use Rattle.allocative.specs.Making.{MakesPlan, MakesFirst, one};
ghost use Rattle.allocative.specs.Visited.{Entered};
ghost use Rattle.allocative.specs.Closures.{KeepsVisitor, CalledAt, CalledInside};

use crate::{Allocative, Described, Key, Part, Refusal, Visitor};

impl Visitor<'_> {
    /// One inline entry of the declared name and size of `T`. It is `TooLarge` if there is no size; its
    /// other errors are those of `enter`.
    #[inline(always)]
    pub fn visit_simple_sized<T: Described>(&mut self) -> Result<(), Refusal>
        ensures entered { Entered true (Field T.layout.name T.layout.size Nothing) self.old self.new result }
        ensures plan { MakesPlan (one T.layout.name T.layout.size) self.old self.new result }
    {
        self.visit_sized(Key::for_type_name::<T>(), T::size())
    }

    /// One inline entry of a declared size, with the part inside it. It is `TooLarge` if there is no size; its other
    /// errors are those of `enter`. The part's own errors come after it.
    #[inline(always)]
    pub(crate) fn visit_inside<P: Part>(
        &mut self,
        key: Key,
        size: Option<usize>,
        inside: P,
    ) -> Result<(), Refusal>
        ensures entered { Entered P.is_strict (Field key size (P.may_show inside))
            self.old self.new result }
        ensures first { MakesFirst key size self.old self.new result }
    {
        let outer = self.collector.open_entry(key, size, false)?;
        let answer = inside.enter(self);
        self.collector.close_entry(outer);
        answer
    }

    /// One inline entry of the field's declared size in bytes, with what the field shows inside it.
    ///
    /// A collector that has failed returns its first cause. The entry is `TooLarge` if there is no size; its
    /// other errors are those of `enter`. The field's own errors come after it.
    pub fn visit_field<T: Allocative + Described>(
        &mut self,
        name: Key,
        field: &T,
    ) -> Result<(), Refusal>
        ensures entered { Entered T.is_strict (Field name T.layout.size (T.may_show field.now))
            self.old self.new result }
        ensures first { MakesFirst name T.layout.size self.old self.new result }
    {
        self.visit_inside(name, T::size(), field)
    }

    /// One inline entry of `size` bytes, with what the closure enters inside it.
    ///
    /// A collector that has failed returns its first cause, and the errors of the entry are those of `enter`.
    /// If the closure returns `Err`, the collector has failed afterwards: with the closure's error, or with
    /// the cause that it had failed with before. The closure leaves its visitor where it was.
    pub fn visit_field_with<F: FnOnce(&mut Visitor<'_>) -> Result<(), Refusal>>(
        &mut self,
        name: Key,
        size: usize,
        visit: F,
    ) -> Result<(), Refusal>
        requires callable { F.IsAlwaysCallable visit }
        requires keeps { KeepsVisitor F.FnOnce visit }
        ensures { CalledInside F.FnOnce visit name size self.old self.new result }
    {
        let outer = self.collector.open_entry(name, Some(size), false)?;
        let answer = self.call(visit);
        self.collector.close_entry(outer);
        answer
    }

    /// Calls the closure at this visitor. Its refusal is the first cause if nothing had failed; the call returns the
    /// first cause.
    pub(crate) fn call<F: FnOnce(&mut Visitor<'_>) -> Result<(), Refusal>>(
        &mut self,
        visit: F,
    ) -> Result<(), Refusal>
        requires callable { F.IsAlwaysCallable visit }
        requires keeps { KeepsVisitor F.FnOnce visit }
        ensures { CalledAt F.FnOnce visit self.old self.new result }
    {
        if let Err(refusal) = visit(self) {
            return Err(self.refuse(refusal));
        }
        Ok(())
    }

    /// One inline entry `str` of the text's length in bytes. The errors are those of `enter`.
    pub fn visit_str(&mut self, text: &str) -> Result<(), Refusal>
        ensures entered { Entered true (Inside (codes "str") (length text.now) Nothing)
            self.old self.new result }
        ensures plan { MakesPlan (one (codes "str") (Some (length text.now)))
            self.old self.new result }
    {
        self.visit_simple(Key::new("str"), text.len())
    }

    // One unique entry of a pointer, with what the object shows inside it.
    fn visit_object_pointer(&mut self, object: &dyn Allocative) -> Result<(), Refusal>
        ensures { Entered (Allocative-dyn object.now).is_strict
            (Unique (codes "ptr") 8 (may_show object.now)) self.old self.new result }
    {
        let outer = self.collector.open_entry(Key::new("ptr"), Some(8), true)?;
        let answer = self.visit_object(object);
        self.collector.close_entry(outer);
        answer
    }

    /// The inline entry `Box` of 8 bytes, inside it the unique entry `ptr` of 8 bytes, and inside
    /// that what the object shows.
    ///
    /// A collector that has failed returns its first cause. The errors of each entry are those of `enter`; the
    /// object's own errors come after them. It is strict if the type of the object is.
    pub fn visit_boxed_object(&mut self, object: &dyn Allocative) -> Result<(), Refusal>
        ensures entered { Entered (Allocative-dyn object.now).is_strict
            (Inside (codes "Box") 8 (Unique (codes "ptr") 8 (may_show object.now))) self.old self.new result }
        ensures first { MakesFirst (codes "Box") (Some 8) self.old self.new result }
    {
        let outer = self.collector.open_entry(Key::new("Box"), Some(8), false)?;
        let answer = self.visit_object_pointer(object);
        self.collector.close_entry(outer);
        answer
    }
}
