//! Values under a name.

ghost use Rattle.allocative_graph.specs.Shows as shows;

use crate::{Allocative, Described, Field, Key, Part, Refusal, Visitor};

/// A value under a name: one inline entry with the key, of the value's declared size in bytes, with what
/// the value shows inside it.
///
/// It keeps roots of one type apart in a graph. The name changes neither the total of a graph nor held bytes,
/// if the value itself shows its declared size.
///
/// ```
/// let output = profile_value(alloc, &Named(Key::new("open"), 3u32))?;
/// assert_eq!(rt; output.flamegraph().write()?.as_str(), "open;u32 4\n");
/// ```
#[derive(Drop)]
pub struct Named<T>(pub Key, pub T);

impl<T: Allocative + Described> Allocative for Named<T> {
    ghost may_show = { λ named. shows.Field named.0 T.layout.size (T.may_show named.1) };

    ghost is_strict = { T.is_strict };

    fn visit(&self, visitor: &mut Visitor<'_>) -> Result<(), Refusal> {
        Field(self.0.copy(), &self.1).enter(visitor)
    }
}

/// A lent value under a name: the same entry as `Named`, for a value that is not given away, as what a guard of a lock
/// lends.
///
/// ```
/// let mut builder = FlameGraphBuilder::new(alloc)?;
/// builder.visit_value(&NamedRef(Key::new("open"), &*guard))?;
/// ```
#[derive(Drop)]
pub struct NamedRef<'a, T>(pub Key, pub &'a T);

impl<'a, T: Allocative + Described> Allocative for NamedRef<'a, T> {
    ghost may_show = { λ named. shows.Field named.0 T.layout.size (T.may_show named.1.now) };

    ghost is_strict = { T.is_strict };

    fn visit(&self, visitor: &mut Visitor<'_>) -> Result<(), Refusal> {
        Field(self.0.copy(), self.1).enter(visitor)
    }
}
