//! The bytes that values hold on the heap, those that they own, and those of all that they show.
#![tactic(auto, using(crate::proofs::Roots::running))]

ghost use Rattle.std.specs.Prelude.{◌<◌, ◌^◌, IfOk, IfErr};
ghost use Rattle.allocative.specs.Closures.{KeepsVisitor, CalledAtRoot, AnswersSum};
ghost use Rattle.allocative.specs.SizeOf.{IsSizeOfHeld, IsSizeOfUnique, MayRefuseHeld, MayRefuseSize, AnswersSize, AnswersVisit, IsSizeOfOwned, MayRefuseOwned, AnswersOwned, IsSizeOfShown, RefusesShown};
ghost use Rattle.allocative.specs.Strict.{MayRefuseProfile};

use crate::visitor::collector::Collector;
use crate::{Allocative, Described, Refusal, Visitor};
use allocative_graph::restore::Restore;
use std::alloc::Global;

/// The bytes that the root holds on the heap: the sum of the inline entries whose direct parent is a unique entry, with
/// nothing below a shared entry.
///
/// It takes no memory, and has no refusal of its own. It is refused with TooLarge if the sum or a declared size does
/// not fit, with Open if a visitor was leaked and nothing was refused, and else with the first cause of the
/// visit. The entries of std's maps and sets are declared inline, so of them only what the keys and values hold counts.
///
/// An object of a strict type is refused with TooLarge alone: if what it may show asks for a declared size that is
/// not there, or if some of what it may show does not fit.
pub fn size_of_unique_allocated_data(root: &dyn Allocative) -> Result<usize, Refusal>
    ensures held { IfOk result (IsSizeOfHeld (may_show root.now)) }
    ensures refused { IfErr result
        (MayRefuseHeld (Allocative-dyn root.now).is_strict (may_show root.now)) }
    ensures answer { AnswersVisit (may_show root.now) (effect root.now) AnswersSum result }
{
    let mut collector = Collector::of_sum(Restore::Held(false));
    collector.visit_object(root)?;
    Ok(collector.sum())
}

/// The bytes that the root holds on the heap, plus its declared size. It counts as `size_of_unique_allocated_data`
/// does, visits the value itself, and makes no trait object. Its only refusal of its own is TooLarge, after a visit
/// that is not refused: if the root has no declared size, or if it does not fit together with what the root holds.
///
/// A strict type is refused with TooLarge alone: if it has no declared size, if what the value may show asks for
/// a declared size that is not there, or if some of what it may show does not fit, by itself or together with the
/// declared size of the root.
///
/// ```
/// let number: Box<u32> = Box::new(alloc, 7)?;
/// assert_eq!(rt; size_of_unique(&number)?, 12); // a pointer of 8 bytes, and 4 on the heap
/// ```
pub fn size_of_unique<T: Allocative + Described>(root: &T) -> Result<usize, Refusal>
    ensures held { IfOk result (IsSizeOfUnique T.layout.size (T.may_show root.now)) }
    ensures refused { IfErr result (MayRefuseSize T.is_strict T.layout.size (T.may_show root.now)) }
    ensures answer { AnswersVisit (T.may_show root.now) (T.effect root.now) (AnswersSize T.layout.size)
        result }
{
    let mut collector = Collector::of_sum(Restore::Held(false));
    collector.visit_value(root)?;
    let held = collector.sum();
    let Some(own) = T::size() else {
        return Err(Refusal::TooLarge);
    };
    let Some(sum) = held.checked_add(own) else {
        return Err(Refusal::TooLarge);
    };
    Ok(sum)
}

/// The bytes that the value owns: those of all that it shows, without the contents of shared pointers.
///
/// Each entry counts its bytes less those of the entries directly inside it, never below zero, and all of them if it is
/// unique or shared. So the entries of std's maps and sets count, and a shared pointer counts for itself alone.
///
/// It takes no memory, and has no refusal of its own. It is refused with TooLarge if the sum or a declared size does
/// not fit, with Open if a visitor was leaked and nothing was refused, and else with the first cause of the visit.
/// A strict type is refused with TooLarge alone: if what the value may show asks for a declared size that is not there,
/// or if some of what it may show does not fit.
///
/// ```
/// let number: Box<u32> = Box::new(alloc, 7)?;
/// assert_eq!(rt; size_of_owned(&number)?, 12); // a pointer of 8 bytes, and 4 on the heap
/// ```
pub fn size_of_owned<T: Allocative>(root: &T) -> Result<usize, Refusal>
    ensures owned { IfOk result (IsSizeOfOwned (T.may_show root.now)) }
    ensures refused { IfErr result (MayRefuseOwned T.is_strict (T.may_show root.now)) }
    ensures answer { AnswersOwned (T.may_show root.now) (T.effect root.now) result }
{
    let mut collector = Collector::of_sum(Restore::Owned(0));
    collector.visit_value(root)?;
    Ok(collector.sum())
}

/// The bytes of all that the value shows: the total of the graph that `profile_value` makes of it. What a shared
/// pointer points to counts once for each value that is measured. The memory of the graph is given back before it
/// returns.
///
/// It fails with `Memory` if memory runs out, with the first cause of the visit, or with `Open` if that leaked a
/// visitor. For a value of a strict type it fails only with `Memory`, or with `TooLarge` if a flame graph cannot take
/// all that the value may show.
pub fn size_of_shown<T: Allocative>(alloc: Global, root: &T) -> Result<usize, Refusal>
    ensures shown { IfOk result (IsSizeOfShown (T.may_show root.now)) }
    ensures refused { IfErr result (MayRefuseProfile T.is_strict (T.may_show root.now)) }
    ensures answer { IfErr result (RefusesShown (T.may_show root.now) (T.effect root.now)) }
    ensures fits { IfOk result (λ bytes. bytes < 2 ^ 63) }
{
    let mut collector = Collector::of_graph(alloc)?;
    collector.visit_value(root)?;
    let profile = collector.finish()?;
    Ok(profile.flamegraph().total_size())
}

/// The bytes that the closure's entries hold on the heap, as `size_of_unique_allocated_data` counts those of a value.
///
/// The closure enters what it likes at a root visitor, as the parts of a value that one asks for, and hands the
/// visitor back at the place where it got it. It takes no memory. It is refused with TooLarge if the sum or a
/// declared size does not fit, and else with the first cause, which is the closure's refusal if nothing was
/// refused before; with Open if a visitor was leaked.
///
/// ```
/// let number: Box<u32> = Box::new(alloc, 7)?;
/// let held = size_of_entries(|visitor| visitor.visit_field(Key::new("number"), &number))?;
/// assert_eq!(rt; held, 4); // the number on the heap
/// ```
pub fn size_of_entries<F: FnOnce(&mut Visitor<'_>) -> Result<(), Refusal>>(
    visit: F,
) -> Result<usize, Refusal>
    requires callable { F.IsAlwaysCallable visit }
    requires keeps { KeepsVisitor F.FnOnce visit }
    ensures { CalledAtRoot F.FnOnce visit result }
{
    let mut collector = Collector::of_sum(Restore::Held(false));
    let mut visitor = collector.root_visitor()?;
    let _ = visitor.call(visit);
    visitor.exit();
    collector.check()?;
    Ok(collector.sum())
}
