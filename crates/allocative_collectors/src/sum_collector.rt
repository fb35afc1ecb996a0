//! The state of a collector of a sum, of held or of owned bytes. It allocates nothing.
ghost use Rattle.std.specs.Prelude.{◌≡◌, ◌+◌, ◌<◌, ◌^◌, suc, IfOk, IfErr, OnOk, OnErr, IsTrue, ◌↔◌};
ghost use Rattle.allocative_graph.specs.Collector.{OfSum, entry_bytes, count_entry, enter_sum, leave_sum, nothing_summed, outer_of, IsClosed, IsAtRoot};
ghost use Rattle.allocative_graph.specs.Visits.{HasRoom, Refuses, ExceedsSum};
ghost use Rattle.allocative_graph.specs.declared.refusal.Refusal.TheVariants.{TooLarge};

use allocative_graph::refusal::Refusal;
use allocative_graph::restore::Restore;
use std::marker::Model;

/// The collector of a sum of bytes, which has not failed. The figure of its current entry says which bytes are summed:
/// held or owned ones.
#[derive(Drop)]
pub struct SumCollector {
    sum: usize,
    figure: Restore,
    // The number of open visitors.
    visitors: usize,
}

impl Model for SumCollector {
    ghost use Rattle.allocative_graph.specs.Collector.{Summing};
    ghost use Rattle.allocative_graph.specs.Representation.Codes.{summing_code};
    ghost use Rattle.std.specs.Prelude.{◌≡◌};

    ghost Value = { Summing };

    ghost coded = { summing_code };

    ghost view = { λ s. record { sum = s.sum; figure = s.figure; open_visitors = s.visitors } };
}

impl SumCollector {
    /// A collector to which nothing was added, with no open visitor and this figure of the root.
    pub fn new(root: Restore) -> SumCollector
        ensures { result ≡ nothing_summed root }
    {
        SumCollector {
            sum: 0,
            figure: root,
            visitors: 0,
        }
    }

    /// One more entry of `size` bytes with nothing inside it, and no visitor at it. A shared entry counts as a unique
    /// one.
    ///
    /// Held bytes grow by an inline entry directly in a unique one. Owned bytes grow by the bytes beyond the spare ones
    /// of the current entry, which are taken first. It returns `TooLarge` exactly if the sum would exceed
    /// `usize::MAX`, and then nothing is changed.
    pub fn count(&mut self, size: usize, is_unique: bool) -> Result<(), Refusal>
        ensures ok { OnOk result
            ((self.old.sum + entry_bytes self.old.figure is_unique size < 2 ^ 64)
            × (self.new ≡ count_entry is_unique size self.old)) }
        ensures err { IfErr result (λ e. (e ≡ TooLarge) × ExceedsSum is_unique size self.old) }
        ensures kept { OnErr result (self.new ≡ self.old) }
    {
        let (bytes, figure) = match self.figure {
            Restore::Held(is_in_unique) if is_in_unique && !is_unique => (size, self.figure),
            Restore::Held(_) => (0, self.figure),
            Restore::Owned(spare) => (
                size.saturating_sub(spare),
                Restore::Owned(spare.saturating_sub(size)),
            ),
        };
        self.sum = self.sum.checked_add(bytes).ok_or(Refusal::TooLarge)?;
        self.figure = figure;
        Ok(())
    }

    /// One more entry of `size` bytes, unique or inline, and a visitor at it. It returns what `leave` restores.
    ///
    /// Its bytes count as those of `count` do. Inside it they are spare, unless it is unique. It returns `TooLarge`
    /// exactly if the sum or the number of visitors would exceed `usize::MAX`, and then nothing is changed.
    pub fn enter(&mut self, size: usize, is_unique: bool) -> Result<Restore, Refusal>
        ensures ok { IfOk result (λ outer. HasRoom is_unique size (OfSum self.old)
            × (outer ≡ outer_of size (OfSum self.old))
            × (self.new ≡ enter_sum is_unique size self.old)) }
        ensures err { IfErr result (Refuses is_unique size (OfSum self.old)) }
        ensures kept { OnErr result (self.new ≡ self.old) }
    {
        let visitors = self.visitors.checked_add(1).ok_or(Refusal::TooLarge)?;
        self.count(size, is_unique)?;
        let outer = self.figure;
        self.figure = match outer {
            Restore::Held(_) => Restore::Held(is_unique),
            Restore::Owned(_) => Restore::Owned(if is_unique { 0 } else { size }),
        };
        self.visitors = visitors;
        Ok(outer)
    }

    /// One visitor less. `outer` is what it restores: the figure of the entry outside.
    pub fn leave(&mut self, outer: Restore)
        ensures { self.new ≡ leave_sum outer self.old }
    {
        self.visitors = self.visitors.saturating_sub(1);
        self.figure = outer;
    }

    /// Whether no visitor is open and no bytes are spare, which is true once all visitors have left.
    pub fn is_closed(&self) -> bool
        ensures closed { IsTrue result ↔ IsClosed (OfSum self.now) }
        ensures at_root { IsTrue result → IsAtRoot (OfSum self.now) }
    {
        let has_none_spare = match self.figure {
            Restore::Held(_) => true,
            Restore::Owned(spare) => spare == 0,
        };
        self.visitors == 0 && has_none_spare
    }

    /// One more root visitor, when no visitor is open. It returns what `leave` restores.
    pub fn begin(&mut self) -> Restore
        requires { IsClosed (OfSum self.old) }
        ensures outer { result ≡ outer_of 0 (OfSum self.old) }
        ensures begun { self.new ≡ record self.old { open_visitors = suc self.old.open_visitors } }
    {
        self.visitors += 1;
        self.figure
    }

    /// The sum of the bytes.
    pub fn sum(&self) -> usize
        ensures { result ≡ self.now.sum }
    {
        self.sum
    }
}
