//! Numbers of buffers and of their items, and the bytes of their other places.

ghost use Rattle.std.specs.Prelude.{◌≡◌, OnOk};
ghost use Rattle.allocative_tally.specs.{AddsPlaces, AddsItems, buffer_shape};

use crate::tally::{CountError, Entries, InlineSum, Sum, UniqueSum, added, bytes_of, product};
use allocative::{IntoKey, Refusal, Visitor};

/// How many buffers there are, how many items are in them, and the bytes of their other places: those that are unused,
/// or the links of lists.
#[derive(Clone, Copy, Default)]
pub(crate) struct Places {
    pub(crate) buffers: usize,
    pub(crate) items: usize,
    pub(crate) unused: usize,
}

impl Places {
    /// Adds a buffer of so many items of a declared size, where no place is unused. It returns `Err` if the size is
    /// missing, or a number or the bytes of all items do not fit a word. Discard the numbers then.
    #[inline(always)]
    pub fn add_full(&mut self, size: Option<usize>, items: usize) -> Result<(), CountError>
        ensures { OnOk result (AddsItems size items self.old self.new) }
    {
        let buffers = added(self.buffers, 1)?;
        let items = added(self.items, items)?;
        product(size, items)?;
        self.buffers = buffers;
        self.items = items;
        Ok(())
    }

    /// Adds a buffer of so many items and other places. The first size is that of an item, the second that of a place.
    /// It returns `Err` if a size is missing, or a number or the bytes of all do not fit a word. Discard the numbers
    /// then.
    #[inline(always)]
    pub fn add(
        &mut self,
        sizes: (Option<usize>, Option<usize>),
        items: usize,
        unused: usize,
    ) -> Result<(), CountError>
        ensures { OnOk result (AddsPlaces sizes.0 sizes.1 items unused self.old self.new) }
    {
        let (item, place) = sizes;
        let spare = product(place, unused)?;
        let spare = added(self.unused, spare)?;
        self.add_full(item, items)?;
        added(bytes_of(item, self.items), spare)?;
        self.unused = spare;
        Ok(())
    }
}

/// Values in buffers, counted: the numbers of the buffers, and the tally of the items.
#[derive(Default, Drop)]
pub struct Buffers<S> {
    pub(crate) places: Places,
    pub(crate) values: S,
}

/// Buffers under a key, with their items inside them, and beside these, under another key, the bytes of their other
/// places.
#[derive(Drop)]
pub(crate) struct PlacesMany<K, P>(pub K, pub K, pub Places, pub P);

impl<K: IntoKey, P: Entries> Entries for PlacesMany<K, P> {
    ghost shape = { λ e. buffer_shape (K.key e.0) (K.key e.1) e.2.buffers (P.shape e.3) e.2.unused };

    fn enter(self, visitor: &mut Visitor<'_>) -> Result<(), Refusal> {
        let places = self.2;
        let others = InlineSum(self.1, Sum::of(places.buffers, places.unused), ());
        UniqueSum(
            self.0,
            Sum::times(Some(8), places.buffers),
            (self.3, others),
        )
        .enter(visitor)
    }
}
