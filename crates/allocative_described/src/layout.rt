//! Layouts, and the rules that put the sizes of parts together.

ghost use Rattle.std.specs.Prelude.{◌≡◌, ◌≤◌};
ghost use Rattle.allocative_described.specs.Layouts.{declared, empty, ◌with◌, ◌or◌, pad_to_align};
ghost use Rattle.allocative_described.specs.Sizes.{size_sum, size_product, size_max, size_up};

use std::marker::Model;

/// What a type declares: its name, size and alignment, and whether it has something to drop.
///
/// The layout of a struct is put together of those of its fields, by `with`, and then padded. That of an enum has a
/// tag of one byte as its first field, and behind it room for each variant, by `or`.
///
/// ```
/// let order = Layout::empty("Order").with(u64::layout()).with(String::layout()).pad_to_align();
/// let shape = Layout::empty("Shape")
///     .with(u8::layout())
///     .with(u32::layout().or(Layout::empty("Square").with(u16::layout()).with(u16::layout())))
///     .pad_to_align();
/// ```
#[derive(Drop)]
pub struct Layout {
    pub(crate) name: &'static str,
    pub(crate) size: Option<usize>,
    pub(crate) align: usize,
    pub(crate) needs_drop: bool,
}

impl Model for Layout {
    ghost use Rattle.std.specs.Prelude.{◌≤◌};
    ghost use Rattle.allocative_described.specs.Layouts.{Declaration, declaration};

    ghost Value = { Declaration };

    ghost view = { λ l. declaration l.name.now l.size l.align l.needs_drop };

    ghost invariant = { λ l. 1 ≤ l.align };
}

impl Layout {
    /// A layout of this size and this alignment, which is at least 1, in bytes.
    #[inline(always)]
    pub fn new(name: &'static str, size: usize, align: usize, needs_drop: bool) -> Layout
        requires { 1 ≤ align }
        ensures { result ≡ declared name.now size align needs_drop }
    {
        Layout {
            name,
            size: Some(size),
            align,
            needs_drop,
        }
    }

    /// A struct without fields: of no bytes, aligned to 1 byte, with nothing to drop.
    #[inline(always)]
    pub fn empty(name: &'static str) -> Layout
        ensures { result ≡ empty name.now }
    {
        Layout::new(name, 0, 1, false)
    }

    /// A struct with one field more, behind the others without padding: the sum of the sizes and the greater alignment.
    #[inline(always)]
    pub fn with(self, field: Layout) -> Layout
        ensures { result ≡ self with field }
    {
        Layout {
            name: self.name,
            size: size_sum(self.size, field.size),
            align: self.align.max(field.align),
            needs_drop: self.needs_drop || field.needs_drop,
        }
    }

    /// Room for either, under this one's name: the greater size and the greater alignment.
    #[inline(always)]
    pub fn or(self, other: Layout) -> Layout
        ensures { result ≡ self or other }
    {
        Layout {
            name: self.name,
            size: size_max(self.size, other.size),
            align: self.align.max(other.align),
            needs_drop: self.needs_drop || other.needs_drop,
        }
    }

    /// The size rounded up to the alignment.
    #[inline(always)]
    pub fn pad_to_align(self) -> Layout
        ensures { result ≡ pad_to_align self }
    {
        Layout {
            size: size_up(self.size, self.align),
            ..self
        }
    }

    /// The size in bytes. `None` if it exceeds `usize::MAX`, or a size on the way to it did.
    #[inline(always)]
    pub fn size(&self) -> Option<usize>
        ensures { result ≡ self.now.size }
    {
        self.size
    }
}

/// The sum of two sizes. `None` if one of them is `None`, or if the sum exceeds `usize::MAX`.
pub(crate) fn size_sum(left: Option<usize>, right: Option<usize>) -> Option<usize>
    ensures { result ≡ size_sum left right }
{
    left?.checked_add(right?)
}

/// The product of two sizes. `None` if one of them is `None`, or if the product exceeds
/// `usize::MAX`.
pub(crate) fn size_product(left: Option<usize>, right: Option<usize>) -> Option<usize>
    ensures { result ≡ size_product left right }
{
    left?.checked_mul(right?)
}

/// The greater of two sizes. `None` if one of them is `None`.
fn size_max(left: Option<usize>, right: Option<usize>) -> Option<usize>
    ensures { result ≡ size_max left right }
{
    Some(left?.max(right?))
}

/// The least multiple of `align` that is not below `size`. `None` if the size is `None`, or
/// if the multiple exceeds `usize::MAX`.
pub(crate) fn size_up(size: Option<usize>, align: usize) -> Option<usize>
    requires { 1 ≤ align }
    ensures { result ≡ size_up size align }
{
    size?.checked_next_multiple_of(align)
}
