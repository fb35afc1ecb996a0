//! The size of a hash map's table.

ghost use Rattle.std.specs.Prelude.{◌≡◌, ℕ, ◌≤◌};
ghost use Rattle.allocative_described.specs.Sizes.{checked, IsRawTableSize, RawTableLaw, IsBucketCount, IsLeastPowerOfTwo};

use crate::described::Described;
use crate::layout::{size_product, size_sum};

/// The bytes of the table of a hash map with `len` items of type `T`: the size of an item plus one
/// byte, times the number of buckets. There are no buckets for the length 0, 4 for a length from 1
/// to 3, and otherwise the least power of two that is not below `len`.
///
/// `None` if the size of an item is `None`, or if the sum, the power or the product exceeds
/// `usize::MAX`.
pub fn raw_table_alloc_size_for_len<T: Described>(len: usize) -> Option<usize>
    ensures { IsRawTableSize T.layout.size len result }
{
    size_product(size_sum(T::size(), Some(1)), bucket_count(len))
}

/// A law: the size of an item and a length determine the size of the raw table.
pub fn raw_table_law()
    ensures { RawTableLaw }
{}

// The number of buckets for a length, or `None` if it does not fit a word.
fn bucket_count(len: usize) -> Option<usize>
    ensures { (n : ℕ) × IsBucketCount len n × (result ≡ checked n) }
{
    if len == 0 {
        Some(0)
    } else if len < 4 {
        Some(4)
    } else {
        least_power_of_two(len)
    }
}

// The least power of two that is not below `number`, or `None` if it does not fit a word.
fn least_power_of_two(number: usize) -> Option<usize>
    requires { 2 ≤ number }
    ensures { (n : ℕ) × IsLeastPowerOfTwo number n × (result ≡ checked n) }
{
    number.checked_next_power_of_two()
}
