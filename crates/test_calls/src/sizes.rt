//! Declared sizes that do not fit a word, and hashes.
//!
//! Rows: the bounds of composed types with a part of the greatest size; the bytes of hash tables, of eight-byte items
//! and at the greatest lengths; and the hashes of two texts.

ghost use Rattle.std.specs.Prelude.{false, codes};
ghost use Rattle.allocative.specs.Layouts.{declared};

use allocative::{Described, Key, Layout, raw_table_alloc_size_for_len};

/// Declares the greatest size.
pub(crate) struct Huge;

impl Described for Huge {
    ghost layout = { declared (codes "Huge") 18446744073709551615 1 false };

    fn layout() -> Layout {
        Layout::new("Huge", usize::MAX, 1, false)
    }
}

#[test]
fn sizes_have_a_bound(rt: HostRuntime) {
    let sizes = [
        Option::<Huge>::size(),
        <(Huge, u8)>::size(),
        <[Huge; 2]>::size(),
        Result::<Huge, u8>::size(),
        <[Huge; 1]>::size(),
    ];
    assert!(rt; sizes == [None, None, None, None, Some(usize::MAX)]);
}

#[test]
fn hash_tables_have_their_bytes(rt: HostRuntime) {
    let bytes = [0, 3, 4, 5].map(|len| raw_table_alloc_size_for_len::<u64>(len));
    assert!(rt; bytes == [Some(0), Some(36), Some(36), Some(72)]);
    let half = 9223372036854775808;
    let bytes = [
        raw_table_alloc_size_for_len::<u64>(half),
        raw_table_alloc_size_for_len::<()>(half),
        raw_table_alloc_size_for_len::<()>(half + 1),
        raw_table_alloc_size_for_len::<Huge>(1),
    ];
    assert!(rt; bytes == [None, Some(half), None, None]);
}

#[test]
fn hashes_are_fnv(rt: HostRuntime) {
    let hashes = [Key::hash_of(""), Key::hash_of("a")];
    assert!(rt; hashes == [0xcbf2_9ce4_8422_2325, 0xaf63_dc4c_8601_ec8c]);
}
