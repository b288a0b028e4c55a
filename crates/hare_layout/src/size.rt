//! The size and the alignment of a type.

ghost use Rattle.std.specs.Prelude.{◌≡◌, ◌↔◌, ℕ, ◌≤◌, IsTrue, Some};
ghost use Rattle.hare_types.specs.ByIds.{extent_at, size_at, align_at};
ghost use Rattle.hare_types.specs.Kept.{LiesIn};
ghost use Rattle.hare_layout.specs.Small.{IsSmall, IsModest};

use hare_types::{Extent, TypeId, TypeStore};

/// The greatest size of a type, in bytes.
pub(crate) const MOST_BYTES: u64 = 67_108_864;

/// Whether `size_of`, `align_of`, `offset_of` and `payload_of` may be asked of a type: its extent is known, and has at most 67,108,864
/// bytes. The time is constant.
pub fn is_small(s: &TypeStore, t: TypeId) -> bool
    ensures { IsTrue result ↔ IsSmall s.now t }
{
    match s.extent(t) {
        Some(x) => x.size <= MOST_BYTES,
        None => false,
    }
}

/// The extent of an admitted and sized type.
pub(crate) fn extent_of(s: &TypeStore, t: TypeId) -> Extent
    requires { IsSmall s.now t }
    ensures value { LiesIn s.now t result }
    ensures at { extent_at s.now t ≡ Some result }
    ensures within { IsModest result }
{
    match s.extent(t) {
        Some(x) => x,
        None => unreachable!(),
    }
}

/// How many bytes a value of the type takes.
///
/// The type is admitted and has a size, and each name that it is or holds by value is defined: it has at most 67,108,864 bytes. Of a type
/// of the store `is_small` tells whether it is so.
///
/// The time is constant.
pub fn size_of(s: &TypeStore, t: TypeId) -> u64
    requires { IsSmall s.now t }
    ensures value { (a : ℕ) × LiesIn s.now t (record { size = result; align = a }) }
    ensures at { size_at s.now t ≡ result }
    ensures within { result ≤ 67108864 }
{
    extent_of(s, t).size
}

/// Of what the address of a value of the type is a multiple: 1, 2, 4 or 8. The conditions are those of `size_of`.
pub fn align_of(s: &TypeStore, t: TypeId) -> u64
    requires { IsSmall s.now t }
    ensures value { (n : ℕ) × LiesIn s.now t (record { size = n; align = result }) }
    ensures at { align_at s.now t ≡ result }
    ensures low { 1 ≤ result }
    ensures high { result ≤ 8 }
{
    extent_of(s, t).align
}
