//! Where the payloads of unions begin.

ghost use Rattle.std.specs.Prelude.{◌≡◌, ◌≤◌, IsSome, Some};
ghost use Rattle.hare_types.specs.ByIds.{members_at, payload_at};
ghost use Rattle.hare_layout.specs.Small.{IsSmall};

use crate::size::extent_of;
use hare_types::{TypeId, TypeStore};

/// Where the payload of a union begins: how many bytes behind the first byte of the whole, whichever member it is of. Names and error marks
/// of the type are followed. The conditions are those of `size_of`, and that the type comes to a union.
///
/// The tag has four bytes, and the payload is at the next multiple of the members' greatest alignment: that is the alignment of the union.
/// The time is constant.
pub fn payload_of(s: &TypeStore, t: TypeId) -> u64
    requires small { IsSmall s.now t }
    requires union { IsSome (members_at s.now t) }
    ensures value { payload_at s.now t ≡ Some result }
    ensures within { result ≤ 8 }
{
    extent_of(s, t).align
}
