//! The tags of types.

ghost use Rattle.std.specs.Prelude.{◌≡◌, Some, IsSome};
ghost use Rattle.hare_types.specs.ByIds.{tag_at};

use hare_types::{TypeId, TypeStore};

/// The tag of a type that stands in the store's list: 1 plus its place there.
pub fn tag_of(s: &TypeStore, t: TypeId) -> u32
    requires { IsSome (tag_at s.now t) }
    ensures { tag_at s.now t ≡ Some result }
{
    match s.tag(t) {
        Some(tag) => tag,
        None => unreachable!(),
    }
}
