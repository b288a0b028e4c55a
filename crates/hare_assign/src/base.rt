//! What is left of a type without names and error marks.

ghost use Rattle.std.specs.Prelude.{◌≡◌, ◌<◌, length, option_map, IfSome};
ghost use Rattle.hare_types.specs.Assign.{type_at, base};

use hare_types::{TypeId, TypeStore};

/// What a type comes to, once names and error marks are followed until neither is left. `None` where it comes to a name that is not
/// defined. The time is constant.
pub(crate) fn base(s: &TypeStore, t: TypeId) -> Option<TypeId>
    requires { t < length s.now.rows }
    ensures value { option_map (type_at s.now) result ≡ base s.now (type_at s.now t) }
    ensures within { IfSome result (λ b. b < length s.now.rows) }
{
    s.base(t)
}
