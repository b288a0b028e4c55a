//! What the value of a declaration is asked for.

ghost use Rattle.std.specs.Prelude.{◌≡◌, IsTrue, IfOk};
ghost use Rattle.hare_whole.specs.Turns as whole;
ghost use Rattle.hare_defined.specs.Known.{AreDefined};
ghost use Rattle.rule_judge.specs.Defined.{IsDefinedHint};

use hare_defined::Defined;
use hare_rules::Hint;
use hare_typed::TypedKids;
use hare_types::{Ty, TypeStore};
use std::alloc::AllocError;

/// The value is asked for the written type, where there is one.
pub(crate) fn hint_by(types: &TypedKids) -> Hint
    ensures { result ≡ whole.hint_by types.now }
{
    let Some(written) = types.get(0) else {
        return Hint::None;
    };
    match written.ty {
        Ty::Of(t) => Hint::Of(t),
        Ty::Iconst(_) | Ty::Null | Ty::Empty => Hint::None,
    }
}

/// Whether the type that is asked for, where there is one, mentions only names that are defined.
pub(crate) fn is_defined(
    s: &TypeStore,
    defined: &mut Defined,
    hint: &Hint,
) -> Result<bool, AllocError>
    requires known { AreDefined s.now defined.old }
    ensures value { IfOk result (λ b. IsTrue b → IsDefinedHint s.now hint.now) }
    ensures known { AreDefined s.now defined.new }
{
    match hint {
        Hint::Of(t) => defined.is_defined(s, *t),
        Hint::Drop | Hint::None => Ok(true),
    }
}
