//! The rows of types, of which it is not known whether the store has them.

ghost use Rattle.std.specs.Prelude.{◌≡◌, Some, IfOk, option_copied};
ghost use Rattle.hare_types.specs.ByIds.{row_at};
ghost use Rattle.hare_types.specs.Sound.{IsStore};
ghost use Rattle.hare_rules.specs.Words as words;

use hare_types::{Row, Ty, TypeId, TypeStore};
use std::alloc::AllocError;

/// The row of a type. Fails where the type is not in the store, or comes to a name that is not defined.
pub fn row_of(s: &TypeStore, t: TypeId) -> Result<&Row, AllocError>
    ensures { IfOk result (λ r. row_at s.now t ≡ Some r.now) }
{
    match s.base(t) {
        Some(_) => Ok(s.row(t)),
        None => Err(AllocError),
    }
}

/// The members of the union that is the base of a type; none where the base is no union.
pub fn members_in<'s>(s: &'s TypeStore, a: &Ty) -> Option<&'s [TypeId]>
    ensures { option_copied result ≡ words.members_in s.now a.now }
{
    let Ty::Of(t) = a else {
        return None;
    };
    let b = s.base(*t)?;
    match s.row(b) {
        Row::Union(members) => Some(members.as_slice()),
        _ => None,
    }
}
