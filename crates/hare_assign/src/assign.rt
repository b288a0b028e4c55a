//! Which values may be assigned to which types, and what becomes of them.

ghost use Rattle.std.specs.Prelude.{◌≡◌, ◌<◌, length, IfSome, IfNone};
ghost use Rattle.hare_types.specs.declared.coercion.Ty.TheVariants.{Of};
ghost use Rattle.hare_types.specs.Assign.{type_at, value_at, IsIn, table, first_row, coercion};
ghost use Rattle.hare_assign.specs.First.{IsFirst, NoneAdmits};

use crate::rows::{is_const, is_name, is_never, is_null, is_pointer, is_same, is_slice, is_wider};
use crate::unions::is_union;
use hare_types::{Coercion, Ty, TypeId, TypeStore};

/// The number of the first row of the table that admits the value to the type, counted from 1, `None` where no row does.
pub(crate) fn first_row(s: &TypeStore, to: TypeId, from: &Ty) -> Option<u8>
    requires to { to < length s.now.rows }
    requires from { IsIn s.now from.now }
    ensures { result ≡ first_row s.now (value_at s.now from.now) (type_at s.now to) }
{
    if is_same(s, to, from) {
        return Some(1);
    }
    if is_never(s, from) {
        return Some(2);
    }
    if is_const(s, to, from) {
        return Some(3);
    }
    if is_wider(s, to, from) {
        return Some(4);
    }
    if is_pointer(s, to, from) {
        return Some(5);
    }
    if is_null(s, to, from) {
        return Some(6);
    }
    if is_slice(s, to, from) {
        return Some(7);
    }
    if is_name(s, to, from) {
        return Some(8);
    }
    if is_union(s, to, from) {
        return Some(9);
    }
    None
}

/// What becomes of the value where it is assigned to the type: the first row of the table of assignability that admits it, and the type.
/// `None` exactly where no row admits it.
///
/// The types are in the store. A name that is not defined has no base, so that no row that asks for its base admits.
///
/// The time grows with the members of the unions.
pub fn assignable(s: &TypeStore, to: TypeId, from: Ty) -> Option<Coercion>
    requires to { to < length s.now.rows }
    requires from { IsIn s.now from }
    ensures value { result ≡ coercion s.now from to }
    ensures first { IfSome result (λ c. IsFirst (table s.now (value_at s.now from) (type_at s.now to)) c.row) }
    ensures to { IfSome result (λ c. c.to ≡ Of to) }
    ensures none { IfNone result (NoneAdmits (table s.now (value_at s.now from) (type_at s.now to))) }
{
    match first_row(s, to, &from) {
        Some(row) => Some(Coercion {
            row,
            to: Ty::Of(to),
        }),
        None => None,
    }
}
