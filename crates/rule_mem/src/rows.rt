//! The rows that only read the store.

ghost use Rattle.std.specs.Prelude.{◌≡◌, IfSome};
ghost use Rattle.hare_types.specs.Store.{Store};
ghost use Rattle.hare_types.specs.Later.{IsLater};
ghost use Rattle.hare_rules.specs.Operators as operators;
ghost use Rattle.hare_rules.specs.Rows.{holds, first_place, first_mutable};
ghost use Rattle.hare_rules.specs.declared.row_id.RowId.TheVariants as row;
ghost use Rattle.rule_judge.specs.Defined.{IsDefined};
ghost use Rattle.rule_judge.specs.Turns.{context_in, IsTurn};

use crate::reached::{element_reached, member_reached};
use crate::reads::{pointee, slice_element};
use hare_tree::Kind;
use hare_types::{Row, Scalar, TypeId, TypeStore};
use rule_judge::{Turn, base_row, has_size, is_mutable, is_place, kind_at, seen};

/// Whether what is indexed or sliced is an array or a slice, once pointers are followed.
pub(crate) fn is_indexable(s: &TypeStore, t: &Turn<'_>) -> bool
    requires { IsTurn s.now t.now }
    ensures index { (f : Store) → IsLater s.now f → result ≡ holds row.IndexIndexable (context_in f t.now) }
    ensures slice { (f : Store) → IsLater s.now f → result ≡ holds row.SliceIndexable (context_in f t.now) }
{
    element_reached(s, t).is_some()
}

/// Whether the operand has the member that the node names.
pub(crate) fn has_member(s: &TypeStore, t: &Turn<'_>) -> bool
    requires { IsTurn s.now t.now }
    ensures { (f : Store) → IsLater s.now f → result ≡ holds row.FieldMember (context_in f t.now) }
{
    member_reached(s, t).is_some()
}

/// Whether the operand is a pointer or a slice.
pub(crate) fn is_freeable(s: &TypeStore, t: &Turn<'_>) -> bool
    requires { IsTurn s.now t.now }
    ensures { (f : Store) → IsLater s.now f → result ≡ holds row.FreeFreeable (context_in f t.now) }
{
    matches!(
        base_row(s, &seen(t, 0)),
        Some(Row::Pointer(_) | Row::Nullable(_) | Row::Slice(_))
    )
}

/// Whether the operand is an array, a slice or a `str`.
pub(crate) fn is_counted(s: &TypeStore, t: &Turn<'_>) -> bool
    requires { IsTurn s.now t.now }
    ensures { (f : Store) → IsLater s.now f → result ≡ holds row.LenCounted (context_in f t.now) }
{
    matches!(
        base_row(s, &seen(t, 0)),
        Some(Row::Array(_, _) | Row::Slice(_) | Row::Scalar(Scalar::Str))
    )
}

/// Whether the operand of `append` is a slice.
pub(crate) fn is_slice(s: &TypeStore, t: &Turn<'_>) -> bool
    requires { IsTurn s.now t.now }
    ensures { (f : Store) → IsLater s.now f → result ≡ holds row.AppendSequence (context_in f t.now) }
{
    slice_element(s, &seen(t, 0)).is_some()
}

/// Whether the operand of `delete` is an index or a slice.
pub(crate) fn is_part(t: &Turn<'_>) -> bool
    ensures { (f : Store) → result ≡ holds row.DeleteKind (context_in f t.now) }
{
    matches!(kind_at(t.kids, 0), Kind::Index | Kind::Slice)
}

/// Whether the operand of `offset` is a member.
pub(crate) fn is_member(t: &Turn<'_>) -> bool
    ensures { (f : Store) → result ≡ holds row.OffsetKind (context_in f t.now) }
{
    kind_at(t.kids, 0) == Kind::Field
}

/// Whether the operand is a pointer to a type with a size.
pub(crate) fn is_pointed(s: &TypeStore, t: &Turn<'_>) -> bool
    requires { IsTurn s.now t.now }
    ensures { (f : Store) → IsLater s.now f → result ≡ holds row.DerefPointed (context_in f t.now) }
{
    pointed(s, t).is_some()
}

/// The type to which the operand points, where that has a size.
pub(crate) fn pointed(s: &TypeStore, t: &Turn<'_>) -> Option<TypeId>
    requires { IsTurn s.now t.now }
    ensures value { (f : Store) → IsLater s.now f → result ≡ operators.pointed f (operators.first_seen (context_in f t.now)) }
    ensures defined { IfSome result (λ u. IsDefined s.now u) }
{
    match pointee(s, &seen(t, 0)) {
        Some(u) => { if has_size(s, u) { Some(u) } else { None } }
        None => None,
    }
}

/// Whether the first operand is a place.
pub(crate) fn is_first_place(s: &TypeStore, t: &Turn<'_>) -> bool
    requires { IsTurn s.now t.now }
    ensures { (f : Store) → IsLater s.now f → result ≡ first_place (context_in f t.now) }
{
    match t.kids.get(0) {
        Some(kid) => is_place(s, t.decls, kid),
        None => false,
    }
}

/// Whether the first operand is a place that may be assigned to.
pub(crate) fn is_first_mutable(s: &TypeStore, t: &Turn<'_>) -> bool
    requires { IsTurn s.now t.now }
    ensures { (f : Store) → IsLater s.now f → result ≡ first_mutable (context_in f t.now) }
{
    match t.kids.get(0) {
        Some(kid) => is_mutable(s, t.decls, t.locals, kid),
        None => false,
    }
}
