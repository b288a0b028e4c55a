//! Which operands can be ordered or compared.

ghost use Rattle.std.specs.Prelude.{◌≡◌, option_map, option_and_then};
ghost use Rattle.hare_types.specs.Store.{Store};
ghost use Rattle.hare_types.specs.Later.{IsLater};
ghost use Rattle.hare_typed.specs.Given as given;
ghost use Rattle.hare_typed.specs.Constancy.{is_address_row as is_any_pointer};
ghost use Rattle.hare_rules.specs.Words as words;
ghost use Rattle.hare_rules.specs.Operators as spec;
ghost use Rattle.rule_judge.specs.Defined.{IsDefinedTy};

use crate::common::has_common;
use hare_types::{Row, Scalar, Ty, TypeId, TypeStore};
use rule_judge::{base_row, row_in};

/// Whether the base of the type is the word.
pub(crate) fn has_base_word(s: &TypeStore, a: &Ty, k: Scalar) -> bool
    requires { IsDefinedTy s.now a.now }
    ensures { (f : Store) → IsLater s.now f → result ≡ words.is_word k (given.base_row f a.now) }
{
    match base_row(s, a) {
        Some(Row::Scalar(word)) => *word == k,
        _ => false,
    }
}

/// Whether both are types, and one type.
fn is_same_type(a: &Ty, b: &Ty) -> bool
    ensures { result ≡ words.is_same_type a.now b.now }
{
    match a {
        Ty::Of(t) => match b {
            Ty::Of(u) => *t == *u,
            Ty::Iconst(_) | Ty::Null | Ty::Empty => false,
        },
        Ty::Iconst(_) | Ty::Null | Ty::Empty => false,
    }
}

/// Whether two operands can be ordered.
pub(crate) fn are_ordered(s: &TypeStore, a: &Ty, b: &Ty) -> bool
    requires first { IsDefinedTy s.now a.now }
    requires second { IsDefinedTy s.now b.now }
    ensures { (f : Store) → IsLater s.now f → result ≡ spec.are_ordered f a.now b.now }
{
    has_common(s, a, b) || (is_same_type(a, b) && has_base_word(s, a, Scalar::Rune))
}

/// To what the type itself points, where it is a pointer that is never null.
fn pointee_of(s: &TypeStore, a: &Ty) -> Option<TypeId>
    requires { IsDefinedTy s.now a.now }
    ensures { (f : Store) → IsLater s.now f → result ≡ given.pointee_in (words.row_in f a.now) }
{
    match row_in(s, a) {
        Some(Row::Pointer(t)) => Some(*t),
        _ => None,
    }
}

/// To what the type itself points, where it is a pointer that may be null.
fn nullable_of(s: &TypeStore, a: &Ty) -> Option<TypeId>
    requires { IsDefinedTy s.now a.now }
    ensures { (f : Store) → IsLater s.now f → result ≡ words.nullable_pointee (words.row_in f a.now) }
{
    match row_in(s, a) {
        Some(Row::Nullable(t)) => Some(*t),
        _ => None,
    }
}

/// Whether the first is `null`, and the base of the second a pointer that may be null.
fn null_meets(s: &TypeStore, a: &Ty, b: &Ty) -> bool
    requires { IsDefinedTy s.now b.now }
    ensures { (f : Store) → IsLater s.now f → result ≡ spec.null_meets f a.now b.now }
{
    matches!(a, Ty::Null) && matches!(base_row(s, b), Some(Row::Nullable(_)))
}

/// Whether the first is `*X` and the second `nullable *X`: the types themselves, and not names of them.
fn pointer_meets(s: &TypeStore, a: &Ty, b: &Ty) -> bool
    requires first { IsDefinedTy s.now a.now }
    requires second { IsDefinedTy s.now b.now }
    ensures { (f : Store) → IsLater s.now f → result ≡ spec.pointer_meets f a.now b.now }
{
    match (pointee_of(s, a), nullable_of(s, b)) {
        (Some(t), Some(u)) => t == u,
        _ => false,
    }
}

/// Whether the first goes to the type of the second.
pub(crate) fn goes_to_other(s: &TypeStore, a: &Ty, b: &Ty) -> bool
    requires first { IsDefinedTy s.now a.now }
    requires second { IsDefinedTy s.now b.now }
    ensures { (f : Store) → IsLater s.now f → result ≡ spec.goes_to_other f a.now b.now }
{
    null_meets(s, a, b) || pointer_meets(s, a, b)
}

/// Whether the base of the type is a pointer, that may be null or not.
fn is_any_pointer(s: &TypeStore, a: &Ty) -> bool
    requires { IsDefinedTy s.now a.now }
    ensures { (f : Store) → IsLater s.now f → result ≡ is_any_pointer (given.base_row f a.now) }
{
    matches!(base_row(s, a), Some(Row::Pointer(_) | Row::Nullable(_)))
}

/// Whether both have one type, whose values can be compared.
fn are_comparable(s: &TypeStore, a: &Ty, b: &Ty) -> bool
    requires { IsDefinedTy s.now a.now }
    ensures { (f : Store) → IsLater s.now f → result ≡ spec.are_comparable f a.now b.now }
{
    let same = is_same_type(a, b);
    (same && has_base_word(s, a, Scalar::Bool))
        || (same && has_base_word(s, a, Scalar::Rune))
        || (same && has_base_word(s, a, Scalar::Str))
        || (same && is_any_pointer(s, a))
}

/// Whether two operands can be compared.
pub(crate) fn are_equatable(s: &TypeStore, a: &Ty, b: &Ty) -> bool
    requires first { IsDefinedTy s.now a.now }
    requires second { IsDefinedTy s.now b.now }
    ensures { (f : Store) → IsLater s.now f → result ≡ spec.are_equatable f a.now b.now }
{
    has_common(s, a, b)
        || are_comparable(s, a, b)
        || goes_to_other(s, a, b)
        || goes_to_other(s, b, a)
}
