//! Which casts are admitted.

ghost use Rattle.std.specs.Prelude.{◌≡◌, ◌<◌, List, length};
ghost use Rattle.hare_types.specs.Rows.{tree_of};
ghost use Rattle.hare_types.specs.Trees.{Tree};
ghost use Rattle.hare_types.specs.Assign.{Of, type_at, value_at, IsIn, is_number, is_numeric, recasts, is_castable};

use crate::assign::first_row;
use crate::base::base;
use crate::types::{row_of, word};
use hare_types::{Row, Scalar, Ty, TypeId, TypeStore};

/// The type is an integer type or rune.
fn is_number(s: &TypeStore, t: TypeId) -> bool
    requires { t < length s.now.rows }
    ensures { result ≡ is_number (type_at s.now t) }
{
    match word(s, t) {
        Some(k) => k == Scalar::Rune || k.is_signed().is_some(),
        None => false,
    }
}

/// The value has an integer type or rune as its base, or is a whole number without a suffix.
fn is_numeric(s: &TypeStore, from: &Ty) -> bool
    requires { IsIn s.now from.now }
    ensures { result ≡ is_numeric s.now (value_at s.now from.now) }
{
    match from {
        Ty::Of(f) => match base(s, *f) {
            Some(b) => is_number(s, b),
            None => false,
        },
        Ty::Iconst(_) => true,
        Ty::Null | Ty::Empty => false,
    }
}

/// Whether the rows are those of `*X` and `*Y` or `nullable *Y`, or of `nullable *X` and `nullable *Y`.
fn points_anew(from: &Row, to: &Row) -> bool
    ensures { (ts : List Tree) → result ≡ recasts (Of (tree_of ts from.now)) (tree_of ts to.now) }
{
    match (from, to) {
        (Row::Pointer(_), Row::Pointer(_)) => true,
        (Row::Pointer(_), Row::Nullable(_)) => true,
        (Row::Nullable(_), Row::Nullable(_)) => true,
        _ => false,
    }
}

/// `*X` to `*Y` and to `nullable *Y`, and `nullable *X` to `nullable *Y`.
fn recasts(s: &TypeStore, to: TypeId, from: &Ty) -> bool
    requires to { to < length s.now.rows }
    requires from { IsIn s.now from.now }
    ensures { result ≡ recasts (value_at s.now from.now) (type_at s.now to) }
{
    match from {
        Ty::Of(f) => points_anew(row_of(s, *f), row_of(s, to)),
        Ty::Iconst(_) | Ty::Null | Ty::Empty => false,
    }
}

/// Whether the value may be cast to the type: where it may be assigned to it; from integer types, `rune` and whole numbers without a suffix
/// to integer types and `rune`, names and error marks removed on both sides; from `*X` to `*Y` and to `nullable *Y`, and from
/// `nullable *X` to `nullable *Y`.
///
/// The types are in the store. A name that is not defined has no base.
pub fn castable(s: &TypeStore, to: TypeId, from: Ty) -> bool
    requires to { to < length s.now.rows }
    requires from { IsIn s.now from }
    ensures { result ≡ is_castable s.now (value_at s.now from) (type_at s.now to) }
{
    first_row(s, to, &from).is_some()
        || (is_numeric(s, &from) && is_numeric(s, &Ty::Of(to)))
        || recasts(s, to, &from)
}
