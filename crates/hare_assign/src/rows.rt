//! The rows of the table of assignability that look at no members of a union: whether they admit a value to a type.

ghost use Rattle.std.specs.Prelude.{◌≡◌, ◌<◌, List, length};
ghost use Rattle.hare_types.specs.Rows.{tree_of, trees};
ghost use Rattle.hare_types.specs.Trees.{Tree};
ghost use Rattle.hare_types.specs.Assign.{type_at, value_at, IsIn, is_same, is_never, is_const, is_wider, is_pointer, is_null, is_slice, is_name, items_fit, Of, Empty};
ghost use Rattle.hare_assign.specs.Shapes.{IsType};

use crate::base::base;
use crate::types::{is_opaque, row_of, same, word};
use hare_types::{Row, Scalar, Ty, TypeId, TypeStore};

/// The value's type is the type.
pub(crate) fn is_same(s: &TypeStore, to: TypeId, from: &Ty) -> bool
    requires to { to < length s.now.rows }
    requires from { IsIn s.now from.now }
    ensures { result ≡ is_same (value_at s.now from.now) (type_at s.now to) }
{
    match from {
        Ty::Of(f) => same(s, *f, to),
        Ty::Iconst(_) | Ty::Null | Ty::Empty => false,
    }
}

/// The value's type is never.
pub(crate) fn is_never(s: &TypeStore, from: &Ty) -> bool
    requires { IsIn s.now from.now }
    ensures { result ≡ is_never (value_at s.now from.now) }
{
    match from {
        Ty::Of(f) => word(s, *f) == Some(Scalar::Never),
        Ty::Iconst(_) | Ty::Null | Ty::Empty => false,
    }
}

/// The value is a whole number without a suffix, and the type's base an integer type that holds it.
pub(crate) fn is_const(s: &TypeStore, to: TypeId, from: &Ty) -> bool
    requires { to < length s.now.rows }
    ensures { result ≡ is_const s.now (value_at s.now from.now) (type_at s.now to) }
{
    match from {
        Ty::Iconst(v) => match base(s, to) {
            Some(b) => match word(s, b) {
                Some(k) => k.holds(*v),
                None => false,
            },
            None => false,
        },
        Ty::Of(_) | Ty::Null | Ty::Empty => false,
    }
}

/// Both are unnamed integer types of one signedness, the type strictly wider.
pub(crate) fn is_wider(s: &TypeStore, to: TypeId, from: &Ty) -> bool
    requires to { to < length s.now.rows }
    requires from { IsIn s.now from.now }
    ensures { result ≡ is_wider (value_at s.now from.now) (type_at s.now to) }
{
    match from {
        Ty::Of(f) => match (word(s, *f), word(s, to)) {
            (Some(a), Some(b)) => a.widens_to(b),
            _ => false,
        },
        Ty::Iconst(_) | Ty::Null | Ty::Empty => false,
    }
}

/// Whether the rows are those of `*X` and `nullable *X`, of `*X` and `*opaque` or `nullable *opaque`, or of `nullable *X` and
/// `nullable *opaque`.
fn points(s: &TypeStore, from: &Row, to: &Row) -> bool
    requires from { IsType s.now from.now }
    requires to { IsType s.now to.now }
    ensures { let ts = trees s.now.rows in result ≡ is_pointer (Of (tree_of ts from.now)) (tree_of ts to.now) }
{
    match (from, to) {
        (Row::Pointer(x), Row::Nullable(y)) => same(s, *x, *y) || is_opaque(s, *y),
        (Row::Pointer(_), Row::Pointer(y)) => is_opaque(s, *y),
        (Row::Nullable(_), Row::Nullable(y)) => is_opaque(s, *y),
        _ => false,
    }
}

/// `*X` to `nullable *X`, `*opaque` and `nullable *opaque`, and `nullable *X` to `nullable *opaque`.
pub(crate) fn is_pointer(s: &TypeStore, to: TypeId, from: &Ty) -> bool
    requires to { to < length s.now.rows }
    requires from { IsIn s.now from.now }
    ensures { result ≡ is_pointer (value_at s.now from.now) (type_at s.now to) }
{
    match from {
        Ty::Of(f) => points(s, row_of(s, *f), row_of(s, to)),
        Ty::Iconst(_) | Ty::Null | Ty::Empty => false,
    }
}

/// The value is null, and the type's base a nullable pointer.
pub(crate) fn is_null(s: &TypeStore, to: TypeId, from: &Ty) -> bool
    requires { to < length s.now.rows }
    ensures { result ≡ is_null s.now (value_at s.now from.now) (type_at s.now to) }
{
    match from {
        Ty::Null => match base(s, to) {
            Some(b) => matches!(row_of(s, b), Row::Nullable(_)),
            None => false,
        },
        Ty::Of(_) | Ty::Iconst(_) | Ty::Empty => false,
    }
}

/// Whether the rows are those of `[n]X` and `[]X`.
fn slices(s: &TypeStore, from: &Row, to: &Row) -> bool
    requires from { IsType s.now from.now }
    requires to { IsType s.now to.now }
    ensures { let ts = trees s.now.rows in result ≡ items_fit (Of (tree_of ts from.now)) (tree_of ts to.now) }
{
    match (from, to) {
        (Row::Array(_, x), Row::Slice(y)) => same(s, *x, *y),
        _ => false,
    }
}

/// Whether the row is that of a slice or of `[0]X`.
fn takes_none(to: &Row) -> bool
    ensures { (ts : List Tree) → result ≡ items_fit Empty (tree_of ts to.now) }
{
    match to {
        Row::Slice(_) => true,
        Row::Array(n, _) => *n == 0,
        _ => false,
    }
}

/// `[n]X` to what has `[]X` as its base, and an array of no items to what has a slice or `[0]X` as its base.
pub(crate) fn is_slice(s: &TypeStore, to: TypeId, from: &Ty) -> bool
    requires to { to < length s.now.rows }
    requires from { IsIn s.now from.now }
    ensures { result ≡ is_slice s.now (value_at s.now from.now) (type_at s.now to) }
{
    match base(s, to) {
        Some(b) => match from {
            Ty::Of(f) => slices(s, row_of(s, *f), row_of(s, b)),
            Ty::Empty => takes_none(row_of(s, b)),
            Ty::Iconst(_) | Ty::Null => false,
        },
        None => false,
    }
}

/// Both have one base.
pub(crate) fn is_name(s: &TypeStore, to: TypeId, from: &Ty) -> bool
    requires to { to < length s.now.rows }
    requires from { IsIn s.now from.now }
    ensures { result ≡ is_name s.now (value_at s.now from.now) (type_at s.now to) }
{
    match from {
        Ty::Of(f) => match (base(s, *f), base(s, to)) {
            (Some(a), Some(b)) => same(s, a, b),
            _ => false,
        },
        Ty::Iconst(_) | Ty::Null | Ty::Empty => false,
    }
}
