//! What the tests of rows look at: the rows of types, and when two ids stand for one type.

ghost use Rattle.std.specs.Prelude.{◌≡◌, ◌<◌, length, slice_get, Some};
ghost use Rattle.hare_types.specs.Rows.{tree_of, trees};
ghost use Rattle.hare_types.specs.Assign.{type_at, same, is_opaque};
ghost use Rattle.hare_assign.specs.Shapes.{IsType, word_of};

use hare_types::{Row, Scalar, TypeId, TypeStore};

/// The row of a type. The types in it are in the store too.
pub(crate) fn row_of(s: &TypeStore, t: TypeId) -> &Row
    requires { t < length s.now.rows }
    ensures row { slice_get s.now.rows t ≡ Some result.now }
    ensures tree { type_at s.now t ≡ tree_of (trees s.now.rows) result.now }
    ensures within { IsType s.now result.now }
{
    s.row(t)
}

/// Whether the types are one type: a store gives equal types one id.
pub(crate) fn same(s: &TypeStore, a: TypeId, b: TypeId) -> bool
    requires first { a < length s.now.rows }
    requires second { b < length s.now.rows }
    ensures { result ≡ same (type_at s.now a) (type_at s.now b) }
{
    let _law = s.row(a);
    a == b
}

/// The word that a type is, `None` where it is not written by one.
pub(crate) fn word(s: &TypeStore, t: TypeId) -> Option<Scalar>
    requires { t < length s.now.rows }
    ensures { result ≡ word_of (type_at s.now t) }
{
    match row_of(s, t) {
        Row::Scalar(k) => Some(*k),
        _ => None,
    }
}

/// The type is opaque.
pub(crate) fn is_opaque(s: &TypeStore, t: TypeId) -> bool
    requires { t < length s.now.rows }
    ensures { result ≡ is_opaque (type_at s.now t) }
{
    word(s, t) == Some(Scalar::Opaque)
}
