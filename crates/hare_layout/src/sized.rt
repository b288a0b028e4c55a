//! Which types have no size.

ghost use Rattle.std.specs.Prelude.{◌≡◌, ◌<◌, length, map};
ghost use Rattle.std.specs.List.{list_any};
ghost use Rattle.hare_layout.specs.Ids.{unsized_at, AreIds};
ghost use Rattle.hare_layout.specs.Admission.{measured};

use hare_types::{Field, Row, Scalar, TypeId, TypeStore};
use std::slice::from_ref;

/// Whether it is known that a type has no size.
pub(crate) fn is_unsized(s: &TypeStore, t: TypeId) -> bool
    requires { t < length s.now.rows }
    ensures { result ≡ unsized_at s.now t }
{
    let mut at = t;
    'marks: loop {
        match s.row(at) {
            Row::Error(inner) => at = *inner,
            Row::Scalar(k) => return matches!(k, Scalar::Never | Scalar::Opaque),
            Row::Named(decl) => {
                return match s.sized(*decl) {
                    Some(sized) => !sized,
                    None => false,
                };
            }
            _ => return false,
        }
    }
}

/// Whether it is known that one of these types has no size.
pub(crate) fn any_unsized(s: &TypeStore, types: &[TypeId]) -> bool
    requires { AreIds s.now types.now }
    ensures { result ≡ list_any (unsized_at s.now) types.now }
{
    for t in types {
        if is_unsized(s, *t) {
            return true;
        }
    }
    false
}

/// Whether it is known that one of these fields has no size.
fn any_field_unsized(s: &TypeStore, fields: &[Field]) -> bool
    requires { AreIds s.now (map (λ f. f.ty) fields.now) }
    ensures { result ≡ list_any (unsized_at s.now) (map (λ f. f.ty) fields.now) }
{
    for field in fields {
        if is_unsized(s, field.ty) {
            return true;
        }
    }
    false
}

/// Whether it is known that an array's or a slice's elements, a struct's field or a tuple's component has no size.
pub(crate) fn lacks_size(s: &TypeStore, row: &Row) -> bool
    requires { AreIds s.now (measured row.now) }
    ensures { result ≡ list_any (unsized_at s.now) (measured row.now) }
{
    match row {
        Row::Array(_, item) => any_unsized(s, from_ref(item)),
        Row::Slice(item) => any_unsized(s, from_ref(item)),
        Row::Struct(fields) => any_field_unsized(s, fields.as_slice()),
        Row::Tuple(types) => any_unsized(s, types.as_slice()),
        _ => false,
    }
}
