//! What the types of nodes are made of: bases, unions and pointers.

ghost use Rattle.std.specs.Prelude.{◌≡◌, option_copied};
ghost use Rattle.hare_typed.specs.Typed.{typed_nodes};
ghost use Rattle.hare_typed.specs.Given as spec;

use crate::typed::TypedKids;
use hare_types::{Row, Scalar, Ty, TypeId, TypeStore};

/// How many pointers an element, a field or a slice is taken through at most.
const MOST_POINTERS: u64 = 16;

/// What the first of some kids gives.
pub(crate) fn first_given(kids: &TypedKids) -> Ty
    ensures { result ≡ spec.first_given (typed_nodes kids.now) }
{
    match kids.get(0) {
        Some(t) => t.coerce.to,
        None => Ty::Empty,
    }
}

/// The row of the base of a type of the store; none of what has no type yet.
fn base_row(s: &TypeStore, t: Ty) -> Option<&Row>
    ensures { option_copied result ≡ spec.base_row s.now t }
{
    let Ty::Of(t) = t else {
        return None;
    };
    let b = s.base(t)?;
    Some(s.row(b))
}

/// Whether the base of a type is `str`.
pub(crate) fn is_str(s: &TypeStore, t: Ty) -> bool
    ensures { result ≡ spec.is_str s.now t }
{
    matches!(base_row(s, t), Some(Row::Scalar(Scalar::Str)))
}

/// How many members the union has that is the base of a type; none where it is no union.
pub(crate) fn members_in(s: &TypeStore, t: Ty) -> usize
    ensures { result ≡ spec.members_in s.now t }
{
    match base_row(s, t) {
        Some(Row::Union(members)) => members.len(),
        _ => 0,
    }
}

/// To what a type points, where its base is a pointer that is never null.
fn pointee(s: &TypeStore, t: Ty) -> Option<TypeId>
    ensures { result ≡ spec.pointee s.now t }
{
    match base_row(s, t) {
        Some(Row::Pointer(i)) => Some(*i),
        _ => None,
    }
}

/// How many pointers an element, a field or a slice is taken through.
pub(crate) fn followed(s: &TypeStore, t: Ty) -> u64
    ensures { result ≡ spec.followed s.now t }
{
    let mut at = t;
    for passed in 0..MOST_POINTERS {
        let Some(i) = pointee(s, at) else {
            return passed;
        };
        at = Ty::Of(i);
    }
    MOST_POINTERS
}
