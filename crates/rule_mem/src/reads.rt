//! What rules of places and aggregates read of types.

ghost use Rattle.std.specs.Prelude.{◌≡◌, option_copied, option_map, IfSome};
ghost use Rattle.hare_types.specs.ByIds.{extent_at};
ghost use Rattle.hare_types.specs.Kept.{told};
ghost use Rattle.hare_types.specs.Store.{Store};
ghost use Rattle.hare_types.specs.Later.{IsLater};
ghost use Rattle.hare_typed.specs.Given as given;
ghost use Rattle.hare_typed.specs.Coercions.{element_of_slice};
ghost use Rattle.hare_typed.specs.Followed as follow;
ghost use Rattle.rule_judge.specs.Defined.{IsDefined, IsDefinedTy};

use hare_types::{Extent, Row, Ty, TypeId, TypeStore};
use rule_judge::base_row;

/// How many pointers an element or a member is taken through at most.
const MOST_POINTERS: u64 = 16;

/// To what a type points, where its base is a pointer that is never null.
pub(crate) fn pointee(s: &TypeStore, a: &Ty) -> Option<TypeId>
    requires { IsDefinedTy s.now a.now }
    ensures value { (f : Store) → IsLater s.now f → result ≡ given.pointee f a.now }
    ensures defined { IfSome result (λ t. IsDefined s.now t) }
{
    match base_row(s, a) {
        Some(Row::Pointer(t)) => Some(*t),
        _ => None,
    }
}

/// The type of the elements, where the base of a type is a slice. The condition is that the type is in the store, and mentions no name that
/// is not defined.
pub fn slice_element(s: &TypeStore, a: &Ty) -> Option<TypeId>
    requires { IsDefinedTy s.now a.now }
    ensures value { (f : Store) → IsLater s.now f → result ≡ element_of_slice (given.base_row f a.now) }
    ensures defined { IfSome result (λ t. IsDefined s.now t) }
{
    match base_row(s, a) {
        Some(Row::Slice(t)) => Some(*t),
        _ => None,
    }
}

/// The type of the elements, where the base of a type is an array or a slice.
pub(crate) fn element(s: &TypeStore, a: &Ty) -> Option<TypeId>
    requires { IsDefinedTy s.now a.now }
    ensures value { (f : Store) → IsLater s.now f → result ≡ given.element_in (given.base_row f a.now) }
    ensures defined { IfSome result (λ t. IsDefined s.now t) }
{
    match base_row(s, a) {
        Some(Row::Slice(t)) => Some(*t),
        Some(Row::Array(_, t)) => Some(*t),
        _ => None,
    }
}

/// What is reached from a value of a type through so many pointers at most.
fn reached_within(s: &TypeStore, a: &Ty, most: u64) -> Ty
    requires { IsDefinedTy s.now a.now }
    ensures value { (f : Store) → IsLater s.now f → result ≡ follow.reached_within most f a.now }
    ensures defined { IsDefinedTy s.now result }
{
    let _law = s.declarations();
    let mut at = *a;
    for passed in 0..most {
        match pointee(s, &at) {
            Some(t) => at = Ty::Of(t),
            None => return at,
        }
    }
    at
}

/// What is reached from a value of a type when pointers are followed.
pub(crate) fn reached(s: &TypeStore, a: &Ty) -> Ty
    requires { IsDefinedTy s.now a.now }
    ensures value { (f : Store) → IsLater s.now f → result ≡ follow.reached_type f a.now }
    ensures defined { IsDefinedTy s.now result }
{
    reached_within(s, a, MOST_POINTERS)
}

/// How many bytes a value of the type takes, and of what its address is a multiple; none where it has no size.
pub(crate) fn extent(s: &TypeStore, t: TypeId) -> Option<Extent>
    requires { IsDefined s.now t }
    ensures { (f : Store) → IsLater s.now f → result ≡ option_map told (extent_at f t) }
{
    s.extent(t)
}
