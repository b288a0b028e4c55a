//! The sizes of nodes, as a store tells them: more than 2^40 bytes are told as 2^40 + 1.

ghost use Rattle.std.specs.Prelude.{◌≡◌, Some, min, max, option_copied};
ghost use Rattle.hare_typed.specs.Typed.{typed_nodes};
ghost use Rattle.hare_typed.specs.Given as given;
ghost use Rattle.hare_typed.specs.Frame as spec;
ghost use Rattle.hare_costs.specs.Sizes.{most_of_size, is_reference};
ghost use Rattle.hare_typed.specs.Numbers.{kind_of};

use hare_tree::Kind;
use hare_typed::{Typed, TypedKids};
use hare_types::{Row, Ty, TypeId, TypeStore};

/// The bytes of a pointer.
const POINTER_SIZE: u64 = 8;

/// The size of a type of a store; 0 where it has none.
fn size_of_id(s: &TypeStore, t: TypeId) -> u64
    ensures { result ≡ min (spec.size_of_element s.now (Some t)) most_of_size }
{
    match s.extent(t) {
        Some(extent) => extent.size,
        None => 0,
    }
}

/// The size of a type; 0 where it has none.
pub(crate) fn size_in(s: &TypeStore, t: Ty) -> u64
    ensures { result ≡ min (given.size_in s.now t) most_of_size }
{
    match t {
        Ty::Of(t) => size_of_id(s, t),
        _ => 0,
    }
}

/// What the first of some kids gives.
fn first_given(kids: &TypedKids) -> Ty
    ensures { result ≡ given.first_given (typed_nodes kids.now) }
{
    match kids.get(0) {
        Some(t) => t.coerce.to,
        None => Ty::Empty,
    }
}

/// What the second of some kids gives.
fn second_given(kids: &TypedKids) -> Ty
    ensures { result ≡ given.second_given (typed_nodes kids.now) }
{
    match kids.get(1) {
        Some(t) => t.coerce.to,
        None => Ty::Empty,
    }
}

/// The row of the base of a type.
fn base_row(s: &TypeStore, t: Ty) -> Option<&Row>
    ensures { option_copied result ≡ given.base_row s.now t }
{
    let Ty::Of(t) = t else {
        return None;
    };
    let base = s.base(t)?;
    Some(s.row(base))
}

/// The type of the elements, where the base of a type is an array or a slice.
fn element(s: &TypeStore, t: Ty) -> Option<TypeId>
    ensures { result ≡ given.element s.now t }
{
    match base_row(s, t) {
        Some(Row::Slice(item)) => Some(*item),
        Some(Row::Array(_, item)) => Some(*item),
        _ => None,
    }
}

/// Whether the mark of a binding says that it is by reference.
fn is_reference(k: Kind) -> bool
    ensures { result ≡ is_reference k }
{
    matches!(k, Kind::ByRef)
}

/// The kind of the first of some kids.
fn first_kind(kids: &TypedKids) -> Kind
    ensures { result ≡ kind_of (spec.first_of (typed_nodes kids.now)) }
{
    match kids.get(0) {
        Some(t) => t.kind,
        None => Kind::None,
    }
}

/// Whether the binding of a loop over elements, which is its first kid, is by reference.
fn is_by_reference(kids: &TypedKids) -> bool
    ensures { result ≡ is_reference (spec.by_reference (spec.first_of (typed_nodes kids.now))) }
{
    match kids.get(0) {
        Some(binding) => is_reference(first_kind(&binding.kids)),
        None => false,
    }
}

/// The size of what a loop over elements binds.
fn turn_size(s: &TypeStore, kids: &TypedKids) -> u64
    ensures { result ≡ min (spec.turn_size s.now (spec.by_reference (spec.first_of (typed_nodes kids.now))) (typed_nodes kids.now))
        most_of_size }
{
    if is_by_reference(kids) {
        return POINTER_SIZE;
    }
    match element(s, second_given(kids)) {
        Some(item) => size_of_id(s, item),
        None => 0,
    }
}

/// The size of what a node of this kind binds, if it binds something.
fn bound_size(s: &TypeStore, k: Kind, kids: &TypedKids) -> u64
    ensures { result ≡ min (spec.bound_size s.now k (typed_nodes kids.now)) most_of_size }
{
    match k {
        Kind::Let | Kind::Const => size_in(s, second_given(kids)),
        Kind::Param | Kind::PatternLet => size_in(s, first_given(kids)),
        Kind::ForEach => turn_size(s, kids),
        _ => 0,
    }
}

/// The greater of two sizes.
fn greater(a: u64, b: u64) -> u64
    ensures { result ≡ max a b }
{
    if a < b { b } else { a }
}

/// The size of a node: the greatest of those of its type, of the type that its coercion gives, and of what it binds.
pub(crate) fn node_size(s: &TypeStore, t: &Typed) -> u64
    ensures { result ≡ min (spec.node_size s.now t.now) most_of_size }
{
    let own = size_in(s, t.ty);
    let coerced = size_in(s, t.coerce.to);
    greater(own, greater(coerced, bound_size(s, t.kind, &t.kids)))
}
