//! What is told of kids.

ghost use Rattle.std.specs.Prelude.{◌≡◌, length, take};
ghost use Rattle.hare_typed.specs.Given as spec;
ghost use Rattle.hare_typed.specs.Numbers as numbers;
ghost use Rattle.hare_typed.specs.Order.{tree_from_front};
ghost use Rattle.hare_rules.specs.Context as context;

use hare_tree::{Kind, Place};
use hare_typed::TypedKids;
use hare_types::Ty;

/// The type of what kid `i` gives, before its coercion; of one that is not there that of an array of no items.
pub fn type_at(kids: &TypedKids, i: usize) -> Ty
    ensures { result ≡ context.own_type (tree_from_front i kids.now) }
{
    match kids.get(i) {
        Some(kid) => kid.ty,
        None => Ty::Empty,
    }
}

/// The type of what kid `i` gives, as its coercion leaves it; of one that is not there that of an array of no items.
pub fn seen_at(kids: &TypedKids, i: usize) -> Ty
    ensures { result ≡ spec.given (tree_from_front i kids.now) }
{
    match kids.get(i) {
        Some(kid) => kid.coerce.to,
        None => Ty::Empty,
    }
}

/// The kind of kid `i`; None of one that is not there.
pub fn kind_at(kids: &TypedKids, i: usize) -> Kind
    ensures { result ≡ numbers.kind_of (tree_from_front i kids.now) }
{
    match kids.get(i) {
        Some(kid) => kid.kind,
        None => Kind::None,
    }
}

/// How many kids stand before kid `i`: all of them before one that is not there.
pub fn kids_before(kids: &TypedKids, i: usize) -> usize
    ensures { result ≡ length (take i kids.now) }
{
    i.min(kids.len())
}

/// Whether kid `i` is there: it is not left out.
pub fn is_there(kids: &TypedKids, i: usize) -> bool
    ensures { result ≡ context.is_there (tree_from_front i kids.now) }
{
    kind_at(kids, i) != Kind::None
}

/// Where kid `i` stands; of one that is not there before all places.
pub fn place_at(kids: &TypedKids, i: usize) -> Place
    ensures { result ≡ context.place_of (tree_from_front i kids.now) }
{
    match kids.get(i) {
        Some(kid) => kid.place,
        None => Place {
            file: 0,
            line: 0,
            column: 0,
        },
    }
}
