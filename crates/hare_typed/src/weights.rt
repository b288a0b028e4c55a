//! The weights of nodes.

ghost use Rattle.std.specs.Prelude.{◌≡◌, min};
ghost use Rattle.hare_typed.specs.Typed.{typed_nodes};
ghost use Rattle.hare_typed.specs.Weight as spec;

use crate::given::{first_given, followed, is_str, members_in};
use crate::typed::{Typed, TypedKids};
use hare_tree::Kind;
use hare_types::{Coercion, TypeStore};

/// The row of the table of assignability that gives a union.
const TO_UNION: u8 = 9;

/// What the evaluation of a node may cost, and how much code it may take: `docs/LANGUAGE.md` says how it is counted. It stops at the
/// greatest
/// `u64`. Takes no memory, and constant time: of what stands below the node its kids' types are looked at, and how many there are.
pub fn weight(s: &TypeStore, t: &Typed) -> u64
    ensures { result ≡ min (spec.weight_of s.now t.now) u64.MAX }
{
    begins_with(s, t.kind, &t.kids)
        .saturating_add(coerced(s, t.coerce) as u64)
        .saturating_add(handled(s, t.kind, &t.kids) as u64)
        .saturating_add(items_of(t.kind, &t.kids) as u64)
        .saturating_add(passed(s, t.kind, &t.kids))
}

/// What a node of this kind begins with.
fn begins_with(s: &TypeStore, k: Kind, kids: &TypedKids) -> u64
    ensures { result ≡ spec.begins_with s.now k (typed_nodes kids.now) }
{
    match k {
        Kind::Slice | Kind::ForEach | Kind::Alloc | Kind::Free | Kind::Append | Kind::Delete => 4,
        Kind::Equal => { if is_str(s, first_given(kids)) { 4 } else { 1 } }
        _ => 1,
    }
}

/// The members of the union that a coercion gives.
fn coerced(s: &TypeStore, c: Coercion) -> usize
    ensures { result ≡ spec.coerced s.now c }
{
    if c.row == TO_UNION {
        members_in(s, c.to)
    } else {
        0
    }
}

/// The members of the union that a node takes apart.
fn handled(s: &TypeStore, k: Kind, kids: &TypedKids) -> usize
    ensures { result ≡ spec.handled s.now k (typed_nodes kids.now) }
{
    match k {
        Kind::As | Kind::Is | Kind::Match | Kind::Try | Kind::Force => {
            members_in(s, first_given(kids))
        }
        _ => 0,
    }
}

/// The items of a literal.
fn items_of(k: Kind, kids: &TypedKids) -> usize
    ensures { result ≡ spec.items_of k (typed_nodes kids.now) }
{
    match k {
        Kind::StructLit | Kind::Array => kids.len().saturating_sub(2),
        Kind::Tuple => kids.len().saturating_sub(1),
        _ => 0,
    }
}

/// The pointers through which a node goes.
fn passed(s: &TypeStore, k: Kind, kids: &TypedKids) -> u64
    ensures { result ≡ spec.passed s.now k (typed_nodes kids.now) }
{
    match k {
        Kind::Field | Kind::Index | Kind::Slice => followed(s, first_given(kids)),
        _ => 0,
    }
}
