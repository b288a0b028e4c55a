//! What the cases of a `match` are for.

ghost use Rattle.std.specs.Prelude.{◌≡◌};
ghost use Rattle.hare_types.specs.Store.{Store};
ghost use Rattle.hare_typed.specs.Numbers.{kind_of};
ghost use Rattle.hare_typed.specs.Order.{tree_from_front};
ghost use Rattle.hare_typed.specs.Typed.{typed_nodes};
ghost use Rattle.hare_rules.specs.Context.{place_of};
ghost use Rattle.hare_rules.specs.Control as control;
ghost use Rattle.hare_rules.specs.Words.{id_in};
ghost use Rattle.rule_judge.specs.Defined.{AreDefinedTrees};
ghost use Rattle.rule_match.specs.Patterns.{meant, IsDefinedPattern};

use hare_tree::{Kind, Place};
use hare_typed::{Typed, TypedKids};
use hare_types::{Ty, TypeId};
use rule_judge::{place_at, type_at};

/// What a case of a `match` is for.
#[derive(Clone, Copy, Debug, PartialEq, Eq)]
pub(crate) enum Pattern {
    /// All that no other case is for.
    Default,
    /// The pointer that is null.
    NullPointer,
    /// A member of a union, or a pointer that is not null.
    Member(TypeId),
    /// What has no type.
    Lacking,
}

/// The pattern that is written as a type.
fn of_type(a: &Ty) -> Pattern
    ensures { meant result ≡ control.member_pattern (id_in a.now) }
{
    match a {
        Ty::Of(t) => Pattern::Member(*t),
        Ty::Iconst(_) | Ty::Null | Ty::Empty => Pattern::Lacking,
    }
}

/// What a case is for that has this tree at its front: of a `let` its type counts.
fn read(tree: &Typed) -> Pattern
    ensures { meant result ≡ control.pattern_by (kind_of tree.now) tree.now }
{
    match tree.kind {
        Kind::None => Pattern::Default,
        Kind::PatternNull => Pattern::NullPointer,
        Kind::PatternLet => of_type(&type_at(&tree.kids, 0)),
        _ => of_type(&tree.ty),
    }
}

/// What a case is for: one without a pattern is the default.
fn of_case(case: &Typed) -> Pattern
    ensures { meant result ≡ control.pattern_of case.now }
{
    match case.kids.get(0) {
        Some(tree) => read(tree),
        None => Pattern::Default,
    }
}

/// What kid `i` of a `match` is for, a case.
pub(crate) fn pattern_at(kids: &TypedKids, i: usize) -> Pattern
    ensures value { meant result ≡ control.pattern_of (tree_from_front i kids.now) }
    ensures defined { (s : Store) → AreDefinedTrees s (typed_nodes kids.now) → IsDefinedPattern s (meant result) }
{
    match kids.get(i) {
        Some(case) => of_case(case),
        None => Pattern::Default,
    }
}

/// Where the pattern of kid `i` of a `match` stands.
pub(crate) fn pattern_place(kids: &TypedKids, i: usize) -> Place
    ensures { result ≡ place_of (control.pattern_kid (tree_from_front i kids.now)) }
{
    match kids.get(i) {
        Some(case) => place_at(&case.kids, 0),
        None => place_at(kids, i),
    }
}
