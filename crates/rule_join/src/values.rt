//! The values that come together in a node.

ghost use Rattle.std.specs.Prelude.{◌≡◌, ◌<◌, IfSome, Some, cond, length, slice_get};
ghost use Rattle.hare_types.specs.Store.{Store};
ghost use Rattle.hare_types.specs.Later.{IsLater};
ghost use Rattle.hare_types.specs.declared.row.Scalar.TheVariants as keyword;
ghost use Rattle.hare_typed.specs.Order.{tree_from_front};
ghost use Rattle.rule_judge.specs.Defined.{IsDefinedTy};
ghost use Rattle.rule_judge.specs.Turns.{context_in, IsTurn};
ghost use Rattle.rule_join.specs.Together as spec;

use hare_rules::Yielded;
use hare_typed::TypedKids;
use hare_types::{Scalar, TypeStore};
use rule_judge::{Turn, is_never, is_open, is_there, place_at, type_at};

/// Where the values come from that come together in a node.
#[derive(Clone, Copy, Debug, PartialEq, Eq)]
pub(crate) enum Source {
    /// The two branches of an `if`, where it has an `else`.
    Branches,
    /// What was yielded to a block or a case, and then its end, where anything was and it is reached.
    Yields,
    /// The cases of a `match` or a `switch`.
    Cases,
}

/// What kid `i` hands to the node.
fn handed(kids: &TypedKids, i: usize) -> Yielded
    ensures { result ≡ spec.handed (tree_from_front i kids.now) }
{
    Yielded {
        place: place_at(kids, i),
        ty: type_at(kids, i),
    }
}

/// How many values come together in the node, its end not counted.
pub(crate) fn count(v: Source, t: &Turn<'_>) -> usize
    ensures { result ≡ length (spec.listed_in v t.now) }
{
    match v {
        Source::Branches => { if is_there(t.kids, 2) { 2 } else { 0 } }
        Source::Yields => {
            let case = t.case;
            case.yields.len()
        }
        Source::Cases => t.kids.len().saturating_sub(1),
    }
}

/// Value number `i` of those, in the order of the source.
pub(crate) fn value_at(v: Source, t: &Turn<'_>, i: usize) -> Yielded
    requires { i < length (spec.listed_in v t.now) }
    ensures value { slice_get (spec.listed_in v t.now) i ≡ Some result }
    ensures defined { (s : Store) → IsTurn s t.now → IsDefinedTy s result.ty }
{
    match v {
        Source::Branches => handed(t.kids, i + 1),
        Source::Yields => {
            let case = t.case;
            case.yields.as_slice()[i]
        }
        Source::Cases => {
            let all = t.kids.len();
            prove!(i < all);
            handed(t.kids, i + 1)
        }
    }
}

/// The first of the values that goes on: its type is not `never`.
pub(crate) fn first_going(s: &TypeStore, v: Source, t: &Turn<'_>) -> Option<Yielded>
    requires { IsTurn s.now t.now }
    ensures value { (f : Store) → IsLater s.now f → result ≡ spec.going f (spec.listed_in v t.now) }
    ensures defined { IfSome result (λ y. IsDefinedTy s.now y.ty) }
{
    for i in 0..count(v, t) {
        let y = value_at(v, t, i);
        if !is_never(s, &y.ty) {
            return Some(y);
        }
    }
    None
}

/// Whether the end of the node is one of the values: something was yielded to it, and the end is reached.
pub(crate) fn ends(s: &TypeStore, v: Source, t: &Turn<'_>) -> bool
    requires { IsTurn s.now t.now }
    ensures { (f : Store) → IsLater s.now f → result ≡ spec.ends v (context_in f t.now) }
{
    match v {
        Source::Branches | Source::Cases => false,
        Source::Yields => {
            let case = t.case;
            !case.yields.is_empty() && is_open(s, t)
        }
    }
}

/// The word that is the type of what comes together where none of the values goes on: void of an end, else `never`.
pub(crate) fn end_word(s: &TypeStore, v: Source, t: &Turn<'_>) -> Scalar
    requires { IsTurn s.now t.now }
    ensures { (f : Store) → IsLater s.now f → result ≡ cond (spec.ends v (context_in f t.now)) keyword.Void keyword.Never }
{
    if ends(s, v, t) {
        Scalar::Void
    } else {
        Scalar::Never
    }
}
