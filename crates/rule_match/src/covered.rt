//! Whether the cases of a `match` cover the type of its operand.

ghost use Rattle.std.specs.Prelude.{◌≡◌, nat_eq, drop, map, IfOk};
ghost use Rattle.std.specs.List.{list_all, list_any};
ghost use Rattle.indexmap.specs.IndexSet.{contains};
ghost use Rattle.hare_types.specs.Store.{Store};
ghost use Rattle.hare_types.specs.Later.{IsLater};
ghost use Rattle.hare_typed.specs.Cover.{match_covers};
ghost use Rattle.hare_typed.specs.Typed.{typed_nodes};
ghost use Rattle.hare_rules.specs.Control as control;
ghost use Rattle.rule_judge.specs.Defined.{AreDefinedTrees, IsDefinedTy};
ghost use Rattle.rule_judge.specs.Turns.{context_in, IsTurn};
ghost use Rattle.rule_match.specs.Patterns.{meant, points_to, AreListed, IsDefinedPattern, as_cover};

use crate::listed::Patterns;
use crate::patterns::{Pattern, pattern_at};
use hare_typed::TypedKids;
use hare_types::{Row, Ty, TypeId, TypeStore};
use indexmap::IndexSet;
use rule_judge::{Turn, base_row, row_in, seen};
use std::alloc::{AllocError, Global};

/// Whether each of the types is in the set.
fn has_each(types: &IndexSet<TypeId>, members: &[TypeId]) -> bool
    ensures { result ≡ list_all (contains nat_eq types.now) members.now }
{
    members.iter().all(|member| types.contains(member))
}

/// Whether the pattern is a pointer to the type that is never null.
fn is_pointer_to(s: &TypeStore, p: Pattern, pointee: TypeId) -> bool
    requires { IsDefinedPattern s.now (meant p) }
    ensures { (f : Store) → IsLater s.now f → result ≡ points_to f pointee (meant p) }
{
    let Pattern::Member(t) = p else {
        return false;
    };
    match row_in(s, &Ty::Of(t)) {
        Some(Row::Pointer(u)) => pointee == *u,
        _ => false,
    }
}

/// Whether a case is for a pointer to the type that is never null.
fn has_pointer(s: &TypeStore, kids: &TypedKids, pointee: TypeId) -> bool
    requires { AreDefinedTrees s.now (typed_nodes kids.now) }
    ensures { (f : Store) → IsLater s.now f → result ≡ list_any (points_to f pointee) (map control.pattern_of (drop 1 kids.now)) }
{
    for i in 1..kids.len() {
        if is_pointer_to(s, pattern_at(kids, i), pointee) {
            return true;
        }
    }
    false
}

/// Whether the patterns of the cases cover the base of the type: of a union each member, of a pointer that may be null both `null` and the
/// pointer that is not; a case for all others covers any.
fn covers(s: &TypeStore, kids: &TypedKids, all: &Patterns, a: &Ty) -> bool
    requires operand { IsDefinedTy s.now a.now }
    requires kids { AreDefinedTrees s.now (typed_nodes kids.now) }
    requires all { AreListed all.now (map control.pattern_of (drop 1 kids.now)) }
    ensures { (f : Store) → IsLater s.now f → result ≡ match_covers f a.now (as_cover (map control.pattern_of (drop 1 kids.now))) }
{
    if all.has_default {
        return true;
    }
    match base_row(s, a) {
        Some(Row::Union(members)) => has_each(&all.types, members.as_slice()),
        Some(Row::Nullable(pointee)) => all.has_null && has_pointer(s, kids, *pointee),
        _ => false,
    }
}

/// Whether the cases cover the base of the operand's type. The time is that of the cases, and of the members of a union.
pub(crate) fn is_matched(alloc: Global, s: &TypeStore, t: &Turn<'_>) -> Result<bool, AllocError>
    requires { IsTurn s.now t.now }
    ensures { IfOk result (λ b. (f : Store) → IsLater s.now f → b ≡ control.is_matched (context_in f t.now)) }
{
    let all = Patterns::of_cases(alloc, t.kids)?;
    Ok(covers(s, t.kids, &all, &seen(t, 0)))
}
