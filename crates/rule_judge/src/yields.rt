//! The coercions of values that are yielded to a node.

ghost use Rattle.std.specs.Prelude.{◌≡◌, ◌++◌, List, drop, find, map, IfOk, IfSome, OnOk};
ghost use Rattle.hare_types.specs.Store.{Store};
ghost use Rattle.hare_types.specs.Later.{IsLater};
ghost use Rattle.hare_typed.specs.Typed.{TypedNode};
ghost use Rattle.hare_rules.specs.Control as control;
ghost use Rattle.hare_rules.specs.Judged as spec;
ghost use Rattle.hare_rules.specs.Joined as joined;
ghost use Rattle.hare_rules.specs.Settles as settles;
ghost use Rattle.rule_judge.specs.Defined.{IsDefined, IsDefinedTy, AreDefinedCoercions, AreDefinedYields};
ghost use Rattle.rule_judge.specs.Yields.{first_going, end_word};
ghost use Rattle.rule_judge.specs.Grown.{IsGrown};
ghost use Rattle.rule_judge.specs.Turns.{context_in, yields_in, IsTurn};

use crate::bases::is_never;
use crate::defaults::default_in;
use crate::made::word;
use crate::sites::to_type;
use crate::told::type_at;
use crate::turn::Turn;
use hare_rules::{Coercions, Hint, Yields};
use hare_tree::Kind;
use hare_types::{Scalar, Ty, TypeId, TypeStore};
use std::alloc::AllocError;

/// How many kids stand before the statements: one in a case.
fn first_statement(k: Kind) -> usize
    ensures { (xs : List TypedNode) → drop result xs ≡ control.statements_by k xs }
{
    match k {
        Kind::Case | Kind::SwitchCase => 1,
        _ => 0,
    }
}

/// Whether the end of the node's statements is reached: none of them has the type `never`.
///
/// The node is shaped and has its kids, which have been judged; each type that stands in them or is told with it is in the store, and
/// mentions no name that is not defined.
pub fn is_open(s: &TypeStore, t: &Turn<'_>) -> bool
    requires { IsTurn s.now t.now }
    ensures { (f : Store) → IsLater s.now f → result ≡ control.is_open (context_in f t.now) }
{
    let node = t.node;
    for i in first_statement(node.kind)..t.kids.len() {
        if is_never(s, &type_at(t.kids, i)) {
            return false;
        }
    }
    true
}

/// The type of the first yielded value that goes on: it is not `never`.
fn first_going(s: &TypeStore, yields: &Yields) -> Option<Ty>
    requires { AreDefinedYields s.now yields.now }
    ensures value { (f : Store) → IsLater s.now f → result ≡ first_going f yields.now }
    ensures defined { IfSome result (IsDefinedTy s.now) }
{
    for y in yields.as_slice() {
        if !is_never(s, &y.ty) {
            return Some(y.ty);
        }
    }
    None
}

/// The word that is the type of a node to which nothing is yielded that goes on: void where something is yielded and the end is reached,
/// and
/// `never` else.
fn end_word(s: &TypeStore, t: &Turn<'_>) -> Scalar
    requires { IsTurn s.now t.now }
    ensures { (f : Store) → IsLater s.now f → result ≡ end_word (context_in f t.now) }
{
    let case = t.case;
    if !case.yields.is_empty() && is_open(s, t) {
        Scalar::Void
    } else {
        Scalar::Never
    }
}

/// The default of the first value that is yielded to the node and goes on; else void where something is yielded and the end is reached, and
/// `never` where it is not.
///
/// The node is shaped and has its kids, which have been judged; each type that stands in them or is told with it is in the store, and
/// mentions no name that is not defined. The store may grow in types. Fails for want of memory alone.
pub fn joined_yields(s: &mut TypeStore, t: &Turn<'_>) -> Result<Option<TypeId>, AllocError>
    requires { IsTurn s.old t.now }
    ensures value { IfOk result (λ o. (f : Store) → IsLater s.new f →
        o ≡ joined.default_of_first f (find (joined.goes_on f) (control.block_values (context_in f t.now)))) }
    ensures defined { IfOk result (λ o. IfSome o (IsDefined s.new)) }
    ensures grown { IsGrown s.old s.new }
{
    let case = t.case;
    match first_going(s, &case.yields) {
        Some(a) => default_in(s, &a),
        None => {
            let k = end_word(s, t);
            Ok(Some(word(s, k)?))
        }
    }
}

/// Puts the coercion of each yielded value to a type, or as it stays, behind the others.
fn put_yields(
    s: &TypeStore,
    yields: &Yields,
    to: &Option<TypeId>,
    coercions: &mut Coercions,
) -> Result<(), AllocError>
    requires yields { AreDefinedYields s.now yields.now }
    requires to { IfSome to.now (IsDefined s.now) }
    requires defined { AreDefinedCoercions s.now coercions.old }
    ensures value { OnOk result ((f : Store) → IsLater s.now f → coercions.new ≡ coercions.old ++
        map (λ y. settles.to_type f y.ty to.now) yields.now) }
    ensures defined { OnOk result (AreDefinedCoercions s.now coercions.new) }
{
    for y in yields.as_slice() {
        coercions.push(to_type(s, &y.ty, to))?;
    }
    Ok(())
}

/// The type to which yielded values go that were asked for none; none where they stay as they are.
fn yield_target(s: &mut TypeStore, t: &Turn<'_>) -> Result<Option<TypeId>, AllocError>
    requires { IsTurn s.old t.now }
    ensures value { IfOk result (λ o. (f : Store) → IsLater s.new f → o ≡ settles.joined_target f t.now.case.now.hint
        (control.block_values (context_in f t.now))) }
    ensures defined { IfOk result (λ o. IfSome o (IsDefined s.new)) }
    ensures grown { IsGrown s.old s.new }
{
    let _law = s.declarations();
    let case = t.case;
    match case.hint {
        Hint::None => joined_yields(s, t),
        Hint::Drop | Hint::Of(_) => Ok(None),
    }
}

/// Whether the hint asks for a value of a type.
pub fn is_type_hint(hint: &Hint) -> bool
    ensures { result ≡ spec.is_type_hint hint.now }
{
    matches!(hint, Hint::Of(_))
}

/// Puts the coercions of yielded values that were asked for no type behind the others.
pub(crate) fn add_yields(
    s: &mut TypeStore,
    t: &Turn<'_>,
    coercions: &mut Coercions,
) -> Result<(), AllocError>
    requires turn { IsTurn s.old t.now }
    requires defined { AreDefinedCoercions s.old coercions.old }
    ensures value { OnOk result ((f : Store) → IsLater s.new f → coercions.new ≡ coercions.old ++
        spec.yield_coercions f t.now.case.now.hint (settles.joined_target f t.now.case.now.hint (control.block_values (context_in f t.now)))
        (yields_in t.now)) }
    ensures defined { OnOk result (AreDefinedCoercions s.new coercions.new) }
    ensures grown { IsGrown s.old s.new }
{
    let _law = s.declarations();
    let case = t.case;
    if is_type_hint(&case.hint) || case.yields.is_empty() {
        return Ok(());
    }
    let to = yield_target(s, t)?;
    put_yields(s, &case.yields, &to, coercions)
}
