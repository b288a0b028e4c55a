//! Where kids go that were asked for no type.

ghost use Rattle.std.specs.Prelude.{◌≡◌, true, IfOk, IfSome};
ghost use Rattle.hare_types.specs.Store.{Store};
ghost use Rattle.hare_types.specs.Later.{IsLater};
ghost use Rattle.hare_rules.specs.Settles.{target_of};
ghost use Rattle.hare_rules.specs.Words as words;
ghost use Rattle.rule_judge.specs.Asked as asked;
ghost use Rattle.rule_judge.specs.Defined.{IsDefined, IsDefinedTy};
ghost use Rattle.rule_judge.specs.Grown.{IsGrown};
ghost use Rattle.rule_judge.specs.Turns.{context_in, kind_in, IsTurn};
ghost use Rattle.rule_ops.specs.Kinds.{is_operator};
ghost use Rattle.rule_ops.specs.Typed.{other_target_of, equal_target_of};

use crate::common::{are_iconsts, common_type};
use crate::compare::goes_to_other;
use crate::met::is_shift_sign;
use crate::operands::{operand, written};
use hare_tree::Kind;
use hare_types::{Scalar, Ty, TypeId, TypeStore};
use rule_judge::{Turn, default_in, is_type_hint, word};
use std::alloc::AllocError;

/// The id of a type, where it has one.
fn id_in(a: &Ty) -> Option<TypeId>
    ensures { result ≡ words.id_in a.now }
{
    match a {
        Ty::Of(t) => Some(*t),
        Ty::Iconst(_) | Ty::Null | Ty::Empty => None,
    }
}

/// Whether the node has asked its kid number `i` for a value of a type.
///
/// The node is a literal, an operator, a cast, a size or parentheses. It is shaped and has its kids, which have been judged; each type that
/// stands in them or is told with it is in the store, and mentions no name that is not defined. The store may grow in types. Fails for want
/// of memory alone.
pub fn asks_type(s: &mut TypeStore, t: &Turn<'_>, i: usize) -> Result<bool, AllocError>
    requires kind { is_operator (kind_in t.now) ≡ true }
    requires turn { IsTurn s.old t.now }
    ensures value { IfOk result (λ b. (f : Store) → IsLater s.new f → b ≡ asked.asks_type (context_in f t.now) i) }
    ensures grown { IsGrown s.old s.new }
{
    let _law = s.declarations();
    let node = t.node;
    let case = t.case;
    match node.kind {
        Kind::Paren => Ok(is_type_hint(&case.hint)),
        Kind::Logic => {
            word(s, Scalar::Bool)?;
            Ok(true)
        }
        _ => Ok(false),
    }
}

/// The type of the second operand, where the first goes there.
fn other_target(s: &TypeStore, a: &Ty, b: &Ty) -> Option<TypeId>
    requires first { IsDefinedTy s.now a.now }
    requires second { IsDefinedTy s.now b.now }
    ensures value { (f : Store) → IsLater s.now f → result ≡ other_target_of f a.now b.now }
    ensures defined { IfSome result (IsDefined s.now) }
{
    if goes_to_other(s, a, b) {
        id_in(b)
    } else {
        None
    }
}

/// Where the left operand of `==` or `!=` goes, or the right one.
fn equal_target(s: &TypeStore, a: &Ty, b: &Ty, is_left: bool) -> Option<TypeId>
    requires first { IsDefinedTy s.now a.now }
    requires second { IsDefinedTy s.now b.now }
    ensures value { (f : Store) → IsLater s.now f → result ≡ equal_target_of f a.now b.now is_left }
    ensures defined { IfSome result (IsDefined s.now) }
{
    match common_type(s, a, b) {
        Some(c) => Some(c),
        None => {
            if is_left {
                other_target(s, a, b)
            } else {
                other_target(s, b, a)
            }
        }
    }
}

/// The type to which kid number `i` goes that was asked for none; none where it stays as it is.
pub(crate) fn target(
    s: &mut TypeStore,
    t: &Turn<'_>,
    i: usize,
) -> Result<Option<TypeId>, AllocError>
    requires kind { is_operator (kind_in t.now) ≡ true }
    requires turn { IsTurn s.old t.now }
    ensures value { IfOk result (λ o. (f : Store) → IsLater s.new f → o ≡ target_of (context_in f t.now) (kind_in t.now) i) }
    ensures defined { IfOk result (λ o. IfSome o (IsDefined s.new)) }
    ensures grown { IsGrown s.old s.new }
{
    let _law = s.declarations();
    let node = t.node;
    let a = operand(s, t, 0);
    let b = operand(s, t, 1);
    match node.kind {
        Kind::Arith | Kind::Less => Ok(common_type(s, &a, &b)),
        Kind::Equal => Ok(equal_target(s, &a, &b, i == 0)),
        Kind::Shift => {
            if i == 0 && !are_iconsts(&a, &b) {
                {
                    let own = written(s, t, 0);
                    default_in(s, &own)
                }
            } else {
                Ok(None)
            }
        }
        Kind::OpAssign => {
            if i == 1 && !is_shift_sign(node.text.bytes()) {
                Ok(id_in(&a))
            } else {
                Ok(None)
            }
        }
        Kind::Cast => {
            if i == 0 {
                Ok(id_in(&written(s, t, 1)))
            } else {
                Ok(None)
            }
        }
        _ => Ok(None),
    }
}
