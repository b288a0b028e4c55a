//! What a node asks of its kids, and where they go that were asked for no type.

ghost use Rattle.std.specs.Prelude.{◌≡◌, true, IfOk, IfSome};
ghost use Rattle.hare_types.specs.Store.{Store};
ghost use Rattle.hare_types.specs.Later.{IsLater};
ghost use Rattle.hare_rules.specs.Settles.{target_of};
ghost use Rattle.rule_judge.specs.Asked as asked;
ghost use Rattle.rule_judge.specs.Defined.{IsDefined};
ghost use Rattle.rule_judge.specs.Grown.{IsGrown};
ghost use Rattle.rule_judge.specs.Turns.{context_in, kind_in, IsTurn};
ghost use Rattle.rule_ctl.specs.Kinds.{judges};
ghost use Rattle.rule_ctl.specs.Needs.{IsSoundReady};

use crate::bindings::{binding_asks, binding_target};
use crate::calls::call_asks;
use crate::tries::tried_asks;
use hare_tree::Kind;
use hare_types::{Scalar, TypeId, TypeStore};
use rule_judge::{Turn, word};
use std::alloc::{AllocError, Global};

/// Whether the node has asked its kid number `i` for a value of a type. A label does not tell what it is asked for, and so `yield` asks for
/// none.
///
/// The node is one of those that `judge` judges. It is shaped and has its kids, which have been judged; each type that stands in them or is
/// told with it is in the store, and mentions no name that is not defined. So it is of the result of the function. What a callee means is
/// known, and the store defines `rt::nomem`. The store may grow in types. Fails for want of memory alone.
pub fn asks_type(
    alloc: Global,
    s: &mut TypeStore,
    t: &Turn<'_>,
    i: usize,
) -> Result<bool, AllocError>
    requires kind { judges (kind_in t.now) ≡ true }
    requires turn { IsTurn s.old t.now }
    requires needs { IsSoundReady s.old t.now }
    ensures value { IfOk result (λ b. (f : Store) → IsLater s.new f → b ≡ asked.asks_type (context_in f t.now) i) }
    ensures grown { IsGrown s.old s.new }
{
    let _law = s.declarations();
    let node = t.node;
    match node.kind {
        Kind::Call => call_asks(s, t, i),
        Kind::Try => tried_asks(alloc, s, t, i),
        Kind::Force => tried_asks(alloc, s, t, i),
        Kind::Assert => {
            word(s, Scalar::Bool)?;
            Ok(true)
        }
        Kind::Let => Ok(binding_asks(t, i)),
        Kind::Const => Ok(binding_asks(t, i)),
        Kind::Return => Ok(true),
        Kind::As | Kind::Is | Kind::Abort | Kind::Defer | Kind::Break | Kind::Continue => Ok(false),
        Kind::Yield => Ok(false),
        _ => unreachable!(),
    }
}

/// The type to which kid number `i` goes that was asked for none; none where it stays as it is.
pub(crate) fn target(
    s: &mut TypeStore,
    t: &Turn<'_>,
    i: usize,
) -> Result<Option<TypeId>, AllocError>
    requires kind { judges (kind_in t.now) ≡ true }
    requires turn { IsTurn s.old t.now }
    ensures value { IfOk result (λ o. (f : Store) → IsLater s.new f → o ≡ target_of (context_in f t.now) (kind_in t.now) i) }
    ensures defined { IfOk result (λ o. IfSome o (IsDefined s.new)) }
    ensures grown { IsGrown s.old s.new }
{
    let _law = s.declarations();
    let node = t.node;
    match node.kind {
        Kind::Let | Kind::Const => binding_target(s, t, i),
        Kind::As
        | Kind::Is
        | Kind::Call
        | Kind::Try
        | Kind::Force
        | Kind::Abort
        | Kind::Assert
        | Kind::Defer
        | Kind::Break
        | Kind::Continue
        | Kind::Return
        | Kind::Yield => Ok(None),
        _ => unreachable!(),
    }
}
