//! The types of nodes that meet their own rows.

ghost use Rattle.std.specs.Prelude.{◌≡◌, true, None, Some, IfOk};
ghost use Rattle.hare_types.specs.Store.{Store};
ghost use Rattle.hare_types.specs.Later.{IsLater};
ghost use Rattle.hare_rules.specs.Types.{type_of};
ghost use Rattle.hare_rules.specs.Words as words;
ghost use Rattle.rule_judge.specs.Asked.{own_failing};
ghost use Rattle.rule_judge.specs.Defined.{IsDefinedTy};
ghost use Rattle.rule_judge.specs.Grown.{IsGrown};
ghost use Rattle.rule_judge.specs.Turns.{context_in, kind_in, IsTurn};
ghost use Rattle.rule_ctl.specs.Kinds.{judges};
ghost use Rattle.rule_ctl.specs.Needs.{IsSoundReady};

use crate::calls::call_type;
use crate::tries::rest_type;
use hare_tree::Kind;
use hare_types::{Scalar, Ty, TypeStore};
use rule_judge::{Turn, own, word};
use std::alloc::{AllocError, Global};

/// The type that is written by one word.
pub(crate) fn word_type(s: &mut TypeStore, k: Scalar) -> Result<Ty, AllocError>
    ensures value { IfOk result (λ a. (f : Store) → IsLater s.new f → words.typed_as (words.word_id f k) ≡ Some a) }
    ensures defined { IfOk result (IsDefinedTy s.new) }
    ensures grown { IsGrown s.old s.new }
{
    Ok(Ty::Of(word(s, k)?))
}

/// The type of a node of these kinds that meets its own rows.
pub(crate) fn own_type(alloc: Global, s: &mut TypeStore, t: &Turn<'_>) -> Result<Ty, AllocError>
    requires kind { judges (kind_in t.now) ≡ true }
    requires turn { IsTurn s.old t.now }
    requires needs { IsSoundReady s.old t.now }
    requires rows { (f : Store) → IsLater s.old f → own_failing (context_in f t.now) ≡ None }
    ensures value { IfOk result (λ a. (f : Store) → IsLater s.new f → type_of (context_in f t.now) ≡ Some a) }
    ensures defined { IfOk result (IsDefinedTy s.new) }
    ensures grown { IsGrown s.old s.new }
{
    let _law = s.declarations();
    let node = t.node;
    match node.kind {
        Kind::As => Ok(own(t, 1)),
        Kind::Is => word_type(s, Scalar::Bool),
        Kind::Call => call_type(s, t),
        Kind::Try => rest_type(alloc, s, t),
        Kind::Force => rest_type(alloc, s, t),
        Kind::Abort | Kind::Break | Kind::Continue | Kind::Return | Kind::Yield => {
            word_type(s, Scalar::Never)
        }
        Kind::Assert | Kind::Let | Kind::Const | Kind::Defer => word_type(s, Scalar::Void),
        _ => unreachable!(),
    }
}
