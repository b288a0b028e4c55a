//! What a `switch` asks of its kids, and where they go that were asked for no type.

ghost use Rattle.std.specs.Prelude.{◌≡◌, true, Some, IfOk, IfSome};
ghost use Rattle.hare_types.specs.Store.{Store};
ghost use Rattle.hare_types.specs.Later.{IsLater};
ghost use Rattle.hare_rules.specs.Settles.{target_of};
ghost use Rattle.hare_rules.specs.Types.{type_of};
ghost use Rattle.rule_judge.specs.Asked.{asks_type};
ghost use Rattle.rule_judge.specs.Defined.{IsDefined, IsDefinedTy};
ghost use Rattle.rule_judge.specs.Grown.{IsGrown};
ghost use Rattle.rule_judge.specs.Turns.{context_in, kind_in, IsTurn};
ghost use Rattle.rule_switch.specs.Kinds.{judges};

use crate::operand::switched;
use hare_types::{Ty, TypeId, TypeStore};
use rule_join::{asks_case, case_target};
use rule_judge::Turn;
use std::alloc::AllocError;

/// Whether the node has asked its kid number `i` for a value of a type: each case for what is asked of the node itself, and the operand for
/// none.
pub(crate) fn asks_type(s: &mut TypeStore, t: &Turn<'_>, i: usize) -> Result<bool, AllocError>
    requires { judges (kind_in t.now) ≡ true }
    ensures value { IfOk result (λ b. (f : Store) → IsLater s.new f → b ≡ asks_type (context_in f t.now) i) }
    ensures grown { IsGrown s.old s.new }
{
    let _law = s.declarations();
    Ok(asks_case(t, i))
}

/// The type to which kid number `i` goes that was asked for none: the operand to its default, and the cases to the type to which they join,
/// which is the type `ty` of the node.
pub(crate) fn target(
    s: &mut TypeStore,
    t: &Turn<'_>,
    ty: &Ty,
    i: usize,
) -> Result<Option<TypeId>, AllocError>
    requires kind { judges (kind_in t.now) ≡ true }
    requires turn { IsTurn s.old t.now }
    requires gives { (f : Store) → IsLater s.old f → type_of (context_in f t.now) ≡ Some ty.now }
    requires defined { IsDefinedTy s.old ty.now }
    ensures value { IfOk result (λ o. (f : Store) → IsLater s.new f → o ≡ target_of (context_in f t.now) (kind_in t.now) i) }
    ensures defined { IfOk result (λ o. IfSome o (IsDefined s.new)) }
    ensures grown { IsGrown s.old s.new }
{
    let _law = s.declarations();
    if i == 0 {
        let to = switched(s, t)?;
        return Ok(to);
    }
    Ok(case_target(t, ty, i))
}
