//! The rows of control that joins nothing.

ghost use Rattle.std.specs.Prelude.{◌≡◌, true, cond, Some, None, IfOk};
ghost use Rattle.hare_types.specs.Store.{Store};
ghost use Rattle.hare_types.specs.Later.{IsLater};
ghost use Rattle.rule_judge.specs.Asked as spec;
ghost use Rattle.rule_judge.specs.Grown.{IsGrown};
ghost use Rattle.rule_judge.specs.Turns.{context_in, IsTurn};
ghost use Rattle.rule_ctl.specs.Kinds.{asks};
ghost use Rattle.rule_ctl.specs.Needs.{IsSoundReady};

use crate::bindings::{has_sized_type, has_type, type_place, value_place};
use crate::calls::{has_arity, is_callable};
use crate::jumps::{has_block, has_block_inside, has_loop, has_loop_inside};
use crate::leaves::{has_result, is_undeferred};
use crate::tries::{are_returned, has_errors};
use crate::unions::{has_member, is_tagged};
use hare_rules::RowId;
use hare_tree::Place;
use hare_types::TypeStore;
use rule_judge::Turn;
use std::alloc::AllocError;

/// The place of the fault, unless the row is met.
fn unless(met: bool, place: Place) -> Option<Place>
    ensures { result ≡ cond met None (Some place) }
{
    if met { None } else { Some(place) }
}

/// The place of the fault, where the node fails one of these rows; none where it meets it. That a block asks for no value where a `yield`
/// has none is not known here, and the row of that is met.
pub(crate) fn unmet(
    s: &mut TypeStore,
    t: &Turn<'_>,
    row: RowId,
) -> Result<Option<Place>, AllocError>
    requires turn { IsTurn s.old t.now }
    requires needs { IsSoundReady s.old t.now }
    requires row { asks row ≡ true }
    ensures value { IfOk result (λ o. (f : Store) → IsLater s.new f → o ≡ spec.unmet row (context_in f t.now)) }
    ensures grown { IsGrown s.old s.new }
{
    let _law = s.declarations();
    let node = t.node;
    let here = node.place;
    match row {
        RowId::TestTagged => Ok(unless(is_tagged(s, t), here)),
        RowId::TestMember => Ok(unless(has_member(s, t), here)),
        RowId::CallCallable => Ok(unless(is_callable(t), here)),
        RowId::CallArity => Ok(unless(has_arity(t), here)),
        RowId::TryErrors => Ok(unless(has_errors(s, t), here)),
        RowId::ForceErrors => Ok(unless(has_errors(s, t), here)),
        RowId::TryUndeferred => Ok(unless(is_undeferred(t), here)),
        RowId::TryReturned => Ok(unless(are_returned(s, t), here)),
        RowId::BindingDefault => Ok(unless(has_type(t), value_place(t))),
        RowId::BindingHasSize => {
            let met = has_sized_type(s, t)?;
            Ok(unless(met, type_place(t)))
        }
        RowId::JumpTarget => Ok(unless(has_loop(t), here)),
        RowId::JumpInside => Ok(unless(has_loop_inside(t), here)),
        RowId::ReturnUndeferred => Ok(unless(is_undeferred(t), here)),
        RowId::ReturnNoValue => {
            let met = has_result(s, t)?;
            Ok(unless(met, here))
        }
        RowId::YieldTarget => Ok(unless(has_block(t), here)),
        RowId::YieldInside => Ok(unless(has_block_inside(t), here)),
        RowId::YieldNoValue => Ok(None),
        _ => unreachable!(),
    }
}
