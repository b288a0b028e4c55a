//! The rows of `switch`.

ghost use Rattle.std.specs.Prelude.{◌≡◌, true, cond, Some, None, IfOk};
ghost use Rattle.hare_types.specs.Store.{Store};
ghost use Rattle.hare_types.specs.Later.{IsLater};
ghost use Rattle.rule_judge.specs.Asked as spec;
ghost use Rattle.rule_judge.specs.Grown.{IsGrown};
ghost use Rattle.rule_judge.specs.Turns.{context_in, IsTurn};
ghost use Rattle.rule_switch.specs.Kinds.{asks};

use crate::covered::is_covered;
use crate::odd::odd_value;
use crate::operand::is_by_scalar;
use crate::repeated::repeated;
use hare_rules::RowId;
use hare_tree::Place;
use hare_types::TypeStore;
use rule_join::case_misfit;
use rule_judge::Turn;
use std::alloc::{AllocError, Global};

/// The place of the fault, unless the row is met.
fn unless(met: bool, place: Place) -> Option<Place>
    ensures { result ≡ cond met None (Some place) }
{
    if met { None } else { Some(place) }
}

/// The place of the fault, where the node fails one of these rows; none where it meets it.
pub(crate) fn unmet(
    alloc: Global,
    s: &mut TypeStore,
    t: &Turn<'_>,
    row: RowId,
) -> Result<Option<Place>, AllocError>
    requires turn { IsTurn s.old t.now }
    requires row { asks row ≡ true }
    ensures value { IfOk result (λ o. (f : Store) → IsLater s.new f → o ≡ spec.unmet row (context_in f t.now)) }
    ensures grown { IsGrown s.old s.new }
{
    let _law = s.declarations();
    let node = t.node;
    let here = node.place;
    match row {
        RowId::SwitchScalar => Ok(unless(is_by_scalar(s, t), here)),
        RowId::SwitchConstants => Ok(odd_value(t)),
        RowId::SwitchDistinct => {
            let at = repeated(alloc, s, t)?;
            Ok(at)
        }
        RowId::SwitchCovered => {
            let met = is_covered(s, t)?;
            Ok(unless(met, here))
        }
        RowId::SwitchRestFits => {
            let at = case_misfit(s, t)?;
            Ok(at)
        }
        _ => unreachable!(),
    }
}
