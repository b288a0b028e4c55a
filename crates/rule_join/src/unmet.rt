//! The rows of these kinds.

ghost use Rattle.std.specs.Prelude.{◌≡◌, true, cond, Some, None, IfOk};
ghost use Rattle.hare_types.specs.Store.{Store};
ghost use Rattle.hare_types.specs.Later.{IsLater};
ghost use Rattle.rule_judge.specs.Asked as spec;
ghost use Rattle.rule_judge.specs.Grown.{IsGrown};
ghost use Rattle.rule_judge.specs.Turns.{context_in, IsTurn};
ghost use Rattle.rule_join.specs.Kinds.{asks};
ghost use Rattle.rule_join.specs.Needs.{IsReady};

use crate::blocks::body_returns;
use crate::joins::{lacking, misfit};
use crate::loops::is_sequence;
use crate::values::Source;
use hare_rules::RowId;
use hare_tree::Place;
use hare_types::TypeStore;
use rule_judge::Turn;
use std::alloc::AllocError;

/// The place of the fault, unless the row is met.
fn unless(met: bool, place: Place) -> Option<Place>
    ensures { result ≡ cond met None (Some place) }
{
    if met { None } else { Some(place) }
}

/// The place of the fault, where the node fails one of these rows; none where it meets it.
pub(crate) fn unmet(
    s: &mut TypeStore,
    t: &Turn<'_>,
    row: RowId,
) -> Result<Option<Place>, AllocError>
    requires turn { IsTurn s.old t.now }
    requires needs { IsReady s.old t.now }
    requires row { asks row ≡ true }
    ensures value { IfOk result (λ o. (f : Store) → IsLater s.new f → o ≡ spec.unmet row (context_in f t.now)) }
    ensures grown { IsGrown s.old s.new }
{
    let _law = s.declarations();
    let node = t.node;
    let here = node.place;
    match row {
        RowId::IfFirstDefault => Ok(lacking(s, Source::Branches, t)),
        RowId::IfRestFits => {
            let at = misfit(s, Source::Branches, t)?;
            Ok(at)
        }
        RowId::ForEachSequence => Ok(unless(is_sequence(s, t), here)),
        RowId::BlockReturns => {
            let met = body_returns(s, t)?;
            Ok(unless(met, here))
        }
        RowId::BlockFirstDefault => Ok(lacking(s, Source::Yields, t)),
        RowId::CaseFirstDefault => Ok(lacking(s, Source::Yields, t)),
        RowId::BlockRestFits => {
            let at = misfit(s, Source::Yields, t)?;
            Ok(at)
        }
        RowId::CaseRestFits => {
            let at = misfit(s, Source::Yields, t)?;
            Ok(at)
        }
        _ => unreachable!(),
    }
}
