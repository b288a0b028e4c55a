//! The walk over a node's own rows.

ghost use Rattle.std.specs.Prelude.{◌≡◌, true, IfOk};
ghost use Rattle.hare_types.specs.Store.{Store};
ghost use Rattle.hare_types.specs.Later.{IsLater};
ghost use Rattle.hare_rules.specs.Rows as rules;
ghost use Rattle.rule_judge.specs.Asked.{own_fault};
ghost use Rattle.rule_judge.specs.Grown.{IsGrown};
ghost use Rattle.rule_judge.specs.Turns.{context_in, kind_in, IsTurn};

use crate::rules::Rules;
use crate::turn::Turn;
use hare_rules::{RowId, number, rows};
use hare_tree::Fault;
use hare_types::TypeStore;
use std::alloc::{AllocError, Global};

/// Whether the row is the first of the two that all kinds share.
fn is_site(row: RowId) -> bool
    ensures { result ≡ rules.is_site row }
{
    matches!(row, RowId::Site)
}

/// The fault of the first of the node's own rows that it fails, those before the two that all kinds share; none where it meets them all.
pub(crate) fn own_fault<R: Rules>(
    alloc: Global,
    s: &mut TypeStore,
    t: &Turn<'_>,
) -> Result<Option<Fault>, AllocError>
    requires kind { R.judges (kind_in t.now) ≡ true }
    requires turn { IsTurn s.old t.now }
    requires needs { R.Needs s.old t.now }
    ensures value { IfOk result (λ o. (f : Store) → IsLater s.new f → o ≡ own_fault (context_in f t.now)) }
    ensures grown { IsGrown s.old s.new }
{
    let node = t.node;
    let _law = s.declarations();
    for row in rows(node.kind) {
        if is_site(*row) {
            return Ok(None);
        }
        if let Some(place) = R::unmet(alloc, s, t, *row)? {
            return Ok(Some(Fault {
                number: number(*row),
                place,
            }));
        }
    }
    Ok(None)
}
