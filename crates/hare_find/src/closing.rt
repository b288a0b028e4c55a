//! What is seen behind a node's turn.

ghost use Rattle.std.specs.Prelude.{◌≡◌, [], ◌∷◌, ◌++◌, true, length, filter, map, take, OnOk};
ghost use Rattle.hare_tree.specs.Node.{head};
ghost use Rattle.hare_types.specs.Store.{Store};
ghost use Rattle.hare_types.specs.Later.{IsLater};
ghost use Rattle.hare_typed.specs.Copies.{has_defers as takes_yields};
ghost use Rattle.hare_typed.specs.Typed.{typed_nodes};
ghost use Rattle.hare_rules.specs.Above.{Above};
ghost use Rattle.hare_rules.specs.Context.{Setting};
ghost use Rattle.hare_rules.specs.Finished.{bare};
ghost use Rattle.hare_rules.specs.Flow.{is_at, write_each, flow_after};
ghost use Rattle.hare_told.specs.Told.{AreToldEntries};
ghost use Rattle.rule_judge.specs.Defined.{AreDefinedTrees};
ghost use Rattle.rule_judge.specs.Grown.{IsGrown};
ghost use Rattle.hare_find.specs.Closing.{Closes};
ghost use Rattle.hare_find.specs.Defined.{AreDefinedLocals, AreDefinedYielded};
ghost use Rattle.hare_find.specs.Findings.{IsFound, AreDefinedSettlings};
ghost use Rattle.hare_find.specs.Late.{settled_in};
ghost use Rattle.hare_find.specs.Listed.{written_each, coated_each};
ghost use Rattle.hare_find.specs.Settling.{option_in};

use crate::bindings::bind_behind;
use crate::finding::Finding;
use crate::late::Late;
use crate::settle::settle;
use crate::yields::{Levels, pass_yields};
use hare_flow::Seen;
use hare_rules::Locals;
use hare_tree::Tree;
use hare_typed::TypedKids;
use hare_types::TypeStore;
use std::alloc::{AllocError, Global};

/// Settles each of these when the body is done.
fn settle_each_late(seen: &mut Seen, late: &[Late]) -> Result<(), AllocError>
    ensures { OnOk result (seen.new ≡ record seen.old { late = seen.old.late ++ map settled_in late.now }) }
{
    for i in 0..late.len() {
        let x = &late[i];
        seen.settle_late(x.node, x.coercion)?;
    }
    Ok(())
}

/// Settles what is found of a node: its own coercion, those of its kids, and what of yielded values is settled when the body is done.
fn settle_all(seen: &mut Seen, kids: &mut TypedKids, found: &Finding) -> Result<(), AllocError>
    requires { length found.now.kids ≡ length kids.old }
    ensures seen { OnOk result (seen.new ≡ record seen.old {
      coercions = write_each (written_each kids.old (map option_in found.now.kids)) (seen.old.coercions ++ found.now.own ∷ []);
      late =
          seen.old.late ++ map settled_in found.now.late;
    }) }
    ensures kids { OnOk result (kids.new ≡ coated_each kids.old (map option_in found.now.kids)) }
{
    seen.judged(&found.own)?;
    settle(seen, kids, found.kids.as_slice());
    settle_each_late(seen, found.late.as_slice())
}

/// Closes a node's turn, of which this is found: what is known of its binding, which values go on, and what is settled. It has `first`
/// bindings of the declaration before it. The kids get the coercions that are settled of them, judges are told of the binding, and the
/// store may grow in types.
///
/// The conditions are that `found` is as long as the kids; that each type that stands in these is in the store, and mentions no name that
/// is not defined; and that none of the first `levels.from` values was handed to the node, where it is a block or a case. Fails for want of
/// memory alone.
pub fn close(
    alloc: Global,
    s: &mut TypeStore,
    seen: &mut Seen,
    told: &mut Locals,
    node: &Tree,
    kids: &mut TypedKids,
    first: u32,
    levels: &Levels,
    found: &Finding,
) -> Result<(), AllocError>
    requires many { length found.now.kids ≡ length kids.old }
    requires defined { AreDefinedTrees s.old (typed_nodes kids.old) }
    requires from { takes_yields (head node.now).kind ≡ true → filter (is_at levels.now.own) (take levels.now.from seen.old.yields) ≡ [] }
    ensures seen { OnOk result ((w : Store → Setting) (a : Above) → Closes w a (head node.now) kids.old seen.old first levels.now →
        IsFound w s.old a (head node.now) kids.old seen.old found.now → (l : Store) → IsLater s.new l →
        seen.new ≡ flow_after (w l) a (head node.now) (map bare kids.old) seen.old) }
    ensures kids { OnOk result (kids.new ≡ coated_each kids.old (map option_in found.now.kids)) }
    ensures told { OnOk result (AreToldEntries seen.old.locals told.old → AreToldEntries seen.new.locals told.new) }
    ensures locals { AreDefinedLocals s.old told.old → OnOk result (AreDefinedLocals s.new told.new) }
    ensures yields { AreDefinedYielded s.old seen.old.yields → OnOk result (AreDefinedYielded s.new seen.new.yields) }
    ensures types { AreDefinedSettlings s.old (map option_in found.now.kids) → OnOk result (AreDefinedTrees s.new (typed_nodes kids.new)) }
    ensures grown { IsGrown s.old s.new }
{
    let _law = s.declarations();
    bind_behind(s, seen, told, node, kids, first)?;
    pass_yields(alloc, seen, node, kids, levels)?;
    settle_all(seen, kids, found)
}
