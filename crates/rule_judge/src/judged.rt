//! How a node is judged.

ghost use Rattle.std.specs.Prelude.{◌≡◌, true, IfOk, IfErr};
ghost use Rattle.rule_judge.specs.Answers.{IsJudged, IsStopped};
ghost use Rattle.rule_judge.specs.Defined.{IsDefinedVerdict};
ghost use Rattle.rule_judge.specs.Grown.{IsGrown};
ghost use Rattle.rule_judge.specs.Turns.{kind_in, IsTurn};

use crate::kids::kid_coercions;
use crate::last::last_failing;
use crate::rules::Rules;
use crate::sites::own_coercion;
use crate::turn::Turn;
use crate::walk::own_fault;
use crate::yields::add_yields;
use hare_rules::{Verdict, number};
use hare_tree::{Fault, Stop};
use hare_types::TypeStore;
use std::alloc::Global;

/// Judges a node by the rules of its kind: its type and the coercions that it settles, or the fault of the first row that it fails. The
/// answer is that of every later store. The store may grow in types, also where there is a fault.
///
/// The node is of one of the kinds of these rules, is shaped and has its kids, which have been judged; each type that stands in them or is
/// told with it is in the store, and mentions no name that is not defined; and what the rules rely on beside that holds.
pub fn judge_by<R: Rules>(
    alloc: Global,
    s: &mut TypeStore,
    t: &Turn<'_>,
) -> Result<Verdict, Stop<Fault>>
    requires kind { R.judges (kind_in t.now) ≡ true }
    requires turn { IsTurn s.old t.now }
    requires needs { R.Needs s.old t.now }
    ensures ok { IfOk result (IsJudged s.new t.now) }
    ensures err { IfErr result (IsStopped s.new t.now) }
    ensures defined { IfOk result (IsDefinedVerdict s.new) }
    ensures kept { IsGrown s.old s.new }
{
    let _law = s.declarations();
    if let Some(fault) = own_fault::<R>(alloc, s, t)? {
        return Err(Stop::Fault(fault));
    }
    let ty = R::own_type(alloc, s, t)?;
    let case = t.case;
    if let Some(row) = last_failing(s, &case.hint, &ty) {
        let node = t.node;
        return Err(Stop::Fault(Fault {
            number: number(row),
            place: node.place,
        }));
    }
    let own = own_coercion(s, &case.hint, &ty);
    let mut coerce = kid_coercions::<R>(alloc, s, t, &ty)?;
    add_yields(s, t, &mut coerce)?;
    Ok(Verdict { ty, own, coerce })
}
