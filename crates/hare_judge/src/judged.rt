//! How a node is judged, whatever its kind.

ghost use Rattle.std.specs.Prelude.{◌≡◌, true, IfOk, IfErr};
ghost use Rattle.rule_judge.specs.Answers.{IsJudged, IsStopped};
ghost use Rattle.rule_judge.specs.Defined.{IsDefinedVerdict};
ghost use Rattle.rule_judge.specs.Grown.{IsGrown};
ghost use Rattle.rule_judge.specs.Turns.{kind_in};
ghost use Rattle.hare_judge.specs.Kinds.{is_judged_kind};
ghost use Rattle.hare_judge.specs.Needs.{IsReadyTurn};

use crate::kinds::{Judge, judge_of};
use hare_rules::Verdict;
use hare_tree::{Fault, Stop};
use hare_types::TypeStore;
use rule_judge::Turn;
use std::alloc::Global;

/// Judges an expression or a statement. The answer is its type and the coercions that it settles, or the fault of the first row of the
/// table of typing rules that it fails, in every later store. The store may grow in types, also where there is a fault.
///
/// The node is shaped and has its kids, which have been judged; each type that stands in them or is told with it is in the store, and
/// mentions no name that is not defined. So it is of the result of the function. What a path means is known, and the store defines
/// `rt::nomem`; where the first kid can be a place, it has a type; and so has each case of a `match` or a `switch`.
pub fn judge(alloc: Global, s: &mut TypeStore, t: &Turn<'_>) -> Result<Verdict, Stop<Fault>>
    requires kind { is_judged_kind (kind_in t.now) ≡ true }
    requires ready { IsReadyTurn s.old t.now }
    ensures ok { IfOk result (IsJudged s.new t.now) }
    ensures err { IfErr result (IsStopped s.new t.now) }
    ensures defined { IfOk result (IsDefinedVerdict s.new) }
    ensures kept { IsGrown s.old s.new }
{
    let _law = s.declarations();
    let node = t.node;
    match judge_of(node.kind) {
        Some(Judge::Operators) => {
            rule_ops::judge(alloc, s, t.decls, t.locals, t.case, node, t.kids)
        }
        Some(Judge::Memory) => {
            rule_mem::judge(alloc, s, t.decls, t.locals, t.case, node, t.kids)
        }
        Some(Judge::Control) => {
            rule_ctl::judge(alloc, s, t.decls, t.locals, t.case, node, t.kids)
        }
        Some(Judge::Joining) => {
            rule_join::judge(alloc, s, t.decls, t.locals, t.case, node, t.kids)
        }
        Some(Judge::Matching) => {
            rule_match::judge(alloc, s, t.decls, t.locals, t.case, node, t.kids)
        }
        Some(Judge::Switching) => {
            rule_switch::judge(alloc, s, t.decls, t.locals, t.case, node, t.kids)
        }
        None => unreachable!(),
    }
}
