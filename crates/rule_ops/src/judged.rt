//! The judge of operators.

ghost use Rattle.std.specs.Prelude.{◌≡◌, true, IfOk, IfErr};
ghost use Rattle.rule_judge.specs.Told.{IsToldNode, IsJudgedNode, IsStoppedNode};
ghost use Rattle.rule_judge.specs.Defined.{IsDefinedVerdict};
ghost use Rattle.rule_judge.specs.Grown.{IsGrown};
ghost use Rattle.hare_tree.specs.Node.{head};
ghost use Rattle.rule_ops.specs.Kinds.{is_operator};

use crate::operators::Operators;
use hare_rules::{Case, Locals, Verdict};
use hare_tree::{Fault, Stop, Tree};
use hare_typed::TypedKids;
use hare_types::TypeStore;
use rule_judge::{DeclTypes, Turn, judge_by};
use std::alloc::Global;

/// Judges a literal, an operator, a cast, a size or parentheses: its type and the coercions that it settles, or the fault of the first row
/// of the table of typing rules that it fails. The answer is that of every later store. The store may grow in types, also where there is a
/// fault.
///
/// The node is shaped and has these kids, which have been judged; each type that stands in them or in `c` is in the store, and mentions no
/// name that is not defined.
pub fn judge(
    alloc: Global,
    s: &mut TypeStore,
    decls: &DeclTypes,
    locals: &Locals,
    c: &Case,
    node: &Tree,
    kids: &TypedKids,
) -> Result<Verdict, Stop<Fault>>
    requires kind { is_operator (head node.now).kind ≡ true }
    requires told { IsToldNode s.old c.now node.now kids.now }
    ensures ok { IfOk result (IsJudgedNode s.new decls.now locals.now c.now node.now kids.now) }
    ensures err { IfErr result (IsStoppedNode s.new decls.now locals.now c.now node.now kids.now) }
    ensures defined { IfOk result (IsDefinedVerdict s.new) }
    ensures kept { IsGrown s.old s.new }
{
    let t = Turn {
        decls,
        locals,
        case: c,
        node,
        kids,
    };
    judge_by::<Operators>(alloc, s, &t)
}
