//! The judge of branches, loops, blocks and cases.

ghost use Rattle.std.specs.Prelude.{◌≡◌, true, IfOk, IfErr};
ghost use Rattle.hare_tree.specs.Node.{head};
ghost use Rattle.rule_judge.specs.Defined.{IsDefinedVerdict};
ghost use Rattle.rule_judge.specs.Grown.{IsGrown};
ghost use Rattle.rule_judge.specs.Told.{IsToldNode, IsJudgedNode, IsStoppedNode};
ghost use Rattle.rule_join.specs.Kinds.{judges};
ghost use Rattle.rule_join.specs.Needs.{IsReadyNode};

use crate::unmet::unmet;
use crate::{asked, types};
use hare_rules::{Case, Locals, RowId, Verdict};
use hare_tree::{Fault, Place, Stop, Tree};
use hare_typed::TypedKids;
use hare_types::{Ty, TypeId, TypeStore};
use rule_judge::{DeclTypes, Rules, Turn, judge_by};
use std::alloc::{AllocError, Global};

/// The rules of branches, loops, blocks and cases.
pub(crate) struct Joining;

impl Rules for Joining {
    ghost use Rattle.rule_join.specs.Kinds.{judges, asks};
    ghost use Rattle.rule_join.specs.Needs.{IsReady};
    ghost use Rattle.rule_join.specs.Laws.{rows_asked, ready_stays};

    ghost judges = { judges };

    ghost asks = { asks };

    ghost Needs = { IsReady };

    fn unmet(
        _alloc: Global,
        s: &mut TypeStore,
        t: &Turn<'_>,
        row: RowId,
    ) -> Result<Option<Place>, AllocError> {
        unmet(s, t, row)
    }

    fn own_type(_alloc: Global, s: &mut TypeStore, t: &Turn<'_>) -> Result<Ty, AllocError> {
        types::own_type(s, t)
    }

    fn asks_type(
        _alloc: Global,
        s: &mut TypeStore,
        t: &Turn<'_>,
        i: usize,
    ) -> Result<bool, AllocError> {
        asked::asks_type(s, t, i)
    }

    fn target(
        _alloc: Global,
        s: &mut TypeStore,
        t: &Turn<'_>,
        ty: &Ty,
        i: usize,
    ) -> Result<Option<TypeId>, AllocError> {
        let _law = s.declarations();
        Ok(asked::target(t, ty, i))
    }

    ghost rows = { rows_asked };

    ghost needs_stay = { ready_stays };
}

/// Judges an `if`, a loop, a block or a case: its type and the coercions that it settles, or the fault of the first row of the table of
/// typing rules that it fails. The answer is that of every later store. The store may grow in types, also where there is a fault.
///
/// The node is shaped and has these kids, which have been judged; each type that stands in them or in `c`, and the result of the function,
/// is in the store, and mentions no name that is not defined.
pub fn judge(
    alloc: Global,
    s: &mut TypeStore,
    decls: &DeclTypes,
    locals: &Locals,
    c: &Case,
    node: &Tree,
    kids: &TypedKids,
) -> Result<Verdict, Stop<Fault>>
    requires kind { judges (head node.now).kind ≡ true }
    requires told { IsToldNode s.old c.now node.now kids.now }
    requires ready { IsReadyNode s.old c.now }
    ensures ok { IfOk result (IsJudgedNode s.new decls.now locals.now c.now node.now kids.now) }
    ensures err { IfErr result (IsStoppedNode s.new decls.now locals.now c.now node.now kids.now) }
    ensures defined { IfOk result (IsDefinedVerdict s.new) }
    ensures kept { IsGrown s.old s.new }
{
    let _law = s.declarations();
    let t = Turn {
        decls,
        locals,
        case: c,
        node,
        kids,
    };
    judge_by::<Joining>(alloc, s, &t)
}
