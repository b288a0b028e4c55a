//! The judge of control that joins nothing.

ghost use Rattle.std.specs.Prelude.{◌≡◌, true, IfOk, IfErr};
ghost use Rattle.hare_tree.specs.Node.{head};
ghost use Rattle.rule_judge.specs.Defined.{IsDefinedVerdict};
ghost use Rattle.rule_judge.specs.Grown.{IsGrown};
ghost use Rattle.rule_judge.specs.Told.{IsToldNode, IsJudgedNode, IsStoppedNode};
ghost use Rattle.rule_ctl.specs.Kinds.{judges};
ghost use Rattle.rule_ctl.specs.Needs.{IsReadyNode};

use crate::unmet::unmet;
use crate::{hinted, types};
use hare_rules::{Case, Locals, RowId, Verdict};
use hare_tree::{Fault, Place, Stop, Tree};
use hare_typed::TypedKids;
use hare_types::{Ty, TypeId, TypeStore};
use rule_judge::{DeclTypes, Rules, Turn, judge_by};
use std::alloc::{AllocError, Global};

/// The rules of control that joins nothing.
pub(crate) struct Control;

impl Rules for Control {
    ghost use Rattle.rule_ctl.specs.Kinds.{judges, asks};
    ghost use Rattle.rule_ctl.specs.Needs.{IsSoundReady};
    ghost use Rattle.rule_ctl.specs.Laws.{rows_asked, ready_stays};

    ghost judges = { judges };

    ghost asks = { asks };

    ghost Needs = { IsSoundReady };

    fn unmet(
        _alloc: Global,
        s: &mut TypeStore,
        t: &Turn<'_>,
        row: RowId,
    ) -> Result<Option<Place>, AllocError> {
        unmet(s, t, row)
    }

    fn own_type(alloc: Global, s: &mut TypeStore, t: &Turn<'_>) -> Result<Ty, AllocError> {
        types::own_type(alloc, s, t)
    }

    fn asks_type(
        alloc: Global,
        s: &mut TypeStore,
        t: &Turn<'_>,
        i: usize,
    ) -> Result<bool, AllocError> {
        hinted::asks_type(alloc, s, t, i)
    }

    fn target(
        _alloc: Global,
        s: &mut TypeStore,
        t: &Turn<'_>,
        _ty: &Ty,
        i: usize,
    ) -> Result<Option<TypeId>, AllocError> {
        hinted::target(s, t, i)
    }

    ghost rows = { rows_asked };

    ghost needs_stay = { ready_stays };
}

/// Judges `as`, `is`, a call, `?`, `!`, `abort`, `assert`, `let`, `const`, `defer`, `break`, `continue`, `return` or `yield`: its type and
/// the coercions that it settles, or the fault of the first row of the table of typing rules that it fails. The answer is that of every
/// later store. The store may grow in types, also where there is a fault. Whether a block asks for the value that a `yield` lacks is not
/// asked here: a label does not tell what it is asked for.
///
/// The node is shaped and has these kids, which have been judged; each type that stands in them or in `c` is in the store, and mentions no
/// name that is not defined. What a callee means is known, and the store defines `rt::nomem`. The result of the function is in the store,
/// and mentions no name that is not defined.
pub fn judge(
    alloc: Global,
    s: &mut TypeStore,
    decls: &DeclTypes,
    locals: &Locals,
    c: &Case,
    node: &Tree,
    kids: &TypedKids,
) -> Result<Verdict, Stop<Fault>>
    requires kind { judges (head node.now).kind ≡ true }
    requires told { IsToldNode s.old c.now node.now kids.now }
    requires ready { IsReadyNode s.old decls.now locals.now c.now }
    ensures ok { IfOk result (IsJudgedNode s.new decls.now locals.now c.now node.now kids.now) }
    ensures err { IfErr result (IsStoppedNode s.new decls.now locals.now c.now node.now kids.now) }
    ensures defined { IfOk result (IsDefinedVerdict s.new) }
    ensures kept { IsGrown s.old s.new }
{
    let _law = s.declarations();
    let t = Turn {
        decls,
        locals,
        case: c,
        node,
        kids,
    };
    judge_by::<Control>(alloc, s, &t)
}
