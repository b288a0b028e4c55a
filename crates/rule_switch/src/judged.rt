//! The judge of `switch`.

ghost use Rattle.std.specs.Prelude.{◌≡◌, true, drop, IfOk, IfErr};
ghost use Rattle.hare_tree.specs.Node.{head};
ghost use Rattle.rule_judge.specs.Defined.{IsDefinedVerdict};
ghost use Rattle.rule_judge.specs.Grown.{IsGrown};
ghost use Rattle.rule_judge.specs.Told.{IsToldNode, IsJudgedNode, IsStoppedNode};
ghost use Rattle.rule_switch.specs.Kinds.{judges};
ghost use Rattle.rule_join.specs.Cases.{AreTyped};

use crate::asked;
use crate::operand::own_type;
use crate::unmet::unmet;
use hare_rules::{Case, Locals, RowId, Verdict};
use hare_tree::{Fault, Place, Stop, Tree};
use hare_typed::TypedKids;
use hare_types::{Ty, TypeId, TypeStore};
use rule_judge::{DeclTypes, Rules, Turn, judge_by};
use std::alloc::{AllocError, Global};

/// The rules of `switch`.
pub(crate) struct Switching;

impl Rules for Switching {
    ghost use Rattle.rule_switch.specs.Kinds.{judges, asks};
    ghost use Rattle.rule_switch.specs.Needs.{IsReady};
    ghost use Rattle.rule_switch.specs.Laws.{rows_asked, ready_stays};

    ghost judges = { judges };

    ghost asks = { asks };

    ghost Needs = { IsReady };

    fn unmet(
        alloc: Global,
        s: &mut TypeStore,
        t: &Turn<'_>,
        row: RowId,
    ) -> Result<Option<Place>, AllocError> {
        unmet(alloc, s, t, row)
    }

    fn own_type(_alloc: Global, s: &mut TypeStore, t: &Turn<'_>) -> Result<Ty, AllocError> {
        own_type(s, t)
    }

    fn asks_type(
        _alloc: Global,
        s: &mut TypeStore,
        t: &Turn<'_>,
        i: usize,
    ) -> Result<bool, AllocError> {
        asked::asks_type(s, t, i)
    }

    fn target(
        _alloc: Global,
        s: &mut TypeStore,
        t: &Turn<'_>,
        ty: &Ty,
        i: usize,
    ) -> Result<Option<TypeId>, AllocError> {
        asked::target(s, t, ty, i)
    }

    ghost rows = { rows_asked };

    ghost needs_stay = { ready_stays };
}

/// Judges a `switch`: its type and the coercions that it settles, or the fault of the first row of the table of typing rules that it fails.
/// Its operand has an integer type, `bool`, `rune` or `str` as its base; each value of a case is constant, and stands there once; the
/// values are all that the type has, or a case has none; and what the cases give fits one type. The answer is that of every later store.
/// The store may grow in types, also where there is a fault. The time is that of the values and of the cases.
///
/// The node is shaped and has these kids, which have been judged, values of cases with their constants; each type that stands in them or in
/// `c` is in the store, and mentions no name that is not defined. What each case gives is of a type of the store.
pub fn judge(
    alloc: Global,
    s: &mut TypeStore,
    decls: &DeclTypes,
    locals: &Locals,
    c: &Case,
    node: &Tree,
    kids: &TypedKids,
) -> Result<Verdict, Stop<Fault>>
    requires kind { judges (head node.now).kind ≡ true }
    requires told { IsToldNode s.old c.now node.now kids.now }
    requires cases { AreTyped (drop 1 kids.now) }
    ensures ok { IfOk result (IsJudgedNode s.new decls.now locals.now c.now node.now kids.now) }
    ensures err { IfErr result (IsStoppedNode s.new decls.now locals.now c.now node.now kids.now) }
    ensures defined { IfOk result (IsDefinedVerdict s.new) }
    ensures kept { IsGrown s.old s.new }
{
    let _law = s.declarations();
    let t = Turn {
        decls,
        locals,
        case: c,
        node,
        kids,
    };
    judge_by::<Switching>(alloc, s, &t)
}
