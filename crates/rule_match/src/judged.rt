//! The judge of `match`.

ghost use Rattle.std.specs.Prelude.{◌≡◌, drop, IfOk, IfErr};
ghost use Rattle.hare_tree.specs.Node.{head};
ghost use Rattle.hare_tree.specs.declared.kind.Kind.TheVariants as ki;
ghost use Rattle.rule_judge.specs.Defined.{IsDefinedVerdict};
ghost use Rattle.rule_judge.specs.Grown.{IsGrown};
ghost use Rattle.rule_judge.specs.Told.{IsToldNode, IsJudgedNode, IsStoppedNode};
ghost use Rattle.rule_join.specs.Cases.{AreTyped};

use crate::cases;
use crate::unmet::unmet;
use hare_rules::{Case, Locals, RowId, Verdict};
use hare_tree::{Fault, Place, Stop, Tree};
use hare_typed::TypedKids;
use hare_types::{Ty, TypeId, TypeStore};
use rule_judge::{DeclTypes, Rules, Turn, judge_by};
use std::alloc::{AllocError, Global};

/// The rules of `match`.
pub(crate) struct Matching;

impl Rules for Matching {
    ghost use Rattle.rule_match.specs.Kinds.{judges, asks};
    ghost use Rattle.rule_match.specs.Needs.{IsReady};
    ghost use Rattle.rule_match.specs.Laws.{rows_asked, ready_stays};

    ghost judges = { judges };

    ghost asks = { asks };

    ghost Needs = { IsReady };

    fn unmet(
        alloc: Global,
        s: &mut TypeStore,
        t: &Turn<'_>,
        row: RowId,
    ) -> Result<Option<Place>, AllocError> {
        unmet(alloc, s, t, row)
    }

    fn own_type(_alloc: Global, s: &mut TypeStore, t: &Turn<'_>) -> Result<Ty, AllocError> {
        cases::own_type(s, t)
    }

    fn asks_type(
        _alloc: Global,
        s: &mut TypeStore,
        t: &Turn<'_>,
        i: usize,
    ) -> Result<bool, AllocError> {
        let _law = s.declarations();
        Ok(cases::asks_type(t, i))
    }

    fn target(
        _alloc: Global,
        s: &mut TypeStore,
        t: &Turn<'_>,
        ty: &Ty,
        i: usize,
    ) -> Result<Option<TypeId>, AllocError> {
        let _law = s.declarations();
        Ok(cases::target(t, ty, i))
    }

    ghost rows = { rows_asked };

    ghost needs_stay = { ready_stays };
}

/// Judges a `match`: its type and the coercions that it settles, or the fault of the first row of the table of typing rules that it fails:
/// the operand is a union or a pointer that may be null (35), each pattern is one of its type (36), none stands twice (38), together they
/// cover that type (37), and the cases join to one type (39). The answer is that of every later store. The store may grow in types, also
/// where there is a fault. The time is that of the cases.
///
/// The node is shaped and has these kids, which have been judged, and each case has a type; each type that stands in them or in `c` is in
/// the store, and mentions no name that is not defined.
pub fn judge(
    alloc: Global,
    s: &mut TypeStore,
    decls: &DeclTypes,
    locals: &Locals,
    c: &Case,
    node: &Tree,
    kids: &TypedKids,
) -> Result<Verdict, Stop<Fault>>
    requires kind { (head node.now).kind ≡ ki.Match }
    requires told { IsToldNode s.old c.now node.now kids.now }
    requires typed { AreTyped (drop 1 kids.now) }
    ensures ok { IfOk result (IsJudgedNode s.new decls.now locals.now c.now node.now kids.now) }
    ensures err { IfErr result (IsStoppedNode s.new decls.now locals.now c.now node.now kids.now) }
    ensures defined { IfOk result (IsDefinedVerdict s.new) }
    ensures kept { IsGrown s.old s.new }
{
    let t = Turn {
        decls,
        locals,
        case: c,
        node,
        kids,
    };
    judge_by::<Matching>(alloc, s, &t)
}
