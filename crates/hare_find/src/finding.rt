//! What a judge finds of a node, as a walk goes on with it.

ghost use Rattle.std.specs.Prelude.{◌≡◌, true, false, [], length, map, drop, replicate, None, IfOk, IfErr};
ghost use Rattle.hare_tree.specs.Node.{head};
ghost use Rattle.hare_types.specs.Store.{Store};
ghost use Rattle.hare_types.specs.Later.{IsLater};
ghost use Rattle.hare_typed.specs.Copies.{has_defers as takes_yields};
ghost use Rattle.hare_flow.specs.Seen.{given_of};
ghost use Rattle.hare_rules.specs.declared.hint.Hint.TheVariants as hint;
ghost use Rattle.hare_rules.specs.Context.{Setting};
ghost use Rattle.hare_rules.specs.Above.{Above};
ghost use Rattle.hare_rules.specs.Flow.{Flow};
ghost use Rattle.hare_walk.specs.Walks.{IsTurnedBack};
ghost use Rattle.rule_judge.specs.Grown.{IsGrown};
ghost use Rattle.rule_judge.specs.Turns.{kind_in};
ghost use Rattle.hare_judge.specs.Kinds.{is_judged_kind};
ghost use Rattle.hare_judge.specs.Needs.{IsReadyTurn};
ghost use Rattle.hare_told.specs.Settled.{listed_late};
ghost use Rattle.hare_find.specs.Late.{settled_in};
ghost use Rattle.hare_find.specs.Settling.{option_in};
ghost use Rattle.hare_find.specs.Findings as spec;
ghost use Rattle.hare_find.specs.Findings.{IsAtTurn, IsFound, IsDefinedFinding};

use crate::late::{Late, late_each};
use crate::listed::{Listed, Settling, list_kids, put_stay};
use hare_flow::Handed;
use hare_judge::judge;
use hare_rules::{Hint, Verdict};
use hare_tree::{Fault, Kind, Stop};
use hare_types::{Coercion, Ty, TypeStore};
use hx_base::Items;
use rule_judge::Turn;
use std::alloc::{AllocError, Global};

/// What is found of a node at its turn.
#[derive(Drop)]
pub struct Finding {
    /// The type of what it gives, before its coercion.
    pub ty: Ty,
    /// What becomes of that at its site.
    pub own: Coercion,
    /// What is settled of each kid.
    pub kids: Items<Settling>,
    /// What is settled of what was yielded to it.
    pub late: Items<Late>,
}

/// Of so many kids that each stays as it is.
pub(crate) fn nones(alloc: Global, count: usize) -> Result<Items<Settling>, AllocError>
    ensures { IfOk result (λ xs. map option_in xs ≡ replicate count None) }
{
    let mut xs = Items::new(alloc);
    for _ in 0..count {
        put_stay(&mut xs)?;
    }
    Ok(xs)
}

/// What a verdict settles of what was yielded to its node: nothing, where a hint was handed on, and where the node takes no yields.
fn late_of(
    alloc: Global,
    t: &Turn<'_>,
    v: &Verdict,
    gs: &[Handed],
    count: usize,
) -> Result<Items<Late>, AllocError>
    ensures asked { IfOk result (λ xs. t.now.case.now.hint ≡ hint.None → takes_yields (kind_in t.now) ≡ true →
        map settled_in xs ≡ listed_late (map given_of gs.now) (drop count v.now.coerce)) }
    ensures hinted { IfOk result (λ xs. ¬ (t.now.case.now.hint ≡ hint.None) → xs ≡ []) }
    ensures others { IfOk result (λ xs. takes_yields (kind_in t.now) ≡ false → xs ≡ []) }
{
    let node = t.node;
    let case = t.case;
    let takes = matches!(node.kind, Kind::Block | Kind::Case | Kind::SwitchCase);
    if takes && case.hint == Hint::None {
        return late_each(alloc, gs, &v.coerce, count);
    }
    Ok(Items::new(alloc))
}

/// Whether what a verdict lists for kids of a node of this kind is what the node settles of them.
fn lists(k: Kind) -> bool
    ensures { result ≡ spec.lists k }
{
    !matches!(k, Kind::Yield | Kind::SwitchCase)
}

/// What a node settles of its kids, where this is listed for them.
fn settled(
    alloc: Global,
    t: &Turn<'_>,
    listed: Items<Settling>,
) -> Result<Items<Settling>, AllocError>
    ensures listed { IfOk result (λ xs. spec.lists (kind_in t.now) ≡ true → xs ≡ listed) }
    ensures nones { IfOk result (λ xs. spec.lists (kind_in t.now) ≡ false → map option_in xs ≡ replicate (length t.now.kids.now) None) }
{
    let node = t.node;
    if lists(node.kind) {
        return Ok(listed);
    }
    nones(alloc, t.kids.len())
}

/// Judges a node of which a hint asks something, with what was yielded to it: what is found of it, or its fault, in every later store. The
/// store may grow in types.
///
/// The node is an expression or a statement, and the conditions of `hare_judge::judge` hold: it is shaped and has its kids, which have been
/// judged; each type that stands in them or is told with it is in the store, and mentions no name that is not defined; the result of the
/// function is so too; what a path means is known, and the store defines `rt::nomem`; and where the first kid can be a place, it has a
/// type, and so has each case of a `match` or a `switch`.
pub fn find_judged(
    alloc: Global,
    s: &mut TypeStore,
    t: &Turn<'_>,
    gs: &[Handed],
) -> Result<Finding, Stop<Fault>>
    requires kind { is_judged_kind (kind_in t.now) ≡ true }
    requires ready { IsReadyTurn s.old t.now }
    ensures ok { IfOk result (λ x. (w : Store → Setting) (a : Above) (f : Flow) → IsAtTurn w s.new a f t.now (map given_of gs.now) →
        IsFound w s.new a (head t.now.node.now) t.now.kids.now f x) }
    ensures err { IfErr result (λ e. (w : Store → Setting) (a : Above) (f : Flow) → IsAtTurn w s.new a f t.now (map given_of gs.now) →
        IsTurnedBack w s.new a (head t.now.node.now) t.now.kids.now f e) }
    ensures many { IfOk result (λ x. length x.kids ≡ length t.now.kids.now) }
    ensures defined { IfOk result (IsDefinedFinding s.new) }
    ensures grown { IsGrown s.old s.new }
{
    let _law = s.declarations();
    let v = judge(alloc, s, t)?;
    let Listed { kids, count } = list_kids(alloc, s, t, &v)?;
    let late = late_of(alloc, t, &v, gs, count)?;
    let kids = settled(alloc, t, kids)?;
    Ok(Finding {
        ty: v.ty,
        own: v.own,
        kids,
        late,
    })
}
