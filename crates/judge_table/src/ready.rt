//! Whether what is told of a node is what a judge relies on.

ghost use Rattle.std.specs.Prelude.{◌≡◌, true, map, IsTrue, IfOk};
ghost use Rattle.hare_tree.specs.Node.{kids_of, nodes_of};
ghost use Rattle.hare_typed.specs.Erased.{erase};
ghost use Rattle.hare_typed.specs.Order.{tree_from_front};
ghost use Rattle.hare_defined.specs.Known.{AreDefined};
ghost use Rattle.rule_judge.specs.Defined.{IsDefined, IsDefinedTy, IsDefinedHint, IsDefinedTree, IsDefinedName};
ghost use Rattle.rule_judge.specs.Meant.{IsMeant, IsKnownKind};
ghost use Rattle.rule_judge.specs.Turns.{kind_in};
ghost use Rattle.rule_mem.specs.Needs.{leads_by};
ghost use Rattle.hare_judge.specs.Kinds as kinds;
ghost use Rattle.hare_judge.specs.Needs.{IsReadyTurn};
ghost use Rattle.judge_table.specs.Shaped.{IsShaped};
ghost use Rattle.judge_table.specs.Told.{AreTold, AreYieldsDefined, AreTreesDefined, AreBehindTyped, IsFirstTyped};

use anyhow::{Result, bail};
use hare_defined::Defined;
use hare_judge::judge_of;
use hare_rules::{DeclType, Hint, Locals, Yields};
use hare_tree::{Kind, Meaning};
use hare_typed::{Typed, TypedKids};
use hare_types::{Coercion, Ty, TypeId, TypeStore};
use rule_judge::{DeclTypes, Turn, coerced, kind_at, seen_at, type_at};
use spelled_types::NOMEM;
use std::alloc::{AllocError, Global};

/// Whether a node is of a kind that is judged, and what is told of it is what its judge relies on. The node is shaped, and these are its kids.
pub(crate) fn is_ready(alloc: Global, s: &TypeStore, t: &Turn<'_>) -> Result<bool, AllocError>
    requires shaped { IsShaped t.now.node.now }
    requires kids { nodes_of (map erase t.now.kids.now) ≡ kids_of t.now.node.now }
    ensures kind { IfOk result (λ b. IsTrue b → kinds.is_judged_kind (kind_in t.now) ≡ true) }
    ensures ready { IfOk result (λ b. IsTrue b → IsReadyTurn s.now t.now) }
{
    let node = t.node;
    if !is_judged(node.kind) {
        return Ok(false);
    }
    if !is_formed(node.kind, t.kids) {
        return Ok(false);
    }
    let mut defined = Defined::new(alloc);
    let are_defined = are_types_defined(&mut defined, s, t)?;
    Ok(are_defined)
}

// ---- forms

/// Whether a node of this kind is judged.
fn is_judged(kind: Kind) -> bool
    ensures { result ≡ kinds.is_judged_kind kind }
{
    judge_of(kind).is_some()
}

/// Whether the kids of a node of this kind have types where a judge relies on it: the first where it can be a place, and each case.
fn is_formed(kind: Kind, kids: &TypedKids) -> bool
    ensures typed { IsTrue result → IsFirstTyped (tree_from_front 0 kids.now) }
    ensures cases { IsTrue result → kinds.has_cases kind ≡ true → AreBehindTyped kids.now }
{
    if !is_first_typed(kids) {
        return false;
    }
    if has_cases(kind) {
        return are_cases_typed(kids);
    }
    true
}

/// Whether the cases of a node of this kind stand behind its first kid.
fn has_cases(kind: Kind) -> bool
    ensures { result ≡ kinds.has_cases kind }
{
    matches!(kind, Kind::Match | Kind::Switch)
}

/// Whether a tree of this kind is a place, or is in parentheses and so may be one.
fn may_lead(kind: Kind) -> bool
    ensures { result ≡ leads_by kind true }
{
    matches!(
        kind,
        Kind::Path | Kind::Deref | Kind::Index | Kind::Field | Kind::Paren
    )
}

/// Whether the first kid has a type, or is of no kind that may be a place.
fn is_first_typed(kids: &TypedKids) -> bool
    ensures { IsTrue result → IsFirstTyped (tree_from_front 0 kids.now) }
{
    match seen_at(kids, 0) {
        Ty::Of(_) => true,
        Ty::Iconst(_) | Ty::Null | Ty::Empty => !may_lead(kind_at(kids, 0)),
    }
}

/// Whether each kid behind the first has a type.
fn are_cases_typed(kids: &TypedKids) -> bool
    ensures { IsTrue result → AreBehindTyped kids.now }
{
    for i in 1..kids.len() {
        match type_at(kids, i) {
            Ty::Of(_) => {}
            Ty::Iconst(_) | Ty::Null | Ty::Empty => return false,
        }
    }
    true
}

// ---- types that are defined

/// Whether the types that are told are in the store, and mention no name that is not defined.
fn are_types_defined(defined: &mut Defined, s: &TypeStore, t: &Turn<'_>) -> Result<bool, AllocError>
    requires known { AreDefined s.now defined.old }
    ensures { IfOk result (λ b. IsTrue b → AreTold s.now t.now) }
{
    let case = t.case;
    if !is_defined_hint(defined, s, &case.hint)? {
        return Ok(false);
    }
    if !are_defined_yields(defined, s, &case.yields)? {
        return Ok(false);
    }
    if !are_defined_trees(defined, s, t.kids)? {
        return Ok(false);
    }
    if !is_defined_name(defined, s, NOMEM)? {
        return Ok(false);
    }
    if !is_meant(defined, s, t.decls, t.locals, case.meaning)? {
        return Ok(false);
    }
    let has_result = defined.is_defined(s, case.inside.result)?;
    Ok(has_result)
}

/// Whether the type of a value is defined; what has no type is.
fn is_defined_ty(defined: &mut Defined, s: &TypeStore, a: &Ty) -> Result<bool, AllocError>
    requires known { AreDefined s.now defined.old }
    ensures value { IfOk result (λ b. IsTrue b → IsDefinedTy s.now a.now) }
    ensures known { AreDefined s.now defined.new }
{
    match a {
        Ty::Of(t) => defined.is_defined(s, *t),
        Ty::Iconst(_) | Ty::Null | Ty::Empty => Ok(true),
    }
}

/// Whether the type that is asked for is defined.
fn is_defined_hint(defined: &mut Defined, s: &TypeStore, hint: &Hint) -> Result<bool, AllocError>
    requires known { AreDefined s.now defined.old }
    ensures value { IfOk result (λ b. IsTrue b → IsDefinedHint s.now hint.now) }
    ensures known { AreDefined s.now defined.new }
{
    match hint {
        Hint::Of(t) => defined.is_defined(s, *t),
        Hint::Drop | Hint::None => Ok(true),
    }
}

/// Whether the types of values that are yielded are defined.
fn are_defined_yields(
    defined: &mut Defined,
    s: &TypeStore,
    yields: &Yields,
) -> Result<bool, AllocError>
    requires known { AreDefined s.now defined.old }
    ensures value { IfOk result (λ b. IsTrue b → AreYieldsDefined s.now yields.now) }
    ensures known { AreDefined s.now defined.new }
{
    for i in 0..yields.len() {
        let Some(y) = yields.get(i) else {
            return Ok(false);
        };
        if !is_defined_ty(defined, s, &y.ty)? {
            return Ok(false);
        }
    }
    Ok(true)
}

/// Whether the types that stand in a tree are defined.
#[cycle(trees)]
fn is_defined_tree(defined: &mut Defined, s: &TypeStore, x: &Typed) -> Result<bool, AllocError>
    requires known { AreDefined s.now defined.old }
    ensures value { IfOk result (λ b. IsTrue b → IsDefinedTree s.now x.now) }
    ensures known { AreDefined s.now defined.new }
{
    if !is_defined_ty(defined, s, &x.ty)? {
        return Ok(false);
    }
    if !is_defined_ty(defined, s, &x.coerce.to)? {
        return Ok(false);
    }
    let are_defined = are_defined_trees(defined, s, &x.kids)?;
    Ok(are_defined)
}

/// Whether the types that stand in some trees are.
#[cycle(trees)]
#[tactic(auto, using(hare_typed::proofs::KidLemmas::kid_size))]
fn are_defined_trees(
    defined: &mut Defined,
    s: &TypeStore,
    kids: &TypedKids,
) -> Result<bool, AllocError>
    requires known { AreDefined s.now defined.old }
    ensures value { IfOk result (λ b. IsTrue b → AreTreesDefined s.now kids.now) }
    ensures known { AreDefined s.now defined.new }
{
    for i in 0..kids.len() {
        let Some(kid) = kids.get(i) else {
            return Ok(false);
        };
        if !is_defined_tree(defined, s, kid)? {
            return Ok(false);
        }
    }
    Ok(true)
}

/// Whether a name has a definition that is.
fn is_defined_name(defined: &mut Defined, s: &TypeStore, decl: u32) -> Result<bool, AllocError>
    requires known { AreDefined s.now defined.old }
    ensures value { IfOk result (λ b. IsTrue b → IsDefinedName s.now decl) }
    ensures known { AreDefined s.now defined.new }
{
    match s.definition(decl) {
        Some(t) => defined.is_defined(s, t),
        None => Ok(false),
    }
}

/// Whether what a path means is known, and its type defined.
fn is_meant(
    defined: &mut Defined,
    s: &TypeStore,
    decls: &DeclTypes,
    locals: &Locals,
    meaning: Meaning,
) -> Result<bool, AllocError>
    requires known { AreDefined s.now defined.old }
    ensures value { IfOk result (λ b. IsTrue b → IsMeant s.now decls.now locals.now meaning) }
    ensures known { AreDefined s.now defined.new }
{
    match meaning {
        Meaning::Local(n) => match locals.get(n as usize) {
            Some(local) => defined.is_defined(s, local.ty),
            None => Ok(false),
        },
        Meaning::Decl(n) => match decls.find(n) {
            Some(d) => is_known_kind(defined, s, n, d),
            None => Ok(n == NOMEM),
        },
        Meaning::Rt(_) | Meaning::None => Ok(true),
    }
}

/// Whether the name of a declared type is defined, and the type of the value of any other declaration.
fn is_known_kind(
    defined: &mut Defined,
    s: &TypeStore,
    n: u32,
    d: &DeclType,
) -> Result<bool, AllocError>
    requires known { AreDefined s.now defined.old }
    ensures value { IfOk result (λ b. IsTrue b → IsKnownKind s.now n d.now d.now.kind) }
    ensures known { AreDefined s.now defined.new }
{
    match d.kind {
        Kind::TypeDecl => is_defined_name(defined, s, n),
        Kind::Fn => defined.is_defined(s, d.ty),
        Kind::Def => defined.is_defined(s, d.ty),
        Kind::GlobalLet => defined.is_defined(s, d.ty),
        Kind::GlobalConst => defined.is_defined(s, d.ty),
        _ => Ok(false),
    }
}

/// Whether a type is in the store, and mentions no name that is not defined.
pub(crate) fn is_defined_type(alloc: Global, s: &TypeStore, t: TypeId) -> Result<bool, AllocError>
    ensures { IfOk result (λ b. IsTrue b → IsDefined s.now t) }
{
    let mut defined = Defined::new(alloc);
    defined.is_defined(s, t)
}

/// Whether the type of a value is defined; what has no type is.
fn is_defined_value(alloc: Global, s: &TypeStore, a: &Ty) -> Result<bool, AllocError>
    ensures { IfOk result (λ b. IsTrue b → IsDefinedTy s.now a.now) }
{
    match a {
        Ty::Of(t) => is_defined_type(alloc, s, *t),
        Ty::Iconst(_) | Ty::Null | Ty::Empty => Ok(true),
    }
}

/// What becomes of a value that goes to a type; the types are defined, and it may be assigned to it.
pub(crate) fn defined_coercion(
    alloc: Global,
    s: &TypeStore,
    a: &Ty,
    t: TypeId,
) -> Result<Coercion> {
    if !is_defined_value(alloc, s, a)? || !is_defined_type(alloc, s, t)? {
        bail!("a type that is not defined");
    }
    match coerced(s, a, t) {
        Some(coercion) => Ok(coercion),
        None => bail!("a kid that does not fit"),
    }
}
