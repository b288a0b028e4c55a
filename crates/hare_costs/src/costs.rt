//! The cost of a function as a whole, in one pass from right to left.

ghost use Rattle.std.specs.Prelude.{◌≡◌, ◌*◌, suc, map, flat_map, IfOk, OnOk, if◌then◌else◌};
ghost use Rattle.hare_typed.specs.Typed.{typed_nodes};
ghost use Rattle.hare_typed.specs.Numbers as numbers;
ghost use Rattle.hare_typed.specs.Copies as copies;
ghost use Rattle.hare_costs.specs.Costs as spec;
ghost use Rattle.hare_costs.specs.Leaving.{Meets};

use crate::amount::{Amount, sum};
use crate::leaving::{Leaving, keep_leaving, push_own};
use crate::nodes::own_cost;
use hare_tree::Kind;
use hare_typed::{Typed, TypedKids};
use hare_types::TypeStore;
use std::alloc::{AllocError, Global};

/// The bytes that each frame has beside those of its nodes.
const FRAME_BYTES: u64 = 64;

/// The copied weight of a declaration and the bound on the bytes of its frame, once the deferred expressions stand where they run:
/// `docs/LANGUAGE.md` says how they are counted. Each stops at `MOST`. A type of which the store knows no size counts as none.
///
/// Fails only for want of memory. Goes over each node once, from right to left. What leaves nodes, as a `return`, is looked at once at each
/// node that it leaves.
pub fn cost(alloc: Global, s: &TypeStore, f: &Typed) -> Result<Amount, AllocError>
    ensures { IfOk result (λ a. a ≡ spec.told_cost s.now f.now) }
{
    let nodes = cost_of_nodes(alloc, s, f)?;
    Ok(Amount {
        weight: nodes.weight,
        frame: sum(FRAME_BYTES, nodes.frame),
    })
}

/// What the numbered nodes of a declaration cost together.
fn cost_of_nodes(alloc: Global, s: &TypeStore, f: &Typed) -> Result<Amount, AllocError>
    ensures { IfOk result (λ a. a ≡ spec.cost_of s.now (copies.counted f.now)) }
{
    match f.kind {
        Kind::Fn => Ok(cost_of_body(alloc, s, f)?.plus(cost_of_parameters(s, f))),
        Kind::Def | Kind::GlobalLet | Kind::GlobalConst => cost_of_body(alloc, s, f),
        _ => Ok(Amount::none()),
    }
}

/// What the nodes of a body or a value cost together.
fn cost_of_body(alloc: Global, s: &TypeStore, f: &Typed) -> Result<Amount, AllocError>
    ensures { IfOk result (λ a. a ≡ spec.cost_of s.now (flat_map (copies.copied 1 1) (numbers.body_of f.now))) }
{
    let count = f.kids.len();
    if count == 0 {
        return Ok(Amount::none());
    }
    let mut exits = Vec::new(alloc);
    match f.kids.get(count - 1) {
        Some(body) => cost_of_tree(s, body, &mut exits),
        None => Ok(Amount::none()),
    }
}

/// What the parameters of a function cost together.
fn cost_of_parameters(s: &TypeStore, f: &Typed) -> Amount
    ensures { result ≡ spec.cost_of s.now (map copies.once (numbers.parameters_of f.now)) }
{
    match f.kids.get(2) {
        Some(params) => cost_among_parameters(s, &params.kids),
        None => Amount::none(),
    }
}

/// What those of some trees cost together that are parameters.
fn cost_among_parameters(s: &TypeStore, kids: &TypedKids) -> Amount
    ensures { result ≡ spec.cost_of s.now (map copies.once (numbers.params_among (typed_nodes kids.now))) }
{
    let mut all = Amount::none();
    for i in (0..kids.len()).rev() {
        if let Some(t) = kids.get(i) {
            all = cost_as_parameter(s, t).plus(all);
        }
    }
    all
}

/// What a tree costs if it is a parameter.
fn cost_as_parameter(s: &TypeStore, t: &Typed) -> Amount
    ensures { result ≡ spec.cost_of s.now (map copies.once (spec.as_parameter t.now)) }
{
    if is_param(t.kind) {
        own_cost(s, t)
    } else {
        Amount::none()
    }
}

/// Whether a node is a parameter.
fn is_param(k: Kind) -> bool
    ensures { result ≡ numbers.is_param k }
{
    matches!(k, Kind::Param)
}

/// Whether a node is a block or a case.
fn has_defers(k: Kind) -> bool
    ensures { result ≡ copies.has_defers k }
{
    matches!(k, Kind::Block | Kind::Case | Kind::SwitchCase)
}

/// Whether a node is a defer.
fn is_defer(k: Kind) -> bool
    ensures { result ≡ copies.is_defer k }
{
    matches!(k, Kind::Defer)
}

/// What the nodes of a tree cost together, for each copy of the tree. What leaves the tree is put behind what was met before.
#[cycle(cost)]
fn cost_of_tree<'a>(
    s: &TypeStore,
    t: &'a Typed,
    exits: &mut Vec<Leaving<'a>>,
) -> Result<Amount, AllocError>
    ensures value { IfOk result (λ a. a ≡ spec.cost_of s.now (copies.copied 1 1 t.now)) }
    ensures met { OnOk result (Meets exits.old.items exits.new.items (copies.exits t.now)) }
{
    let before = exits.len();
    let inner = cost_of_kids(s, &t.kids, has_defers(t.kind), exits)?;
    push_own(exits, t)?;
    keep_leaving(exits, before, t.kind, t.text.bytes());
    Ok(inner.plus(own_cost(s, t)))
}

/// The same of the kids of a tree.
#[cycle(cost)]
fn cost_of_kids<'a>(
    s: &TypeStore,
    kids: &'a TypedKids,
    is_block: bool,
    exits: &mut Vec<Leaving<'a>>,
) -> Result<Amount, AllocError>
    ensures value { IfOk result (λ a. a ≡ spec.cost_of s.now (copies.copied_each is_block 1 (typed_nodes kids.now))) }
    ensures met { OnOk result (Meets exits.old.items exits.new.items (copies.exits_each (typed_nodes kids.now))) }
{
    let before = exits.len();
    let mut all = Amount::none();
    for i in (0..kids.len()).rev() {
        if let Some(t) = kids.get(i) {
            let behind = exits.len() - before;
            all = cost_of_kid(s, t, is_block, behind, exits)?.plus(all);
        }
    }
    Ok(all)
}

/// The same of a kid of a tree, where so many exits behind it leave the kids.
#[cycle(cost)]
fn cost_of_kid<'a>(
    s: &TypeStore,
    t: &'a Typed,
    is_block: bool,
    behind: usize,
    exits: &mut Vec<Leaving<'a>>,
) -> Result<Amount, AllocError>
    ensures value { IfOk result (λ a. a ≡ spec.cost_of s.now (copies.copied 1 (if is_block then 1 * suc behind else 1) t.now)) }
    ensures met { OnOk result (Meets exits.old.items exits.new.items (copies.exits t.now)) }
{
    if !is_block || !is_defer(t.kind) {
        return cost_of_tree(s, t, exits);
    }
    let before = exits.len();
    let inner = cost_of_kids(s, &t.kids, false, exits)?;
    exits.truncate(before);
    Ok(inner.once_and(behind).plus(own_cost(s, t)))
}
