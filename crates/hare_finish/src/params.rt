//! The parameters of functions.

ghost use Rattle.std.specs.Prelude.{◌≡◌, [], ◌∷◌, drop, IfOk};
ghost use Rattle.hare_tree.specs.Node.{head};
ghost use Rattle.hare_typed.specs.Numbers as numbers;
ghost use Rattle.hare_typed.specs.Typed.{marked, typed_nodes};
ghost use Rattle.hare_modules.specs.Uses as uses;
ghost use Rattle.hare_whole.specs.Declared.{unnumbered};
ghost use Rattle.hare_finish.specs.Made as made;
ghost use Rattle.hare_finish.specs.Made.{void_mark, part_as, parts_as, params_as, IsPartShaped, ArePartsShaped};

use crate::counts::sum;
use crate::nodes::{has_kids, node, plain};
use crate::unnumbered::copy_unnumbered;
use hare_tree::{Kids, Kind, Tree};
use hare_typed::{Typed, TypedKids};
use hare_types::TypeId;
use std::alloc::{AllocError, Global};

/// Whether a part of this kind is a parameter.
fn is_param(k: Kind) -> bool
    ensures { result ≡ numbers.is_param k }
{
    matches!(k, Kind::Param)
}

/// How many types stand in a part of the parameters: one in a parameter, and none in a comma.
fn taken_by(k: Kind) -> u32
    ensures { result ≡ made.taken_by k }
{
    match k {
        Kind::Param => 1,
        _ => 0,
    }
}

/// A parameter with this number and this type.
fn param(
    alloc: Global,
    void: TypeId,
    number: u32,
    t: &Tree,
    written: &Typed,
) -> Result<Typed, AllocError>
    ensures { IfOk result (λ x. x ≡ marked (head t.now) (void_mark void number) (typed_nodes (unnumbered written.now ∷ []))) }
{
    let mut kids = TypedKids::with_room(alloc, 1);
    kids.push(copy_unnumbered(alloc, written)?)?;
    node(alloc, void, number, t, kids)
}

/// A part of the parameters, behind others in which so many types stand: a parameter with this number, or else what is plain.
fn part(
    alloc: Global,
    void: TypeId,
    number: u32,
    t: &Tree,
    types: &TypedKids,
    taken: u32,
) -> Result<Typed, AllocError>
    ensures tree { IfOk result (λ x. x ≡ part_as void number t.now (drop taken types.now)) }
    ensures shaped { IfOk result (λ x. IsPartShaped t.now) }
{
    if !is_param(t.kind) {
        return plain(alloc, void, t);
    }
    if !has_kids(t, 1) {
        return Err(AllocError);
    }
    let Some(written) = types.get(taken as usize) else {
        return Err(AllocError);
    };
    param(alloc, void, number, t, written)
}

/// All parts of the parameters, of which the first has this number. Behind their types stands that of the result.
fn parts(
    alloc: Global,
    void: TypeId,
    first: u32,
    kids: &Kids,
    types: &TypedKids,
) -> Result<TypedKids, AllocError>
    ensures trees { IfOk result (λ xs. xs ≡ parts_as void first kids.now types.now) }
    ensures shaped { IfOk result (λ xs. ArePartsShaped kids.now) }
{
    let mut trees = TypedKids::with_room(alloc, kids.len());
    let mut taken = 0;
    for i in 0..kids.len() {
        let Some(t) = kids.get(i) else {
            unreachable!();
        };
        let number = sum(first, taken)?;
        let tree = part(alloc, void, number, t, types, taken)?;
        trees.push(tree)?;
        taken = sum(taken, taken_by(t.kind))?;
    }
    if types.len() != taken as usize + 1 {
        return Err(AllocError);
    }
    Ok(trees)
}

/// The tree of all parameters, of which this is the untyped one.
pub(crate) fn finish_params(
    alloc: Global,
    void: TypeId,
    first: u32,
    t: &Tree,
    types: &TypedKids,
) -> Result<Typed, AllocError>
    ensures tree { IfOk result (λ x. x ≡ params_as void first t.now types.now) }
    ensures shaped { IfOk result (λ x. ArePartsShaped (uses.kids t.now)) }
{
    let trees = parts(alloc, void, first, &t.kids, types)?;
    node(alloc, void, 0, t, trees)
}
