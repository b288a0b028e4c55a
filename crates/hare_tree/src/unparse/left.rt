//! What is left to be put: a stack whose last entry is put first.

ghost use Rattle.std.specs.Prelude.{◌≡◌, ◌≤◌, ◌<◌, ◌+◌, ℕ, suc, min, length, drop, ◌++◌, OnOk};
ghost use Rattle.hare_tree.specs.Node.{nodes_of};
ghost use Rattle.hare_tree.specs.Judged.{nodes_from};
ghost use Rattle.hare_tree.specs.Spell as spec;
ghost use Rattle.hare_tree.specs.Left.{left_tokens, left_weight, weight, weights, kid_behind};

use crate::form::{Lead, Piece, Sign};
use crate::kind::Kind;
use crate::tree::{Kids, Tree};
use std::alloc::AllocError;

/// The kids of a tree from one on.
#[derive(Clone, Copy)]
pub struct Row<'a> {
    pub kids: &'a Kids,
    /// The number of the first of them, from 0.
    pub from: usize,
    /// The sign that stands with each.
    pub lead: Lead,
}

/// The pieces of a tree's form from one on.
#[derive(Clone, Copy)]
pub struct Pieces<'a> {
    pub tree: &'a Tree,
    /// The number of the first of them, from 0.
    pub piece: usize,
    /// The number of the first kid that is left in front of them.
    pub kid: usize,
}

/// One entry of what is left to be put.
#[derive(Clone, Copy)]
pub enum Entry<'a> {
    /// A keyword or mark.
    Sign(Sign),
    /// Trees side by side.
    Row(Row<'a>),
    /// A tree, or what is left of it.
    Pieces(Pieces<'a>),
}

/// Whether a kid of this kind takes no sign.
fn stands_alone(k: Kind) -> bool
    ensures { result ≡ spec.stands_alone k }
{
    match k {
        Kind::None | Kind::TrailingComma | Kind::Dots => true,
        _ => false,
    }
}

/// Leaves a tree to be put, with the sign that stands with it.
fn leave_tree<'a>(left: &mut Vec<Entry<'a>>, tree: &'a Tree, lead: Lead) -> Result<(), AllocError>
    ensures tokens { OnOk result ((f : ℕ) → left_tokens f left.new.items ≡ spec.with_lead f lead (spec.spelled_kid f tree.now) ++
        left_tokens f left.old.items) }
    ensures weight { OnOk result (left_weight left.new.items ≤ left_weight left.old.items + suc (weight tree.now)) }
{
    let pieces = Entry::Pieces(Pieces {
        tree,
        piece: 0,
        kid: 0,
    });
    if stands_alone(tree.kind) {
        left.push(pieces)?;
        return Ok(());
    }
    match lead {
        Lead::Nothing => left.push(pieces)?,
        Lead::Before(s) => {
            left.push(pieces)?;
            left.push(Entry::Sign(s))?;
        }
        Lead::Behind(s) => {
            left.push(Entry::Sign(s))?;
            left.push(pieces)?;
        }
    }
    Ok(())
}

/// Leaves the `i`th kid to be put with its sign, or nothing where there is no such kid.
pub fn leave_one<'a>(
    left: &mut Vec<Entry<'a>>,
    kids: &'a Kids,
    i: usize,
    lead: Lead,
) -> Result<(), AllocError>
    ensures tokens { OnOk result ((f : ℕ) → left_tokens f left.new.items ≡ spec.one_led f lead (drop i (spec.spells f (nodes_of kids.now)))
        ++ left_tokens f left.old.items) }
    ensures weight { OnOk result (left_weight left.new.items + weights (nodes_from (i + 1) (nodes_of kids.now)) ≤ left_weight left.old.items
        + weights (nodes_from i (nodes_of kids.now))) }
    ensures lighter { OnOk result (i < length kids.now → left_weight left.new.items + weights (nodes_from (i + 1) (nodes_of kids.now)) <
        left_weight left.old.items + weights (nodes_from i (nodes_of kids.now))) }
{
    match kids.get(i) {
        Some(t) => leave_tree(left, t, lead),
        None => Ok(()),
    }
}

/// Leaves all kids from one on to be put, each with its sign: the first, and behind it the others.
pub fn leave_row<'a>(
    left: &mut Vec<Entry<'a>>,
    kids: &'a Kids,
    from: usize,
    lead: Lead,
) -> Result<(), AllocError>
    ensures tokens { OnOk result ((f : ℕ) → left_tokens f left.new.items ≡ spec.all_led f lead
        (drop from (spec.spells f (nodes_of kids.now))) ++ left_tokens f left.old.items) }
    ensures weight { OnOk result (left_weight left.new.items ≤ left_weight left.old.items + weights (nodes_from from (nodes_of kids.now))) }
{
    if kids.len() <= from {
        return Ok(());
    }
    left.push(Entry::Row(Row {
        kids,
        from: from + 1,
        lead,
    }))?;
    leave_one(left, kids, from, lead)
}

/// Leaves all kids from one on to be put, with a comma before each but the first.
pub fn leave_listed<'a>(
    left: &mut Vec<Entry<'a>>,
    kids: &'a Kids,
    from: usize,
) -> Result<(), AllocError>
    ensures tokens { OnOk result ((f : ℕ) → left_tokens f left.new.items ≡ spec.listed f (drop from (spec.spells f (nodes_of kids.now))) ++
        left_tokens f left.old.items) }
    ensures weight { OnOk result (left_weight left.new.items ≤ left_weight left.old.items + weights (nodes_from from (nodes_of kids.now))) }
{
    if kids.len() <= from {
        return Ok(());
    }
    left.push(Entry::Row(Row {
        kids,
        from: from + 1,
        lead: Lead::Before(Sign::Comma),
    }))?;
    leave_one(left, kids, from, Lead::Nothing)
}

/// The number of the next kid, of so many.
fn one_on(i: usize, count: usize) -> usize
    ensures { result ≡ min (i + 1) count }
{
    if i < count { i + 1 } else { count }
}

/// The number of the first kid that a piece leaves, of so many kids.
pub fn kid_behind(piece: Piece, i: usize, count: usize) -> usize
    ensures { result ≡ kid_behind piece i count }
{
    match piece {
        Piece::Fixed(_) | Piece::Own(_) => i,
        Piece::Kid(_)
        | Piece::Optional(_)
        | Piece::Led(_, _)
        | Piece::Followed(_, _)
        | Piece::Value(_) => one_on(i, count),
        _ => count,
    }
}
