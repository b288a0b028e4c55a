//! What a row changes in the trees under way.

ghost use Rattle.std.specs.Prelude.{◌≡◌, ◌∷◌, [], ◌≤◌, OnOk};
ghost use Rattle.hare_tree.specs.Depth.{height};
ghost use Rattle.hare_tree.specs.Spell as spell;
ghost use Rattle.hare_automaton.specs.Engine as engine;

use crate::group::Group;
use crate::whole::{bare_leaf, full_leaf};
use hare_automaton::Change;
use hare_ll_table::{Spare, Stack};
use hare_tree::{Kind, Place, Token, Tree};
use std::alloc::{AllocError, Global};

/// These changes at a token of the file, in their order.
pub fn all_changed(
    spare: &mut Spare<Tree>,
    file: u32,
    token: &Token,
    changes: &[Change],
    groups: &mut Stack<Group>,
) -> Result<(), AllocError>
    ensures { OnOk result (groups.new ≡ engine.all_changed file token.now changes.now groups.old) }
{
    for change in changes {
        changed(spare, file, token, *change, groups)?;
    }
    Ok(())
}

/// A change at a token of the file.
#[tactic(auto, using(crate::proofs::Kids::Heights::bound_leaf))]
fn changed(
    spare: &mut Spare<Tree>,
    file: u32,
    token: &Token,
    change: Change,
    groups: &mut Stack<Group>,
) -> Result<(), AllocError>
    ensures { OnOk result (groups.new ≡ engine.changed file token.now change groups.old) }
{
    match change {
        Change::Absent => add_leaf(groups, bare_leaf(spare.alloc(), Kind::None, start_of(file))),
        Change::Mark(kind) => add_leaf(groups, bare_leaf(spare.alloc(), kind, token.place)),
        Change::Leaf(kind) => add_leaf(groups, full_leaf(spare.alloc(), kind, token)?),
        Change::Open => groups.push(Group::begun(spare.alloc(), token.place, spare.take())),
        Change::Over => over(spare, token.place, groups),
        Change::Take => take_text(spare.alloc(), token, groups),
        Change::Join => join_text(token, groups),
        Change::Close(kind) => close(spare, kind, groups),
        Change::Lift => lift(spare, groups),
        Change::Drop => let_go(spare, groups),
    }
}

// ---- places

/// The start of a file.
pub fn start_of(file: u32) -> Place
    ensures { result ≡ spell.start_of file }
{
    Place {
        file,
        line: 1,
        column: 1,
    }
}

// ---- the innermost tree under way

/// The tree, which has no kids, is the next kid of the innermost tree under way.
#[tactic(auto, using(crate::proofs::Kids::Heights::bound_one))]
fn add_leaf(groups: &mut Stack<Group>, tree: Tree) -> Result<(), AllocError>
    requires { height tree ≤ 1 }
    ensures { OnOk result (groups.new ≡ engine.add tree groups.old) }
{
    let Some(mut group) = groups.pop() else {
        return Ok(());
    };
    group.add(tree, 1)?;
    groups.push(group)
}

/// The innermost tree under way is whole, and of this kind.
pub fn close(
    spare: &mut Spare<Tree>,
    kind: Kind,
    groups: &mut Stack<Group>,
) -> Result<(), AllocError>
    ensures { OnOk result (groups.new ≡ engine.close kind groups.old) }
{
    let Some(group) = groups.pop() else {
        return Ok(());
    };
    let Some(mut outer) = groups.pop() else {
        return Ok(());
    };
    group.close_into(spare, kind, &mut outer)?;
    groups.push(outer)
}

/// The innermost tree under way takes the token's text, number and suffix.
fn take_text(alloc: Global, token: &Token, groups: &mut Stack<Group>) -> Result<(), AllocError>
    ensures { OnOk result (groups.new ≡ engine.take_text token.now groups.old) }
{
    let Some(mut group) = groups.pop() else {
        return Ok(());
    };
    group.take_text(alloc, token)?;
    groups.push(group)
}

/// The token's text is put behind that of the innermost tree under way.
fn join_text(token: &Token, groups: &mut Stack<Group>) -> Result<(), AllocError>
    ensures { OnOk result (groups.new ≡ engine.join_text token.now groups.old) }
{
    let Some(mut group) = groups.pop() else {
        return Ok(());
    };
    group.join_text(token)?;
    groups.push(group)
}

/// A tree begins whose first kid is the last of the tree round it.
fn over(spare: &mut Spare<Tree>, place: Place, groups: &mut Stack<Group>) -> Result<(), AllocError>
    ensures { OnOk result (groups.new ≡ engine.over place groups.old) }
{
    let Some(mut group) = groups.pop() else {
        return Ok(());
    };
    let first = group.split_last(spare, place)?;
    groups.push(group)?;
    groups.push(first)
}

/// The kids of the innermost tree under way are those of the tree round it.
fn lift(spare: &mut Spare<Tree>, groups: &mut Stack<Group>) -> Result<(), AllocError>
    ensures { OnOk result (groups.new ≡ engine.lift groups.old) }
{
    let Some(group) = groups.pop() else {
        return Ok(());
    };
    let Some(mut outer) = groups.pop() else {
        return Ok(());
    };
    outer.lift(spare, group)?;
    groups.push(outer)
}

/// The innermost tree under way is none.
fn let_go(spare: &mut Spare<Tree>, groups: &mut Stack<Group>) -> Result<(), AllocError>
    ensures { OnOk result (groups.new ≡ engine.let_go groups.old) }
{
    match groups.pop() {
        Some(group) => spare.keep(group.into_kids()),
        None => Ok(()),
    }
}
