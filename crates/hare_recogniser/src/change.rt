//! What a row changes in the trees under way, as their marks show it. Contracts see heights up to 256.

ghost use Rattle.std.specs.Prelude.{◌≡◌, OnOk};
ghost use Rattle.hare_nesting.specs.Marks as marks;
ghost use Rattle.hare_recogniser.specs.Capped.{capped};

use crate::frame::{Frame, Mark};
use hare_automaton::Change;
use hare_ll_table::{Spare, Stack};
use hare_tree::Kind;
use std::alloc::AllocError;

/// These changes at the token with this number, in their order.
#[tactic(auto, unfolding(hare_nesting::specs::Marks::all_changed))]
pub fn all_changed(
    spare: &mut Spare<Mark>,
    number: usize,
    changes: &[Change],
    frames: &mut Stack<Frame>,
) -> Result<(), AllocError>
    ensures { OnOk result (capped frames.new ≡ capped (marks.all_changed number changes.now frames.old)) }
{
    for change in changes {
        changed(spare, number, *change, frames)?;
    }
    Ok(())
}

/// A change at the token with this number.
fn changed(
    spare: &mut Spare<Mark>,
    number: usize,
    change: Change,
    frames: &mut Stack<Frame>,
) -> Result<(), AllocError>
    ensures { OnOk result (capped frames.new ≡ capped (marks.changed number change frames.old)) }
{
    match change {
        Change::Absent => put(Mark::leaf(Kind::None, 1), frames),
        Change::Mark(kind) | Change::Leaf(kind) => put(Mark::leaf(kind, number), frames),
        Change::Open => frames.push(Frame::begun(number, spare.take())),
        Change::Over => over(spare, number, frames),
        Change::Take | Change::Join => Ok(()),
        Change::Close(kind) => close(spare, kind, frames),
        Change::Lift => lift(spare, frames),
        Change::Drop => let_go(spare, frames),
    }
}

/// The tree is the next kid of the innermost tree under way.
fn put(tree: Mark, frames: &mut Stack<Frame>) -> Result<(), AllocError>
    ensures { OnOk result (frames.new ≡ marks.put tree frames.old) }
{
    let Some(mut frame) = frames.pop() else {
        return Ok(());
    };
    frame.add(tree)?;
    frames.push(frame)
}

/// The innermost tree under way is whole, and of this kind.
#[tactic(auto, using(crate::proofs::Marks::Capping::put_same))]
pub fn close(
    spare: &mut Spare<Mark>,
    kind: Kind,
    frames: &mut Stack<Frame>,
) -> Result<(), AllocError>
    ensures { OnOk result (capped frames.new ≡ capped (marks.close kind frames.old)) }
{
    let Some(frame) = frames.pop() else {
        return Ok(());
    };
    let tree = frame.mark_as(kind);
    spare.keep(frame.into_kids())?;
    put(tree, frames)
}

/// A tree begins at the token with this number, whose first kid is the last of the tree round it.
fn over(spare: &mut Spare<Mark>, number: usize, frames: &mut Stack<Frame>) -> Result<(), AllocError>
    ensures { OnOk result (frames.new ≡ marks.over number frames.old) }
{
    let Some(mut frame) = frames.pop() else {
        return Ok(());
    };
    let mut kids = spare.take();
    if let Some(tree) = frame.take_last() {
        kids.push(tree)?;
    }
    frames.push(frame)?;
    frames.push(Frame::begun(number, kids))
}

/// The kids of the innermost tree under way are those of the tree round it.
fn lift(spare: &mut Spare<Mark>, frames: &mut Stack<Frame>) -> Result<(), AllocError>
    ensures { OnOk result (frames.new ≡ marks.lift frames.old) }
{
    let Some(frame) = frames.pop() else {
        return Ok(());
    };
    let Some(mut outer) = frames.pop() else {
        return Ok(());
    };
    let mut kids = frame.into_kids();
    outer.add_all(&mut kids)?;
    spare.keep(kids)?;
    frames.push(outer)
}

/// The innermost tree under way is none.
fn let_go(spare: &mut Spare<Mark>, frames: &mut Stack<Frame>) -> Result<(), AllocError>
    ensures { OnOk result (frames.new ≡ marks.let_go frames.old) }
{
    match frames.pop() {
        Some(frame) => spare.keep(frame.into_kids()),
        None => Ok(()),
    }
}
