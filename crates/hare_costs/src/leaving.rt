//! What leaves the nodes round it, as a walk from right to left meets it.

ghost use Rattle.std.specs.Prelude.{◌≡◌, ◌<◌, ◌≤◌, slice_get, Some, ◌++◌, take, drop, filter, length, map, option_and_then, OnOk};
ghost use Rattle.hare_typed.specs.Copies as copies;
ghost use Rattle.hare_costs.specs.Leaving as spec;

use hare_tree::Kind;
use hare_typed::Typed;
use std::alloc::AllocError;

/// Where a node goes that leaves what stands round it.
#[derive(Clone, Copy, Debug, PartialEq, Eq)]
pub(crate) enum Way {
    /// To the end of the function.
    Return,
    /// To a loop: behind it, or on with its next turn.
    Break,
    /// To the end of a block.
    Yield,
}

/// A node that leaves what stands round it.
#[derive(Clone, Copy)]
pub(crate) struct Leaving<'a> {
    /// Where it goes.
    pub way: Way,
    /// By which label, if by one.
    pub label: &'a [u8],
}

/// Where a node of this kind goes, if it leaves what stands round it.
fn way_of(k: Kind) -> Option<Way>
    ensures { option_and_then (λ w. copies.way_of (spec.kind_by w)) result ≡ copies.way_of k }
{
    match k {
        Kind::Return | Kind::Try => Some(Way::Return),
        Kind::Break | Kind::Continue => Some(Way::Break),
        Kind::Yield => Some(Way::Yield),
        _ => None,
    }
}

/// Whether a label means the node with this one: no label means the nearest.
fn means(label: &[u8], own: &[u8]) -> bool
    ensures { result ≡ copies.means label.now own.now }
{
    label.is_empty() || label == own
}

/// Whether it goes no further than a node of this kind and label.
fn ends_at(k: Kind, own: &[u8], exit: Leaving<'_>) -> bool
    ensures { result ≡ spec.ends k own.now exit.entry }
{
    match k {
        Kind::For | Kind::ForEach => matches!(exit.way, Way::Break) && means(exit.label, own),
        Kind::Block => matches!(exit.way, Way::Yield) && means(exit.label, own),
        Kind::Case | Kind::SwitchCase => { matches!(exit.way, Way::Yield) && exit.label.is_empty() }
        Kind::Defer => true,
        _ => false,
    }
}

/// Puts a node behind the others, if it leaves what stands round it.
pub(crate) fn push_own<'a>(exits: &mut Vec<Leaving<'a>>, t: &'a Typed) -> Result<(), AllocError>
    ensures { OnOk result (spec.Meets exits.old.items exits.new.items (spec.own_exit t.now)) }
{
    if let Some(way) = way_of(t.kind) {
        exits.push(Leaving {
            way,
            label: t.text.bytes(),
        })?;
    }
    Ok(())
}

/// Of all from a place on keeps those that leave a node of this kind and label.
pub(crate) fn keep_leaving(exits: &mut Vec<Leaving<'_>>, from: usize, k: Kind, own: &[u8])
    requires { from ≤ length exits.old.items }
    ensures { exits.new.items ≡ take from exits.old.items ++ filter (spec.leaves k own.now) (drop from exits.old.items) }
{
    let kept = gather_leaving(exits, from, k, own);
    exits.truncate(kept);
}

/// Moves those from a place on that leave a node of this kind and label behind those before it, and tells how many there are then.
fn gather_leaving(exits: &mut [Leaving<'_>], from: usize, k: Kind, own: &[u8]) -> usize
    requires { from ≤ length exits.old }
    ensures { take result exits.new ≡ take from exits.old ++ filter (spec.leaves k own.now) (drop from exits.old) }
{
    let mut kept = from;
    for i in from..exits.len() {
        let exit = exit_at(exits, i);
        if !ends_at(k, own, exit) {
            exits[kept] = exit;
            kept += 1;
        }
    }
    kept
}

/// The exit with so many before it.
fn exit_at<'a>(exits: &[Leaving<'a>], i: usize) -> Leaving<'a>
    requires { i < length exits.now }
    ensures { slice_get exits.now i ≡ Some result }
{
    exits[i]
}
