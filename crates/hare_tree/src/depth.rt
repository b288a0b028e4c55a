//! The limits on depth.

ghost use Rattle.std.specs.Prelude.{◌≡◌, ◌≤◌, ◌<◌, ◌+◌, true, false, MatchOption};
ghost use Rattle.hare_tree.specs.Node.{nodes_of};
ghost use Rattle.hare_tree.specs.Depth as depth;
ghost use Rattle.hare_tree.specs.Judged.{keeps_low, keep_low, kid_keeps, left_room, nodes_from};

use crate::kind::Kind;
use crate::tree::{Kids, Tree};

/// No node has so many nodes open round it, and no left operand has this height.
const LIMIT: usize = 256;

/// No tree that keeps the limits is higher: at most 256 nodes are open round one another, and the left operand of the innermost is at most
/// 255 nodes high.
pub const ROOM: usize = 511;

/// Whether a tree is a type, an expression or a statement.
pub fn is_node(k: Kind) -> bool
    ensures { result ≡ depth.is_node k }
{
    match k {
        Kind::None
        | Kind::Use
        | Kind::UseAlias
        | Kind::UseNames
        | Kind::ImportPath
        | Kind::Def
        | Kind::GlobalLet
        | Kind::GlobalConst
        | Kind::TypeDecl
        | Kind::Fn
        | Kind::Params
        | Kind::Param
        | Kind::StructField
        | Kind::Name
        | Kind::Export
        | Kind::TrailingComma
        | Kind::Dots
        | Kind::ByRef
        | Kind::Spread
        | Kind::FieldValue
        | Kind::Binding
        | Kind::Case
        | Kind::PatternLet
        | Kind::PatternNull
        | Kind::SwitchCase
        | Kind::Values => false,
        _ => true,
    }
}

/// Whether a tree is a binary operator, an assignment, a cast or a postfix form. Its first kid is then its left operand.
fn is_operator(k: Kind) -> bool
    ensures { result ≡ depth.is_operator k }
{
    matches!(
        k,
        Kind::Arith
            | Kind::Shift
            | Kind::Less
            | Kind::Equal
            | Kind::Logic
            | Kind::OpAssign
            | Kind::Assign
            | Kind::Cast
            | Kind::As
            | Kind::Is
            | Kind::Call
            | Kind::Index
            | Kind::Slice
            | Kind::Field
            | Kind::Try
            | Kind::Force
    )
}

/// How high the kids of a tree may be where it may be so high itself; none where it is a node and may not even stand there.
pub fn room_within(room: usize, k: Kind) -> Option<usize>
    ensures { MatchOption result ((depth.counted k ≡ 1) × (room ≡ 0)) (λ r. depth.counted k + r ≡ room) }
{
    if is_node(k) {
        room.checked_sub(1)
    } else {
        Some(room)
    }
}

/// How many nodes are open round the kids of a tree.
fn open_within(opened: usize, is_left: bool, k: Kind) -> usize
    requires { depth.is_node k ≡ true → opened < 256 }
    ensures { result ≡ depth.open_within opened is_left k }
{
    if is_node(k) && !is_left {
        opened + 1
    } else {
        opened
    }
}

/// Whether a tree keeps the limits and is no higher than so many nodes. So many are open round it, and it is or is not the left operand of
/// an operator.
#[cycle(depth)]
pub fn keeps_limits(t: &Tree, opened: usize, is_left: bool, room: usize) -> bool
    requires { opened ≤ 256 }
    ensures { result ≡ keeps_low room opened is_left t.now }
{
    if is_node(t.kind) && LIMIT <= opened {
        return false;
    }
    let Some(room) = room_within(room, t.kind) else {
        return false;
    };
    let opened = open_within(opened, is_left, t.kind);
    kid_keeps(
        &t.kids,
        0,
        opened,
        is_operator(t.kind),
        left_room(room, t.kind),
    ) && others_keep(&t.kids, opened, room)
}

/// How high the first kid of a tree may be where all kids may be so high: as a left operand it has a limit of its own.
fn left_room(room: usize, k: Kind) -> usize
    ensures { result ≡ left_room room k }
{
    if is_operator(k) {
        room.min(LIMIT - 1)
    } else {
        room
    }
}

/// Whether the `i`th kid, if there is one, keeps the limits and is no higher than so many nodes.
#[cycle(depth)]
fn kid_keeps(kids: &Kids, i: usize, opened: usize, is_left: bool, room: usize) -> bool
    requires { opened ≤ 256 }
    ensures { result ≡ kid_keeps room opened is_left (nodes_from i (nodes_of kids.now)) }
{
    match kids.get(i) {
        Some(kid) => keeps_limits(kid, opened, is_left, room),
        None => true,
    }
}

/// Whether all kids but the first keep the limits.
#[cycle(depth)]
fn others_keep(kids: &Kids, opened: usize, room: usize) -> bool
    requires { opened ≤ 256 }
    ensures { result ≡ keep_low room opened false (nodes_from 1 (nodes_of kids.now)) }
{
    for i in 1..kids.len() {
        if !kid_keeps(kids, i, opened, false, room) {
            return false;
        }
    }
    true
}
