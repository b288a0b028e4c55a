//! Which rules a kind of node has.

ghost use Rattle.std.specs.Prelude.{◌≡◌, true, is_some, IfSome};
ghost use Rattle.hare_judge.specs.Kinds.{is_judged_kind, judges};

use hare_tree::Kind;

/// The rules by which a node is judged, by its kind.
#[derive(Clone, Copy, Debug, PartialEq, Eq)]
pub enum Judge {
    /// Literals, operators, casts, sizes and parentheses.
    Operators,
    /// Places, aggregates and the heap.
    Memory,
    /// Calls, bindings, members of unions, and what leaves.
    Control,
    /// Branches, loops, blocks and cases.
    Joining,
    /// `match`.
    Matching,
    /// `switch`.
    Switching,
}

/// The rules of a kind of node of a body; none of a kind that has none, of a written type, which no hint asks for anything, and of a
/// declaration, which is judged by itself.
pub fn judge_of(kind: Kind) -> Option<Judge>
    ensures some { IfSome result (λ j. judges j kind ≡ true) }
    ensures known { is_some result ≡ is_judged_kind kind }
{
    match kind {
        Kind::Number
        | Kind::Str
        | Kind::RuneLit
        | Kind::Bool
        | Kind::Null
        | Kind::Void
        | Kind::Neg
        | Kind::Not
        | Kind::Bang
        | Kind::Arith
        | Kind::Shift
        | Kind::Less
        | Kind::Equal
        | Kind::Logic
        | Kind::OpAssign
        | Kind::Cast
        | Kind::Size
        | Kind::Align
        | Kind::Paren => Some(Judge::Operators),
        Kind::Path
        | Kind::Deref
        | Kind::Addr
        | Kind::Assign
        | Kind::Index
        | Kind::Slice
        | Kind::Field
        | Kind::StructLit
        | Kind::Tuple
        | Kind::Array
        | Kind::Alloc
        | Kind::Free
        | Kind::Append
        | Kind::Delete
        | Kind::Len
        | Kind::Offset => Some(Judge::Memory),
        Kind::As
        | Kind::Is
        | Kind::Call
        | Kind::Try
        | Kind::Force
        | Kind::Abort
        | Kind::Assert
        | Kind::Let
        | Kind::Const
        | Kind::Defer
        | Kind::Break
        | Kind::Continue
        | Kind::Return
        | Kind::Yield => Some(Judge::Control),
        Kind::If | Kind::For | Kind::ForEach | Kind::Block | Kind::Case | Kind::SwitchCase => Some(
            Judge::Joining,
        ),
        Kind::Match => Some(Judge::Matching),
        Kind::Switch => Some(Judge::Switching),
        _ => None,
    }
}
