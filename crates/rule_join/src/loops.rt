//! Loops: what a `for` goes over, and which never end.

ghost use Rattle.std.specs.Prelude.{◌≡◌, false};
ghost use Rattle.hare_types.specs.Store.{Store};
ghost use Rattle.hare_types.specs.Later.{IsLater};
ghost use Rattle.hare_typed.specs.Typed.{typed_nodes};
ghost use Rattle.hare_typed.specs.Order.{tree_from_front};
ghost use Rattle.hare_rules.specs.Control as control;
ghost use Rattle.hare_rules.specs.Rows.{holds};
ghost use Rattle.hare_rules.specs.declared.row_id.RowId.TheVariants as row;
ghost use Rattle.rule_judge.specs.Turns.{context_in, IsTurn};
ghost use Rattle.rule_join.specs.Breaks as spec;

use hare_tree::Kind;
use hare_typed::{Typed, TypedKids};
use hare_types::{Row, TypeStore};
use rule_judge::{Turn, base_row, seen};

/// Whether a `for` goes over an array or a slice.
pub(crate) fn is_sequence(s: &TypeStore, t: &Turn<'_>) -> bool
    requires { IsTurn s.now t.now }
    ensures { (f : Store) → IsLater s.now f → result ≡ holds row.ForEachSequence (context_in f t.now) }
{
    matches!(
        base_row(s, &seen(t, 1)),
        Some(Row::Array(_, _) | Row::Slice(_))
    )
}

/// Whether a node of this kind and text is the literal `true`.
fn is_true_by(k: Kind, text: &[u8]) -> bool
    ensures { result ≡ control.is_true_by k text.now }
{
    match k {
        Kind::Bool => matches!(text, b"true"),
        _ => false,
    }
}

/// Whether the kid is the literal `true`, and not in parentheses.
fn is_true(kids: &TypedKids, i: usize) -> bool
    ensures { result ≡ control.is_true (tree_from_front i kids.now) }
{
    match kids.get(i) {
        Some(kid) => is_true_by(kid.kind, kid.text.bytes()),
        None => false,
    }
}

/// Whether a node is a loop.
fn is_loop(k: Kind) -> bool
    ensures { result ≡ control.is_loop_kind k }
{
    matches!(k, Kind::For | Kind::ForEach)
}

/// Whether a node is a `break` that means the loop with this name: where no other loop stands between, also one without a name.
fn is_break(name: &[u8], is_nearest: bool, k: Kind, text: &[u8]) -> bool
    ensures { result ≡ spec.is_break name.now is_nearest k text.now }
{
    if k != Kind::Break {
        return false;
    }
    if is_nearest {
        text.is_empty() || text == name
    } else {
        !text.is_empty() && text == name
    }
}

/// Whether a `break` in the tree means the loop with this name that stands round it, where `is_nearest` says that no other loop stands
/// between. Inside another loop a `break` without a name means that one, and so does one with the name of both. The call goes as deep in
/// the host as the tree is; within another loop it looks on only for a loop with a name.
#[cycle(breaks)]
fn breaks(name: &[u8], is_nearest: bool, tree: &Typed) -> bool
    ensures { result ≡ control.breaks name.now is_nearest tree.now }
{
    let text = tree.text.bytes();
    if is_break(name, is_nearest, tree.kind, text) {
        return true;
    }
    if !is_loop(tree.kind) {
        return breaks_in(name, is_nearest, &tree.kids);
    }
    if name.is_empty() {
        return false;
    }
    if text == name {
        return false;
    }
    breaks_in(name, false, &tree.kids)
}

/// Whether a `break` in one of the trees means the loop.
#[cycle(breaks)]
fn breaks_in(name: &[u8], is_nearest: bool, trees: &TypedKids) -> bool
    ensures { result ≡ control.breaks_in name.now is_nearest false (typed_nodes trees.now) }
{
    for i in 0..trees.len() {
        let Some(tree) = trees.get(i) else {
            return false;
        };
        if breaks(name, is_nearest, tree) {
            return true;
        }
    }
    false
}

/// Whether no jump inside a `for` leaves it, and its condition is the literal `true`. Its kids are looked at in that case alone.
pub(crate) fn is_endless(t: &Turn<'_>) -> bool
    ensures { (f : Store) → result ≡ control.is_endless (context_in f t.now) }
{
    let node = t.node;
    is_true(t.kids, 1) && !breaks_in(node.text.bytes(), true, t.kids)
}
