//! What the names say of a node.

ghost use Rattle.std.specs.Prelude.{◌≡◌, map};
ghost use Rattle.hare_tree.specs.Node.{head};
ghost use Rattle.hare_typed.specs.Order.{tree_from_front};
ghost use Rattle.hare_typed.specs.Typed.{mark_of};
ghost use Rattle.hare_names.specs.Answers.{meaning_in};
ghost use Rattle.hare_rules.specs.Aggregates as aggregates;
ghost use Rattle.hare_rules.specs.Context.{Setting};
ghost use Rattle.hare_rules.specs.Finished.{bare};
ghost use Rattle.hare_rules.specs.Flow.{meaning_of};
ghost use Rattle.hare_rules.specs.Flow as flow;

use hare_names::Names;
use hare_tree::{Kind, Meaning, Tree};
use hare_typed::TypedKids;

/// What the names say of a path itself; a node that is none means nothing.
pub(crate) fn own_meaning(names: &Names, node: &Tree) -> Meaning
    ensures { (w : Setting) → w.means ≡ meaning_in names.now → result ≡ meaning_of w (head node.now) }
{
    match node.kind {
        Kind::Path | Kind::TypePath => names.meaning(node.place),
        _ => Meaning::None,
    }
}

/// What the first kid means.
fn first_meaning(kids: &TypedKids) -> Meaning
    ensures { result ≡ (mark_of (tree_from_front 0 kids.now)).meaning }
{
    match kids.get(0) {
        Some(kid) => kid.meaning,
        None => Meaning::None,
    }
}

/// What the callee means; nothing where it is no path.
fn callee_meaning(kids: &TypedKids) -> Meaning
    ensures { result ≡ aggregates.callee_meaning (tree_from_front 0 kids.now) }
{
    match kids.get(0) {
        Some(kid) => match kid.kind {
            Kind::Path => kid.meaning,
            _ => Meaning::None,
        },
        None => Meaning::None,
    }
}

/// What the names say of the path of a node: of itself, of the callee of a call, or of the type of a struct literal.
pub(crate) fn path_meaning(names: &Names, node: &Tree, kids: &TypedKids) -> Meaning
    ensures { (w : Setting) → w.means ≡ meaning_in names.now → result ≡ flow.path_meaning w (head node.now) (head node.now).kind
        (map bare kids.now) }
{
    match node.kind {
        Kind::Call => callee_meaning(kids),
        Kind::StructLit => first_meaning(kids),
        _ => own_meaning(names, node),
    }
}
