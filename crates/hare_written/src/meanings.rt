//! What the names say of a node of a written type.

ghost use Rattle.std.specs.Prelude.{◌≡◌};
ghost use Rattle.hare_tree.specs.Node.{head};
ghost use Rattle.hare_names.specs.Answers.{meaning_in};
ghost use Rattle.hare_rules.specs.Context.{Setting};
ghost use Rattle.hare_rules.specs.Flow.{meaning_of};

use hare_names::Names;
use hare_tree::{Kind, Meaning, Tree};

/// What the names say of a path; a node that is none means nothing.
pub(crate) fn own_meaning(names: &Names, node: &Tree) -> Meaning
    ensures { (w : Setting) → w.means ≡ meaning_in names.now → result ≡ meaning_of w (head node.now) }
{
    match node.kind {
        Kind::Path | Kind::TypePath => names.meaning(node.place),
        _ => Meaning::None,
    }
}
