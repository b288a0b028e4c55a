//! What written types rely on of names.

ghost use Rattle.std.specs.Prelude.{◌≡◌, true};
ghost use Rattle.hare_tree.specs.declared.kind.Kind.TheVariants as ki;
ghost use Rattle.hare_tree.specs.Node.{head};
ghost use Rattle.rule_types.specs.Known.{IsTypeMeant};

use hare_tree::{Kind, Meaning, Tree};
use hare_types::TypeStore;

/// Whether a written type that is a path means a declared type. Names mean nothing else.
pub(crate) fn means_type(s: &TypeStore, node: &Tree, meaning: Meaning) -> bool
    ensures { result ≡ true → (head node.now).kind ≡ ki.TypePath → IsTypeMeant s.now meaning }
{
    match node.kind {
        Kind::TypePath => match meaning {
            Meaning::Decl(n) => s.sized(n).is_some(),
            Meaning::Local(_) | Meaning::Rt(_) | Meaning::None => false,
        },
        _ => true,
    }
}
