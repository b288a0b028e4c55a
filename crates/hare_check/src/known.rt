//! What is known of what paths mean.

ghost use Rattle.std.specs.Prelude.{◌≡◌, true};
ghost use Rattle.hare_types.specs.Sound.{IsStore};
ghost use Rattle.hare_types.specs.Store.{Store};
ghost use Rattle.hare_above.specs.Ready.{IsKnown};
ghost use Rattle.hare_find.specs.Defined.{AreDefinedLocals};
ghost use Rattle.rule_judge.specs.Meant.{IsMeant};
ghost use Rattle.rule_types.specs.Known.{IsTypeMeant, IsDefinedMeaning};
ghost use Rattle.hare_check.specs.Walking.{AreKnownDecls};

use hare_rules::Locals;
use hare_tree::{Kind, Meaning};
use rule_judge::DeclTypes;

/// The number of `rt::nomem`, the refusal of memory, which no source declares.
const NOMEM: u32 = 4_294_967_295;

/// Whether a path means what is known: a binding, a declaration, or a name of the module `rt`. Names mean nothing else.
pub(crate) fn is_known(decls: &DeclTypes, told: &Locals, meaning: Meaning) -> bool
    ensures { result ≡ true → (s : Store) → AreKnownDecls s decls.now → AreDefinedLocals s told.now → IsMeant s decls.now told.now meaning }
{
    match meaning {
        Meaning::Local(n) => (n as usize) < told.len(),
        Meaning::Decl(n) => n == NOMEM || decls.find(n).is_some(),
        Meaning::Rt(_) | Meaning::None => true,
    }
}

/// Whether a path at the place of a type means a type that is known.
pub(crate) fn is_known_type(decls: &DeclTypes, meaning: Meaning) -> bool
    ensures defined { result ≡ true → (s : Store) → IsKnown s decls.now → AreKnownDecls s decls.now → IsDefinedMeaning s meaning }
    ensures meant { result ≡ true → (s : Store) → IsStore s → IsKnown s decls.now → AreKnownDecls s decls.now → IsTypeMeant s meaning }
{
    let Meaning::Decl(n) = meaning else {
        return false;
    };
    if n == NOMEM {
        return true;
    }
    match decls.find(n) {
        Some(d) => d.kind == Kind::TypeDecl,
        None => false,
    }
}
