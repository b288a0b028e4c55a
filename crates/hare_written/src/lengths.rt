//! What is found of the length of an array.

ghost use Rattle.std.specs.Prelude.{◌≡◌, ℕ, true, false, IfOk};
ghost use Rattle.hare_tree.specs.declared.kind.Kind.TheVariants as ki;
ghost use Rattle.hare_tree.specs.declared.token.Meaning.TheVariants as means;
ghost use Rattle.hare_tree.specs.Node.{head};
ghost use Rattle.hare_find.specs.Lengths as lengths;
ghost use Rattle.hare_find.specs.Lengths.{IsLengthMeant};
ghost use Rattle.hare_rules.specs.Context.{Setting};
ghost use Rattle.hare_rules.specs.Constants.{means_def};
ghost use Rattle.hare_types.specs.Store.{Store};
ghost use Rattle.hare_walk.specs.Grown.{IsGrown};
ghost use Rattle.hare_walk.specs.Walks.{IsPart};
ghost use Rattle.rule_judge.specs.Defined.{IsDefinedTy};
ghost use Rattle.hare_written.specs.Judged.{AreAllJudged};
ghost use Rattle.hare_written.specs.Program.{program_of, AreDefsDefined};
ghost use Rattle.hare_written.specs.Roles.{role_in};
ghost use Rattle.hare_written.specs.Turns.{IsTypeFound};
ghost use Rattle.hare_written.specs.declared.roles.Role.TheVariants as roles;

use crate::env::Env;
use crate::meanings::own_meaning;
use hare_find::find_length;
use hare_tree::{Kind, Meaning, Tree};
use hare_typed::TypedKids;
use hare_types::{Scalar, Ty, TypeStore};
use rule_judge::{DeclTypes, word};
use std::alloc::AllocError;

/// Whether a path means a declaration that is no def, or is not known.
fn means_other(decls: &DeclTypes, meaning: Meaning) -> bool
    ensures path { result ≡ true → (n : ℕ) × (meaning ≡ means.Decl n) }
    ensures other { result ≡ true → (w : Setting) → w.decls ≡ decls.now → means_def w meaning ≡ false }
    ensures def { result ≡ false → (s : Store) → AreDefsDefined s decls.now → IsLengthMeant s decls.now meaning }
{
    match meaning {
        Meaning::Decl(n) => match decls.find(n) {
            Some(d) => !matches!(d.kind, Kind::Def),
            None => true,
        },
        Meaning::Local(_) | Meaning::Rt(_) | Meaning::None => false,
    }
}

/// What is found of the length of an array: the type of its number or of the def that it names, else void. Whether it is a length is asked
/// at the array. The store may grow in types.
pub(crate) fn find_counted(
    env: &Env<'_>,
    s: &mut TypeStore,
    node: &Tree,
    kids: &TypedKids,
) -> Result<Ty, AllocError>
    requires kind { lengths.is_length (head node.now).kind ≡ true }
    requires part { IsPart node.now }
    requires defs { AreDefsDefined s.old env.now.decls.now }
    requires kids { (n : ℕ) × AreAllJudged (program_of env.now) s.old node.now n kids.now }
    ensures ok { IfOk result (IsTypeFound (program_of env.now) s.new (role_in roles.Length) (head node.now) kids.now) }
    ensures defined { IfOk result (IsDefinedTy s.new) }
    ensures grown { IsGrown s.old s.new }
{
    let _law = s.declarations();
    let meaning = own_meaning(env.names, node);
    if means_other(env.decls, meaning) {
        let void = word(s, Scalar::Void)?;
        return Ok(Ty::Of(void));
    }
    let found = find_length(env.alloc, s, env.decls, meaning, node, kids)?;
    Ok(found.ty)
}
