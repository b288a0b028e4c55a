//! What is found of a part of a written type at its turn.

ghost use Rattle.std.specs.Prelude.{◌≡◌, ℕ, true, IfOk, IfErr};
ghost use Rattle.hare_tree.specs.Levels as levels;
ghost use Rattle.hare_tree.specs.Node.{head};
ghost use Rattle.hare_typed.specs.Typed.{Mark, marked, typed_nodes};
ghost use Rattle.hare_types.specs.declared.coercion.Ty.TheVariants as ty;
ghost use Rattle.hare_walk.specs.Grown.{IsGrown};
ghost use Rattle.hare_walk.specs.Walks.{IsPart};
ghost use Rattle.rule_judge.specs.Defined.{IsDefinedTy};
ghost use Rattle.rule_types.specs.Contexts.{role_of};
ghost use Rattle.rule_types.specs.Known.{IsKnown, IsKnownPart};
ghost use Rattle.hare_written.specs.Judged.{AreAllJudged};
ghost use Rattle.hare_written.specs.Program.{program_of, AreDefsDefined};
ghost use Rattle.hare_written.specs.Roles.{role_in};
ghost use Rattle.hare_written.specs.Turns.{IsTypeFound, IsTurnedBack};
ghost use Rattle.hare_written.specs.declared.roles.Role.TheVariants as roles;

use crate::around::find_around;
use crate::env::Env;
use crate::kinds::{is_around, is_length, is_type};
use crate::lengths::find_counted;
use crate::meanings::own_meaning;
use crate::named::means_type;
use crate::roles::Role;
use hare_tree::{Fault, Stop, Tree};
use hare_typed::TypedKids;
use hare_types::{Ty, TypeId, TypeStore};
use rule_types::{Written, judge};

/// The type that a written type writes, which is that of a binding or not; or its fault. The store may grow in names and types.
fn find_type(
    env: &Env<'_>,
    s: &mut TypeStore,
    node: &Tree,
    kids: &TypedKids,
    bound: bool,
) -> Result<TypeId, Stop<Fault>>
    requires kind { levels.is_type (head node.now).kind ≡ true }
    requires part { IsPart node.now }
    requires kids { (n : ℕ) × AreAllJudged (program_of env.now) s.old node.now n kids.now }
    ensures ok { IfOk result (λ u. IsTypeFound (program_of env.now) s.new (role_of bound) (head node.now) kids.now (ty.Of u)) }
    ensures known { IfOk result (IsKnown s.new) }
    ensures err { IfErr result (IsTurnedBack (program_of env.now) s.new (role_of bound) (head node.now) kids.now) }
    ensures grown { IsGrown s.old s.new }
{
    let _law = s.declarations();
    let meaning = own_meaning(env.names, node);
    if !means_type(s, node, meaning) {
        return Err(Stop::Memory);
    }
    let t = Written {
        decls: env.decls,
        meaning,
        bound,
        node,
        kids,
    };
    let u = judge(env.alloc, s, &t)?;
    Ok(u)
}

/// The type of a part of a written type, or its fault. The store may grow in names and types.
///
/// A part that cannot stand where it does is answered as want of memory.
pub(crate) fn find(
    env: &Env<'_>,
    s: &mut TypeStore,
    node: &Tree,
    kids: &TypedKids,
    role: Role,
) -> Result<Ty, Stop<Fault>>
    requires part { IsPart node.now }
    requires defs { AreDefsDefined s.old env.now.decls.now }
    requires kids { (n : ℕ) × AreAllJudged (program_of env.now) s.old node.now n kids.now }
    ensures ok { IfOk result (IsTypeFound (program_of env.now) s.new (role_in role) (head node.now) kids.now) }
    ensures known { IfOk result (λ b. (m : Mark) → m.ty ≡ b → IsKnownPart s.new (marked (head node.now) m (typed_nodes kids.now))) }
    ensures length { IfOk result (λ b. role ≡ roles.Length → IsDefinedTy s.new b) }
    ensures err { IfErr result (IsTurnedBack (program_of env.now) s.new (role_in role) (head node.now) kids.now) }
    ensures grown { IsGrown s.old s.new }
{
    let _law = s.declarations();
    match role {
        Role::Ordinary if is_type(node.kind) => {
            let u = find_type(env, s, node, kids, false)?;
            Ok(Ty::Of(u))
        }
        Role::BindingType if is_type(node.kind) => {
            let u = find_type(env, s, node, kids, true)?;
            Ok(Ty::Of(u))
        }
        Role::Ordinary if is_around(node.kind) => find_around(env, s, node, kids),
        Role::Length if is_length(node.kind) => {
            let ty = find_counted(env, s, node, kids)?;
            Ok(ty)
        }
        _ => Err(Stop::Memory),
    }
}
