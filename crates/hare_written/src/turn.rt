//! The turn of a part of a written type.

ghost use Rattle.std.specs.Prelude.{◌≡◌, ℕ, IfOk, IfErr};
ghost use Rattle.hare_tree.specs.declared.kind.Kind.TheVariants as ki;
ghost use Rattle.hare_tree.specs.Node.{head};
ghost use Rattle.hare_find.specs.Marks.{mark_of};
ghost use Rattle.hare_rules.specs.Context.{Context};
ghost use Rattle.hare_rules.specs.Settles.{same};
ghost use Rattle.hare_rules.specs.Values as values;
ghost use Rattle.hare_walk.specs.Grown.{IsGrown};
ghost use Rattle.hare_walk.specs.Walks.{IsPart};
ghost use Rattle.hare_written.specs.Judged.{AreAllJudged};
ghost use Rattle.hare_written.specs.Program.{program_of, AreDefsDefined};
ghost use Rattle.hare_written.specs.Roles.{role_in};
ghost use Rattle.hare_written.specs.Turns.{IsTurn, IsTurnedBack};

use crate::env::Env;
use crate::finding::find;
use crate::meanings::own_meaning;
use crate::roles::Role;
use hare_find::{Found, named_value, typed};
use hare_tree::{Fault, Kind, Meaning, Stop, Tree};
use hare_typed::{Const, Typed, TypedKids};
use hare_types::{Coercion, Ty, TypeStore};
use std::alloc::AllocError;

/// The constant of the declaration that a part means, where it is the path of a length; none where it means none.
fn named(env: &Env<'_>, node: &Tree, meaning: Meaning) -> Result<Const, AllocError>
    ensures { IfOk result (λ v. (c : Context) → c.setting.decls ≡ env.now.decls.now → c.head ≡ head node.now →
        ((head node.now).kind ≡ ki.Path → c.meaning ≡ meaning) → v ≡ values.value_named c) }
{
    match node.kind {
        Kind::Path => named_value(env.alloc, env.decls, meaning),
        _ => Ok(Const::Absent),
    }
}

/// What has been found of a part with this number, type, meaning and constant: it goes to its own type.
fn found(node: u32, ty: &Ty, meaning: Meaning, value: Const) -> Found
    ensures { mark_of result ≡ record { node = node; ty = ty.now; coerce = same ty.now; meaning = meaning; value = value } }
{
    Found {
        node,
        ty: *ty,
        own: Coercion { row: 1, to: *ty },
        meaning,
        value,
    }
}

/// The tree of a part all of whose kids have been judged, and which gets this number; or its fault. The store may grow in names and types.
pub(crate) fn turn(
    env: &Env<'_>,
    s: &mut TypeStore,
    node: &Tree,
    kids: TypedKids,
    role: Role,
    number: u32,
) -> Result<Typed, Stop<Fault>>
    requires part { IsPart node.now }
    requires defs { AreDefsDefined s.old env.now.decls.now }
    requires kids { (n : ℕ) × AreAllJudged (program_of env.now) s.old node.now n kids }
    ensures ok { IfOk result (IsTurn (program_of env.now) s.new (role_in role) (head node.now) kids number) }
    ensures err { IfErr result (IsTurnedBack (program_of env.now) s.new (role_in role) (head node.now) kids) }
    ensures grown { IsGrown s.old s.new }
{
    let ty = find(env, s, node, &kids, role)?;
    let meaning = own_meaning(env.names, node);
    let value = named(env, node, meaning)?;
    let found = found(number, &ty, meaning, value);
    let tree = typed(env.alloc, node, found, kids)?;
    Ok(tree)
}
