//! What is found of parts that stand round written types.

ghost use Rattle.std.specs.Prelude.{◌≡◌, ℕ, true, IfOk, IfErr};
ghost use Rattle.hare_tree.specs.declared.stop.Stop.TheVariants.{Memory};
ghost use Rattle.hare_tree.specs.Node.{head};
ghost use Rattle.hare_types.specs.Store.{Store};
ghost use Rattle.hare_typed.specs.Order.{tree_from_front};
ghost use Rattle.hare_typed.specs.Typed.{Mark, marked, typed_nodes};
ghost use Rattle.hare_rules.specs.Context.{own_type};
ghost use Rattle.hare_walk.specs.Grown.{IsGrown};
ghost use Rattle.hare_walk.specs.Walks.{Each};
ghost use Rattle.rule_types.specs.Known.{IsKnownTy, IsBasedTy, IsKnownPart, AreKnownParts};
ghost use Rattle.hare_written.specs.Judged.{AreAllJudged};
ghost use Rattle.hare_written.specs.Nodes.{is_around, nodes_in, StandsIn};
ghost use Rattle.hare_written.specs.Program.{program_of};
ghost use Rattle.hare_written.specs.Roles.{role_in};
ghost use Rattle.hare_written.specs.Turns.{IsTypeFound};
ghost use Rattle.hare_written.specs.declared.roles.Role.TheVariants as roles;

use crate::env::Env;
use crate::kinds::is_type;
use hare_find::find_plain;
use hare_tree::{Fault, Kind, Stop, Tree};
use hare_typed::TypedKids;
use hare_types::{Ty, TypeStore};

/// Whether the first kid is a written type.
fn holds_type(kids: &TypedKids) -> bool
    ensures { result ≡ true → (s : Store) → AreKnownParts s kids.now → IsKnownTy s (own_type (tree_from_front 0 kids.now)) }
{
    match kids.get(0) {
        Some(kid) => is_type(kid.kind),
        None => false,
    }
}

/// Whether the first kid has a type whose base is known.
fn holds_based(s: &TypeStore, kids: &TypedKids) -> bool
    requires { Each (StandsIn s.now) (nodes_in kids.now) }
    ensures { result ≡ true → IsBasedTy s.now (own_type (tree_from_front 0 kids.now)) }
{
    match kids.get(0) {
        Some(kid) => match kid.ty {
            Ty::Of(u) => s.base(u).is_some(),
            Ty::Iconst(_) | Ty::Null | Ty::Empty => false,
        },
        None => false,
    }
}

/// Whether what a part round written types holds is known: the type of a field, and the base of a type that is spread.
fn is_known(s: &TypeStore, node: &Tree, kids: &TypedKids) -> bool
    requires stand { Each (StandsIn s.now) (nodes_in kids.now) }
    requires known { AreKnownParts s.now kids.now }
    ensures { result ≡ true → is_around (head node.now).kind ≡ true → (m : Mark) →
        IsKnownPart s.now (marked (head node.now) m (typed_nodes kids.now)) }
{
    match node.kind {
        Kind::StructField => holds_type(kids),
        Kind::Spread => holds_based(s, kids),
        _ => true,
    }
}

/// What is found of a part that stands round written types, or in the place of one: it is void. The store may grow in types.
///
/// A type that is spread and has no base yet is answered as want of memory, since declarations come behind those whose members they spread.
pub(crate) fn find_around(
    env: &Env<'_>,
    s: &mut TypeStore,
    node: &Tree,
    kids: &TypedKids,
) -> Result<Ty, Stop<Fault>>
    requires kind { is_around (head node.now).kind ≡ true }
    requires kids { (n : ℕ) × AreAllJudged (program_of env.now) s.old node.now n kids.now }
    ensures ok { IfOk result (IsTypeFound (program_of env.now) s.new (role_in roles.Ordinary) (head node.now) kids.now) }
    ensures known { IfOk result (λ b. (m : Mark) → IsKnownPart s.new (marked (head node.now) m (typed_nodes kids.now))) }
    ensures memory { IfErr result (λ e. e ≡ Memory) }
    ensures grown { IsGrown s.old s.new }
{
    let _law = s.declarations();
    if !is_known(s, node, kids) {
        return Err(Stop::Memory);
    }
    let found = find_plain(env.alloc, s, node, kids)?;
    Ok(found.ty)
}
