//! The checker of bodies.

ghost use Rattle.std.specs.Prelude.{◌≡◌, ℕ, [], ◌∷◌, Some, IsTrue, length, slice_get, IfOk, IfErr};
ghost use Rattle.hare_tree.specs.declared.kind.Kind.{Kind};
ghost use Rattle.hare_tree.specs.Shape.{is_shaped};
ghost use Rattle.hare_above.specs.Ready.{IsKnown};
ghost use Rattle.hare_rules.specs.Finished.{expression};
ghost use Rattle.hare_types.specs.Sound.{IsStore};
ghost use Rattle.hare_types.specs.Store.{Store};
ghost use Rattle.hare_walk.specs.Grown.{IsGrown};
ghost use Rattle.hare_walk.specs.Spots.{spot};
ghost use Rattle.rule_judge.specs.Defined.{IsDefined};
ghost use Rattle.hare_whole.specs.Declared as whole;
ghost use Rattle.hare_check.specs.Answers.{IsTreeOfBody, IsStopOfBody};
ghost use Rattle.hare_check.specs.Nodes.{Walks};
ghost use Rattle.hare_check.specs.Walking.{AreKnownDecls};

use crate::beginnings::{Beginning, before_body};
use crate::walker::Walker;
use hare_above::{Role, Standing};
use hare_flow::Seen;
use hare_names::Names;
use hare_rules::{DeclType, Hint};
use hare_tree::{Fault, Kind, Stop, Tree};
use hare_typed::Typed;
use hare_types::TypeStore;
use hare_walk::check_by;
use hx_base::Items;
use rule_judge::DeclTypes;
use std::alloc::{AllocError, Global};

/// What is known of a program while a body is judged.
#[derive(Clone, Copy)]
pub struct Env<'a> {
    /// What its paths mean.
    pub names: &'a Names,
    /// What is known of its declarations.
    pub decls: &'a DeclTypes,
    /// The number of the declaration whose body it is.
    pub own: u32,
}

/// A walk over the body of this function, of which nothing has been done.
fn walker_over<'a>(
    alloc: Global,
    env: &Env<'a>,
    d: &DeclType,
    body: &Tree,
    first: u32,
) -> Result<Walker<'a>, AllocError>
    requires { first ≡ length d.now.params }
    ensures names { IfOk result (λ w. w.names.now ≡ env.now.names.now) }
    ensures decls { IfOk result (λ w. w.decls.now ≡ env.now.decls.now) }
    ensures above { IfOk result (λ w. w.standing.above ≡ whole.over_body env.now.own d.now.ty (length d.now.params)) }
    ensures outer { IfOk result (λ w. w.standing.outer ≡ []) }
    ensures seen { IfOk result (λ w. w.seen ≡ whole.before_body d.now.params body.now) }
    ensures walks { IfOk result (λ w. (s : Store) → IsKnown s env.now.decls.now → AreKnownDecls s env.now.decls.now → IsDefined s d.now.ty →
        ((i t : ℕ) → slice_get d.now.params i ≡ Some t → IsDefined s t) → (k : Kind) → Walks s (spot k 0 ∷ []) w) }
{
    let Beginning { bindings, told } = before_body(alloc, d, body)?;
    let mut begun = Items::new(alloc);
    begun.push(0)?;
    Ok(Walker {
        alloc,
        names: env.names,
        decls: env.decls,
        standing: Standing::new(
            alloc,
            env.own,
            d.ty,
            true,
            Role::Ordinary,
            Hint::Of(d.ty),
            first,
        ),
        seen: Seen::new(alloc, bindings),
        told,
        begun,
    })
}

/// The one typed tree of the body of a function, by the typing rules, or exactly its first fault: that of the first row that fails at the
/// first node, in check order, that fails. The store may grow in names and types, also where there is a fault, and the answer holds in each
/// later store.
///
/// The conditions are that the body is a shaped expression, that the store defines `rt::nomem`, that each declared type that is known is
/// defined, and that all other types that are told mention no name that is not defined. A path that means nothing known, a declaration that
/// is not told or is no function, and a body of more than 2^32 - 1 nodes or bindings are answered as want of memory; so is a value of a
/// case whose constant `hare_const::constant` does not work out, or which stands in declaration 2^32 - 1. The call goes as deep in the host
/// as the body is.
pub fn check_body(
    alloc: Global,
    s: &mut TypeStore,
    env: &Env<'_>,
    body: &Tree,
) -> Result<Typed, Stop<Fault>>
    requires shaped { IsTrue (is_shaped expression body.now) }
    requires known { IsKnown s.old env.now.decls.now }
    requires decls { AreKnownDecls s.old env.now.decls.now }
    ensures ok { IfOk result (IsTreeOfBody env.now s.new body.now) }
    ensures err { IfErr result (IsStopOfBody env.now s.new body.now) }
    ensures grown { IsGrown s.old s.new }
    ensures sound { IsStore s.new }
{
    let _law = s.declarations();
    let Some(d) = env.decls.find(env.own) else {
        return Err(Stop::Memory);
    };
    if d.kind != Kind::Fn {
        return Err(Stop::Memory);
    }
    let Ok(first) = u32::try_from(d.params.len()) else {
        return Err(Stop::Memory);
    };
    let mut w = walker_over(alloc, env, d, body, first)?;
    check_by(alloc, s, &mut w, body, first)
}
