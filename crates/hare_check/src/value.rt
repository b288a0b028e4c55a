//! The checker of values of declarations.

ghost use Rattle.std.specs.Prelude.{◌≡◌, [], ◌∷◌, false, IsTrue, IfOk, IfErr};
ghost use Rattle.hare_tree.specs.declared.kind.Kind.{Kind};
ghost use Rattle.hare_tree.specs.Shape.{is_shaped};
ghost use Rattle.hare_above.specs.Ready.{IsKnown};
ghost use Rattle.hare_above.specs.Stands.{start};
ghost use Rattle.hare_rules.specs.Context as context;
ghost use Rattle.hare_rules.specs.Finished.{expression};
ghost use Rattle.hare_types.specs.Sound.{IsStore};
ghost use Rattle.hare_types.specs.Store.{Store};
ghost use Rattle.hare_walk.specs.Grown.{IsGrown};
ghost use Rattle.hare_walk.specs.Spots.{spot};
ghost use Rattle.rule_judge.specs.Defined.{IsDefined, IsDefinedHint};
ghost use Rattle.hare_whole.specs.Declared as whole;
ghost use Rattle.hare_check.specs.Answers.{IsTreeOfValue, IsStopOfValue};
ghost use Rattle.hare_check.specs.Nodes.{Walks};
ghost use Rattle.hare_check.specs.Walking.{AreKnownDecls};

use crate::beginnings::{Beginning, before_value};
use crate::check::Env;
use crate::walker::Walker;
use hare_above::{Role, Standing};
use hare_flow::Seen;
use hare_rules::Hint;
use hare_tree::{Fault, Stop, Tree};
use hare_typed::Typed;
use hare_types::{Scalar, TypeId, TypeStore};
use hare_walk::check_by;
use hx_base::Items;
use rule_judge::word;
use std::alloc::{AllocError, Global};

/// A walk over this value of a declaration, of which nothing has been done. Nothing is returned from a value: this type stands for what is.
fn walker_over_value<'a>(
    alloc: Global,
    env: &Env<'a>,
    hint: Hint,
    never: TypeId,
    value: &Tree,
) -> Result<Walker<'a>, AllocError>
    ensures names { IfOk result (λ w. w.names.now ≡ env.now.names.now) }
    ensures decls { IfOk result (λ w. w.decls.now ≡ env.now.decls.now) }
    ensures standing { IfOk result (λ w. w.standing ≡ start env.now.own never false context.DeclaredValue hint 0) }
    ensures seen { IfOk result (λ w. w.seen ≡ whole.before_value value.now) }
    ensures walks { IfOk result (λ w. (s : Store) → IsKnown s env.now.decls.now → AreKnownDecls s env.now.decls.now → IsDefined s never →
        IsDefinedHint s hint → (k : Kind) → Walks s (spot k 0 ∷ []) w) }
{
    let Beginning { bindings, told } = before_value(alloc, never, value)?;
    let mut begun = Items::new(alloc);
    begun.push(0)?;
    Ok(Walker {
        alloc,
        names: env.names,
        decls: env.decls,
        standing: Standing::new(alloc, env.own, never, false, Role::DeclaredValue, hint, 0),
        seen: Seen::new(alloc, bindings),
        told,
        begun,
    })
}

/// The one typed tree of the value of a def or a global that is asked for this, by the typing rules, or exactly its first fault: that of
/// the first row that fails at the first node, in check order, that fails. What the value goes to stands in its constant; its own coercion
/// is that of its turn. The store may grow in names and types, also where there is a fault, and the answer holds in each later store.
///
/// The conditions are that the value is a shaped expression, that the store defines `rt::nomem`, that the type that is asked for and each
/// declared type that is known are defined, and that all other types that are told mention no name that is not defined. A path that means
/// nothing known, a value of more than 2^32 - 1 nodes or bindings, a declaration whose number is 2^32 - 1, and a constant that is not
/// worked out are answered as want of memory; `hare_const::constant` says which those are. The call goes as deep in the host as the value
/// is.
pub fn check_value(
    alloc: Global,
    s: &mut TypeStore,
    env: &Env<'_>,
    hint: Hint,
    value: &Tree,
) -> Result<Typed, Stop<Fault>>
    requires shaped { IsTrue (is_shaped expression value.now) }
    requires known { IsKnown s.old env.now.decls.now }
    requires decls { AreKnownDecls s.old env.now.decls.now }
    requires hint { IsDefinedHint s.old hint }
    ensures ok { IfOk result (IsTreeOfValue env.now s.new hint value.now) }
    ensures err { IfErr result (IsStopOfValue env.now s.new hint value.now) }
    ensures grown { IsGrown s.old s.new }
    ensures sound { IsStore s.new }
{
    let _law = s.declarations();
    let entered = word(s, Scalar::Never);
    let _interned = s.declarations();
    let never = entered?;
    let mut w = walker_over_value(alloc, env, hint, never, value)?;
    let judged = check_by(alloc, s, &mut w, value, 0);
    let _sound = s.declarations();
    judged
}
