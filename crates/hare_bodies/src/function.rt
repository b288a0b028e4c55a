//! The body of one function.

ghost use Rattle.std.specs.Prelude.{◌≡◌, true, IfOk, IfErr};
ghost use Rattle.hare_tree.specs.declared.form.Sort.TheVariants as sorts;
ghost use Rattle.hare_tree.specs.declared.kind.Kind.TheVariants as ki;
ghost use Rattle.hare_tree.specs.Node.{head};
ghost use Rattle.hare_tree.specs.Shape.{is_shaped};
ghost use Rattle.hare_types.specs.Sound.{IsStore};
ghost use Rattle.hare_walk.specs.Grown.{IsGrown};
ghost use Rattle.hare_above.specs.Ready.{IsKnown};
ghost use Rattle.hare_check.specs.Walking.{AreKnownDecls};
ghost use Rattle.hare_bodies.specs.Functions.{IsTreeOf, IsStopOf};

use hare_check::{Env, check_body};
use hare_names::Names;
use hare_tree::{Fault, Stop, Tree};
use hare_typed::Typed;
use hare_types::TypeStore;
use rule_judge::DeclTypes;
use std::alloc::Global;

/// The typed body of the function with this number, whose declaration this is, or its first fault.
pub(crate) fn judge_function(
    alloc: Global,
    s: &mut TypeStore,
    names: &Names,
    known: &DeclTypes,
    number: u32,
    decl: &Tree,
) -> Result<Typed, Stop<Fault>>
    requires kind { (head decl.now).kind ≡ ki.Fn }
    requires shaped { is_shaped sorts.Decl decl.now ≡ true }
    requires known { IsKnown s.old known.now }
    requires decls { AreKnownDecls s.old known.now }
    ensures ok { IfOk result (IsTreeOf names.now known.now s.new number decl.now) }
    ensures err { IfErr result (IsStopOf names.now known.now s.new number decl.now) }
    ensures grown { IsGrown s.old s.new }
    ensures sound { IsStore s.new }
{
    let _law = s.declarations();
    let Some(body) = decl.kids.get(4) else {
        return Err(Stop::Memory);
    };
    let env = Env {
        names,
        decls: known,
        own: number,
    };
    check_body(alloc, s, &env, body)
}
