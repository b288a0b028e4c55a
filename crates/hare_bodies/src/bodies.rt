//! The bodies of all functions.

ghost use Rattle.std.specs.Prelude.{◌≡◌, ℕ, true, Contains, IfOk, IfErr};
ghost use Rattle.hare_tree.specs.declared.form.Sort.TheVariants as sorts;
ghost use Rattle.hare_tree.specs.Node.{Node};
ghost use Rattle.hare_tree.specs.Shape.{is_shaped};
ghost use Rattle.hare_types.specs.Sound.{IsStore};
ghost use Rattle.hare_saids.specs.Saids.{decls};
ghost use Rattle.hare_steps.specs.Plans.{listing, ArePlaces};
ghost use Rattle.hare_turns.specs.Ends.{AreBodies, IsBodyStop};
ghost use Rattle.hare_walk.specs.Grown.{IsGrown};
ghost use Rattle.hare_bodies.specs.Functions.{CanJudge};
ghost use Rattle.hare_defined.specs.Known.{AreDefined};

use crate::function::judge_function;
use hare_defined::Defined;
use hare_names::Names;
use hare_ready::{are_ready, is_named};
use hare_steps::{DeclPlace, declaration_at};
use hare_tree::{Fault, FileTree, Kind, Stop};
use hare_typed::Typed;
use hare_types::TypeStore;
use hx_base::Items;
use rule_judge::DeclTypes;
use std::alloc::{AllocError, Global};

/// The number of the type of `rt` that says that memory was refused.
const NOMEM: u32 = 4_294_967_295;

/// Whether bodies can be judged by what is known of declarations: all types that are told mention only names that are defined.
fn can_judge(alloc: Global, s: &TypeStore, known: &DeclTypes) -> Result<bool, AllocError>
    ensures { IfOk result (λ b. b ≡ true → CanJudge s.now known.now) }
{
    let mut defined = Defined::new(alloc);
    if !is_named(s, &mut defined, NOMEM)? {
        return Ok(false);
    }
    are_ready(s, &mut defined, known)
}

/// The typed bodies of all functions of these files, in the order of files and source, where this is known of all declarations; or the
/// first fault of the first function whose body has one, by the typing rules. The store may grow in names and types, also where there is a
/// fault, and the answer holds in each later store.
///
/// Each declaration is shaped, and `places` are those of the declarations of these files. Where a type that is told mentions a name that is
/// not defined, the answer is want of memory; so it is where `hare_check::check_body` says so.
pub fn judge_bodies(
    alloc: Global,
    s: &mut TypeStore,
    names: &Names,
    files: &Items<FileTree>,
    places: &[DeclPlace],
    known: &DeclTypes,
) -> Result<Items<Typed>, Stop<Fault>>
    requires places { ArePlaces files.now places.now }
    requires shaped { (t : Node) → Contains (decls files.now) t → is_shaped sorts.Decl t ≡ true }
    ensures ok { IfOk result (AreBodies (listing names.now files.now) known.now s.new 0 (decls files.now)) }
    ensures err { IfErr result (IsBodyStop (listing names.now files.now) known.now s.new) }
    ensures grown { IsGrown s.old s.new }
    ensures sound { IsStore s.new }
{
    let _law = s.declarations();
    if !can_judge(alloc, s, known)? {
        return Err(Stop::Memory);
    }
    let mut bodies = Items::new(alloc);
    for i in 0..places.len() {
        let Ok(number) = u32::try_from(i) else {
            return Err(Stop::Memory);
        };
        let Some(decl) = declaration_at(files, places, number) else {
            return Err(Stop::Memory);
        };
        if decl.kind == Kind::Fn {
            let body = judge_function(alloc, s, names, known, number, decl)?;
            bodies.push(body)?;
        }
    }
    Ok(bodies)
}
