//! The judging of all declarations.

ghost use Rattle.std.specs.Prelude.{◌≡◌, ℕ, ◌+◌, ◌-◌, ◌<◌, ◌^◌, true, length, map, Some, OnOk, IfOk, IfErr, Contains};
ghost use Rattle.hare_tree.specs.declared.form.Sort.TheVariants as sorts;
ghost use Rattle.hare_tree.specs.Node.{Node};
ghost use Rattle.hare_tree.specs.Shape.{is_shaped};
ghost use Rattle.hare_types.specs.Later.{IsLater};
ghost use Rattle.hare_types.specs.Store.{definition_of};
ghost use Rattle.hare_rules.specs.Words.{nomem};
ghost use Rattle.hare_saids.specs.Saids.{decls};
ghost use Rattle.hare_whole.specs.Listing.{IsDeclared, DefinesNomem};
ghost use Rattle.hare_whole.specs.Turns.{AreAllSteps};
ghost use Rattle.hare_steps.specs.Plans.{listing, step_of, ArePlaces};
ghost use Rattle.hare_turns.specs.Ends.{IsDeclarationStop};
ghost use Rattle.hare_declarations.specs.Judged.{IsJudgedAs};
ghost use Rattle.hare_declarations.specs.Standing.{IsStanding, IsPlanned, StaysDeclared, steps_before};

use crate::begin::begin;
use crate::done::pass_done;
use crate::end::end;
use crate::laws::laws;
use crate::parts::Judged;
use crate::state::State;
use crate::types::pass_types;
use crate::value::pass_value;
use hare_names::Names;
use hare_steps::{Plan, Step};
use hare_tree::{Fault, FileTree, Stop};
use hare_types::TypeStore;
use hx_base::Items;
use std::alloc::Global;

/// Takes the step at this place of the plan.
fn pass(
    alloc: Global,
    s: &mut TypeStore,
    state: &mut State,
    names: &Names,
    files: &Items<FileTree>,
    plan: &Plan,
    place: usize,
) -> Result<(), Stop<Fault>>
    requires planned { IsPlanned names.now files.now plan.now }
    requires there { place < length plan.now.steps.items }
    requires standing { IsStanding (listing names.now files.now) s.old state.old (steps_before plan.now place) }
    ensures ok { OnOk result (IsStanding (listing names.now files.now) s.new state.new (steps_before plan.now (place + 1))) }
    ensures err { IfErr result (IsDeclarationStop (listing names.now files.now) s.new) }
    ensures stays { StaysDeclared (listing names.now files.now) s.old s.new }
{
    match plan.steps[place] {
        Step::Types(own) => pass_types(alloc, s, state, names, files, plan, place, own),
        Step::Value(own) => pass_value(alloc, s, state, names, files, plan, place, own),
        Step::Done(own) => pass_done(s, state, names, files, plan, place, own),
    }
}

/// Judges all declarations of a program in the steps of its plan: what is known of each then, and the typed trees of its written types and
/// its value. Or exactly the first fault of declarations. The store defines all types then, and grows in names and types also where there
/// is a fault.
///
/// The conditions are that all declarations are shaped, and fewer than 2^32 - 1; that all types are declared and none is defined yet but
/// `rt::nomem`, which is `!void`; and that the plan is that of these files. What the judges of types, values and declarations answer as
/// want of memory is so here.
pub fn judge_declarations(
    alloc: Global,
    s: &mut TypeStore,
    names: &Names,
    files: &Items<FileTree>,
    plan: &Plan,
) -> Result<Judged, Stop<Fault>>
    requires shaped { (t : Node) → Contains (decls files.now) t → is_shaped sorts.Decl t ≡ true }
    requires few { length (decls files.now) < 2 ^ 32 - 1 }
    requires places { ArePlaces files.now plan.now.places.items }
    requires steps { AreAllSteps (listing names.now files.now) (map step_of plan.now.steps.items) }
    requires declared { IsDeclared s.old (listing names.now files.now) }
    requires nomem { DefinesNomem s.old }
    requires only { (d t : ℕ) → definition_of s.old d ≡ Some t → d ≡ nomem }
    ensures ok { IfOk result (IsJudgedAs (listing names.now files.now) s.new) }
    ensures err { IfErr result (IsDeclarationStop (listing names.now files.now) s.new) }
    ensures declared { IsDeclared s.new (listing names.now files.now) }
    ensures nomem { DefinesNomem s.new }
    ensures later { IsLater s.old s.new }
{
    laws();
    let mut state = begin(alloc, plan.places.len())?;
    for place in 0..plan.steps.len() {
        pass(alloc, s, &mut state, names, files, plan, place)?;
    }
    let judged = end(alloc, state)?;
    Ok(judged)
}
