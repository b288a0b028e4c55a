//! The step in which the types that are written in a declaration are judged.

ghost use Rattle.std.specs.Prelude.{◌≡◌, ◌+◌, true, Some, slice_get, OnOk, IfErr};
ghost use Rattle.hare_steps.specs.declared.step.Step.TheVariants as st;
ghost use Rattle.hare_steps.specs.Plans.{listing};
ghost use Rattle.hare_turns.specs.Ends.{IsDeclarationStop};
ghost use Rattle.hare_declarations.specs.Standing.{IsStanding, IsPlanned, IsNew, StaysDeclared, steps_before};

use crate::laws::laws;
use crate::parts::Parts;
use crate::slots::put_slot;
use crate::state::State;
use hare_known::know_types;
use hare_names::Names;
use hare_signatures::judge_types;
use hare_steps::{Plan, declaration_at};
use hare_tree::{Fault, FileTree, Stop};
use hare_types::TypeStore;
use hx_base::Items;
use std::alloc::Global;

/// Whether nothing is known of a declaration, and nothing of it has been judged.
fn is_new(state: &State, own: u32) -> bool
    ensures { result ≡ true → IsNew state.now own }
{
    match state.slots.get(own as usize) {
        Some(None) => state.known.find(own).is_none(),
        _ => false,
    }
}

/// Judges the written types of declaration `own`, which is what the step at this place of the plan asks for.
pub(crate) fn pass_types(
    alloc: Global,
    s: &mut TypeStore,
    state: &mut State,
    names: &Names,
    files: &Items<FileTree>,
    plan: &Plan,
    place: usize,
    own: u32,
) -> Result<(), Stop<Fault>>
    requires planned { IsPlanned names.now files.now plan.now }
    requires step { slice_get plan.now.steps.items place ≡ Some (st.Types own) }
    requires standing { IsStanding (listing names.now files.now) s.old state.old (steps_before plan.now place) }
    ensures ok { OnOk result (IsStanding (listing names.now files.now) s.new state.new (steps_before plan.now (place + 1))) }
    ensures err { IfErr result (IsDeclarationStop (listing names.now files.now) s.new) }
    ensures stays { StaysDeclared (listing names.now files.now) s.old s.new }
{
    laws();
    let Some(decl) = declaration_at(files, plan.places.as_slice(), own) else {
        return Err(Stop::Memory);
    };
    if !is_new(state, own) {
        return Err(Stop::Memory);
    }
    let types = judge_types(
        alloc,
        s,
        names,
        &state.known,
        files,
        plan.places.as_slice(),
        own,
        decl,
    )?;
    know_types(alloc, s, &mut state.known, own, decl, &types)?;
    state.waits.enter(s, own, &types)?;
    put_slot(&mut state.slots, own, Parts { types, value: None });
    Ok(())
}
