//! The step in which the value of a declaration is judged, and then the declaration itself.

ghost use Rattle.std.specs.Prelude.{◌≡◌, ◌+◌, true, Some, slice_get, OnOk, IfErr};
ghost use Rattle.hare_steps.specs.declared.step.Step.TheVariants as st;
ghost use Rattle.hare_steps.specs.Plans.{listing};
ghost use Rattle.hare_turns.specs.Ends.{IsDeclarationStop};
ghost use Rattle.hare_declarations.specs.Standing.{IsStanding, IsPlanned, CanValue, StaysDeclared, steps_before};

use crate::laws::laws;
use crate::parts::Parts;
use crate::slots::{put_slot, take_slot};
use crate::sorts::{is_binding, is_typed_global};
use crate::state::State;
use hare_known::know_value;
use hare_names::Names;
use hare_steps::{Plan, declaration_at};
use hare_tree::{Fault, FileTree, Stop, Tree};
use hare_types::TypeStore;
use hare_values::{Program, judge_value};
use hx_base::Items;
use rule_judge::DeclTypes;
use std::alloc::Global;

/// Whether a declaration has a value by which it can become known: of a def and of a global without a type nothing is known before.
fn can_value(known: &DeclTypes, own: u32, decl: &Tree) -> bool
    ensures { result ≡ true → CanValue known.now own decl.now }
{
    is_binding(decl.kind) && (is_typed_global(decl) || known.find(own).is_none())
}

/// Judges the value of declaration `own`, and then the declaration, which is what the step at this place of the plan asks for.
pub(crate) fn pass_value(
    alloc: Global,
    s: &mut TypeStore,
    state: &mut State,
    names: &Names,
    files: &Items<FileTree>,
    plan: &Plan,
    place: usize,
    own: u32,
) -> Result<(), Stop<Fault>>
    requires planned { IsPlanned names.now files.now plan.now }
    requires step { slice_get plan.now.steps.items place ≡ Some (st.Value own) }
    requires standing { IsStanding (listing names.now files.now) s.old state.old (steps_before plan.now place) }
    ensures ok { OnOk result (IsStanding (listing names.now files.now) s.new state.new (steps_before plan.now (place + 1))) }
    ensures err { IfErr result (IsDeclarationStop (listing names.now files.now) s.new) }
    ensures stays { StaysDeclared (listing names.now files.now) s.old s.new }
{
    laws();
    let Some(decl) = declaration_at(files, plan.places.as_slice(), own) else {
        return Err(Stop::Memory);
    };
    if !can_value(&state.known, own, decl) {
        return Err(Stop::Memory);
    }
    let Some(parts) = take_slot(&mut state.slots, own) else {
        return Err(Stop::Memory);
    };
    let program = Program {
        names,
        files,
        places: plan.places.as_slice(),
        known: &state.known,
    };
    let value = judge_value(
        alloc,
        s,
        &mut state.defined,
        &mut state.ready,
        program,
        own,
        decl,
        &parts.types,
    )?;
    know_value(
        alloc,
        s,
        &mut state.defined,
        &mut state.known,
        own,
        decl,
        &parts.types,
        &value,
    )?;
    let filled = Parts {
        types: parts.types,
        value: Some(value),
    };
    put_slot(&mut state.slots, own, filled);
    Ok(())
}
