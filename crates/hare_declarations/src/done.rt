//! The step in which a declaration is done: a type is defined then, and types that hold it by value may turn out to be too large.

ghost use Rattle.std.specs.Prelude.{◌≡◌, ◌+◌, Some, slice_get, OnOk, IfErr};
ghost use Rattle.hare_steps.specs.declared.step.Step.TheVariants as st;
ghost use Rattle.hare_steps.specs.Plans.{listing};
ghost use Rattle.hare_turns.specs.Ends.{IsDeclarationStop};
ghost use Rattle.hare_declarations.specs.Standing.{IsStanding, IsPlanned, StaysDeclared, steps_before};

use crate::laws::laws;
use crate::slots::parts_at;
use crate::sorts::is_type;
use crate::state::State;
use hare_known::define_written;
use hare_names::Names;
use hare_steps::{Plan, declaration_at};
use hare_tree::{Fault, FileTree, Stop};
use hare_types::TypeStore;
use hx_base::Items;

/// The number of the fault of a type that is too large.
const TOO_LARGE: u8 = 18;

/// Lets declaration `own` be done, which is what the step at this place of the plan asks for.
pub(crate) fn pass_done(
    s: &mut TypeStore,
    state: &mut State,
    names: &Names,
    files: &Items<FileTree>,
    plan: &Plan,
    place: usize,
    own: u32,
) -> Result<(), Stop<Fault>>
    requires planned { IsPlanned names.now files.now plan.now }
    requires step { slice_get plan.now.steps.items place ≡ Some (st.Done own) }
    requires standing { IsStanding (listing names.now files.now) s.old state.old (steps_before plan.now place) }
    ensures ok { OnOk result (IsStanding (listing names.now files.now) s.new state.new (steps_before plan.now (place + 1))) }
    ensures err { IfErr result (IsDeclarationStop (listing names.now files.now) s.new) }
    ensures stays { StaysDeclared (listing names.now files.now) s.old s.new }
{
    laws();
    let _law = s.declarations();
    let Some(decl) = declaration_at(files, plan.places.as_slice(), own) else {
        return Err(Stop::Memory);
    };
    let Some(parts) = parts_at(state.slots.as_slice(), own) else {
        return Err(Stop::Memory);
    };
    if !is_type(decl) {
        return Ok(());
    }
    define_written(s, own, &parts.types)?;
    match state.waits.done(s, own)? {
        Some(late) => Err(Stop::Fault(Fault {
            number: TOO_LARGE,
            place: late.place,
        })),
        None => Ok(()),
    }
}
