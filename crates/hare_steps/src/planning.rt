//! From what the declarations of a program say to the plan by which they are judged.

ghost use Rattle.std.specs.Prelude.{◌≡◌, ◌<◌, ◌^◌, length, map, IfOk, IfErr, OnOk};
ghost use Rattle.hare_tree.specs.declared.place.Fault as fault;
ghost use Rattle.hare_depends.specs.Circles.{IsCircleFault};
ghost use Rattle.hare_saids.specs.Saids.{decls};
ghost use Rattle.hare_whole.specs.Listing as whole;
ghost use Rattle.hare_whole.specs.Turns.{AreAllSteps};
ghost use Rattle.hare_steps.specs.Plans.{listing, step_of, ArePlaces, StopsAtCircle};

use crate::listed::places;
use crate::planned::Plan;
use crate::turns::steps;
use hare_depends::{first_circle, order};
use hare_names::Names;
use hare_saids::saids;
use hare_tree::{Fault, FileTree, Stop};
use hx_base::Items;
use std::alloc::Global;

/// The plan by which the declarations of these files are judged, where paths mean what `names` says; or the fault of circles: the first
/// declaration in the order of the source that depends on itself has it, E23 or E17.
///
/// There are fewer than 2^32 declarations.
pub fn plan(alloc: Global, names: &Names, files: &Items<FileTree>) -> Result<Plan, Stop<Fault>>
    requires few { length (decls files.now) < 2 ^ 32 }
    ensures steps { IfOk result (λ p. AreAllSteps (listing names.now files.now) (map step_of p.steps.items)) }
    ensures places { IfOk result (λ p. ArePlaces files.now p.places.items) }

    // There is a plan where no declaration depends on itself alone.
    ensures sound { OnOk result ((f : fault.Fault) → ¬ IsCircleFault (whole.saids (listing names.now files.now)) f) }
    ensures err { IfErr result (StopsAtCircle (whole.saids (listing names.now files.now))) }
{
    let saids = saids(alloc, files, names)?;
    if let Some(fault) = first_circle(alloc, &saids)? {
        return Err(Stop::Fault(fault));
    }
    let order = order(alloc, &saids)?;
    Ok(Plan {
        steps: steps(alloc, &saids, &order)?,
        places: places(alloc, files)?,
    })
}
