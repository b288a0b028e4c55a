//! All steps together: the first fault, or that all declarations have been judged; and the first fault of bodies.

ghost use Rattle.hare_turns.specs.Course.{StagesEnd, StepsGoTogether, StepsStop};
ghost use Rattle.hare_turns.specs.Ends.{BodiesStop};
ghost use Rattle.hare_turns.specs.Judged.{EndsAreJudged};

use crate::stages::{law_ends_are_seen, law_stages_stay};
use hare_seen::law_bytes_follow_definitions;
use hare_types::{law_ids_mean_trees, law_types_stay};

/// Steps that have been passed go together, whatever store the checking ends with.
pub fn law_steps_go_together()
    ensures { StepsGoTogether }
{}

/// The fault of the step behind those that have been passed is the first of declarations.
pub fn law_steps_stop()
    ensures { StepsStop }
{}

/// Where all steps have been passed, all declarations have been judged.
pub fn law_stages_end()
    ensures { StagesEnd }
{}

/// Once all have been judged, each declaration is well typed over each store with which the checking may end, and no other name is
/// defined there.
pub fn law_ends_are_judged()
    ensures { EndsAreJudged }
{
    law_ids_mean_trees();
    law_types_stay();
    law_bytes_follow_definitions();
}

/// Where all declarations have been judged, the first fault of a body is that of the phase of bodies.
pub fn law_bodies_stop()
    ensures { BodiesStop }
{
    law_stages_stay();
    law_ends_are_seen();
}
