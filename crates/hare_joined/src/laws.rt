//! What holds of finished declarations together.

ghost use Rattle.hare_joined.specs.Joined.{FinishedAreTyped};

use hare_agree::law_values_are_enough;
use hare_inference::law_inference_is_exact;
use hare_turns::law_ends_are_judged;

/// Where all declarations of a program have been judged, and all bodies, the finished trees are the declarations of the program, each is
/// well typed among all the others, and each type is defined as its declaration says; with whatever store the checking ends.
pub fn law_finished_are_typed()
    ensures { FinishedAreTyped }
{
    law_ends_are_judged();
    law_values_are_enough();
    law_inference_is_exact();
}
