//! What holds of the phases behind names.

ghost use Rattle.hare_sole.specs.Checked.{CheckedOrFaulty, LimitsAreLeft, PhaseFaultsAreOne, TypedTreesAreOne};

use hare_agree::law_values_are_enough;
use hare_depends::law_one_order;
use hare_inference::{
    law_inference_is_exact, law_one_fault as law_one_fault_of_trees, law_one_tree,
    law_tree_or_fault,
};

/// Over one store, declarations that have an order have at most one list of typed trees. Without an order they may have more: each of two
/// defs that name one another has any value that the other has.
pub fn law_typed_trees_are_one()
    ensures { TypedTreesAreOne }
{
    law_inference_is_exact();
    law_one_tree();
    law_values_are_enough();
}

/// Over one store the phases behind names have at most one first fault, and none where none of them finds one. Where all declarations and
/// bodies have been judged, none is left but one of limits.
pub fn law_one_fault_of_phases()
    ensures one { PhaseFaultsAreOne }
    ensures none { CheckedOrFaulty }
    ensures left { LimitsAreLeft }
{
    law_inference_is_exact();
    law_one_tree();
    law_one_fault_of_trees();
    law_tree_or_fault();
    law_values_are_enough();
    law_one_order();
}
