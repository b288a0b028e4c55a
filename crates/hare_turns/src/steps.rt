//! Steps: which are passed, and lead to the next stage, and which stop with a fault.

ghost use Rattle.hare_turns.specs.Laws.{DoneGoesOn, DoneStops, TypesGoOn, TypesStop, ValueGoesOn, ValueStops};

use crate::stages::law_ends_are_seen;
use hare_agree::law_values_are_enough;
use hare_inference::law_inference_is_exact;
use hare_seen::{law_bytes_follow_definitions, law_seen_stores_are_stores};
use hare_types::{law_ids_mean_trees, law_types_stay};

/// Where the written types of a declaration have been judged, the step is passed, and leads to the next stage.
pub fn law_types_go_on()
    ensures { TypesGoOn }
{
    law_types_stay();
    law_values_are_enough();
    law_ends_are_seen();
}

/// Where they have a fault, it is that of the step.
pub fn law_types_stop()
    ensures { TypesStop }
{
    law_ends_are_seen();
}

/// Where the value of a declaration has been judged and the declaration meets its rows, the step is passed, and leads to the next stage.
pub fn law_value_goes_on()
    ensures { ValueGoesOn }
{
    law_values_are_enough();
    law_ends_are_seen();
}

/// Where the value or the declaration has a fault, it is that of the step.
pub fn law_value_stops()
    ensures { ValueStops }
{
    law_ends_are_seen();
}

/// Where a declaration is done and no type that was judged has turned out to be too large, the step is passed, and leads to the next stage.
pub fn law_done_goes_on()
    ensures { DoneGoesOn }
{
    law_types_stay();
    law_bytes_follow_definitions();
    law_ends_are_seen();
}

/// Where one has, the fault of the first declaration that has one is that of the step.
pub fn law_done_stops()
    ensures { DoneStops }
{
    law_ids_mean_trees();
    law_types_stay();
    law_inference_is_exact();
    law_bytes_follow_definitions();
    law_seen_stores_are_stores();
}
