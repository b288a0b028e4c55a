//! The laws by which the judging of declarations goes on and ends.

ghost use Rattle.hare_declarations.specs.Laws.{AreLaws};

use hare_seen::law_bytes_follow_definitions;
use hare_turns::{
    law_done_goes_on, law_done_stops, law_known_begins, law_stages_are_known, law_stages_begin,
    law_stages_end, law_stages_stay, law_steps_go_together, law_steps_stop, law_types_go_on,
    law_types_stop, law_value_goes_on, law_value_stops,
};
use hare_waits::law_waits_stay;

/// The laws of stages, of what waits, and of what is known of the bytes of types.
pub(crate) fn laws()
    ensures { AreLaws }
{
    law_stages_begin();
    law_known_begins();
    law_stages_stay();
    law_stages_are_known();
    law_types_go_on();
    law_types_stop();
    law_value_goes_on();
    law_value_stops();
    law_done_goes_on();
    law_done_stops();
    law_steps_go_together();
    law_steps_stop();
    law_stages_end();
    law_waits_stay();
    law_bytes_follow_definitions();
}
