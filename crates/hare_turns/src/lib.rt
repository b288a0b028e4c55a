//! The stages through which the judging of declarations goes: how one follows another, and which fault one has that is not passed.
#![tactic(auto)]

mod course;
mod known;
mod stages;
mod steps;
mod written;

pub use course::{
    law_bodies_stop, law_ends_are_judged, law_stages_end, law_steps_go_together, law_steps_stop,
};
pub use known::{law_known_begins, law_stages_are_known};
pub use stages::{law_ends_are_seen, law_stages_begin, law_stages_may_end, law_stages_stay};
pub use steps::{
    law_done_goes_on, law_done_stops, law_types_go_on, law_types_stop, law_value_goes_on,
    law_value_stops,
};
pub use written::{law_types_are_judged, law_types_begin};
