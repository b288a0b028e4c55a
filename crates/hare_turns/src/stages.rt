//! Stages: where they begin, that they stay, and what is seen of a store with which the checking ends.

ghost use Rattle.hare_turns.specs.Course.{StagesBegin};
ghost use Rattle.hare_turns.specs.Judged.{StagesMayEnd};
ghost use Rattle.hare_turns.specs.Laws.{EndsAreSeen, StagesStay};

use hare_seen::{law_bytes_follow_definitions, law_seen_stores_are_stores};
use hare_types::{law_ids_mean_trees, law_types_stay};

/// Where all types are declared and none is defined but `rt::nomem`, judging may begin.
pub fn law_stages_begin()
    ensures { StagesBegin }
{}

/// A stage stays one while the store grows and declares and defines what it did.
pub fn law_stages_stay()
    ensures { StagesStay }
{
    law_types_stay();
    law_bytes_follow_definitions();
}

/// The checking may end with the store of a stage as it is.
pub fn law_stages_may_end()
    ensures { StagesMayEnd }
{}

/// What is seen at a stage of a store with which the checking ends comes behind the store as it is at that stage, and no more is known of
/// the bytes of types.
pub fn law_ends_are_seen()
    ensures { EndsAreSeen }
{
    law_ids_mean_trees();
    law_bytes_follow_definitions();
    law_seen_stores_are_stores();
}
