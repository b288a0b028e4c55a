//! Written types of a declaration, one behind another.

ghost use Rattle.hare_turns.specs.Types.{TypesAreJudged, TypesBegin};

use hare_seen::law_bytes_follow_definitions;
use hare_types::law_types_stay;

/// Before the first of its written types has been judged, none of a declaration has.
pub fn law_types_begin()
    ensures { TypesBegin }
{}

/// Written types are judged one behind another: all of them are those of the declaration, and the fault of the next is that of all.
pub fn law_types_are_judged()
    ensures { TypesAreJudged }
{
    law_types_stay();
    law_bytes_follow_definitions();
}
