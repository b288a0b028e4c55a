//! What is known of declarations, from one stage to the next.

ghost use Rattle.hare_turns.specs.Known.{KnownBegins, StagesAreKnown};

/// Before any declaration has been judged, nothing is known of any.
pub fn law_known_begins()
    ensures { KnownBegins }
{}

/// What is known of each declaration that has been judged is what its types or its value say of it, from one stage to the next.
pub fn law_stages_are_known()
    ensures { StagesAreKnown }
{}
