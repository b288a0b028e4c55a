//! What holds of every written type of which a judge is told.

ghost use Rattle.rule_types.specs.Enough.{TypesAreTold};

/// A judge that is told of a written type finds the row, the fault and the type that the node has with all that is known of it.
pub fn law_types_are_told()
    ensures { TypesAreTold }
{}
