//! What a judge's answer comes to in a walk.

ghost use Rattle.hare_walk.specs.Verdicts.{VerdictsTurn};

/// Where a judge is told of a node, and the walk has looked at the rest, its verdict is that of the node's turn, and its refusal the node's
/// first fault.
pub fn law_verdicts_turn()
    ensures { VerdictsTurn }
{}
