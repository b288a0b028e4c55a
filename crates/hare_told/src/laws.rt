//! What holds of every node of which a judge is told.

ghost use Rattle.hare_told.specs.Enough.{ToldIsEnough};
ghost use Rattle.hare_told.specs.Settled.{VerdictsSettle};

/// A judge that is told of a node finds the row, the fault and the type that the node has with all that is known of it.
pub fn law_told_is_enough()
    ensures { ToldIsEnough }
{}

/// What a verdict lists is what the node settles of its kids and of what was yielded to it.
pub fn law_verdicts_settle()
    ensures { VerdictsSettle }
{}
