//! What holds of the evaluation of every program of the class.

ghost use Rattle.hare_blocks.specs.Laws.{MoreTurnsKeepTheEnd, MoreTurnsExtendTheOutput};

/// An end within some turns, other than that they are spent, is the end within every greater number of turns, with the same output.
#[tactic(auto, using(crate::proofs::Turns::more_turns_keep))]
pub fn law_end_is_kept()
    ensures { MoreTurnsKeepTheEnd }
{}

/// What is put out within some turns is the beginning of what is put out within every greater number of turns.
#[tactic(auto, using(crate::proofs::Turns::more_turns_extend))]
pub fn law_output_is_extended()
    ensures { MoreTurnsExtendTheOutput }
{}
