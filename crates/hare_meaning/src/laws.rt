//! Laws of evaluation.

ghost use Rattle.hare_typed.specs.Scalars.{CellsSpell};
ghost use Rattle.hare_meaning.specs.Laws.{TurnsKeepOutcomes, TurnsExtendOutput};

/// An outcome other than Spent at some number of turns is the outcome at every greater one, with the same state.
#[tactic(auto, using(crate::proofs::Turns::turns_keep))]
pub fn law_turns()
    ensures { TurnsKeepOutcomes }
{}

/// The output at some number of turns is a front of that at every greater one.
#[tactic(auto, using(crate::proofs::Turns::turns_extend))]
pub fn law_output()
    ensures { TurnsExtendOutput }
{}

/// The cells of a scalar spell it and no other at its shape, and no other cells spell it.
pub fn law_cells()
    ensures { CellsSpell }
{
    hare_typed::law_cells_spell();
}
