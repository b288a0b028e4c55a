//! What holds of values and of what is done with them.

ghost use Rattle.hare_typed.specs.Scalars.{CellsSpell};
ghost use Rattle.hare_typed.specs.Alike.{LooksWherePointed};
ghost use Rattle.hare_typed.specs.Quiet.{ConstantsAreQuiet, ConstantsLookAtStatics};

/// The cells of a scalar spell it and no other at its shape, and no other cells spell it.
#[tactic(auto, using(crate::proofs::ScalarLemmas::cells_spell))]
pub fn law_cells_spell()
    ensures { CellsSpell }
{}

/// An operation that follows a pointer looks at the object that this names: over two lists of objects that are alike there it gives the
/// same.
#[tactic(auto, using(crate::proofs::AlikeLemmas::looks_where_pointed))]
pub fn law_looks_where_pointed()
    ensures { LooksWherePointed }
{}

/// What a constant comes to rests on no number of turns, and its evaluation leaves all as it was but for ticks and new objects.
#[tactic(auto, using(crate::proofs::Quiet::Runs::constants_are_quiet))]
pub fn law_constants_are_quiet()
    ensures { ConstantsAreQuiet }
{}

/// The value of a tree that is constant rests on no object but static ones: in two states in which these are the same, its evaluation ends
/// alike, makes the same objects and adds as many ticks.
#[tactic(auto, using(crate::proofs::Steady::Trees::constants_look_at_statics))]
pub fn law_constants_look_at_statics()
    ensures { ConstantsLookAtStatics }
{}
