//! What holds of every store.

ghost use Rattle.hare_assign.specs.Growth.{VerdictsStay, ChoicesStay, FirstsStay};

/// What is said of a value and a type over a store is said over each later store: which rows of the table admit, what becomes of the value,
/// and whether it may be cast. It rests on the bases of both, and on those of the members of a union that the type comes to: where one of
/// them is not known yet, since a name is not defined, the verdict may change.
#[tactic(auto, using(crate::proofs::GrowthLemmas::verdicts_stay))]
pub fn law_verdicts_stay()
    ensures { VerdictsStay }
{}

/// Which member a value becomes that is made a union, and by which row of the table it goes to that member, is the same over each later
/// store. It rests on the same bases.
#[tactic(auto, using(crate::proofs::ChoiceLemmas::choices_stay))]
pub fn law_choices_stay()
    ensures { ChoicesStay }
{}

/// The first member of a union to which a value goes, and the row of the table by which it goes there, are the same over each later store.
/// It rests on the same bases.
pub fn law_firsts_stay()
    ensures { FirstsStay }
{}
