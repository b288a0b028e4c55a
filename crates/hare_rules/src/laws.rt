//! What holds of every table of cases.

ghost use Rattle.hare_rules.specs.CoverLaw.{CountsCover, SwitchIsCovered};

/// Values that all differ are as many as an integer type, bool or rune has just where each value of the type is one of them.
#[tactic(auto, using(crate::proofs::CoverLemmas::counts_cover))]
pub fn law_counts_cover()
    ensures { CountsCover }
{}

/// Where no value stands twice in a `switch`, its row on cover asks just this: a case stands for all others, or each value of the
/// operand's type is listed by one.
#[tactic(auto, using(crate::proofs::SwitchLemmas::switch_is_covered))]
pub fn law_switch_is_covered()
    ensures { SwitchIsCovered }
{}
