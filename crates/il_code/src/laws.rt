//! What holds of every text, of the rules that a module breaks, and of every run of the machine, of any module and from any point on.

ghost use Rattle.il_code.specs.FaultLaws.{FirstFaultIsOne};
ghost use Rattle.il_code.specs.MachineLaws.{EndsStay, OutputGrows, DoneIsKept, InputIsTaken, BudgetsAreReached};
ghost use Rattle.il_code.specs.MarkLaws.{MarksAreTheRules, FaultsAreTheRules};
ghost use Rattle.il_code.specs.TextLaws.{TextsSpellOne, PrintIsInjective};

/// A text spells at most one module, whether it is valid or not.
pub fn law_text()
    ensures { TextsSpellOne }
{}

/// Two valid modules that are printed alike are the same.
pub fn law_print()
    ensures { PrintIsInjective }
{}

/// An end other than Spent is the end at every greater budget, with the same state.
pub fn law_ends()
    ensures { EndsStay }
{}

/// The output with a budget is the front of that with every greater one.
pub fn law_output()
    ensures { OutputGrows }
{}

/// The jumps and the calls that were done are kept in their order, so that their counts never fall, and there are at most as many as units.
pub fn law_counts()
    ensures { DoneIsKept }
{}

/// The input left is a rest of the input, and a run depends on its input only by what it took and by whether it met the end.
pub fn law_input()
    ensures { InputIsTaken }
{}

/// A budget is reached exactly, and a run that stopped goes on as if it had not.
pub fn law_budget()
    ensures { BudgetsAreReached }
{}

/// A module keeps the rules exactly where no token of its text is marked with one, a function `$main` is there, and the numbers are in
/// their ranges.
pub fn law_marks()
    ensures { MarksAreTheRules }
{}

/// A text of a module is valid exactly where no rule is broken at one of its places, no `$main` is missing at its end, and the numbers are
/// in their ranges.
pub fn law_faults()
    ensures { FaultsAreTheRules }
{}

/// A text has at most one first fault: its number, its line and its column are determined.
pub fn law_first_fault()
    ensures { FirstFaultIsOne }
{}
