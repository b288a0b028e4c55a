//! What holds of the commas that a layout adds.

ghost use Rattle.hare_commas.specs.Commas.{CommasStandInTrees, WaysAskAtMarks};

/// A file whose commas are added has a tree in which they stand: the same but for them, which its tokens spell with those commas among
/// them; its tokens have the same ways, and no comma is added any more.
pub fn law_commas_stand_in_trees()
    ensures { CommasStandInTrees }
{}

/// No blank is left out but beside a mark that is no slash, and no comma is added but in front of such a mark.
pub fn law_ways_ask_at_marks()
    ensures { WaysAskAtMarks }
{}
