//! What holds of layouts.

ghost use Rattle.hare_lines.specs.Layout.{SourcesHaveOneLayout, GapsStay, GrowingPiecesAreOthers, PlacedAreSeen, LaidAreKept, PiecesAreInOrder};

/// A source has one layout.
pub fn law_one_layout()
    ensures { SourcesHaveOneLayout }
{}

/// A layout keeps the pieces of its source in their order: all that it has besides are the commas that are added.
pub fn law_pieces_are_kept()
    ensures placed { PlacedAreSeen }
    ensures laid { LaidAreKept }
{}

/// The pieces of a text stand in their order, within the text, and none is empty.
pub fn law_pieces_are_in_order()
    ensures { PiecesAreInOrder }
{}

/// A piece that is read from a laid out text, with the line ends that stand there in front of it, has the same gap again behind the same
/// pieces.
pub fn law_gaps_stay()
    ensures { GapsStay }
{}

/// Where a blank is kept for the tokens' sake, between `&` and `&` and before a number behind a `.` that stands behind plain decimal
/// digits, the text without it would have other tokens.
pub fn law_blanks_are_needed()
    ensures { GrowingPiecesAreOthers }
{}
