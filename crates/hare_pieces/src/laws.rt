//! What holds of pieces.

ghost use Rattle.hare_pieces.specs.Pieces.{OneListOfPieces};

/// A text has one list of pieces.
pub fn law_one_list_of_pieces()
    ensures { OneListOfPieces }
{}
