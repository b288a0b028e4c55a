//! What holds of layouts that are laid out again.

ghost use Rattle.hare_again.specs.Again.{PiecesStay, CommentsStay, LayoutsStay, SourcesStay, GapsAreRead};
ghost use Rattle.hare_again.specs.Reading.{TextsAreRead};
ghost use Rattle.hare_again.specs.Laid.{LayoutsHaveParts, LayoutsAreLaidOut};

/// Pieces that are read of a layout are laid out as before, with the commas that were added among them.
pub fn law_pieces_stay()
    ensures { PiecesStay }
{}

/// The comments that are read of a layout are those of its source, in order, without the blanks and the CR at their ends.
pub fn law_comments_stay()
    ensures { CommentsStay }
{}

/// What is read of the layout of a file is laid out as before, with a tree that is the same but for commas behind last items.
pub fn law_layouts_stay()
    ensures layouts { LayoutsStay }
    ensures sources { SourcesStay }
{}

/// The bytes of a gap are blanks, among them the line ends that are read there; a comment is read again as it stands.
pub fn law_gaps_are_read()
    ensures { GapsAreRead }
{}

/// A text of blanks, comments and tokens, each of which stands in front of all that is behind it, consists of just these pieces, and they
/// are read as they are.
pub fn law_texts_are_read()
    ensures { TextsAreRead }
{}

/// A layout consists of blanks, comments and tokens, each of which stands in front of all that is behind it, and they are read as the
/// pieces of the layout.
pub fn law_layouts_have_parts()
    ensures { LayoutsHaveParts }
{}

/// A layout is the layout of itself. Its tokens are those of its source, with the commas behind last items of lists left out on both sides,
/// and its comments are those of the source, in order, without the blanks and the CR at their ends.
pub fn law_layouts_are_laid_out()
    ensures { LayoutsAreLaidOut }
{}
