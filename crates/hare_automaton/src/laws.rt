//! What holds of the grammar, whatever the program.

ghost use Rattle.hare_automaton.specs.OneTree.{SortsHaveOneTree, PlacesDecideTrees, TokensHaveOneTree, FilesHaveOneTree, TokensHaveOneFile};

/// No two trees of one sort, but for places, are spelled by the same tokens; and the tokens of a file are those of at most one tree of a
/// sort, places and all. A sort is what may stand as a kid: an import, a declaration, a statement, an expression, a type, a pattern, or a
/// part of one.
#[tactic(auto, using(crate::proofs::Unambiguous::OneTree::sorts_have_one_tree, crate::proofs::Unambiguous::Places::tokens_have_one_tree))]
pub fn law_one_tree()
    ensures but_for_places { SortsHaveOneTree }
    ensures whole { TokensHaveOneTree }
{}

/// Trees of any sort that are equal but for places are equal where both have the places of the same tokens.
#[tactic(auto, using(crate::proofs::Unambiguous::Places::places_decide))]
pub fn law_places()
    ensures { PlacesDecideTrees }
{}

/// No two trees of files with one number, but for places, are spelled by the same tokens; and the tokens of a file are those of at most one
/// tree of a file, places and all.
#[tactic(auto, using(crate::proofs::Spelled::Files::files_have_one_tree, crate::proofs::Spelled::Files::tokens_have_one_file))]
pub fn law_one_file()
    ensures but_for_places { FilesHaveOneTree }
    ensures whole { TokensHaveOneFile }
{}
