//! What holds of shaped trees.

ghost use Rattle.hare_tree.specs.Size.{ShapedTreesAreSmall, ShapedFilesAreSmall, TextsAreSpelled};

/// A shaped tree has at most eight nodes for each of its tokens, and so has a file. What stands in the place of a kid that is not there
/// counts as a node.
#[tactic(auto, using(crate::proofs::Sizes::Counts::shaped_trees_are_small, crate::proofs::Sizes::Counts::shaped_files_are_small))]
pub fn law_nodes_and_tokens()
    ensures trees { ShapedTreesAreSmall }
    ensures files { ShapedFilesAreSmall }
{}

/// The strings and messages of a shaped file are among its tokens: they have together no more bytes.
#[tactic(auto, using(crate::proofs::Sizes::Texts::texts_are_spelled))]
pub fn law_texts_are_spelled()
    ensures { TextsAreSpelled }
{}
