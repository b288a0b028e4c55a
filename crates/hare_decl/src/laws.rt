//! What holds of the tree of a file with these bytes.

ghost use Rattle.hare_decl.specs.Trees.{SourcesFit, SourcesStandOverTokens, SourcesHaveFewNodes, SourcesHaveFewTexts};

/// The tree of a file is in the language. It stands over the tokens of the file: they are all of the file, each stands before those behind
/// it, the tree has its places there, and they are, joined, at least as many as it spells.
pub fn law_trees_of_sources()
    ensures fit { SourcesFit }
    ensures stand { SourcesStandOverTokens }
{}

/// The tree of a file has at most eight nodes for each byte, and eight more, where what stands in the place of a kid that is not there
/// counts as a node. Its strings and messages have together at most as many bytes as the file.
pub fn law_sizes_of_sources()
    ensures nodes { SourcesHaveFewNodes }
    ensures texts { SourcesHaveFewTexts }
{}
