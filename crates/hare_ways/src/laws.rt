//! What holds of ways.

ghost use Rattle.hare_ways.specs.Ways.{TreesHaveWays, FilesHaveWays};

/// Each token of a tree has one way, and so have each token of a file and its end.
pub fn law_each_token_has_a_way()
    ensures trees { TreesHaveWays }
    ensures files { FilesHaveWays }
{}
