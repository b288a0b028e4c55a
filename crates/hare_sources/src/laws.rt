//! What holds of files and of first faults.

ghost use Rattle.hare_sources.specs.Named.{EarlyFaultsAreOne, NamedOrFaulty, TreesAreOne};

/// The files of a program have at most one first fault of files and names, and none where their paths have meanings; and they have at most
/// one list of trees.
pub fn law_one_early_fault()
    ensures one { EarlyFaultsAreOne }
    ensures none { NamedOrFaulty }
    ensures trees { TreesAreOne }
{}
