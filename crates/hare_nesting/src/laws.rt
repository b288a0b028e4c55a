//! What the gauge of depth says of the tokens of a file.

ghost use Rattle.hare_nesting.specs.Depth.{GaugesTell, FileGaugesTell, GaugedTreesFit, GaugedFilesFit};

/// Each token that the gauge tells, for a sort that has trees, is one at which every tree that goes on with what is read passes a limit on
/// depth, and the least such token of the file is told.
#[tactic(auto, using(crate::proofs::LeastFault::Gauges::gauges_tell))]
pub fn law_depth_faults()
    ensures { GaugesTell }
{}

/// The same of files.
#[tactic(auto, using(crate::proofs::LeastFault::Gauges::file_gauges_tell))]
pub fn law_depth_of_files()
    ensures { FileGaugesTell }
{}

/// A tree that was read while the gauge told nothing keeps both limits, and so do the imports and declarations of a file.
#[tactic(auto, using(crate::proofs::LeastFault::Gauges::gauged_trees_fit, crate::proofs::LeastFault::Gauges::gauged_files_fit))]
pub fn law_shallow_trees()
    ensures trees { GaugedTreesFit }
    ensures files { GaugedFilesFit }
{}
