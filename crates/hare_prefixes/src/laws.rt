//! What holds of runs of the grammar's machine, whatever the tokens.

ghost use Rattle.hare_prefixes.specs.Reading.{RunsReadTrees, RunsReadFiles};
ghost use Rattle.hare_prefixes.specs.Viable.{RunsBreak, RunsAreLongest, RunsGoOn, FileRunsBreak, FileRunsEnd, FileRunsGoOn};
ghost use Rattle.hare_prefixes.specs.Used.{RunsUseTokens};
ghost use Rattle.hare_prefixes.specs.Faults.{AllStand, PlacesStand, RunsFault, RunsFaultInTrees, RunsReadFronts, RunsUseAll, FaultsEndRuns, FileRunsFault, FileRunsAreOver, FileRunsUseAll, FileRunsUseNoEnd};
ghost use Rattle.hare_prefixes.specs.Whole.{WholeRunsMakeFiles, FilesHaveWholeRuns};

/// Where the machine is done with a tree, the tree is shaped, of the sort that was asked for, and spelled by the tokens that were used,
/// whose places it has. For a file these are imports and then declarations.
#[tactic(auto, using(crate::proofs::Soundness::Readings::runs_read_trees, crate::proofs::Soundness::Readings::runs_read_files))]
pub fn law_reading()
    ensures trees { RunsReadTrees }
    ensures files { RunsReadFiles }
{}

/// Where the machine stops at a token, be it stuck there or done with a tree, the tokens before it begin a tree of the sort, and with it
/// they begin none. Where it has used all tokens, they begin a tree.
#[tactic(auto, using(crate::proofs::Outcomes::Breaks::runs_break, crate::proofs::Outcomes::Breaks::runs_are_longest, crate::proofs::Outcomes::Breaks::runs_go_on))]
pub fn law_first_fault()
    ensures breaks { RunsBreak }
    ensures longest { RunsAreLongest }
    ensures goes_on { RunsGoOn }
{}

/// The same of files: the machine is done at the token behind the last declaration, which is End or breaks the file, and nothing stands
/// behind End.
#[tactic(auto, using(crate::proofs::Outcomes::Breaks::file_runs_break, crate::proofs::Outcomes::Breaks::file_runs_end, crate::proofs::Outcomes::Breaks::file_runs_go_on))]
pub fn law_first_fault_of_files()
    ensures breaks { FileRunsBreak }
    ensures ends { FileRunsEnd }
    ensures goes_on { FileRunsGoOn }
{}

/// The run over the tokens of a file, of which strings side by side are one, is done in front of End alone exactly where the tokens are
/// those of a shaped file; and what it has made are this file's imports and declarations, with their places.
#[tactic(auto, using(crate::proofs::Outcomes::Whole::whole_runs_make_files, crate::proofs::Outcomes::Whole::files_have_whole_runs))]
pub fn law_whole_files()
    ensures makes { WholeRunsMakeFiles }
    ensures exists { FilesHaveWholeRuns }
{}

/// Where the run over the tokens of a file, of which strings side by side are one, is done in front of a token, the tree that it has made
/// spells the file's tokens up to there and has their places.
#[tactic(auto, using(crate::proofs::Joining::Used::runs_use_tokens))]
pub fn law_used_tokens()
    ensures { RunsUseTokens }
{}

/// Joined tokens stand in the file: what is left of them where a run has come to stands at a token of the file, whose place it has.
#[tactic(auto, using(crate::proofs::Joining::Places::all_stand, crate::proofs::Joining::Places::places_stand))]
pub fn law_joined_tokens()
    ensures stands { AllStand }
    ensures place { PlacesStand }
{}

/// Where the run over the tokens of a file stops at a token, be it stuck there or done with a tree, the first syntax fault of the file's
/// own tokens is where this token stands, and the tokens before it are the longest front that begins a tree of the sort. They are a tree's
/// tokens exactly where the run is done, which has then made this tree.
#[tactic(auto, using(crate::proofs::FirstFault::Faults::runs_fault, crate::proofs::FirstFault::Faults::runs_fault_in_trees, crate::proofs::FirstFault::Faults::runs_read_fronts, crate::proofs::FirstFault::Faults::runs_use_all, crate::proofs::FirstFault::Faults::faults_end_runs))]
pub fn law_syntax_fault()
    ensures fails { RunsFault }
    ensures no_tree { RunsFaultInTrees }
    ensures reads { RunsReadFronts }
    ensures goes_on { RunsUseAll }
    ensures longest { FaultsEndRuns }
{}

/// The same of files. Where the run is done in front of End, the file is whole with it, and a token behind End is the fault. Where End is
/// among the tokens, the run stops at a token.
#[tactic(auto, using(crate::proofs::FirstFault::FileFaults::file_runs_fault, crate::proofs::FirstFault::FileFaults::file_runs_are_over, crate::proofs::FirstFault::FileFaults::file_runs_use_all, crate::proofs::FirstFault::FileFaults::file_runs_use_no_end))]
pub fn law_syntax_fault_of_files()
    ensures fails { FileRunsFault }
    ensures over { FileRunsAreOver }
    ensures goes_on { FileRunsUseAll }
    ensures stops { FileRunsUseNoEnd }
{}
