//! Whole programs: from the paths and bytes of files to the checked program, or the first fault.
#![tactic(auto)]

mod checked;
mod finished;
mod laws;
mod limits;
mod phases;
mod reversed;

pub use checked::{Checked, program};
pub use laws::{law_faults_meet, law_names_are_one};
