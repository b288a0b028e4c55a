//! What a run of the grammar's machine over tokens says of them: which tree they have, and where they are no tree.
#![tactic(auto)]

mod laws;

pub use laws::{
    law_first_fault, law_first_fault_of_files, law_joined_tokens, law_reading, law_syntax_fault,
    law_syntax_fault_of_files, law_used_tokens, law_whole_files,
};
