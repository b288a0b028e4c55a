//! What holds of all flat code, whatever it does: the names of a program, the memory with which it begins, and what every run of code
//! leaves as it was.
#![tactic(auto)]

mod laws;

pub use laws::{
    law_arguments_stand, law_calls_stay_apart, law_code_counts, law_code_keeps_its_call,
    law_code_keeps_the_heap, law_code_keeps_the_stack, law_functions_are_found, law_globals_stand,
    law_programs_are_laid_out, law_runtime_is_not_taken,
};
