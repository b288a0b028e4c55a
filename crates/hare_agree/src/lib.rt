//! Trees are judged by what is known of the declarations that they name, and by nothing else that is known of declarations.
#![tactic(auto)]

mod laws;

pub use laws::{law_settings_agree, law_values_are_enough};
