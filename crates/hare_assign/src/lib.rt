//! Which values may be assigned to which types, and which casts are admitted.
#![tactic(auto)]

mod assign;
mod base;
mod cast;
mod chosen;
mod laws;
mod rows;
mod types;
mod unions;

pub use assign::assignable;
pub use cast::castable;
pub use chosen::{chosen_member, first_choice};
pub use laws::{law_choices_stay, law_firsts_stay, law_verdicts_stay};
