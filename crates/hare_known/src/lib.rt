//! What is entered of a declaration once it has been judged: what is known of it, and what a type is defined to be.
#![tactic(auto)]

mod define;
mod entries;
mod parts;
mod types;
mod value;

pub use define::define_written;
pub use types::know_types;
pub use value::know_value;
