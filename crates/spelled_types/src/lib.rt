//! Types as the lines of tables spell them: the types and names that lines entered, the type that a line spells, and a type as text.
//!
//! The programs that print tables stand on this, so that each proves only what its own lines ask.
#![tactic(auto)]

mod definable;
mod entered;
mod kinds;
mod printed;
mod spelled;

pub use definable::is_definable;
pub use entered::{NOMEM, Table};
pub use kinds::{is_type, scalar, text, word};
pub use printed::{listing, put_type};
pub use spelled::{type_in, type_of};
