//! The checker of bodies: the one typed tree of a body, or its first fault.
#![tactic(auto)]

mod check;
mod counts;
mod laws;
mod walk;

pub use check::check_by;
pub use counts::At;
pub use laws::law_verdicts_turn;
pub use walk::Walk;
