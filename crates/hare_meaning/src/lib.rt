//! What programs mean: evaluation bounded by turns, as definitions, and its laws.
#![tactic(auto)]

mod laws;

pub use laws::{law_cells, law_output, law_turns};
