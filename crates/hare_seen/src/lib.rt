//! Stores of types of whose definitions only some are seen, and written types that turn out to be too large.
#![tactic(auto)]

mod laws;

pub use laws::{law_bytes_follow_definitions, law_seen_stores_are_stores};
