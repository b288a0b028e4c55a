//! The finished tree of a declaration, put together from its typed parts.
#![tactic(auto)]

mod bindings;
mod counts;
mod finish;
mod functions;
mod nodes;
mod params;
mod types;
mod unnumbered;
mod values;

pub use finish::finish_declaration;
