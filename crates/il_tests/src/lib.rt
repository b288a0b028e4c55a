//! Tests of the crates of the intermediate language, of flat code and of what these stand on, through their public calls.
//!
//! They stand here, and not in those crates, since a crate with tests is proved twice: once by itself, and once with them.
#![tactic(auto)]

#[cfg(test)]
mod base;
#[cfg(test)]
mod decoder;
#[cfg(test)]
mod emitter;
#[cfg(test)]
mod flat;
#[cfg(test)]
mod flat_rules;
#[cfg(test)]
mod lowering;
#[cfg(test)]
mod memory;
#[cfg(test)]
mod objects;
#[cfg(test)]
mod reader;
#[cfg(test)]
mod texts;
