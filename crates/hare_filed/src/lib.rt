//! What the files of a program and their names say of its declarations: their shape, their places, their names and their texts.
#![tactic(auto)]

mod laws;

pub use laws::law_programs_are_filed;
