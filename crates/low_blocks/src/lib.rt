//! Programs of the class that compiles today as flat code.
//!
//! [`lower`] makes a flat program of a program: one function `main`, and a global for each string.
//!
//! `specs/Agreement.antt` says what it means that both do the same, and `specs/Shape.antt` what shape the flat program has and what it
//! costs the stack. Which program it is, is in `specs/Programs.antt`, and no public clause says it.
#![tactic(auto)]

mod condition;
mod draft;
mod expr;
mod last;
mod program;
mod statement;
mod text;

pub use program::lower;
