//! The node of a def or a global: whether it meets its rows, once its type and its value have been judged.
#![tactic(auto)]

mod binding;
mod inconstant;
mod known;
mod node;
mod own;

pub use binding::judge_binding;
