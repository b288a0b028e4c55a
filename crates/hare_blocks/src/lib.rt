//! The class of files that compiles today: programs of variables, branches, loops and output, and what they do.
#![tactic(auto)]

mod cursor;
mod expr;
mod file;
mod laws;
mod lex;
mod limits;
mod names;
mod program;
mod read_condition;
mod read_expr;
mod read_statement;
mod scan;
mod scope;
mod token;
mod tokens;

pub use expr::{Expr, Factor, Sign, SignedTerm, Term};
pub use file::read;
pub use laws::{law_end_is_kept, law_output_is_extended};
pub use program::{Condition, Program, Relation, Statement, Statements};
pub use scope::Scope;
pub use token::Token;
