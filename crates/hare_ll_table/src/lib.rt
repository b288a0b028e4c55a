//! The table of the grammar of Hare as a program, and what both passes over the tokens of a file share: classes of tokens, what is waited
//! for, and strings side by side, which are one token.
#![tactic(auto)]

mod answer;
mod class;
mod row;
mod rows;
mod signs;
mod spare;
mod stack;
mod strings;
mod waits;

pub use answer::Answer;
pub use class::class_of;
pub use row::{Row, RowBuffer, Wait, has_sign, of, part};
pub use rows::row_at;
pub use spare::Spare;
pub use stack::Stack;
pub use strings::{Joined, is_proper_string, place_behind, strings_at};
pub use waits::{next_symbol, push_waits};
