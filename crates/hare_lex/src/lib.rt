//! The lexer of Hare: the tokens of a file, or its first break and the tokens before it.
#![tactic(auto)]

mod bytes;
mod front;
mod gap;
mod law;
mod lexer;
mod literal;
mod number;
mod stop;
mod string;
mod table;

pub use front::{Found, first_token};
pub use gap::{GapPart, gap_part};
pub use law::{text_is_no_longer, tokens_are_few, tokens_are_in_order};
pub use lexer::{is_path_mark, tokens};
pub use stop::LexStop;
