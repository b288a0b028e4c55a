//! Tokens and trees of Hare, places and faults: what the front end's crates speak of.
#![tactic(auto)]

mod depth;
mod edge;
mod fit;
mod form;
mod forms;
mod kid;
mod kind;
mod laws;
mod level;
mod name;
mod own;
mod place;
mod shape;
mod short;
mod sign;
mod sort;
mod stop;
mod text;
mod token;
mod tokens;
mod tree;
mod unparse;
mod word;

pub use depth::is_node;
pub use fit::fits;
pub use form::{Lead, Own, Piece, Sign, Sort};
pub use forms::form_of;
pub use kid::kid_sort;
pub use kind::Kind;
pub use laws::{law_nodes_and_tokens, law_texts_are_spelled};
pub use level::{is_operator_of, operator_level};
pub use name::{is_keyword, is_left_out, is_letter, is_listed, is_name, is_word_byte};
pub use place::{Fault, Place};
pub use sign::sign_word;
pub use stop::Stop;
pub use token::{Meaning, Suffix, Token, TokenKind};
pub use tokens::Tokens;
pub use tree::{FileTree, Kids, Tree};
pub use unparse::spell;
pub use word::Word;
