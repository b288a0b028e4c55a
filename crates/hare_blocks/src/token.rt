//! The tokens of a source file of the class.

use hare_tree::Word;

/// A token: a keyword, a mark, a number with the suffix `z`, a name or a string.
#[derive(Drop)]
pub enum Token {
    Use,
    Export,
    Function,
    Void,
    U8,
    Let,
    If,
    Else,
    For,
    True,
    Semicolon,
    OpenParen,
    CloseParen,
    OpenBrace,
    CloseBrace,
    /// `=`
    Assign,
    Colon,
    /// `::`
    PathSeparator,
    Plus,
    Minus,
    Star,
    Less,
    LessEqual,
    Greater,
    GreaterEqual,
    /// `==`
    Equal,
    /// `!=`
    Differ,
    /// The number's value.
    Number(u64),
    /// A word that is neither a keyword nor left out of the language.
    Name(Word),
    /// The characters between the quotes.
    Text(Word),
}
