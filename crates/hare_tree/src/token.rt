//! Tokens: their kinds, the suffixes of numbers, and what a path can mean.

use crate::place::Place;
use crate::word::Word;

/// The kind of a token.
#[derive(Clone, Copy, Debug, PartialEq, Eq)]
pub enum TokenKind {
    /// A name that is no keyword.
    Name,
    /// A keyword.
    Keyword,
    /// A number in one of four bases.
    Number,
    /// A string literal, of either kind.
    Str,
    /// A rune literal.
    RuneLit,
    /// An operator or other mark.
    Mark,
    /// The end of the file, behind its last token.
    End,
}

/// The suffix of a number, which names its type.
#[derive(Clone, Copy, Debug, PartialEq, Eq)]
pub enum Suffix {
    None,
    I8,
    I16,
    I32,
    I64,
    U8,
    U16,
    U32,
    U64,
    I,
    U,
    Z,
}

/// A token.
#[derive(Drop)]
pub struct Token {
    /// The value of a Number, at most 2^127 - 1, or of a RuneLit; else 0.
    pub number: u128,
    /// Its spelling; for Str the decoded bytes; for End nothing.
    pub text: Word,
    /// Where its first byte stands; for End, the place behind the last byte, or that of the fault.
    pub place: Place,
    /// Its kind.
    pub kind: TokenKind,
    /// The suffix of a Number; else None.
    pub suffix: Suffix,
}

/// What a path means.
#[derive(Clone, Copy, Debug, PartialEq, Eq)]
pub enum Meaning {
    /// The local with this number.
    Local(u32),
    /// The declaration with this number.
    Decl(u32),
    /// The function of the runtime module with this number.
    Rt(u32),
    /// Nothing: the node is no path.
    None,
}
