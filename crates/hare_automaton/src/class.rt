//! Classes of tokens: what the grammar sees of one.

use hare_tree::Sign;

/// The class of a token.
#[derive(Clone, Copy, Debug, PartialEq, Eq)]
pub enum Class {
    /// A keyword or mark that a form has; some are operators or types too.
    Sign(Sign),
    /// A name.
    Name,
    /// A word that is a name only behind `::`.
    PathWord,
    /// A keyword that is a type, and nothing else.
    Scalar,
    /// `true` or `false`.
    Bool,
    /// A number.
    Number,
    /// A rune literal.
    Rune,
    /// A string.
    Text,
    /// A binary operator that is no sign, with its level.
    Binary(u8),
    /// An operator that assigns, but `=`.
    OpAssign,
    /// A token that no tree is spelled by.
    Junk,
}
