//! What a parser waits for, and what it does with the trees under way.

use hare_tree::{Kind, Own, Sign, Sort};

/// A rule of the grammar: something that tokens can be read as.
#[derive(Clone, Copy, Debug, PartialEq, Eq)]
pub enum Rule {
    /// A tree of the sort.
    Of(Sort),
    /// What a tree's text, number and suffix are spelled by.
    Own(Own),
    /// `[tree]`
    Optional(Sort),
    /// `[sign tree]`
    Led(Sign, Sort),
    /// `{tree}`
    Each(Sort),
    /// `{sign tree}`
    EachLed(Sign, Sort),
    /// `{tree sign}`
    EachFollowed(Sort, Sign),
    /// `[tree {"," tree} [","]]`
    List(Sort),
    /// `{"," tree} [","]`
    More(Sort),
    /// The same behind a comma, at which a tree was begun for the case that the comma is the last.
    BehindComma(Sort),
    /// `[expr {"," expr} ["..."] [","]]`
    Elements,
    /// `{"," expr} ["..."] [","]`
    MoreElements,
    /// The same behind a comma, as in a list.
    BehindElementComma,
    /// `[","]`
    LastComma,
    /// The names of a path behind its first, for a tree of the kind.
    PathRest(Kind),
    /// The same for an expression, which may be a struct literal.
    PathOrStruct,
    /// A name behind `::`.
    PathName,
    /// A type behind `[`.
    InBracket,
    /// A type behind `(`.
    FirstMember,
    /// A tuple or union type behind its first type.
    AfterType,
    /// A union type behind a first member that is a spread.
    AfterSpread,
    /// The operators behind an operand, and what stands behind them: those of these levels.
    Climb(u8, u8),
    /// An expression in parentheses, or a tuple, behind its first value.
    AfterValue,
    /// An index or a slice behind its `[`.
    InIndex,
    /// An index or a slice behind its first value.
    AfterIndex,
    /// A `yield` behind its word.
    AfterYield,
    /// A `for` behind its `(`.
    ForHead,
    /// A `for` behind `let` and a name.
    AfterForName,
    /// A declaration behind its `export`.
    DeclWord,
    /// An import behind its `use`.
    UseStart,
    /// An import behind its first name.
    AfterUseName,
    /// An import behind `::`.
    AfterUseMark,
    /// An import behind a further name of its path.
    AfterUsePart,
}

/// What a parser waits for.
#[derive(Clone, Copy, Debug, PartialEq, Eq)]
pub enum Symbol {
    /// This sign.
    Want(Sign),
    /// What the rule reads.
    Part(Rule),
    /// Nothing: here the tree under way is whole, and of this kind.
    Close(Kind),
}

/// What happens to the trees under way.
#[derive(Clone, Copy, Debug, PartialEq, Eq)]
pub enum Change {
    /// A tree of kind None is put to the kids: one that may stand here and does not.
    Absent,
    /// The token is a tree of this kind by itself.
    Mark(Kind),
    /// The same, and the tree has the token's text, number and suffix.
    Leaf(Kind),
    /// A tree begins at the token.
    Open,
    /// A tree begins whose operator is the token, and whose first kid is the last tree.
    Over,
    /// The tree under way takes the token's text, number and suffix.
    Take,
    /// The token's text is put behind that of the tree under way.
    Join,
    /// The tree under way is whole, and of this kind.
    Close(Kind),
    /// The tree under way is none: its kids are those of the tree round it.
    Lift,
    /// The tree under way is none, and its kids are let go.
    Drop,
}
