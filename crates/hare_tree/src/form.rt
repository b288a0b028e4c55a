//! The forms of the grammar as data: what each kind of tree is spelled by, and which kids it has.

/// A keyword or mark that a form has wherever it stands.
#[derive(Clone, Copy, Debug, PartialEq, Eq)]
pub enum Sign {
    Abort,
    Align,
    Alloc,
    Append,
    As,
    Assert,
    Break,
    Case,
    Const,
    Continue,
    Def,
    Defer,
    Delete,
    Else,
    Export,
    Fn,
    For,
    Free,
    If,
    Is,
    Len,
    Let,
    Match,
    Null,
    Nullable,
    Offset,
    Return,
    Size,
    Struct,
    Switch,
    Type,
    Use,
    Void,
    Yield,
    /// `!`
    Bang,
    /// `&`
    Ampersand,
    /// `(`
    LeftParen,
    /// `)`
    RightParen,
    /// `*`
    Star,
    /// `,`
    Comma,
    /// `-`
    Minus,
    /// `.`
    Dot,
    /// `..`
    DotDot,
    /// `...`
    Dots,
    /// `:`
    Colon,
    /// `::`
    PathMark,
    /// `;`
    Semicolon,
    /// `=`
    Equals,
    /// `=>`
    Arrow,
    /// `?`
    Question,
    /// `[`
    LeftBracket,
    /// `]`
    RightBracket,
    /// `{`
    LeftBrace,
    /// `|`
    Bar,
    /// `}`
    RightBrace,
    /// `~`
    Tilde,
}

/// What a tree's own tokens are made from its text, number and suffix.
#[derive(Clone, Copy, Debug, PartialEq, Eq)]
pub enum Own {
    /// The form has no token of its own.
    Nothing,
    /// A name.
    Name,
    /// A name, where one may stand behind `::`.
    PathName,
    /// Names joined by `::`.
    Path,
    /// `:` and a name, or nothing where the text is empty.
    Label,
    /// A keyword that is a type.
    Scalar,
    /// `true` or `false`.
    Bool,
    /// A number.
    Number,
    /// A rune literal.
    Rune,
    /// A string, from all strings that stand side by side.
    Text,
    /// An operator of the kind.
    Operator,
    /// A name or a number behind a dot.
    Member,
}

/// What may stand as a kid.
#[derive(Clone, Copy, Debug, PartialEq, Eq)]
pub enum Sort {
    Use,
    Decl,
    ImportPath,
    Name,
    /// A name behind `::`.
    PathName,
    Export,
    Params,
    Param,
    StructField,
    Dots,
    ByRef,
    Type,
    /// A type without `!` before it.
    BareType,
    /// A member of a union.
    Member,
    TypePath,
    /// The length of an array.
    Length,
    Message,
    /// An expression whose operator binds at least so tightly.
    Level(u8),
    /// The left operand of an operator: what binds as tightly as the operator, or more.
    Left,
    /// The right operand of an operator: what binds more tightly.
    Right,
    FieldValue,
    Let,
    Binding,
    Statement,
    Pattern,
    Case,
    SwitchCase,
    Values,
}

/// One piece of a form.
#[derive(Clone, Copy, Debug, PartialEq, Eq)]
pub enum Piece {
    /// This keyword or mark.
    Fixed(Sign),
    /// What the text, number and suffix are spelled by.
    Own(Own),
    /// The next kid.
    Kid(Sort),
    /// `[kid]`
    Optional(Sort),
    /// `[sign kid]`
    Led(Sign, Sort),
    /// `[kid sign]`
    Followed(Sort, Sign),
    /// `[kid]`, or where the tree has a label `["," kid]`.
    Value(Sort),
    /// `{kid}`: all kids that are left, and so below.
    Each(Sort),
    /// `{sign kid}`
    EachLed(Sign, Sort),
    /// `{kid sign}`
    EachFollowed(Sort, Sign),
    /// `{"," kid} [","]`
    More(Sort),
    /// `[kid {"," kid} [","]]`
    List(Sort),
    /// `[kid {"," kid} ["..."] [","]]`
    Elements(Sort),
    /// `{"," kid} ["..."] [","]`: what follows the first of such kids.
    MoreElements(Sort),
}

/// What stands with a kid.
#[derive(Clone, Copy, Debug, PartialEq, Eq)]
pub enum Lead {
    Nothing,
    /// This sign before it.
    Before(Sign),
    /// This sign behind it.
    Behind(Sign),
}
