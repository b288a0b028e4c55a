//! Statements and the forms that hold them.

use crate::form::Piece::{Each, EachFollowed, Fixed, Followed, Kid, Led, More, Optional, Value};
use crate::form::{Own, Piece, Sign, Sort};

pub const DEFER: &[Piece] = &[Fixed(Sign::Defer), Kid(Sort::Level(1))];

pub const LET: &[Piece] = &[
    Fixed(Sign::Let),
    Piece::Own(Own::Name),
    Led(Sign::Colon, Sort::Type),
    Fixed(Sign::Equals),
    Kid(Sort::Level(1)),
];

pub const CONST: &[Piece] = &[
    Fixed(Sign::Const),
    Piece::Own(Own::Name),
    Led(Sign::Colon, Sort::Type),
    Fixed(Sign::Equals),
    Kid(Sort::Level(1)),
];

pub const IF: &[Piece] = &[
    Fixed(Sign::If),
    Fixed(Sign::LeftParen),
    Kid(Sort::Level(1)),
    Fixed(Sign::RightParen),
    Kid(Sort::Level(1)),
    Led(Sign::Else, Sort::Level(1)),
];

pub const FOR: &[Piece] = &[
    Fixed(Sign::For),
    Piece::Own(Own::Label),
    Fixed(Sign::LeftParen),
    Followed(Sort::Let, Sign::Semicolon),
    Kid(Sort::Level(1)),
    Led(Sign::Semicolon, Sort::Level(1)),
    Fixed(Sign::RightParen),
    Kid(Sort::Level(1)),
];

pub const FOR_EACH: &[Piece] = &[
    Fixed(Sign::For),
    Piece::Own(Own::Label),
    Fixed(Sign::LeftParen),
    Kid(Sort::Binding),
    Kid(Sort::Level(1)),
    Fixed(Sign::RightParen),
    Kid(Sort::Level(1)),
];

pub const BINDING: &[Piece] = &[
    Fixed(Sign::Let),
    Piece::Own(Own::Name),
    Optional(Sort::ByRef),
    Fixed(Sign::DotDot),
];

pub const BY_REF: &[Piece] = &[Fixed(Sign::Ampersand)];

pub const BREAK: &[Piece] = &[Fixed(Sign::Break), Piece::Own(Own::Label)];

pub const CONTINUE: &[Piece] = &[Fixed(Sign::Continue), Piece::Own(Own::Label)];

pub const RETURN: &[Piece] = &[Fixed(Sign::Return), Optional(Sort::Level(1))];

pub const YIELD: &[Piece] = &[
    Fixed(Sign::Yield),
    Piece::Own(Own::Label),
    Value(Sort::Level(1)),
];

pub const BLOCK: &[Piece] = &[
    Piece::Own(Own::Label),
    Fixed(Sign::LeftBrace),
    EachFollowed(Sort::Statement, Sign::Semicolon),
    Fixed(Sign::RightBrace),
];

pub const MATCH: &[Piece] = &[
    Fixed(Sign::Match),
    Fixed(Sign::LeftParen),
    Kid(Sort::Level(1)),
    Fixed(Sign::RightParen),
    Fixed(Sign::LeftBrace),
    Each(Sort::Case),
    Fixed(Sign::RightBrace),
];

pub const CASE: &[Piece] = &[
    Fixed(Sign::Case),
    Optional(Sort::Pattern),
    Fixed(Sign::Arrow),
    EachFollowed(Sort::Statement, Sign::Semicolon),
];

pub const PATTERN_LET: &[Piece] = &[
    Fixed(Sign::Let),
    Piece::Own(Own::Name),
    Fixed(Sign::Colon),
    Kid(Sort::Type),
];

pub const SWITCH: &[Piece] = &[
    Fixed(Sign::Switch),
    Fixed(Sign::LeftParen),
    Kid(Sort::Level(1)),
    Fixed(Sign::RightParen),
    Fixed(Sign::LeftBrace),
    Each(Sort::SwitchCase),
    Fixed(Sign::RightBrace),
];

pub const SWITCH_CASE: &[Piece] = &[
    Fixed(Sign::Case),
    Optional(Sort::Values),
    Fixed(Sign::Arrow),
    EachFollowed(Sort::Statement, Sign::Semicolon),
];

pub const VALUES: &[Piece] = &[Kid(Sort::Level(1)), More(Sort::Level(1))];
