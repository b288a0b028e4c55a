//! Operators, casts and postfix forms.

use crate::form::Piece::{Fixed, Kid, List, Optional};
use crate::form::{Own, Piece, Sign, Sort};

pub const NEG: &[Piece] = &[Fixed(Sign::Minus), Kid(Sort::Level(14))];

pub const NOT: &[Piece] = &[Fixed(Sign::Tilde), Kid(Sort::Level(14))];

pub const BANG: &[Piece] = &[Fixed(Sign::Bang), Kid(Sort::Level(14))];

pub const DEREF: &[Piece] = &[Fixed(Sign::Star), Kid(Sort::Level(14))];

pub const ADDR: &[Piece] = &[Fixed(Sign::Ampersand), Kid(Sort::Level(14))];

pub const TRY: &[Piece] = &[Kid(Sort::Level(15)), Fixed(Sign::Question)];

pub const FORCE: &[Piece] = &[Kid(Sort::Level(15)), Fixed(Sign::Bang)];

pub const BINARY: &[Piece] = &[Kid(Sort::Left), Piece::Own(Own::Operator), Kid(Sort::Right)];

pub const OP_ASSIGN: &[Piece] = &[
    Kid(Sort::Level(14)),
    Piece::Own(Own::Operator),
    Kid(Sort::Level(1)),
];

pub const ASSIGN: &[Piece] = &[
    Kid(Sort::Level(14)),
    Fixed(Sign::Equals),
    Kid(Sort::Level(1)),
];

pub const INDEX: &[Piece] = &[
    Kid(Sort::Level(15)),
    Fixed(Sign::LeftBracket),
    Kid(Sort::Level(1)),
    Fixed(Sign::RightBracket),
];

pub const CAST: &[Piece] = &[Kid(Sort::Left), Fixed(Sign::Colon), Kid(Sort::Type)];

pub const AS: &[Piece] = &[Kid(Sort::Left), Fixed(Sign::As), Kid(Sort::Type)];

pub const IS: &[Piece] = &[Kid(Sort::Left), Fixed(Sign::Is), Kid(Sort::Type)];

pub const CALL: &[Piece] = &[
    Kid(Sort::Level(15)),
    Fixed(Sign::LeftParen),
    List(Sort::Level(1)),
    Fixed(Sign::RightParen),
];

pub const SLICE: &[Piece] = &[
    Kid(Sort::Level(15)),
    Fixed(Sign::LeftBracket),
    Optional(Sort::Level(1)),
    Fixed(Sign::DotDot),
    Optional(Sort::Level(1)),
    Fixed(Sign::RightBracket),
];

pub const FIELD: &[Piece] = &[
    Kid(Sort::Level(15)),
    Fixed(Sign::Dot),
    Piece::Own(Own::Member),
];
