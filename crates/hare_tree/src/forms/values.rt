//! Paths, literals, and values made of values.

use crate::form::Piece::{Elements, Fixed, Kid, More};
use crate::form::{Own, Piece, Sign, Sort};

pub const PATH: &[Piece] = &[Piece::Own(Own::Path)];

pub const NUMBER: &[Piece] = &[Piece::Own(Own::Number)];

pub const RUNE_LIT: &[Piece] = &[Piece::Own(Own::Rune)];

pub const TEXT: &[Piece] = &[Piece::Own(Own::Text)];

pub const BOOL: &[Piece] = &[Piece::Own(Own::Bool)];

pub const NULL: &[Piece] = &[Fixed(Sign::Null)];

pub const VOID: &[Piece] = &[Fixed(Sign::Void)];

pub const PAREN: &[Piece] = &[
    Fixed(Sign::LeftParen),
    Kid(Sort::Level(1)),
    Fixed(Sign::RightParen),
];

pub const STRUCT_LIT: &[Piece] = &[
    Kid(Sort::TypePath),
    Fixed(Sign::LeftBrace),
    Kid(Sort::FieldValue),
    More(Sort::FieldValue),
    Fixed(Sign::RightBrace),
];

pub const FIELD_VALUE: &[Piece] = &[
    Piece::Own(Own::Name),
    Fixed(Sign::Equals),
    Kid(Sort::Level(1)),
];

pub const TUPLE: &[Piece] = &[
    Fixed(Sign::LeftParen),
    Kid(Sort::Level(1)),
    Fixed(Sign::Comma),
    Kid(Sort::Level(1)),
    More(Sort::Level(1)),
    Fixed(Sign::RightParen),
];

pub const ARRAY: &[Piece] = &[
    Fixed(Sign::LeftBracket),
    Elements(Sort::Level(1)),
    Fixed(Sign::RightBracket),
];

pub const TRAILING_COMMA: &[Piece] = &[Fixed(Sign::Comma)];

pub const DOTS: &[Piece] = &[Fixed(Sign::Dots)];
