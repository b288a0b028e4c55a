//! Types.

use crate::form::Piece::{EachLed, Fixed, Kid, More};
use crate::form::{Own, Piece, Sign, Sort};

pub const TYPE_SCALAR: &[Piece] = &[Piece::Own(Own::Scalar)];

pub const TYPE_POINTER: &[Piece] = &[Fixed(Sign::Star), Kid(Sort::Type)];

pub const TYPE_NULLABLE: &[Piece] = &[Fixed(Sign::Nullable), Fixed(Sign::Star), Kid(Sort::Type)];

pub const TYPE_SLICE: &[Piece] = &[
    Fixed(Sign::LeftBracket),
    Fixed(Sign::RightBracket),
    Kid(Sort::Type),
];

pub const TYPE_ERROR: &[Piece] = &[Fixed(Sign::Bang), Kid(Sort::BareType)];

pub const TYPE_ARRAY: &[Piece] = &[
    Fixed(Sign::LeftBracket),
    Kid(Sort::Length),
    Fixed(Sign::RightBracket),
    Kid(Sort::Type),
];

pub const TYPE_STRUCT: &[Piece] = &[
    Fixed(Sign::Struct),
    Fixed(Sign::LeftBrace),
    Kid(Sort::StructField),
    More(Sort::StructField),
    Fixed(Sign::RightBrace),
];

pub const TYPE_TUPLE: &[Piece] = &[
    Fixed(Sign::LeftParen),
    Kid(Sort::Type),
    Fixed(Sign::Comma),
    Kid(Sort::Type),
    More(Sort::Type),
    Fixed(Sign::RightParen),
];

pub const TYPE_UNION: &[Piece] = &[
    Fixed(Sign::LeftParen),
    Kid(Sort::Member),
    Fixed(Sign::Bar),
    Kid(Sort::Member),
    EachLed(Sign::Bar, Sort::Member),
    Fixed(Sign::RightParen),
];

pub const SPREAD: &[Piece] = &[Fixed(Sign::Dots), Kid(Sort::TypePath)];
