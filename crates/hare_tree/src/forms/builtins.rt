//! The calls that the language has words for.

use crate::form::Piece::{Fixed, Kid, Led, Optional};
use crate::form::{Piece, Sign, Sort};

pub const FREE: &[Piece] = &[
    Fixed(Sign::Free),
    Fixed(Sign::LeftParen),
    Kid(Sort::Level(1)),
    Fixed(Sign::RightParen),
];

pub const DELETE: &[Piece] = &[
    Fixed(Sign::Delete),
    Fixed(Sign::LeftParen),
    Kid(Sort::Level(1)),
    Fixed(Sign::RightParen),
];

pub const LEN: &[Piece] = &[
    Fixed(Sign::Len),
    Fixed(Sign::LeftParen),
    Kid(Sort::Level(1)),
    Fixed(Sign::RightParen),
];

pub const OFFSET: &[Piece] = &[
    Fixed(Sign::Offset),
    Fixed(Sign::LeftParen),
    Kid(Sort::Level(1)),
    Fixed(Sign::RightParen),
];

pub const SIZE: &[Piece] = &[
    Fixed(Sign::Size),
    Fixed(Sign::LeftParen),
    Kid(Sort::Type),
    Fixed(Sign::RightParen),
];

pub const ALIGN: &[Piece] = &[
    Fixed(Sign::Align),
    Fixed(Sign::LeftParen),
    Kid(Sort::Type),
    Fixed(Sign::RightParen),
];

pub const ALLOC: &[Piece] = &[
    Fixed(Sign::Alloc),
    Fixed(Sign::LeftParen),
    Kid(Sort::Level(1)),
    Led(Sign::Comma, Sort::Level(1)),
    Fixed(Sign::RightParen),
];

pub const APPEND: &[Piece] = &[
    Fixed(Sign::Append),
    Fixed(Sign::LeftParen),
    Kid(Sort::Level(1)),
    Fixed(Sign::Comma),
    Kid(Sort::Level(1)),
    Optional(Sort::Dots),
    Fixed(Sign::RightParen),
];

pub const ABORT: &[Piece] = &[
    Fixed(Sign::Abort),
    Fixed(Sign::LeftParen),
    Optional(Sort::Message),
    Fixed(Sign::RightParen),
];

pub const ASSERT: &[Piece] = &[
    Fixed(Sign::Assert),
    Fixed(Sign::LeftParen),
    Kid(Sort::Level(1)),
    Led(Sign::Comma, Sort::Message),
    Fixed(Sign::RightParen),
];
