//! Imports, declarations and their parts.

use crate::form::Piece::{EachLed, Fixed, Kid, Led, List, More, Optional};
use crate::form::{Own, Piece, Sign, Sort};

pub const USE: &[Piece] = &[
    Fixed(Sign::Use),
    Kid(Sort::ImportPath),
    Fixed(Sign::Semicolon),
];

pub const USE_ALIAS: &[Piece] = &[
    Fixed(Sign::Use),
    Kid(Sort::Name),
    Fixed(Sign::Equals),
    Kid(Sort::ImportPath),
    Fixed(Sign::Semicolon),
];

pub const USE_NAMES: &[Piece] = &[
    Fixed(Sign::Use),
    Kid(Sort::ImportPath),
    Fixed(Sign::PathMark),
    Fixed(Sign::LeftBrace),
    Kid(Sort::Name),
    More(Sort::Name),
    Fixed(Sign::RightBrace),
    Fixed(Sign::Semicolon),
];

pub const IMPORT_PATH: &[Piece] = &[Kid(Sort::Name), EachLed(Sign::PathMark, Sort::PathName)];

pub const DEF: &[Piece] = &[
    Optional(Sort::Export),
    Fixed(Sign::Def),
    Kid(Sort::Name),
    Led(Sign::Colon, Sort::Type),
    Fixed(Sign::Equals),
    Kid(Sort::Level(1)),
    Fixed(Sign::Semicolon),
];

pub const GLOBAL_LET: &[Piece] = &[
    Optional(Sort::Export),
    Fixed(Sign::Let),
    Kid(Sort::Name),
    Led(Sign::Colon, Sort::Type),
    Fixed(Sign::Equals),
    Kid(Sort::Level(1)),
    Fixed(Sign::Semicolon),
];

pub const GLOBAL_CONST: &[Piece] = &[
    Optional(Sort::Export),
    Fixed(Sign::Const),
    Kid(Sort::Name),
    Led(Sign::Colon, Sort::Type),
    Fixed(Sign::Equals),
    Kid(Sort::Level(1)),
    Fixed(Sign::Semicolon),
];

pub const TYPE_DECL: &[Piece] = &[
    Optional(Sort::Export),
    Fixed(Sign::Type),
    Kid(Sort::Name),
    Fixed(Sign::Equals),
    Kid(Sort::Type),
    Fixed(Sign::Semicolon),
];

pub const FN: &[Piece] = &[
    Optional(Sort::Export),
    Fixed(Sign::Fn),
    Kid(Sort::Name),
    Kid(Sort::Params),
    Kid(Sort::Type),
    Fixed(Sign::Equals),
    Kid(Sort::Level(1)),
    Fixed(Sign::Semicolon),
];

pub const PARAMS: &[Piece] = &[
    Fixed(Sign::LeftParen),
    List(Sort::Param),
    Fixed(Sign::RightParen),
];

pub const TYPED_NAME: &[Piece] = &[Piece::Own(Own::Name), Fixed(Sign::Colon), Kid(Sort::Type)];

pub const NAME: &[Piece] = &[Piece::Own(Own::PathName)];

pub const EXPORT: &[Piece] = &[Fixed(Sign::Export)];
