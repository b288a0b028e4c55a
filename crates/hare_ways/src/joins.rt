//! Where no blank stands.

ghost use Rattle.std.specs.Prelude.{◌≡◌};
ghost use Rattle.hare_ways.specs.Joins as spec;

use hare_tree::{Kind, Sign};

// Whether no blank stands before the sign in a form of the kind.
pub fn joins_before(s: Sign, k: Kind) -> bool
    ensures { result ≡ spec.joins_before s k }
{
    match s {
        Sign::RightParen
        | Sign::RightBracket
        | Sign::Comma
        | Sign::Semicolon
        | Sign::PathMark
        | Sign::Dot
        | Sign::Question
        | Sign::Colon => true,
        Sign::LeftParen => is_applied(k),
        Sign::LeftBracket => matches!(k, Kind::Index | Kind::Slice),
        Sign::DotDot => matches!(k, Kind::Slice),
        Sign::Bang => matches!(k, Kind::Force),
        Sign::Dots => !matches!(k, Kind::Spread),
        Sign::RightBrace => matches!(k, Kind::UseNames),
        _ => false,
    }
}

// Whether no blank stands behind the sign in a form of the kind.
pub fn joins_behind(s: Sign, k: Kind) -> bool
    ensures { result ≡ spec.joins_behind s k }
{
    match s {
        Sign::LeftParen
        | Sign::LeftBracket
        | Sign::PathMark
        | Sign::Dot
        | Sign::Minus
        | Sign::Tilde
        | Sign::Star
        | Sign::Ampersand => true,
        Sign::Bang => !matches!(k, Kind::Force),
        Sign::RightBracket => matches!(k, Kind::TypeSlice | Kind::TypeArray),
        Sign::DotDot => matches!(k, Kind::Slice),
        Sign::Dots => matches!(k, Kind::Spread),
        Sign::LeftBrace => matches!(k, Kind::UseNames),
        _ => false,
    }
}

// Whether a form is called with parentheses behind it: a call, the parameters of a function, and what is built in.
fn is_applied(k: Kind) -> bool
    ensures { result ≡ spec.is_applied k }
{
    matches!(
        k,
        Kind::Call
            | Kind::Params
            | Kind::Alloc
            | Kind::Free
            | Kind::Append
            | Kind::Delete
            | Kind::Len
            | Kind::Size
            | Kind::Align
            | Kind::Offset
            | Kind::Abort
            | Kind::Assert
    )
}
