//! What kinds of trees are to the layout.

ghost use Rattle.std.specs.Prelude.{◌≡◌};
ghost use Rattle.hare_tree.specs.Signs as signs;
ghost use Rattle.hare_tree.specs.Spell as spell;
ghost use Rattle.hare_ways.specs.Breaks as spec;

use hare_tree::{Kind, Piece, Sign, sign_word};

// Whether a form has a comma list between brackets.
pub fn is_list(k: Kind) -> bool
    ensures { result ≡ spec.is_list k }
{
    matches!(
        k,
        Kind::Params
            | Kind::Call
            | Kind::StructLit
            | Kind::Tuple
            | Kind::TypeTuple
            | Kind::Array
            | Kind::UseNames
            | Kind::TypeStruct
    )
}

// Whether a form is a struct type.
pub fn is_struct(k: Kind) -> bool
    ensures { result ≡ spec.is_struct k }
{
    matches!(k, Kind::TypeStruct)
}

// Whether a form has statements or cases between braces.
pub fn is_braced(k: Kind) -> bool
    ensures { result ≡ spec.is_braced k }
{
    matches!(k, Kind::Block | Kind::Match | Kind::Switch)
}

// Whether a form is a case of a `match` or a `switch`.
pub fn is_case(k: Kind) -> bool
    ensures { result ≡ spec.is_case k }
{
    matches!(k, Kind::Case | Kind::SwitchCase)
}

// Whether a tree is the comma behind the last item of a list.
pub fn is_comma(k: Kind) -> bool
    ensures { result ≡ spec.is_comma k }
{
    matches!(k, Kind::TrailingComma)
}

// Whether a kid of this kind takes no sign.
pub fn stands_alone(k: Kind) -> bool
    ensures { result ≡ spell.stands_alone k }
{
    matches!(k, Kind::None | Kind::TrailingComma | Kind::Dots)
}

// The bracket in front of a form's list, or its brace.
pub fn opening(k: Kind) -> Sign
    ensures { result ≡ spec.opening k }
{
    match k {
        Kind::Params | Kind::Call | Kind::Tuple | Kind::TypeTuple => Sign::LeftParen,
        Kind::Array => Sign::LeftBracket,
        _ => Sign::LeftBrace,
    }
}

// The bracket behind it.
pub fn closing(k: Kind) -> Sign
    ensures { result ≡ spec.closing k }
{
    match k {
        Kind::Params | Kind::Call | Kind::Tuple | Kind::TypeTuple => Sign::RightParen,
        Kind::Array => Sign::RightBracket,
        _ => Sign::RightBrace,
    }
}

// Whether two signs are one.
pub fn is_sign(a: Sign, b: Sign) -> bool
    ensures { result ≡ signs.is_sign a b }
{
    sign_word(a) == sign_word(b)
}

// Whether a piece of a form is this sign.
pub fn is_fixed(s: Sign, piece: Piece) -> bool
    ensures { result ≡ spec.is_fixed s piece }
{
    match piece {
        Piece::Fixed(sign) => is_sign(s, sign),
        _ => false,
    }
}
