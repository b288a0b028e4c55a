//! The spelling of the signs of forms, and which of them are keywords.

ghost use Rattle.std.specs.Prelude.{◌≡◌};
ghost use Rattle.hare_tree.specs.Signs as signs;

use crate::form::Sign;
use crate::token::TokenKind;

/// The spelling of a sign.
pub fn sign_word(s: Sign) -> &'static [u8]
    ensures { result.now ≡ signs.sign_word s }
{
    match s {
        Sign::Abort => b"abort",
        Sign::Align => b"align",
        Sign::Alloc => b"alloc",
        Sign::Append => b"append",
        Sign::As => b"as",
        Sign::Assert => b"assert",
        Sign::Break => b"break",
        Sign::Case => b"case",
        Sign::Const => b"const",
        Sign::Continue => b"continue",
        Sign::Def => b"def",
        Sign::Defer => b"defer",
        Sign::Delete => b"delete",
        Sign::Else => b"else",
        Sign::Export => b"export",
        Sign::Fn => b"fn",
        Sign::For => b"for",
        Sign::Free => b"free",
        Sign::If => b"if",
        Sign::Is => b"is",
        Sign::Len => b"len",
        Sign::Let => b"let",
        Sign::Match => b"match",
        Sign::Null => b"null",
        Sign::Nullable => b"nullable",
        Sign::Offset => b"offset",
        Sign::Return => b"return",
        Sign::Size => b"size",
        Sign::Struct => b"struct",
        Sign::Switch => b"switch",
        Sign::Type => b"type",
        Sign::Use => b"use",
        Sign::Void => b"void",
        Sign::Yield => b"yield",
        Sign::Bang => b"!",
        Sign::Ampersand => b"&",
        Sign::LeftParen => b"(",
        Sign::RightParen => b")",
        Sign::Star => b"*",
        Sign::Comma => b",",
        Sign::Minus => b"-",
        Sign::Dot => b".",
        Sign::DotDot => b"..",
        Sign::Dots => b"...",
        Sign::Colon => b":",
        Sign::PathMark => b"::",
        Sign::Semicolon => b";",
        Sign::Equals => b"=",
        Sign::Arrow => b"=>",
        Sign::Question => b"?",
        Sign::LeftBracket => b"[",
        Sign::RightBracket => b"]",
        Sign::LeftBrace => b"{",
        Sign::Bar => b"|",
        Sign::RightBrace => b"}",
        Sign::Tilde => b"~",
    }
}

/// Whether a sign is a keyword or a mark.
pub fn sign_kind(s: Sign) -> TokenKind
    ensures { result ≡ signs.sign_kind s }
{
    match s {
        Sign::Bang
        | Sign::Ampersand
        | Sign::LeftParen
        | Sign::RightParen
        | Sign::Star
        | Sign::Comma
        | Sign::Minus
        | Sign::Dot
        | Sign::DotDot
        | Sign::Dots
        | Sign::Colon
        | Sign::PathMark
        | Sign::Semicolon
        | Sign::Equals
        | Sign::Arrow
        | Sign::Question
        | Sign::LeftBracket
        | Sign::RightBracket
        | Sign::LeftBrace
        | Sign::Bar
        | Sign::RightBrace
        | Sign::Tilde => TokenKind::Mark,
        _ => TokenKind::Keyword,
    }
}
