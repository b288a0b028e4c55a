//! The keywords and marks that forms have, by their first bytes.

ghost use Rattle.std.specs.Prelude.{◌≡◌, List, ℕ, [], ◌∷◌, map};
ghost use Rattle.hare_tree.specs.Shape.{scalars};
ghost use Rattle.hare_tree.specs.Words.{is_listed};
ghost use Rattle.hare_automaton.specs.declared.class.Class.{Class};
ghost use Rattle.hare_automaton.specs.Classes as classes;
ghost use Rattle.hare_ll_table.specs.Seen.{sign_or_else};

use hare_tree::Sign;

/// The keywords that forms have and that begin with this byte.
pub fn keywords_like(first: u8) -> &'static [Sign]
    ensures { (other : Class) (rest : List ℕ) → classes.sign_or other result.now (first ∷ rest) ≡ classes.sign_or other
        classes.keyword_signs (first ∷ rest) }
{
    match first {
        b'a' => &[
            Sign::Abort,
            Sign::Align,
            Sign::Alloc,
            Sign::Append,
            Sign::As,
            Sign::Assert,
        ],
        b'b' => &[Sign::Break],
        b'c' => &[Sign::Case, Sign::Const, Sign::Continue],
        b'd' => &[Sign::Def, Sign::Defer, Sign::Delete],
        b'e' => &[Sign::Else, Sign::Export],
        b'f' => &[Sign::Fn, Sign::For, Sign::Free],
        b'i' => &[Sign::If, Sign::Is],
        b'l' => &[Sign::Len, Sign::Let],
        b'm' => &[Sign::Match],
        b'n' => &[Sign::Null, Sign::Nullable],
        b'o' => &[Sign::Offset],
        b'r' => &[Sign::Return],
        b's' => &[Sign::Size, Sign::Struct, Sign::Switch],
        b't' => &[Sign::Type],
        b'u' => &[Sign::Use],
        b'v' => &[Sign::Void],
        b'y' => &[Sign::Yield],
        _ => &[],
    }
}

/// The marks that forms have and that begin with this byte.
pub fn marks_like(first: u8) -> &'static [Sign]
    ensures { (other : Class) (rest : List ℕ) → classes.sign_or other result.now (first ∷ rest) ≡ classes.sign_or other classes.mark_signs
        (first ∷ rest) }
{
    match first {
        b'!' => &[Sign::Bang],
        b'&' => &[Sign::Ampersand],
        b'(' => &[Sign::LeftParen],
        b')' => &[Sign::RightParen],
        b'*' => &[Sign::Star],
        b',' => &[Sign::Comma],
        b'-' => &[Sign::Minus],
        b'.' => &[Sign::Dot, Sign::DotDot, Sign::Dots],
        b':' => &[Sign::Colon, Sign::PathMark],
        b';' => &[Sign::Semicolon],
        b'=' => &[Sign::Equals, Sign::Arrow],
        b'?' => &[Sign::Question],
        b'[' => &[Sign::LeftBracket],
        b']' => &[Sign::RightBracket],
        b'{' => &[Sign::LeftBrace],
        b'|' => &[Sign::Bar],
        b'}' => &[Sign::RightBrace],
        b'~' => &[Sign::Tilde],
        _ => &[],
    }
}

/// The mark that is this byte alone; none where forms have none.
pub fn mark_of_byte(only: u8) -> Option<Sign>
    ensures { (other : Class) → sign_or_else result other ≡ classes.sign_or other classes.mark_signs (only ∷ []) }
{
    match only {
        b'!' => Some(Sign::Bang),
        b'&' => Some(Sign::Ampersand),
        b'(' => Some(Sign::LeftParen),
        b')' => Some(Sign::RightParen),
        b'*' => Some(Sign::Star),
        b',' => Some(Sign::Comma),
        b'-' => Some(Sign::Minus),
        b'.' => Some(Sign::Dot),
        b':' => Some(Sign::Colon),
        b';' => Some(Sign::Semicolon),
        b'=' => Some(Sign::Equals),
        b'?' => Some(Sign::Question),
        b'[' => Some(Sign::LeftBracket),
        b']' => Some(Sign::RightBracket),
        b'{' => Some(Sign::LeftBrace),
        b'|' => Some(Sign::Bar),
        b'}' => Some(Sign::RightBrace),
        b'~' => Some(Sign::Tilde),
        _ => None,
    }
}

/// The keywords that are types and that begin with this byte.
pub fn scalars_like(first: u8) -> &'static [&'static [u8]]
    ensures { (rest : List ℕ) → is_listed (map (λ w. w.now) result.now) (first ∷ rest) ≡ is_listed scalars (first ∷ rest) }
{
    match first {
        b'b' => &[b"bool"],
        b'i' => &[b"i8", b"i16", b"i32", b"i64", b"int"],
        b'n' => &[b"never"],
        b'o' => &[b"opaque"],
        b'r' => &[b"rune"],
        b's' => &[b"size", b"str"],
        b'u' => &[b"u8", b"u16", b"u32", b"u64", b"uint"],
        b'v' => &[b"void"],
        _ => &[],
    }
}
