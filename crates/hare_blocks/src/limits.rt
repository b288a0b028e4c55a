//! The two limits of expressions: how deep parentheses are nested, and how many operators there are.

ghost use Rattle.std.specs.Prelude.{◌≡◌, ◌≤◌, ◌↔◌, IsTrue, count_by};
ghost use Rattle.hare_blocks.specs.Class.{AreLimited, is_operator, most_open, open_behind};

use crate::token::Token;

/// Whether the tokens keep the limits: at most 64 parentheses open at once, and at most 100 operators.
pub fn is_limited(tokens: &[Token]) -> bool
    ensures { IsTrue result ↔ AreLimited tokens.now }
{
    is_nested(tokens) && operator_count(tokens) <= 100
}

// Whether at most 64 parentheses are open at once.
fn is_nested(tokens: &[Token]) -> bool
    ensures { IsTrue result ↔ most_open 0 tokens.now ≤ 64 }
{
    let mut depth = 0;
    for token in tokens {
        depth = open_behind(token, depth);
        if depth > 64 {
            return false;
        }
    }
    true
}

// How many parentheses are open behind the token, where so many are open in front of it.
fn open_behind(token: &Token, depth: u32) -> u32
    requires { depth ≤ 64 }
    ensures { result ≡ open_behind token.now depth }
{
    match token {
        Token::OpenParen => depth + 1,
        Token::CloseParen => depth.saturating_sub(1),
        _ => depth,
    }
}

fn operator_count(tokens: &[Token]) -> usize
    ensures { result ≡ count_by is_operator tokens.now }
{
    tokens.iter().filter(|token| is_operator(token)).count()
}

fn is_operator(token: &Token) -> bool
    ensures { result ≡ is_operator token.now }
{
    matches!(token, Token::Plus | Token::Minus | Token::Star)
}
