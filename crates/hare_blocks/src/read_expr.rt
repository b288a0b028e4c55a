//! Expressions at the front of tokens.
//!
//! Calls nest no deeper than parentheses do, and no more than 64 of these are entered.

ghost use Rattle.std.specs.Prelude.{◌≡◌, ◌≤◌, ◌∷◌, IfOk, option_map};
ghost use Rattle.hare_blocks.specs.declared.token.Token.TheVariants as token;
ghost use Rattle.hare_blocks.specs.Trees.{expr_tokens, terms_tokens, term_tokens, factors_tokens, factor_tokens};
ghost use Rattle.hare_blocks.specs.Shape.{terms_of, factor_of, factors_of};
ghost use Rattle.hare_blocks.specs.Parsing.{IsRead, IsNoTerm, IsNoFactor, IsNoPath, ExprNests, TermsNest, TermNests, FactorsNest, FactorNests};

use crate::cursor::{Cursor, Fixed, is_word};
use crate::expr::{Expr, Factor, SignedTerm, Term};
use crate::token::Token;
use hare_tree::Word;
use std::alloc::{AllocError, Global};

/// How many parentheses may be open at once within an expression.
const DEEPEST: u32 = 64;

/// Takes the expression at the front of the tokens, where `depth` parentheses of it are open in front of them. None where none stands
/// there, or where too many parentheses are open in it; some of the tokens may be taken then. `depth` is at most 64.
#[cycle(expr)]
pub fn expr(alloc: Global, tokens: &mut Cursor, depth: u32) -> Result<Option<Expr>, AllocError>
    requires { depth ≤ 64 }
    ensures { IfOk result (λ o. IsRead expr_tokens (ExprNests depth) IsNoTerm o tokens.old tokens.new) }
{
    let Some(head) = term(alloc, tokens, depth)? else {
        return Ok(None);
    };
    let Some(rest) = further_terms(alloc, tokens, depth)? else {
        return Ok(None);
    };
    Ok(Some(Expr { head, rest }))
}

// Takes the terms that stand behind plus and minus.
#[cycle(expr)]
fn further_terms(
    alloc: Global,
    tokens: &mut Cursor,
    depth: u32,
) -> Result<Option<Vec<SignedTerm>>, AllocError>
    requires { depth ≤ 64 }
    ensures { IfOk result (λ o. IsRead terms_tokens (TermsNest depth) IsNoTerm (option_map (λ v. terms_of v.items) o) tokens.old
        tokens.new) }
{
    let mut terms = Vec::new(alloc);
    'terms: while let Some(sign) = tokens.takes_sign() {
        let Some(term) = term(alloc, tokens, depth)? else {
            return Ok(None);
        };
        terms.push(SignedTerm { sign, term })?;
    }
    Ok(Some(terms))
}

// Takes a term.
#[cycle(expr)]
fn term(alloc: Global, tokens: &mut Cursor, depth: u32) -> Result<Option<Term>, AllocError>
    requires { depth ≤ 64 }
    ensures { IfOk result (λ o. IsRead term_tokens (TermNests depth) IsNoFactor o tokens.old tokens.new) }
{
    let Some(head) = factor(alloc, tokens, depth)? else {
        return Ok(None);
    };
    let Some(rest) = further_factors(alloc, tokens, depth)? else {
        return Ok(None);
    };
    Ok(Some(Term { head, rest }))
}

// Takes the factors that stand behind stars.
#[cycle(expr)]
fn further_factors(
    alloc: Global,
    tokens: &mut Cursor,
    depth: u32,
) -> Result<Option<Vec<Factor>>, AllocError>
    requires { depth ≤ 64 }
    ensures { IfOk result (λ o. IsRead factors_tokens (FactorsNest depth) IsNoFactor (option_map (λ v. factors_of v.items) o) tokens.old
        tokens.new) }
{
    let mut factors = Vec::new(alloc);
    'factors: while tokens.takes(Fixed::Star) {
        let Some(factor) = factor(alloc, tokens, depth)? else {
            return Ok(None);
        };
        factors.push(factor)?;
    }
    Ok(Some(factors))
}

// Takes a factor.
#[cycle(expr)]
fn factor(alloc: Global, tokens: &mut Cursor, depth: u32) -> Result<Option<Factor>, AllocError>
    requires { depth ≤ 64 }
    ensures { IfOk result (λ o. IsRead factor_tokens (FactorNests depth) IsNoPath (option_map factor_of o) tokens.old tokens.new) }
{
    let Some(first) = tokens.next() else {
        return Ok(None);
    };
    match first {
        Token::Number(n) => Ok(Some(Factor::Number(*n))),
        Token::OpenParen => group(alloc, tokens, depth),
        Token::Name(name) => named(alloc, tokens, name, depth),
        _ => Ok(None),
    }
}

// Takes an expression and the parenthesis that closes it, behind the one that opens it.
#[cycle(expr)]
fn group(alloc: Global, tokens: &mut Cursor, depth: u32) -> Result<Option<Factor>, AllocError>
    requires { depth ≤ 64 }
    ensures { IfOk result (λ o. IsRead factor_tokens (FactorNests depth) IsNoPath (option_map factor_of o) (token.OpenParen ∷ tokens.old)
        tokens.new) }
{
    if depth >= DEEPEST {
        return Ok(None);
    }
    let Some(inner) = expr(alloc, tokens, depth + 1)? else {
        return Ok(None);
    };
    if !tokens.takes(Fixed::CloseParen) {
        return Ok(None);
    }
    let boxed = Box::new(alloc, inner)?;
    Ok(Some(Factor::Group(boxed)))
}

// What stands behind `rt::` in a factor.
const ARG_COUNT: [Fixed; 3] = [Fixed::ArgCount, Fixed::OpenParen, Fixed::CloseParen];

// A factor that begins with a name: a variable, or the number of arguments.
fn named(
    alloc: Global,
    tokens: &mut Cursor,
    name: &Word,
    depth: u32,
) -> Result<Option<Factor>, AllocError>
    requires { depth ≤ 64 }
    ensures { IfOk result (λ o. IsRead factor_tokens (FactorNests depth) IsNoPath (option_map factor_of o)
        (token.Name name.now ∷ tokens.old) tokens.new) }
{
    if !tokens.takes(Fixed::PathSeparator) {
        let name = Word::copy(alloc, name.bytes())?;
        return Ok(Some(Factor::Variable(name)));
    }
    if depth >= DEEPEST {
        return Ok(None);
    }
    if !is_word(name, b"rt") {
        return Ok(None);
    }
    if !tokens.takes_all(&ARG_COUNT) {
        return Ok(None);
    }
    Ok(Some(Factor::ArgCount))
}
