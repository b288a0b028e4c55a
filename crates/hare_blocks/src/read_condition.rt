//! Expressions that stand in no other, and conditions, at the front of tokens.

ghost use Rattle.std.specs.Prelude.{◌≡◌, ◌∷◌, IfOk, IfSome, IfNone, option_map};
ghost use Rattle.hare_blocks.specs.Trees.{expr_tokens, condition_tokens};
ghost use Rattle.hare_blocks.specs.Shape.{condition_of};
ghost use Rattle.hare_blocks.specs.Parsing.{IsRead, IsNoTerm};
ghost use Rattle.hare_blocks.specs.Grammar.{IsLimited, ConditionFits, Anything, test_tokens, status_tokens};

use crate::cursor::{Cursor, Fixed};
use crate::expr::Expr;
use crate::limits::is_limited;
use crate::program::Condition;
use crate::read_expr::expr;
use std::alloc::{AllocError, Global};

/// Takes an expression that stands in no other. None where none stands there that keeps the limits.
pub fn outer_expr(alloc: Global, tokens: &mut Cursor) -> Result<Option<Expr>, AllocError>
    ensures { IfOk result (λ o. IsRead expr_tokens IsLimited IsNoTerm o tokens.old tokens.new) }
{
    let start = tokens.left();
    let Some(found) = expr(alloc, tokens, 0)? else {
        return Ok(None);
    };
    let len = start.len().saturating_sub(tokens.left().len());
    if !is_limited(start.split_at(len).0) {
        return Ok(None);
    }
    Ok(Some(found))
}

// Takes a condition.
fn condition(alloc: Global, tokens: &mut Cursor) -> Result<Option<Condition>, AllocError>
    ensures { IfOk result (λ o. IsRead condition_tokens ConditionFits IsNoTerm (option_map condition_of o) tokens.old tokens.new) }
{
    if tokens.takes(Fixed::True) {
        return Ok(Some(Condition::Always));
    }
    let Some(left) = outer_expr(alloc, tokens)? else {
        return Ok(None);
    };
    let Some(relation) = tokens.takes_relation() else {
        return Ok(None);
    };
    let Some(right) = outer_expr(alloc, tokens)? else {
        return Ok(None);
    };
    Ok(Some(Condition::Compares {
        left,
        relation,
        right,
    }))
}

/// Takes a condition in parentheses.
pub fn test(alloc: Global, tokens: &mut Cursor) -> Result<Option<Condition>, AllocError>
    ensures { IfOk result (λ o. IsRead test_tokens ConditionFits Anything (option_map condition_of o) tokens.old tokens.new) }
{
    if !tokens.takes(Fixed::OpenParen) {
        return Ok(None);
    }
    let Some(found) = condition(alloc, tokens)? else {
        return Ok(None);
    };
    if !tokens.takes(Fixed::CloseParen) {
        return Ok(None);
    }
    Ok(Some(found))
}

// What stands in front of the value of an exit, behind its name.
const OPENING: [Fixed; 2] = [Fixed::OpenParen, Fixed::OpenParen];

// What stands behind the value of an exit.
const CLOSING: [Fixed; 4] = [
    Fixed::CloseParen,
    Fixed::Colon,
    Fixed::U8,
    Fixed::CloseParen,
];

/// Takes the value of an exit, with the parentheses and the cast round it.
pub fn status(alloc: Global, tokens: &mut Cursor) -> Result<Option<Expr>, AllocError>
    ensures { IfOk result (λ o. IsRead status_tokens IsLimited Anything o tokens.old tokens.new) }
{
    if !tokens.takes_all(&OPENING) {
        return Ok(None);
    }
    let Some(found) = outer_expr(alloc, tokens)? else {
        return Ok(None);
    };
    if !tokens.takes_all(&CLOSING) {
        return Ok(None);
    }
    Ok(Some(found))
}
