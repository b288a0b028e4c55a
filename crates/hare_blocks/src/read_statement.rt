//! Statements and blocks at the front of tokens.
//!
//! Calls nest no deeper than blocks do, and no more than 16 of these are entered.

ghost use Rattle.std.specs.Prelude.{◌≡◌, ◌∷◌, codes, IfOk, option_map};
ghost use Rattle.hare_blocks.specs.declared.token.Token.TheVariants as token;
ghost use Rattle.hare_blocks.specs.Trees.{statement_tokens};
ghost use Rattle.hare_blocks.specs.Sizes.{list_of_statements};
ghost use Rattle.hare_blocks.specs.Shape.{statement_of};
ghost use Rattle.hare_blocks.specs.Parsing.{IsRead};
ghost use Rattle.hare_blocks.specs.Grammar.{StatementFits, StatementsFit, BlockFits, Anything, IsEnded, block_tokens, closed_tokens};

use crate::cursor::{Cursor, Fixed, is_word};
use crate::program::{Statement, Statements};
use crate::read_condition::{outer_expr, status, test};
use crate::token::Token;
use hare_tree::Word;
use std::alloc::{AllocError, Global};

/// Takes a block, within which `left` blocks may be open at once, itself included.
#[cycle(statement)]
pub fn block(
    alloc: Global,
    tokens: &mut Cursor,
    left: u32,
) -> Result<Option<Statements>, AllocError>
    ensures { IfOk result (λ o. IsRead block_tokens (BlockFits left) Anything (option_map list_of_statements o) tokens.old tokens.new) }
{
    if left == 0 {
        return Ok(None);
    }
    if !tokens.takes(Fixed::OpenBrace) {
        return Ok(None);
    }
    statements(alloc, tokens, left - 1)
}

// Takes the statements of a block and the brace that closes it.
#[cycle(statement)]
fn statements(
    alloc: Global,
    tokens: &mut Cursor,
    left: u32,
) -> Result<Option<Statements>, AllocError>
    ensures { IfOk result (λ o. IsRead closed_tokens (StatementsFit left) Anything (option_map list_of_statements o) tokens.old
        tokens.new) }
{
    let mut found = Statements::new(alloc);
    'statements: while !tokens.takes(Fixed::CloseBrace) {
        let Some(next) = statement(alloc, tokens, left)? else {
            return Ok(None);
        };
        if !tokens.takes(Fixed::Semicolon) {
            return Ok(None);
        }
        found.push(next)?;
    }
    Ok(Some(found))
}

// Takes a statement, within which `left` blocks may be open at once.
#[cycle(statement)]
fn statement(alloc: Global, tokens: &mut Cursor, left: u32) -> Result<Option<Statement>, AllocError>
    ensures { IfOk result (λ o. IsRead statement_tokens (StatementFits left) IsEnded (option_map statement_of o) tokens.old tokens.new) }
{
    let Some(first) = tokens.next() else {
        return Ok(None);
    };
    match first {
        Token::Let => declaration(alloc, tokens, left),
        Token::If => choice(alloc, tokens, left),
        Token::For => repetition(alloc, tokens, left),
        Token::Name(name) => named(alloc, tokens, name, left),
        _ => Ok(None),
    }
}

// Takes what stands behind `if`.
#[cycle(statement)]
fn choice(alloc: Global, tokens: &mut Cursor, left: u32) -> Result<Option<Statement>, AllocError>
    ensures { IfOk result (λ o. IsRead statement_tokens (StatementFits left) IsEnded (option_map statement_of o) (token.If ∷ tokens.old)
        tokens.new) }
{
    let Some(test) = test(alloc, tokens)? else {
        return Ok(None);
    };
    let Some(body) = block(alloc, tokens, left)? else {
        return Ok(None);
    };
    if !tokens.takes(Fixed::Else) {
        return Ok(Some(Statement::If { test, body }));
    }
    let Some(otherwise) = block(alloc, tokens, left)? else {
        return Ok(None);
    };
    Ok(Some(Statement::IfElse {
        test,
        body,
        otherwise,
    }))
}

// Takes what stands behind `for`.
#[cycle(statement)]
fn repetition(
    alloc: Global,
    tokens: &mut Cursor,
    left: u32,
) -> Result<Option<Statement>, AllocError>
    ensures { IfOk result (λ o. IsRead statement_tokens (StatementFits left) IsEnded (option_map statement_of o) (token.For ∷ tokens.old)
        tokens.new) }
{
    let Some(test) = test(alloc, tokens)? else {
        return Ok(None);
    };
    let Some(body) = block(alloc, tokens, left)? else {
        return Ok(None);
    };
    Ok(Some(Statement::For { test, body }))
}

// Takes what stands behind `let`.
fn declaration(
    alloc: Global,
    tokens: &mut Cursor,
    left: u32,
) -> Result<Option<Statement>, AllocError>
    ensures { IfOk result (λ o. IsRead statement_tokens (StatementFits left) IsEnded (option_map statement_of o) (token.Let ∷ tokens.old)
        tokens.new) }
{
    let Some(name) = tokens.takes_name() else {
        return Ok(None);
    };
    if !tokens.takes(Fixed::Assign) {
        return Ok(None);
    }
    let Some(value) = outer_expr(alloc, tokens)? else {
        return Ok(None);
    };
    let name = Word::copy(alloc, name.bytes())?;
    Ok(Some(Statement::Declare { name, value }))
}

// Takes what stands behind a name at the front of a statement.
fn named(
    alloc: Global,
    tokens: &mut Cursor,
    name: &Word,
    left: u32,
) -> Result<Option<Statement>, AllocError>
    ensures { IfOk result (λ o. IsRead statement_tokens (StatementFits left) IsEnded (option_map statement_of o)
        (token.Name name.now ∷ tokens.old) tokens.new) }
{
    if tokens.takes(Fixed::Assign) {
        return assignment(alloc, tokens, name, left);
    }
    if !tokens.takes(Fixed::PathSeparator) {
        return Ok(None);
    }
    if !is_word(name, b"rt") {
        return Ok(None);
    }
    call(alloc, tokens, left)
}

// Takes what stands behind a name and `=`.
fn assignment(
    alloc: Global,
    tokens: &mut Cursor,
    name: &Word,
    left: u32,
) -> Result<Option<Statement>, AllocError>
    ensures { IfOk result (λ o. IsRead statement_tokens (StatementFits left) IsEnded (option_map statement_of o)
        (token.Name name.now ∷ token.Assign ∷ tokens.old) tokens.new) }
{
    let Some(value) = outer_expr(alloc, tokens)? else {
        return Ok(None);
    };
    let name = Word::copy(alloc, name.bytes())?;
    Ok(Some(Statement::Assign { name, value }))
}

// Takes what stands behind `rt::` at the front of a statement.
fn call(alloc: Global, tokens: &mut Cursor, left: u32) -> Result<Option<Statement>, AllocError>
    ensures { IfOk result (λ o. IsRead statement_tokens (StatementFits left) IsEnded (option_map statement_of o)
        (token.Name (codes "rt") ∷ token.PathSeparator ∷ tokens.old) tokens.new) }
{
    if tokens.takes(Fixed::Exit) {
        let Some(value) = status(alloc, tokens)? else {
            return Ok(None);
        };
        return Ok(Some(Statement::Exit(value)));
    }
    if !tokens.takes(Fixed::Puts) {
        return Ok(None);
    }
    if !tokens.takes(Fixed::OpenParen) {
        return Ok(None);
    }
    let Some(text) = tokens.takes_text() else {
        return Ok(None);
    };
    if !tokens.takes(Fixed::CloseParen) {
        return Ok(None);
    }
    let text = Word::copy(alloc, text.bytes())?;
    Ok(Some(Statement::Puts(text)))
}
