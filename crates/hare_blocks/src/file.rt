//! Files of the class.

ghost use Rattle.std.specs.Prelude.{◌≡◌, ◌≤◌, ◌↔◌, [], IsTrue, IfOk, IfSome, MatchOption, option_map};
ghost use Rattle.hare_blocks.specs.Trees.{file_tokens, body_tokens};
ghost use Rattle.hare_blocks.specs.Trees as trees;
ghost use Rattle.hare_blocks.specs.Class.{IsOfClass, IsSource, IsNoSource, IsExitFile, AllNamesHold};
ghost use Rattle.hare_blocks.specs.Shape.{program_of};
ghost use Rattle.hare_blocks.specs.Sizes.{list_of_statements};
ghost use Rattle.hare_blocks.specs.Parsing.{IsRead};
ghost use Rattle.hare_blocks.specs.Grammar.{ProgramFits, IsFileOf, Anything};

use crate::cursor::{Cursor, Fixed};
use crate::expr::Expr;
use crate::limits::is_limited;
use crate::names::{block_holds, expr_holds};
use crate::program::{Program, Statements};
use crate::read_condition::status;
use crate::read_statement::block;
use crate::scope::Scope;
use crate::token::Token;
use crate::tokens::tokens;
use std::alloc::{AllocError, Global};

/// How many bytes a file may have.
const MOST_BYTES: usize = 65_536;

/// How many bytes a file may have whose body is an exit alone.
const MOST_EXIT_BYTES: usize = 4096;

/// How many blocks may be open at once.
const MOST_BLOCKS: u32 = 16;

/// Reads a file of the class. None where the text is no such file: where its tokens or its grammar are others, where a name is used that is
/// not declared in an open block, or where a limit is passed. An error is want of memory.
///
/// The time is linear in the bytes, expected where names are looked up.
pub fn read(alloc: Global, src: &[u8]) -> Result<Option<Program>, AllocError>
    ensures ok { IfOk result (λ found. MatchOption found (IsNoSource src.now) (λ p. IsSource src.now (program_of p))) }
    ensures only { (q : trees.Program) → IsSource src.now q → IfOk result (λ found. MatchOption found ⊥ (λ p. program_of p ≡ q)) }
{
    if src.len() > MOST_BYTES {
        return Ok(None);
    }
    let Some(found) = tokens(alloc, src)? else {
        return Ok(None);
    };
    let Some(program) = file(alloc, found.as_slice())? else {
        return Ok(None);
    };
    if !is_of_class(alloc, src.len(), found.as_slice(), &program)? {
        return Ok(None);
    }
    Ok(Some(program))
}

// What stands in front of the body of `main`.
const FRONT: [Fixed; 10] = [
    Fixed::Use,
    Fixed::Runtime,
    Fixed::Semicolon,
    Fixed::Export,
    Fixed::Function,
    Fixed::Main,
    Fixed::OpenParen,
    Fixed::CloseParen,
    Fixed::Void,
    Fixed::Assign,
];

// The program whose tokens these are, and which keeps the limits of blocks and expressions.
fn file(alloc: Global, tokens: &[Token]) -> Result<Option<Program>, AllocError>
    ensures sound { IfOk result (λ o. IfSome o (λ p. IsFileOf tokens.now (program_of p))) }
    ensures whole { (q : trees.Program) → IsFileOf tokens.now q → IfOk result (λ o. MatchOption o ⊥ (λ p. program_of p ≡ q)) }
{
    let mut cursor = Cursor::new(tokens);
    if !cursor.takes_all(&FRONT) {
        return Ok(None);
    }
    let Some(program) = body(alloc, &mut cursor)? else {
        return Ok(None);
    };
    if !cursor.takes(Fixed::Semicolon) {
        return Ok(None);
    }
    if !cursor.left().is_empty() {
        return Ok(None);
    }
    Ok(Some(program))
}

// What stands behind the `rt` of an exit.
const EXIT: [Fixed; 2] = [Fixed::PathSeparator, Fixed::Exit];

// Takes the body of `main`.
fn body(alloc: Global, tokens: &mut Cursor) -> Result<Option<Program>, AllocError>
    ensures { IfOk result (λ o. IsRead body_tokens ProgramFits Anything (option_map program_of o) tokens.old tokens.new) }
{
    if tokens.takes(Fixed::Runtime) {
        if !tokens.takes_all(&EXIT) {
            return Ok(None);
        }
        let Some(value) = status(alloc, tokens)? else {
            return Ok(None);
        };
        return Ok(Some(Program::Exit(value)));
    }
    let Some(statements) = block(alloc, tokens, MOST_BLOCKS)? else {
        return Ok(None);
    };
    Ok(Some(Program::Block(statements)))
}

// Whether a program keeps the limits of its file, and declares each name before it is used.
fn is_of_class(
    alloc: Global,
    size: usize,
    tokens: &[Token],
    program: &Program,
) -> Result<bool, AllocError>
    requires spelled { tokens.now ≡ file_tokens (program_of program.now) }
    requires fits { ProgramFits (program_of program.now) }
    requires small { size ≤ 65536 }
    ensures { IfOk result (λ b. IsTrue b ↔ IsOfClass size (program_of program.now)) }
{
    match program {
        Program::Exit(value) => Ok(is_exit_file(alloc, size, tokens, value)),
        Program::Block(body) => is_block_file(alloc, body),
    }
}

fn is_exit_file(alloc: Global, size: usize, tokens: &[Token], value: &Expr) -> bool
    requires { tokens.now ≡ file_tokens (trees.exit_of value.now) }
    ensures { IsTrue result ↔ IsExitFile size value.now }
{
    if size > MOST_EXIT_BYTES {
        return false;
    }
    if !is_limited(tokens) {
        return false;
    }
    expr_holds(value, &Scope::new(alloc))
}

fn is_block_file(alloc: Global, body: &Statements) -> Result<bool, AllocError>
    ensures { IfOk result (λ b. IsTrue b ↔ AllNamesHold [] (list_of_statements body.now)) }
{
    let mut scope = Scope::new(alloc);
    block_holds(body, &mut scope)
}
