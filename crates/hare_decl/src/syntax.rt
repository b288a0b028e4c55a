//! What the tokens of a file come to.

ghost use Rattle.std.specs.Prelude.{◌≡◌, true, false, IfOk};
ghost use Rattle.hare_tree.specs.declared.place.Place.{Place};
ghost use Rattle.hare_tree.specs.declared.token.Token.{Token};
ghost use Rattle.hare_decl.specs.Answers as spec;

use hare_parse::{FileOutcome, LowFile, read_file, read_low_file};
use hare_recogniser::depth_fault_of_file;
use hare_tree::{FileTree, Kids, Suffix, Token, TokenKind, Tokens};
use std::alloc::{AllocError, Global};

/// What the tokens of a file come to.
#[derive(Drop)]
pub enum Syntax {
    /// They are those of a file, with this tree.
    Whole(FileTree),
    /// Their first fault has this number, 8 or 9, and stands at the token at this place of the list.
    Faulty(u8, usize),
    /// They have no fault, and end before the file does.
    Cut,
}

/// Reads the tokens of a file. Most files have low trees and no fault, and are read once; that is given up where a tree becomes higher than
/// 256. Of any other file the depth is looked at, and it is read again, so that no tree comes of it that passes a limit.
pub fn syntax_of(alloc: Global, file: u32, tokens: &Tokens) -> Result<Syntax, AllocError>
    ensures value { IfOk result (λ s. spec.IsSyntax file tokens.now s) }
    ensures ended { IfOk result (λ s. spec.HasEnd tokens.now → s ≡ Syntax.Cut → ⊥) }
{
    match read_low_file(alloc, file, tokens)? {
        Some(LowFile { uses, decls, next }) if is_last_end(tokens, next) => {
            Ok(Syntax::Whole(FileTree { file, uses, decls }))
        }
        _ => gauged_syntax(alloc, file, tokens),
    }
}

/// Whether End stands at a place of the list, and nothing behind it.
fn is_last_end(tokens: &Tokens, n: usize) -> bool
    ensures { result ≡ true → spec.IsLastEnd tokens.now n }
{
    match tokens.get(n) {
        Some(token) if is_end(token) => tokens.len() - 1 <= n,
        _ => false,
    }
}

/// Reads the tokens of a file. The depth is looked at first, so that no tree is built that passes a limit.
fn gauged_syntax(alloc: Global, file: u32, tokens: &Tokens) -> Result<Syntax, AllocError>
    ensures value { IfOk result (λ s. spec.IsSyntax file tokens.now s) }
    ensures ended { IfOk result (λ s. spec.HasEnd tokens.now → s ≡ Syntax.Cut → ⊥) }
{
    if let Some(n) = depth_fault_of_file(alloc, tokens)? {
        return Ok(Syntax::Faulty(9, n));
    }
    match read_file(alloc, file, tokens)? {
        FileOutcome::Done(uses, decls, n) => Ok(over_at(file, tokens, uses, decls, n)),
        FileOutcome::Stuck(n) if n < tokens.len() => Ok(Syntax::Faulty(8, n)),
        FileOutcome::Stuck(_) => Ok(Syntax::Cut),
    }
}

/// What the tokens come to of which these imports and declarations stand in front of the token at a place of the list. Nothing but End may
/// follow them, and nothing may follow End.
fn over_at(file: u32, tokens: &Tokens, uses: Kids, decls: Kids, n: usize) -> Syntax
    requires { spec.IsOver file tokens.now uses decls n }
    ensures value { spec.IsSyntax file tokens.now result }
    ensures ended { result ≡ Syntax.Cut → ⊥ }
{
    match tokens.get(n) {
        Some(token) if is_end(token) => {
            if n < tokens.len() - 1 {
                return Syntax::Faulty(8, n + 1);
            }
            Syntax::Whole(FileTree { file, uses, decls })
        }
        _ => Syntax::Faulty(8, n),
    }
}

/// Whether the token is End, with nothing more.
fn is_end(token: &Token) -> bool
    ensures yes { result ≡ true → spec.IsEnd token.now }
    ensures no { result ≡ false → spec.IsEnd token.now → ⊥ }
{
    token.kind == TokenKind::End
        && token.text.bytes().is_empty()
        && token.number == 0
        && token.suffix == Suffix::None
}
