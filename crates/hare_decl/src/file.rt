//! A file read from its tokens.

ghost use Rattle.std.specs.Prelude.{◌≡◌, ◌<◌, length, IfOk, IfErr};
ghost use Rattle.hare_tree.specs.Grammar as grammar;
ghost use Rattle.hare_tree.specs.declared.place.Fault.{Fault};
ghost use Rattle.hare_tree.specs.declared.tree.FileTree.{FileTree};
ghost use Rattle.hare_lex.specs.Order.{AreOfFile};
ghost use Rattle.hare_decl.specs.Answers as spec;

use crate::syntax::{Syntax, syntax_of};
use hare_tree::{Fault, FileTree, Place, Stop, Tokens};
use std::alloc::Global;

/// The tree of the file with these tokens, which are all of the file with this number, as those are that a lexer gives (Hare specification,
/// "Grammar"): the one tree within the limits on depth that spells the tokens and has their places.
///
/// Else the fault is E8 at the first token with which no file begins, or E9 at the first at which a limit on depth is passed, whichever
/// stands first. Tokens that end before their file does, as none do that a lexer gives, have E8 at the last of them.
///
/// The time is linear in the tokens.
pub fn parse_file(alloc: Global, file: u32, t: &Tokens) -> Result<FileTree, Stop<Fault>>
    requires { AreOfFile file t.now }
    ensures ok { IfOk result (λ tree. spec.IsFile file t.now tree) }
    ensures err { IfErr result (λ e. spec.Stops (spec.HasFault file t.now) e) }
    ensures only_tree { (tree : FileTree) → spec.IsFile file t.now tree → spec.GivesTree tree result }
    ensures only_fault { (f : Fault) → spec.HasFault file t.now f → spec.GivesFault f result }
{
    file_of(alloc, file, t)
}

/// The same of any tokens.
fn file_of(alloc: Global, file: u32, t: &Tokens) -> Result<FileTree, Stop<Fault>>
    ensures ok { IfOk result (λ tree. spec.IsFile file t.now tree) }
    ensures err { IfErr result (λ e. spec.Stops (spec.HasFault file t.now) e) }
{
    match syntax_of(alloc, file, t)? {
        Syntax::Whole(tree) => Ok(tree),
        Syntax::Faulty(number, n) => Err(Stop::Fault(fault_at(t, number, n))),
        Syntax::Cut => Err(Stop::Fault(Fault {
            number: 8,
            place: last_place(file, t),
        })),
    }
}

/// The fault with this number at the token at a place of the list.
pub fn fault_at(t: &Tokens, number: u8, n: usize) -> Fault
    requires { n < length t.now }
    ensures { result ≡ grammar.fault_at t.now number n }
{
    match t.get(n) {
        Some(token) => Fault {
            number,
            place: token.place,
        },
        None => unreachable!(),
    }
}

/// The place of the last token, or where there is none the start of the file.
fn last_place(file: u32, t: &Tokens) -> Place
    ensures { result ≡ spec.last_place file t.now }
{
    let mut place = Place {
        file,
        line: 1,
        column: 1,
    };
    if let Some(last) = t.len().checked_sub(1) {
        if let Some(token) = t.get(last) {
            place = token.place;
        }
    }
    place
}
