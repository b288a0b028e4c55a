//! A file read from its bytes.

ghost use Rattle.std.specs.Prelude.{◌≡◌, ◌+◌, ◌^◌, ◌<◌, length, IfOk, IfErr};
ghost use Rattle.hare_tree.specs.declared.place.Fault.{Fault};
ghost use Rattle.hare_tree.specs.declared.tree.FileTree.{FileTree};
ghost use Rattle.hare_tree.specs.Grammar.{IsLeastFault};
ghost use Rattle.hare_decl.specs.Answers as spec;

use crate::file::fault_at;
use crate::syntax::{Syntax, syntax_of};
use hare_lex::{LexStop, tokens};
use hare_tree::{Fault, FileTree, Stop, Tokens};
use std::alloc::Global;

/// The tree of the file with these bytes, of which there are fewer than 2^32 - 1: that of its tokens.
///
/// Else the fault is the least of the faults of its tokens, E8 and E9, and of the first place where they break off, E3 to E7 and E10: where
/// the tokens in front of a break begin a file and pass no limit on depth, the break is the fault.
///
/// The time is linear in the bytes.
pub fn parse_source(alloc: Global, file: u32, src: &[u8]) -> Result<FileTree, Stop<Fault>>
    requires { length src.now + 1 < 2 ^ 32 }
    ensures ok { IfOk result (λ tree. spec.IsSource file src.now tree) }
    ensures err { IfErr result (λ e. spec.Stops (spec.HasSourceFault file src.now) e) }
    ensures only_tree { (tree : FileTree) → spec.IsSource file src.now tree → spec.GivesTree tree result }
    ensures only_fault { (f : Fault) → spec.HasSourceFault file src.now f → spec.GivesFault f result }
{
    source_of(alloc, file, src)
}

/// The tree of the file with these bytes, or its first fault.
fn source_of(alloc: Global, file: u32, src: &[u8]) -> Result<FileTree, Stop<Fault>>
    requires { length src.now + 1 < 2 ^ 32 }
    ensures ok { IfOk result (λ tree. spec.IsSource file src.now tree) }
    ensures err { IfErr result (λ e. spec.Stops (spec.HasSourceFault file src.now) e) }
{
    match tokens(alloc, file, src) {
        Ok(tokens) => tree_of(alloc, file, &tokens),
        Err(LexStop::Fault { fault, kept }) => Err(least(alloc, file, kept, fault)),
        Err(LexStop::Memory) => Err(Stop::Memory),
    }
}

/// The tree of a file with these tokens, of which the last is End, or their first fault.
fn tree_of(alloc: Global, file: u32, tokens: &Tokens) -> Result<FileTree, Stop<Fault>>
    requires { spec.HasEnd tokens.now }
    ensures ok { IfOk result (λ tree. spec.IsFile file tokens.now tree) }
    ensures err { IfErr result (λ e. spec.Stops (spec.HasFirstFault tokens.now) e) }
{
    match syntax_of(alloc, file, tokens)? {
        Syntax::Whole(tree) => Ok(tree),
        Syntax::Faulty(number, n) => Err(Stop::Fault(fault_at(tokens, number, n))),
        Syntax::Cut => unreachable!(),
    }
}

/// The least fault of a file whose tokens break off with this one, where these are kept, the last of them End.
fn least(alloc: Global, file: u32, mut kept: Tokens, lexical: Fault) -> Stop<Fault>
    ensures { spec.Stops (IsLeastFault kept lexical) result }
{
    kept.drop_last();
    match syntax_of(alloc, file, &kept) {
        Ok(Syntax::Faulty(number, n)) => Stop::Fault(fault_at(&kept, number, n)),
        Ok(Syntax::Whole(_)) => Stop::Fault(lexical),
        Ok(Syntax::Cut) => Stop::Fault(lexical),
        Err(_) => Stop::Memory,
    }
}
