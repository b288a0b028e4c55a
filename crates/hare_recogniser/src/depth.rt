//! The first token at which a limit on depth is passed.

ghost use Rattle.std.specs.Prelude.{◌≡◌, true, None, drop, IfOk};
ghost use Rattle.hare_tree.specs.Grammar.{trees_of, files};
ghost use Rattle.hare_prefixes.specs.Viable.{has_trees};
ghost use Rattle.hare_recogniser.specs.Limits as spec;

use crate::gauge::gauge;
use hare_automaton::Rule;
use hare_ll_table::{of, part};
use hare_tree::{Sort, Tokens};
use std::alloc::{AllocError, Global};

/// The place in the list of the first token, from a place on, at which a limit on depth is passed in every tree of the sort that goes on
/// with what can be read; none where the limits are kept. The place is counted in the whole list. The sort is one of which there are trees:
/// a level is from 1 to 16, and it is neither `Left` nor `Right`.
///
/// The time is linear in the tokens. No tree is built. An error is want of memory.
pub fn depth_fault(
    alloc: Global,
    tokens: &Tokens,
    at: usize,
    sort: Sort,
) -> Result<Option<usize>, AllocError>
    requires { has_trees sort ≡ true }
    ensures value { IfOk result (λ d. spec.IsFirstDepth (trees_of sort) (drop at tokens.now) at d) }
    ensures shallow { IfOk result (λ d. d ≡ None → spec.TreesFit sort (drop at tokens.now)) }
{
    let gauged = gauge(alloc, tokens, at, &[of(sort)])?;
    Ok(gauged.fault)
}

/// The place in the list of the first token of a file at which a limit on depth is passed, E9, in every file that goes on with what can be
/// read; none where the limits are kept.
///
/// The time is linear in the tokens. No tree is built. An error is want of memory.
pub fn depth_fault_of_file(alloc: Global, tokens: &Tokens) -> Result<Option<usize>, AllocError>
    ensures value { IfOk result (λ d. spec.IsFirstDepth files tokens.now 0 d) }
    ensures shallow { IfOk result (λ d. d ≡ None → spec.FilesFit tokens.now) }
{
    let gauged = gauge(
        alloc,
        tokens,
        0,
        &[part(Rule::Each(Sort::Use)), part(Rule::Each(Sort::Decl))],
    )?;
    Ok(gauged.fault)
}
