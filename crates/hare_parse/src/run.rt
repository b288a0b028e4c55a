//! The whole run: tokens are read from a place on, up to the first that is not used.

ghost use Rattle.std.specs.Prelude.{◌≡◌, ◌++◌, List, Some, drop, slice_get, IfOk, IfSome};
ghost use Rattle.hare_tree.specs.declared.token.Token.{Token};
ghost use Rattle.hare_tree.specs.Grammar.{joined};
ghost use Rattle.hare_automaton.specs.Engine as engine;
ghost use Rattle.hare_ll_table.specs.Seen.{waited};
ghost use Rattle.hare_ll_table.specs.Places.{IsPlace};
ghost use Rattle.hare_parse.specs.Runs as spec;

use crate::change::start_of;
use crate::group::Group;
use crate::step::step;
use hare_ll_table::{
    Answer, Joined, RowBuffer, Spare, Stack, Wait, class_of, is_proper_string, place_behind,
    strings_at,
};
use hare_tree::{Token, Tokens, Tree};
use std::alloc::{AllocError, Global};

/// What came of the token at a place of the list, and the place of the next.
#[derive(Clone, Copy)]
pub struct Read {
    answer: Answer,
    next: usize,
}

/// What came of the tokens.
#[derive(Clone, Copy, Debug, PartialEq, Eq)]
pub enum Reached {
    /// All is read. The number is the place in the list of the token that was not used.
    End(usize),
    /// The token at this place of the list cannot stand there, or the tokens are used up.
    Stuck(usize),
}

/// A tree that is no higher than this keeps both limits on depth.
pub const HIGHEST: usize = 256;

/// So many trees are under way at the most where so many types, expressions and statements are open in one another as may be.
const MOST_UNDER_WAY: usize = 768;

/// The trees under way before the first token is read.
pub fn bottom(alloc: Global) -> Result<Stack<Group>, AllocError>
    ensures { IfOk result (λ groups. groups ≡ engine.bottom) }
{
    let mut groups = Stack::new(alloc);
    groups.push(Group::begun(alloc, start_of(0), Vec::new(alloc)))?;
    Ok(groups)
}

/// Reads the tokens of the file from a place of the list on.
#[tactic(auto, unfolding(hare_automaton::specs::Engine::run))]
pub fn run(
    alloc: Global,
    file: u32,
    tokens: &Tokens,
    from: usize,
    stack: &mut Stack<Wait>,
    groups: &mut Stack<Group>,
) -> Result<Reached, AllocError>
    ensures value { IfOk result (λ r. engine.run file (joined (drop from tokens.now)) (waited stack.old) groups.old ≡ spec.outcome_in r
        tokens.now groups.new) }
    ensures place { IfOk result (λ r. IsPlace tokens.now from (spec.place_in r)) }
    ensures onward { IfOk result (λ r. spec.IsUsedUp r tokens.now → (us : List Token) →
        engine.run file (joined (drop from tokens.now) ++ us) (waited stack.old) groups.old ≡ engine.run file us (waited stack.new)
        groups.new) }
{
    let mut buffer = RowBuffer::new(alloc);
    let mut spare = Spare::new(alloc);
    let mut at = from;
    while let Some(token) = tokens.get(at) {
        let read = read_at(
            &mut spare,
            file,
            tokens,
            at,
            token,
            &mut buffer,
            stack,
            groups,
        )?;
        match read.answer {
            Answer::Goes => at = read.next,
            Answer::Ends => return Ok(Reached::End(at)),
            Answer::Stuck => return Ok(Reached::Stuck(at)),
        }
    }
    Ok(Reached::Stuck(at))
}

/// The same while no tree under way becomes higher than 256, and no more than 768 are under way; none where one does or more are. So a tree
/// that is built has at most 1,536 trees one in the other.
#[tactic(auto, unfolding(hare_automaton::specs::Engine::run))]
pub fn run_low(
    alloc: Global,
    file: u32,
    tokens: &Tokens,
    stack: &mut Stack<Wait>,
    groups: &mut Stack<Group>,
) -> Result<Option<Reached>, AllocError>
    ensures value { IfOk result (λ o. IfSome o (λ r. engine.run file (joined tokens.now) (waited stack.old) groups.old ≡
        spec.outcome_in r tokens.now groups.new)) }
    ensures place { IfOk result (λ o. IfSome o (λ r. IsPlace tokens.now 0 (spec.place_in r))) }
{
    let mut buffer = RowBuffer::new(alloc);
    let mut spare = Spare::new(alloc);
    let mut at = 0;
    while let Some(token) = tokens.get(at) {
        let read = read_at(
            &mut spare,
            file,
            tokens,
            at,
            token,
            &mut buffer,
            stack,
            groups,
        )?;
        match read.answer {
            Answer::Goes if is_low(groups) => at = read.next,
            Answer::Goes => return Ok(None),
            Answer::Ends => return Ok(Some(Reached::End(at))),
            Answer::Stuck => return Ok(Some(Reached::Stuck(at))),
        }
    }
    Ok(Some(Reached::Stuck(at)))
}

/// Whether few trees are under way, and the kids of the innermost are low.
fn is_low(groups: &Stack<Group>) -> bool {
    match groups.top() {
        Some(group) => group.highest() <= HIGHEST && groups.len() <= MOST_UNDER_WAY,
        None => true,
    }
}

/// Reads the token at a place of the list, where strings side by side are one.
fn read_at(
    spare: &mut Spare<Tree>,
    file: u32,
    tokens: &Tokens,
    at: usize,
    token: &Token,
    buffer: &mut RowBuffer,
    stack: &mut Stack<Wait>,
    groups: &mut Stack<Group>,
) -> Result<Read, AllocError>
    requires { Some token.now ≡ slice_get tokens.now at }
    ensures { IfOk result (λ r. spec.Reads file tokens.now at (waited stack.old) groups.old r (waited stack.new) groups.new) }
{
    if is_proper_string(token) {
        let Joined { token, next } = strings_at(spare.alloc(), tokens, at, token)?;
        let answer = step(spare, file, &token, class_of(&token), buffer, stack, groups)?;
        return Ok(Read { answer, next });
    }
    let answer = step(spare, file, token, class_of(token), buffer, stack, groups)?;
    Ok(Read {
        answer,
        next: place_behind(tokens, at),
    })
}
