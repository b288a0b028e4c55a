//! What is waited for: a stack of symbols, of which those that a form is read by stand as one entry.

ghost use Rattle.std.specs.Prelude.{◌≡◌, [], ◌∷◌, ◌++◌, List, OnOk, IfOk, MatchOption};
ghost use Rattle.std.specs.Option.{option_to_list};
ghost use Rattle.hare_tree.specs.declared.form.Piece.{Piece};
ghost use Rattle.hare_automaton.specs.Rows.{symbols, rest_of};
ghost use Rattle.hare_ll_table.specs.declared.row.Wait as wait;
ghost use Rattle.hare_ll_table.specs.Seen.{waited};

use crate::row::Wait;
use crate::stack::Stack;
use hare_automaton::{Rule, Symbol};
use hare_tree::{Kind, Piece, form_of};
use std::alloc::AllocError;

/// Puts what is waited for on the stack, the first of it on top. An error is want of memory; part of it may be on the stack then.
pub fn push_waits(stack: &mut Stack<Wait>, waits: &[Wait]) -> Result<(), AllocError>
    ensures { OnOk result (waited stack.new ≡ waited waits.now ++ waited stack.old) }
{
    let mut left = waits.len();
    while left > 0 {
        left -= 1;
        stack.push(waits[left])?;
    }
    Ok(())
}

/// Takes the symbol that is waited for next; none where nothing is. What is left of a form stays on top of the stack, in place of the
/// form, so that no memory is asked for.
#[tactic(auto, using(crate::proofs::StackTop::Rests::one_goes))]
pub fn next_symbol(stack: &mut Stack<Wait>) -> Result<Option<Symbol>, AllocError>
    ensures { IfOk result (λ next. MatchOption next ((waited stack.old ≡ []) × (waited stack.new ≡ []))
        (λ s. waited stack.old ≡ s ∷ waited stack.new)) }
{
    let Some(top) = stack.top() else {
        return Ok(None);
    };
    match *top {
        Wait::One(symbol) => {
            stack.drop_top();
            Ok(Some(symbol))
        }
        Wait::Rest(from, kind) => Ok(Some(next_of_form(stack, from, kind))),
    }
}

/// The next symbol of what is left of a form, which is the top of the stack. What is left behind the symbol takes its place.
#[tactic(auto, using(crate::proofs::StackTop::Rests::rest_goes, crate::proofs::StackTop::Rests::rest_ends))]
fn next_of_form(stack: &mut Stack<Wait>, from: usize, kind: Kind) -> Symbol
    requires { (rest : List wait.Wait) × (stack.old ≡ Wait.Rest from kind ∷ rest) }
    ensures { waited stack.old ≡ result ∷ waited stack.new }
{
    match first_of_form(from, kind) {
        Some((symbol, next)) => {
            stack.replace_top(Wait::Rest(next, kind));
            symbol
        }
        None => {
            stack.drop_top();
            Symbol::Close(kind)
        }
    }
}

/// The first symbol of what is left of a form behind so many of its pieces, and how many pieces are in front of what follows it; none where
/// the form is over.
fn first_of_form(from: usize, kind: Kind) -> Option<(Symbol, usize)>
    ensures { MatchOption result (rest_of from kind ≡ Symbol.Close kind ∷ []) (λ r. rest_of from kind ≡ r.0 ∷ rest_of r.1 kind) }
{
    let form = form_of(kind);
    let mut at = from;
    while let Some(piece) = form.get(at) {
        at += 1;
        if let Some(symbol) = symbol_of(*piece) {
            return Some((symbol, at));
        }
    }
    None
}

/// What is waited for in order to read a piece. A kid with a sign behind it and the value of a `yield` are read by rules of their own.
fn symbol_of(piece: Piece) -> Option<Symbol>
    ensures { (ps : List Piece) → symbols (piece ∷ ps) ≡ option_to_list result ++ symbols ps }
{
    match piece {
        Piece::Fixed(sign) => Some(Symbol::Want(sign)),
        Piece::Own(own) => Some(Symbol::Part(Rule::Own(own))),
        Piece::Kid(sort) => Some(Symbol::Part(Rule::Of(sort))),
        Piece::Optional(sort) => Some(Symbol::Part(Rule::Optional(sort))),
        Piece::Led(sign, sort) => Some(Symbol::Part(Rule::Led(sign, sort))),
        Piece::Followed(_, _) | Piece::Value(_) => None,
        Piece::Each(sort) => Some(Symbol::Part(Rule::Each(sort))),
        Piece::EachLed(sign, sort) => Some(Symbol::Part(Rule::EachLed(sign, sort))),
        Piece::EachFollowed(sort, sign) => Some(Symbol::Part(Rule::EachFollowed(sort, sign))),
        Piece::More(sort) => Some(Symbol::Part(Rule::More(sort))),
        Piece::List(sort) => Some(Symbol::Part(Rule::List(sort))),
        Piece::Elements(_) => Some(Symbol::Part(Rule::Elements)),
        Piece::MoreElements(_) => Some(Symbol::Part(Rule::MoreElements)),
    }
}
