//! A tree read from the tokens of a file.

ghost use Rattle.std.specs.Prelude.{◌≡◌, [], ◌∷◌, drop, IfOk};
ghost use Rattle.hare_tree.specs.declared.token.TokenKind.TheVariants as kinds;
ghost use Rattle.hare_tree.specs.Spell.{word_token};
ghost use Rattle.hare_tree.specs.Grammar.{joined};
ghost use Rattle.hare_automaton.specs.Rows as rows;
ghost use Rattle.hare_automaton.specs.Engine as engine;
ghost use Rattle.hare_ll_table.specs.Seen.{waited};
ghost use Rattle.hare_ll_table.specs.Places.{IsPlace};
ghost use Rattle.hare_nesting.specs.Depth.{closed};
ghost use Rattle.hare_parse.specs.Runs as spec;

use crate::change::start_of;
use crate::group::Group;
use crate::run::{Reached, bottom, run};
use crate::step::step;
use hare_ll_table::{Answer, RowBuffer, Spare, Stack, Wait, class_of, of};
use hare_tree::{Sort, Suffix, Token, TokenKind, Tokens, Tree, Word};
use std::alloc::{AllocError, Global};

/// What tokens come to.
#[derive(Drop)]
pub enum Outcome {
    /// The tree. The number is the place in the list of tokens of the first that is not used.
    Done(Tree, usize),
    /// The token at this place of the list cannot stand there, or the tokens are used up before the tree is whole.
    Stuck(usize),
}

/// Reads a tree of the sort from the tokens of a file, from a place of their list on. Strings side by side are one token. Behind the last
/// token stands End, if it is not there itself.
///
/// The call takes time linear in the tokens that it reads. It uses the host's stack only where a tree is given up, as deep as the tree is,
/// so its caller looks at the depth first.
pub fn read(
    alloc: Global,
    file: u32,
    tokens: &Tokens,
    at: usize,
    sort: Sort,
) -> Result<Outcome, AllocError>
    ensures run { IfOk result (λ o. engine.run file (joined (closed (drop at tokens.now))) (rows.of sort ∷ []) engine.bottom ≡
        spec.outcome_of o tokens.now) }
    ensures place { IfOk result (λ o. IsPlace tokens.now at (spec.place_of o)) }
{
    let mut stack = Stack::new(alloc);
    stack.push(of(sort))?;
    let mut groups = bottom(alloc)?;
    match run(alloc, file, tokens, at, &mut stack, &mut groups)? {
        Reached::End(next) => Ok(Outcome::Done(tree_in(&mut groups), next)),
        Reached::Stuck(next) if next < tokens.len() => Ok(Outcome::Stuck(next)),
        Reached::Stuck(next) => {
            if ends(alloc, file, &mut stack, &mut groups)? {
                return Ok(Outcome::Done(tree_in(&mut groups), next));
            }
            Ok(Outcome::Stuck(next))
        }
    }
}

/// Whether nothing is waited for in front of End, where all trees under way are closed that are whole there.
fn ends(
    alloc: Global,
    file: u32,
    stack: &mut Stack<Wait>,
    groups: &mut Stack<Group>,
) -> Result<bool, AllocError>
    ensures { IfOk result (λ ends. engine.run file (closed []) (waited stack.old) groups.old ≡ spec.outcome_at_end ends groups.new) }
{
    let end = end_token(alloc);
    let mut buffer = RowBuffer::new(alloc);
    let mut spare = Spare::new(alloc);
    match step(
        &mut spare,
        file,
        &end,
        class_of(&end),
        &mut buffer,
        stack,
        groups,
    )? {
        Answer::Ends => Ok(true),
        Answer::Goes | Answer::Stuck => Ok(false),
    }
}

/// End, as it stands behind the tokens of a list.
fn end_token(alloc: Global) -> Token
    ensures { result ≡ word_token 0 kinds.End [] }
{
    Token {
        kind: TokenKind::End,
        place: start_of(0),
        text: Word::new(alloc),
        number: 0,
        suffix: Suffix::None,
    }
}

/// Takes the tree out, of which there is one.
fn tree_in(groups: &mut Stack<Group>) -> Tree
    requires { spec.HoldsTree groups.old }
    ensures { groups.old ≡ engine.add result engine.bottom }
{
    let Some(mut group) = groups.pop() else {
        unreachable!()
    };
    match group.take_last() {
        Some(tree) => tree,
        None => unreachable!(),
    }
}
