//! What comes of one token.

ghost use Rattle.std.specs.Prelude.{◌≡◌, IfOk};
ghost use Rattle.hare_automaton.specs.Engine as engine;
ghost use Rattle.hare_ll_table.specs.Seen.{waited, has_room};
ghost use Rattle.hare_parse.specs.Steps.{Says};

use crate::change::{all_changed, close};
use crate::group::Group;
use hare_automaton::{Class, Symbol};
use hare_ll_table::{
    Answer, Row, RowBuffer, Spare, Stack, Wait, has_sign, next_symbol, push_waits, row_at,
};
use hare_tree::{Token, Tree};
use std::alloc::AllocError;

/// Reads one token of the file, of which the class is given: the trees under way that are whole in front of it are closed, and it is used
/// by the first rule that has a place for it. Rows are made in the buffer.
#[tactic(auto, unfolding(hare_automaton::specs::Engine::step))]
pub fn step(
    spare: &mut Spare<Tree>,
    file: u32,
    token: &Token,
    class: Class,
    buffer: &mut RowBuffer,
    stack: &mut Stack<Wait>,
    groups: &mut Stack<Group>,
) -> Result<Answer, AllocError>
    requires { has_room class }
    ensures { IfOk result (λ a. Says (engine.step file token.now class (waited stack.old) groups.old) a (waited stack.new) groups.new) }
{
    while let Some(symbol) = next_symbol(stack)? {
        match symbol {
            Symbol::Close(kind) => close(spare, kind, groups)?,
            Symbol::Want(sign) => {
                if has_sign(sign, class) {
                    return Ok(Answer::Goes);
                }
                return Ok(Answer::Stuck);
            }
            Symbol::Part(rule) => match row_at(buffer, rule, class)? {
                Row::Fault => return Ok(Answer::Stuck),
                Row::Skips(changes) => all_changed(spare, file, token, changes, groups)?,
                Row::Uses(changes, waits) => {
                    all_changed(spare, file, token, changes, groups)?;
                    push_waits(stack, waits)?;
                    return Ok(Answer::Goes);
                }
            },
        }
    }
    Ok(Answer::Ends)
}
