//! What comes of one token, as the marks show it.

ghost use Rattle.std.specs.Prelude.{◌≡◌, IfOk, OnOk};
ghost use Rattle.hare_nesting.specs.Gauge as gauges;
ghost use Rattle.hare_recogniser.specs.Agenda.{IsPaired};
ghost use Rattle.hare_recogniser.specs.Capped.{capped, capped_step};
ghost use Rattle.hare_recogniser.specs.Gauged.{Answers};
ghost use Rattle.hare_ll_table.specs.Seen.{waited, has_room};

use crate::agenda::Agenda;
use crate::change::{all_changed, close};
use crate::frame::{Frame, Mark};
use hare_automaton::{Class, Symbol};
use hare_ll_table::{Answer, Row, RowBuffer, Spare, Stack, has_sign, row_at};
use std::alloc::AllocError;

/// Reads the token with this number, of which the class is given: the trees under way that are whole in front of it are closed, and it is
/// used by the first rule that has a place for it. Rows are made in the buffer.
#[tactic(auto, using(crate::proofs::Steps::SteppedMarks::step_alike), unfolding(hare_nesting::specs::Gauge::step))]
pub fn step(
    spare: &mut Spare<Mark>,
    number: usize,
    class: Class,
    buffer: &mut RowBuffer,
    agenda: &mut Agenda,
    frames: &mut Stack<Frame>,
) -> Result<Answer, AllocError>
    requires room { has_room class }
    requires paired { IsPaired agenda.old }
    ensures value { IfOk result (λ a. Answers (capped_step (gauges.step number class (waited agenda.old.waits) frames.old)) a
        (waited agenda.new.waits) (capped frames.new)) }
    ensures paired { OnOk result (IsPaired agenda.new) }
{
    while let Some(symbol) = agenda.next()? {
        match symbol {
            Symbol::Close(kind) => close(spare, kind, frames)?,
            Symbol::Want(sign) => {
                if has_sign(sign, class) {
                    return Ok(Answer::Goes);
                }
                return Ok(Answer::Stuck);
            }
            Symbol::Part(rule) => match row_at(buffer, rule, class)? {
                Row::Fault => return Ok(Answer::Stuck),
                Row::Skips(changes) => all_changed(spare, number, changes, frames)?,
                Row::Uses(changes, waits) => {
                    all_changed(spare, number, changes, frames)?;
                    agenda.push_all(waits)?;
                    return Ok(Answer::Goes);
                }
            },
        }
    }
    Ok(Answer::Ends)
}
