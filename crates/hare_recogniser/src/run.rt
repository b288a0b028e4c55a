//! The run of the gauge: tokens are read from a place on, up to the first that is not used.

ghost use Rattle.std.specs.Prelude.{◌≡◌, ◌+◌, ◌-◌, ◌<◌, ◌≤◌, IfOk, drop, length};
ghost use Rattle.hare_nesting.specs.Gauge as gauges;
ghost use Rattle.hare_recogniser.specs.Agenda.{IsPaired};
ghost use Rattle.hare_recogniser.specs.Gauged as spec;
ghost use Rattle.hare_recogniser.specs.Least.{least};
ghost use Rattle.hare_ll_table.specs.Seen.{waited};

use crate::agenda::Agenda;
use crate::found::{found, lesser};
use crate::frame::Frame;
use crate::step::step;
use crate::width::place_behind_joined;
use hare_ll_table::{Answer, RowBuffer, Spare, Stack, class_of, place_behind};
use hare_tree::Tokens;
use std::alloc::{AllocError, Global};

/// Where a run stands still.
#[derive(Clone, Copy, Debug, PartialEq, Eq)]
pub enum Stop {
    /// All is read. The number is the place in the list of the token that was not used.
    Over(usize),
    /// The token at this place of the list cannot stand there, or the tokens are used up.
    Stuck(usize),
}

/// What a run comes to.
#[derive(Clone, Copy)]
pub struct Halted {
    /// The number of the least token at which a limit is passed. The tokens are numbered from 1.
    pub told: Option<usize>,
    /// Where it stands still.
    pub stop: Stop,
}

/// Reads the tokens from a place of the list on.
pub fn run(
    alloc: Global,
    tokens: &Tokens,
    from: usize,
    agenda: &mut Agenda,
    frames: &mut Stack<Frame>,
) -> Result<Halted, AllocError>
    requires { IsPaired agenda.old }
    ensures told { IfOk result (λ r. r.told ≡ least
        (gauges.gauge (spec.seen_from 1 (drop from tokens.now)) (waited agenda.old.waits) frames.old).faults) }
    ensures stops { IfOk result (λ r. spec.Stops tokens.now from
        (gauges.gauge (spec.seen_from 1 (drop from tokens.now)) (waited agenda.old.waits) frames.old) r.stop) }
{
    let mut buffer = RowBuffer::new(alloc);
    let mut spare = Spare::new(alloc);
    let mut told = None;
    let mut at = from;
    while let Some(token) = tokens.get(at) {
        let number = number_of(tokens, from, at);
        match step(
            &mut spare,
            number,
            class_of(token),
            &mut buffer,
            agenda,
            frames,
        )? {
            Answer::Goes => {
                told = lesser(told, found(&agenda.nodes, frames));
                at = place_behind_joined(tokens, at, token);
            }
            Answer::Ends => return Ok(stopped(told, Stop::Over(at))),
            Answer::Stuck => return Ok(stopped(told, Stop::Stuck(at))),
        }
    }
    Ok(stopped(told, Stop::Stuck(at)))
}

/// The number of the token at a place of the list, where the one at `from` has the number 1.
fn number_of(tokens: &Tokens, from: usize, at: usize) -> usize
    requires behind { from ≤ at }
    requires within { at < length tokens.now }
    ensures { result ≡ at - from + 1 }
{
    place_behind(tokens, at) - from
}

/// A run that has told this and stands still here.
fn stopped(told: Option<usize>, stop: Stop) -> Halted
    ensures told { result.told ≡ told }
    ensures stop { result.stop ≡ stop }
{
    Halted { told, stop }
}
