//! The gauge of depth: the run of the grammar's machine with marks in place of trees, which tells the tokens at which a limit is passed.

ghost use Rattle.std.specs.Prelude.{◌≡◌, ◌+◌, ◌-◌, ◌<◌, ◌≤◌, IfOk, IfSome, length};
ghost use Rattle.hare_nesting.specs.Gauge as gauges;
ghost use Rattle.hare_recogniser.specs.Gauged as spec;
ghost use Rattle.hare_ll_table.specs.Seen.{waited};

use crate::agenda::Agenda;
use crate::frame::Frame;
use crate::run::{Halted, Stop, run};
use hare_ll_table::{Stack, Wait};
use hare_tree::Tokens;
use std::alloc::{AllocError, Global};

/// What the gauge says of tokens.
#[derive(Clone, Copy, Debug)]
pub struct Gauged {
    /// The place in the list of the least token at which a limit is passed; none where the limits are kept.
    pub fault: Option<usize>,
    /// Where the run stands still.
    pub stop: Stop,
}

/// Runs the gauge over the tokens from a place of their list on, where this is waited for. Strings side by side are one token.
///
/// The call takes time and memory linear in the tokens that it reads, and no more of the host's stack for deeper trees.
#[tactic(auto, using(crate::proofs::Told::NumbersWithin::told_within))]
pub fn gauge(
    alloc: Global,
    tokens: &Tokens,
    from: usize,
    symbols: &[Wait],
) -> Result<Gauged, AllocError>
    ensures fault { IfOk result (λ g. spec.IsLeastOf (spec.gauged_from tokens.now from (waited symbols.now)).faults from g.fault) }
    ensures within { IfOk result (λ g. IfSome g.fault (λ m. m < length tokens.now)) }
    ensures stop { IfOk result (λ g. spec.Stops tokens.now from (spec.gauged_from tokens.now from (waited symbols.now)) g.stop) }
{
    let mut agenda = Agenda::of(alloc, symbols)?;
    let mut frames = start(alloc)?;
    let Halted { told, stop } = run(alloc, tokens, from, &mut agenda, &mut frames)?;
    match told {
        Some(number) => Ok(Gauged {
            fault: Some(place_of(tokens, from, number)),
            stop,
        }),
        None => Ok(Gauged { fault: None, stop }),
    }
}

/// Nothing is under way.
fn start(alloc: Global) -> Result<Stack<Frame>, AllocError>
    ensures { IfOk result (λ frames. frames ≡ gauges.start) }
{
    let mut frames = Stack::new(alloc);
    frames.push(Frame::begun(1, Vec::new(alloc)))?;
    Ok(frames)
}

/// The place in the list of the token with this number, where the one at `from` has the number 1.
fn place_of(tokens: &Tokens, from: usize, number: usize) -> usize
    requires first { 0 < number }
    requires within { from + number ≤ length tokens.now }
    ensures value { result ≡ from + number - 1 }
    ensures within { result < length tokens.now }
{
    // No token has a number past the end of the list.
    tokens.len().min(from + number) - 1
}
