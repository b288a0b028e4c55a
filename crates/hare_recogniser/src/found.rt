//! The tokens at which a limit on depth is passed.

ghost use Rattle.std.specs.Prelude.{◌≡◌};
ghost use Rattle.hare_nesting.specs.Gauge as gauges;
ghost use Rattle.hare_recogniser.specs.Least as least;

use crate::frame::Frame;
use crate::nodes::Nodes;
use hare_ll_table::Stack;

/// The least token at which a limit is passed, as far as the innermost tree under way shows it.
#[tactic(auto, using(crate::proofs::Told::Least::least_append))]
pub fn found(nodes: &Nodes, frames: &Stack<Frame>) -> Option<usize>
    ensures { result ≡ least.least (gauges.found nodes.now frames.now) }
{
    match frames.top() {
        Some(frame) => lesser(
            deep_frame(nodes, frame),
            lesser(frame.deep_kid(nodes.opened()), frame.high_operand()),
        ),
        None => None,
    }
}

/// The first token of the innermost tree under way, where it is a node with 256 nodes open round it.
fn deep_frame(nodes: &Nodes, frame: &Frame) -> Option<usize>
    ensures { result ≡ least.least (gauges.deep_frame nodes.now frame.now) }
{
    if nodes.is_too_deep() {
        Some(frame.first())
    } else {
        None
    }
}

/// The lesser of two tokens.
pub fn lesser(a: Option<usize>, b: Option<usize>) -> Option<usize>
    ensures { result ≡ least.lesser a b }
{
    match (a, b) {
        (Some(a), Some(b)) => Some(a.min(b)),
        (Some(a), None) => Some(a),
        (None, b) => b,
    }
}
