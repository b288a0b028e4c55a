//! What can be reached from a node.

ghost use Rattle.std.specs.Prelude.{◌≡◌, ◌↔◌, ◌<◌, length, IsTrue, IfOk};
ghost use Rattle.hare_graph.specs.Graphs.{Reached};
ghost use Rattle.hare_graph.specs.Ranks as spec;

use crate::graph::Graph;
use crate::labels::{flood, label_of, no_labels};
use std::alloc::{AllocError, Global};

/// Whether a node leads to another, or is it. The conditions are that `from` is a node, and that each edge of the graph leads to a node.
/// Fails for want of memory alone.
pub fn leads_to(alloc: Global, graph: &Graph, from: usize, to: usize) -> Result<bool, AllocError>
    requires there { from < length graph.now }
    requires stays { spec.StaysWithin graph.now }
    ensures { IfOk result (λ b. IsTrue b ↔ Reached graph.now from to) }
{
    let mut labels = no_labels(alloc, graph.len())?;
    flood(alloc, graph, &mut labels, from, 0)?;
    Ok(label_of(&labels, to).is_some())
}

/// Whether the second node has a higher rank than the first.
pub fn leads_up(ranks: &[Option<usize>], from: usize, to: usize) -> bool
    ensures { result ≡ spec.leads_up ranks.now from to }
{
    match label_of(ranks, from) {
        Some(low) => match label_of(ranks, to) {
            Some(high) => low < high,
            None => false,
        },
        None => false,
    }
}
