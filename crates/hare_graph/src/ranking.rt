//! Ranks of nodes, such that no edge leads to a lower one.

ghost use Rattle.std.specs.Prelude.{◌≡◌, IfOk};
ghost use Rattle.hare_graph.specs.Ranks.{AreRanks, IsReverse};

use crate::graph::Graph;
use crate::labels::{flood, no_labels};
use std::alloc::{AllocError, Global};

/// Ranks of the nodes of a graph, by the graph with the same edges the other way round: `backward` has as many nodes as `forward`, and an
/// edge the other way round for each edge of it. Fails for want of memory alone.
pub fn ranks(
    alloc: Global,
    forward: &Graph,
    backward: &Graph,
) -> Result<Vec<Option<usize>>, AllocError>
    requires { IsReverse forward.now backward.now }
    ensures { IfOk result (λ rs. AreRanks forward.now rs.items) }
{
    let order = finished(alloc, forward)?;
    let mut ranks = no_labels(alloc, forward.len())?;
    let count = order.len();
    for rank in 0..count {
        let start = order[count - 1 - rank];
        flood(alloc, backward, &mut ranks, start, rank)?;
    }
    Ok(ranks)
}

/// A node on the way, with the number of the next of its edges.
#[derive(Clone, Copy)]
struct Step {
    node: usize,
    edge: usize,
}

/// The nodes in the order in which a search in depth is done with them. Were it another order, ranks would be coarser than they could be.
fn finished(alloc: Global, graph: &Graph) -> Result<Vec<usize>, AllocError> {
    let mut seen = no_labels(alloc, graph.len())?;
    let mut order = Vec::new(alloc);
    let mut way = Vec::new(alloc);
    for start in 0..graph.len() {
        finish(graph, &mut seen, &mut order, &mut way, start)?;
    }
    Ok(order)
}

/// The same from one node on, over nodes that were not seen. The way to it is empty.
fn finish(
    graph: &Graph,
    seen: &mut Vec<Option<usize>>,
    order: &mut Vec<usize>,
    way: &mut Vec<Step>,
    start: usize,
) -> Result<(), AllocError> {
    enter(seen, way, start)?;
    for _ in 0..u64::MAX {
        let Some(step) = way.pop() else {
            return Ok(());
        };
        match edge(graph, step) {
            Some(next) => {
                way.push(Step {
                    node: step.node,
                    edge: step.edge.saturating_add(1),
                })?;
                enter(seen, way, next)?;
            }
            None => order.push(step.node)?,
        }
    }
    Ok(())
}

/// Goes to a node that was not seen.
fn enter(
    seen: &mut Vec<Option<usize>>,
    way: &mut Vec<Step>,
    node: usize,
) -> Result<(), AllocError> {
    if node < seen.len() && seen[node].is_none() {
        way.push(Step { node, edge: 0 })?;
        seen[node] = Some(0);
    }
    Ok(())
}

/// Where the next edge of a step leads.
fn edge(graph: &Graph, step: Step) -> Option<usize> {
    graph.next(step.node)?.get(step.edge).copied()
}
