//! The graph of what declarations depend on at once.
//!
//! A declaration has a fourth node here, from which lead what it needs; none leads to it, and from that of the declaration itself nothing
//! leads on. So what is reached from there are the declarations on which it depends, and not those on which these depend in turn.

ghost use Rattle.std.specs.Prelude.{◌≡◌, ◌+◌, ◌<◌, ◌^◌, length, fold, IfOk};
ghost use Rattle.hare_depends.specs.Circles.{AllWithin};
ghost use Rattle.hare_depends.specs.Search as spec;

use crate::edges::{Edge, edges_of};
use crate::said::Said;
use hare_graph::Graph;
use std::alloc::{AllocError, Global};

/// The graph of what declarations depend on at once.
pub fn dependence_of(alloc: Global, saids: &[Said]) -> Result<Graph, AllocError>
    requires few { length saids.now < 2 ^ 32 }
    requires within { AllWithin saids.now }
    ensures { IfOk result (spec.IsDependence saids.now) }
{
    let edges = edges_of(alloc, saids)?;
    let graph = at_once(alloc, saids.len(), edges.as_slice())?;
    Ok(graph)
}

/// The graph with these edges, where those from declarations lead from their fourth nodes.
fn at_once(alloc: Global, count: usize, edges: &[Edge]) -> Result<Graph, AllocError>
    requires { count < 2 ^ 32 }
    ensures { IfOk result (λ g. g ≡ spec.at_once count edges.now) }
{
    let mut graph = Graph::new(alloc, count + count + count + count)?;
    for edge in edges {
        graph.put(start_of(count, edge.from), edge.to)?;
    }
    Ok(graph)
}

/// Where the edges of a node begin.
fn start_of(count: usize, node: usize) -> usize
    requires { count < 2 ^ 32 }
    ensures { result ≡ spec.start_of count node }
{
    if node < count {
        return source(count, node);
    }
    node
}

/// The node from which what a declaration needs leads.
pub fn source(count: usize, decl: usize) -> usize
    requires few { count < 2 ^ 32 }
    requires there { decl < count }
    ensures { result ≡ spec.source count decl }
{
    count + count + count + decl
}
