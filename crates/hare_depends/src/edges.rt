//! The graph of what declarations depend on.

ghost use Rattle.std.specs.Prelude.{◌≡◌, ◌<◌, ◌≤◌, ◌^◌, fold, length, slice_get, Some, IfOk, OnOk};
ghost use Rattle.hare_depends.specs.Sorts as sorts;
ghost use Rattle.hare_depends.specs.Dependence.{is_at};
ghost use Rattle.hare_depends.specs.Edges as spec;

use crate::said::{Said, Sort};
use hare_graph::Graph;
use std::alloc::{AllocError, Global};

/// An edge of a graph, from one node to another.
#[derive(Clone, Copy, Debug, PartialEq, Eq)]
pub struct Edge {
    pub from: usize,
    pub to: usize,
}

/// The edges of the graph of dependence.
pub fn edges_of(alloc: Global, saids: &[Said]) -> Result<Vec<Edge>, AllocError>
    requires { length saids.now < 2 ^ 32 }
    ensures { IfOk result (λ es. es.items ≡ spec.edges_of saids.now) }
{
    let mut edges = Vec::new(alloc);
    for decl in 0..saids.len() {
        push_decl(&mut edges, saids, decl)?;
    }
    Ok(edges)
}

/// Puts the edges of a declaration behind others.
fn push_decl(edges: &mut Vec<Edge>, saids: &[Said], decl: usize) -> Result<(), AllocError>
    requires few { length saids.now < 2 ^ 32 }
    requires there { decl < length saids.now }
    ensures { OnOk result (edges.new.items ≡ spec.with_said saids.now (length saids.now) decl (slice_get saids.now decl) edges.old.items) }
{
    let count = saids.len();
    let said = &saids[decl];
    push_needs(edges, saids, decl, said)?;
    push_values(edges, count, count + count + decl, said.written.as_slice())?;
    push_mentions(edges, saids, count + decl, said.named.as_slice())
}

/// Puts the edges of what a declaration needs behind others.
fn push_needs(
    edges: &mut Vec<Edge>,
    saids: &[Said],
    decl: usize,
    said: &Said,
) -> Result<(), AllocError>
    requires few { length saids.now < 2 ^ 32 }
    ensures { OnOk result (edges.new.items ≡ spec.with_needs saids.now (length saids.now) decl said.now.sort said.now edges.old.items) }
{
    match said.sort {
        Sort::Type => push_held(edges, decl, said.needed.as_slice()),
        Sort::Function => push_held(edges, decl, said.needed.as_slice()),
        Sort::Constant => push_values(edges, saids.len(), decl, said.named.as_slice()),
        Sort::Global => push_through(edges, saids, decl, said.named.as_slice()),
    }
}

/// Puts edges from a node to these declarations behind others.
fn push_held(edges: &mut Vec<Edge>, from: usize, targets: &[u32]) -> Result<(), AllocError>
    ensures { OnOk result (edges.new.items ≡ fold (spec.with_held from) edges.old.items targets.now) }
{
    for to in targets {
        push(edges, from, *to as usize)?;
    }
    Ok(())
}

/// Puts edges from a node to these declarations and to what they mention behind others.
fn push_values(
    edges: &mut Vec<Edge>,
    count: usize,
    from: usize,
    targets: &[u32],
) -> Result<(), AllocError>
    requires { count < 2 ^ 32 }
    ensures { OnOk result (edges.new.items ≡ fold (spec.with_value count from) edges.old.items targets.now) }
{
    for to in targets {
        push_value(edges, count, from, *to)?;
    }
    Ok(())
}

/// Puts edges from a node to a declaration and to what it mentions behind others.
fn push_value(edges: &mut Vec<Edge>, count: usize, from: usize, to: u32) -> Result<(), AllocError>
    requires { count < 2 ^ 32 }
    ensures { OnOk result (edges.new.items ≡ spec.with_value count from edges.old.items to) }
{
    let to = to as usize;
    push(edges, from, to)?;
    push(edges, from, count + to)
}

/// Puts edges from a global with a type to what it names behind others.
fn push_through(
    edges: &mut Vec<Edge>,
    saids: &[Said],
    from: usize,
    targets: &[u32],
) -> Result<(), AllocError>
    requires { length saids.now < 2 ^ 32 }
    ensures { OnOk result (edges.new.items ≡ fold (spec.with_through saids.now (length saids.now) from) edges.old.items targets.now) }
{
    for to in targets {
        push_one_through(edges, saids, from, *to)?;
    }
    Ok(())
}

/// Puts the edges to one declaration behind others.
fn push_one_through(
    edges: &mut Vec<Edge>,
    saids: &[Said],
    from: usize,
    to: u32,
) -> Result<(), AllocError>
    requires { length saids.now < 2 ^ 32 }
    ensures { OnOk result (edges.new.items ≡ spec.with_through saids.now (length saids.now) from edges.old.items to) }
{
    let count = saids.len();
    if is_global_at(saids, to as usize) {
        return push(edges, from, count + count + to as usize);
    }
    push_value(edges, count, from, to)
}

/// Puts edges from what a declaration mentions to the types that it names behind others.
fn push_mentions(
    edges: &mut Vec<Edge>,
    saids: &[Said],
    from: usize,
    targets: &[u32],
) -> Result<(), AllocError>
    requires { length saids.now < 2 ^ 32 }
    ensures { OnOk result (edges.new.items ≡ fold (spec.with_mention saids.now (length saids.now) from) edges.old.items targets.now) }
{
    for to in targets {
        push_mention(edges, saids, from, *to)?;
    }
    Ok(())
}

/// Puts the edges to one declaration behind others, if it is a type.
fn push_mention(
    edges: &mut Vec<Edge>,
    saids: &[Said],
    from: usize,
    to: u32,
) -> Result<(), AllocError>
    requires { length saids.now < 2 ^ 32 }
    ensures { OnOk result (edges.new.items ≡ spec.with_mention saids.now (length saids.now) from edges.old.items to) }
{
    if is_type_at(saids, to as usize) {
        return push_value(edges, saids.len(), from, to);
    }
    Ok(())
}

/// Puts an edge behind others.
fn push(edges: &mut Vec<Edge>, from: usize, to: usize) -> Result<(), AllocError>
    ensures { OnOk result (edges.new.items ≡ spec.with_held from edges.old.items to) }
{
    edges.push(Edge { from, to })?;
    Ok(())
}

/// Whether the declaration with this number is a global with a type.
fn is_global_at(saids: &[Said], decl: usize) -> bool
    ensures { result ≡ is_at sorts.is_global saids.now decl }
{
    match saids.get(decl) {
        Some(said) => matches!(said.sort, Sort::Global),
        None => false,
    }
}

/// Whether the declaration with this number is a type.
fn is_type_at(saids: &[Said], decl: usize) -> bool
    ensures { result ≡ is_at sorts.is_type saids.now decl }
{
    match saids.get(decl) {
        Some(said) => matches!(said.sort, Sort::Type),
        None => false,
    }
}

/// Whether the declaration with this number is a def or a global without a type.
pub fn is_constant_at(saids: &[Said], decl: usize) -> bool
    ensures { result ≡ is_at sorts.is_constant saids.now decl }
{
    match saids.get(decl) {
        Some(said) => matches!(said.sort, Sort::Constant),
        None => false,
    }
}

/// The graph of so many nodes with these edges.
pub fn forward_of(alloc: Global, count: usize, edges: &[Edge]) -> Result<Graph, AllocError>
    ensures { IfOk result (λ g. g ≡ spec.forward_of count edges.now) }
{
    let mut graph = Graph::new(alloc, count)?;
    for edge in edges {
        graph.put(edge.from, edge.to)?;
    }
    Ok(graph)
}

/// The graph of so many nodes with these edges the other way round.
pub fn backward_of(alloc: Global, count: usize, edges: &[Edge]) -> Result<Graph, AllocError>
    ensures { IfOk result (λ g. g ≡ spec.backward_of count edges.now) }
{
    let mut graph = Graph::new(alloc, count)?;
    for edge in edges {
        graph.put(edge.to, edge.from)?;
    }
    Ok(graph)
}
