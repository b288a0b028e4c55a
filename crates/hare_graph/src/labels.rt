//! Labels of nodes, which spread over the edges of a graph.

ghost use Rattle.std.specs.Prelude.{◌≡◌, [], replicate, fold, slice_index_or, None, OnOk, IfOk};
ghost use Rattle.hare_graph.specs.Graphs as spec;

use crate::graph::Graph;
use std::alloc::{AllocError, Global};

/// Gives a label to each node that can be reached from `start` over nodes without one, where `start` has none.
pub fn flood(
    alloc: Global,
    graph: &Graph,
    labels: &mut Vec<Option<usize>>,
    start: usize,
    label: usize,
) -> Result<(), AllocError>
    ensures { OnOk result (spec.Spreads graph.now start label labels.old.items labels.new.items) }
{
    let mut left = Vec::new(alloc);
    visit(labels, &mut left, start, label)?;
    while let Some(node) = left.pop() {
        go_on(graph, labels, &mut left, node, label)?;
    }
    Ok(())
}

/// Does the same as `flood`, and gives the nodes that get the label.
pub fn spread(
    alloc: Global,
    graph: &Graph,
    labels: &mut Vec<Option<usize>>,
    start: usize,
    label: usize,
) -> Result<Vec<usize>, AllocError>
    ensures spreads { IfOk result (λ ns. spec.Spreads graph.now start label labels.old.items labels.new.items) }
    ensures nodes { IfOk result (λ ns. spec.AreNew graph.now start labels.old.items labels.new.items ns.items) }
{
    let mut found = Vec::new(alloc);
    let mut left = Vec::new(alloc);
    visit(labels, &mut left, start, label)?;
    while let Some(node) = left.pop() {
        found.push(node)?;
        go_on(graph, labels, &mut left, node, label)?;
    }
    Ok(found)
}

/// Takes their labels from these nodes.
pub fn clear(labels: &mut Vec<Option<usize>>, nodes: &[usize])
    ensures { labels.new.items ≡ fold spec.cleared labels.old.items nodes.now }
{
    for node in nodes {
        if *node < labels.len() {
            labels[*node] = None;
        }
    }
}

/// Gives a label to each node without one to which a node leads.
fn go_on(
    graph: &Graph,
    labels: &mut Vec<Option<usize>>,
    left: &mut Vec<usize>,
    node: usize,
    label: usize,
) -> Result<(), AllocError>
    ensures { OnOk result (spec.marks labels.new.items left.new.items ≡ fold (spec.visited label)
        (spec.marks labels.old.items left.old.items) (slice_index_or graph.now node [])) }
{
    let Some(next) = graph.next(node) else {
        return Ok(());
    };
    visit_all(labels, left, next.as_slice(), label)?;
    Ok(())
}

/// Gives a label to each of these nodes that has none, and leaves it to be gone on from.
fn visit_all(
    labels: &mut Vec<Option<usize>>,
    left: &mut Vec<usize>,
    nodes: &[usize],
    label: usize,
) -> Result<(), AllocError>
    ensures { OnOk result (spec.marks labels.new.items left.new.items ≡ fold (spec.visited label)
        (spec.marks labels.old.items left.old.items) nodes.now) }
{
    for node in nodes {
        visit(labels, left, *node, label)?;
    }
    Ok(())
}

/// Gives a label to a node that has none, and leaves it to be gone on from.
fn visit(
    labels: &mut Vec<Option<usize>>,
    left: &mut Vec<usize>,
    node: usize,
    label: usize,
) -> Result<(), AllocError>
    ensures { OnOk result (spec.marks labels.new.items left.new.items ≡ spec.visited label (spec.marks labels.old.items left.old.items)
        node) }
{
    if is_free(labels, node) {
        left.push(node)?;
        labels[node] = Some(label);
    }
    Ok(())
}

/// Whether there is such a node, and it has no label.
fn is_free(labels: &[Option<usize>], node: usize) -> bool
    ensures { result ≡ spec.is_free labels.now node }
{
    node < labels.len() && labels[node].is_none()
}

/// The label of a node, if it has one.
pub fn label_of(labels: &[Option<usize>], node: usize) -> Option<usize>
    ensures { result ≡ spec.label_of labels.now node }
{
    if node < labels.len() {
        labels[node]
    } else {
        None
    }
}

/// No labels, for so many nodes.
pub fn no_labels(alloc: Global, count: usize) -> Result<Vec<Option<usize>>, AllocError>
    ensures { IfOk result (λ ls. ls.items ≡ replicate count None) }
{
    let mut labels = Vec::new(alloc);
    for _ in 0..count {
        labels.push(None)?;
    }
    Ok(labels)
}
