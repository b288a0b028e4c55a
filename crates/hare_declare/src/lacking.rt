//! Which declarations are of types that have no size.

ghost use Rattle.std.specs.Prelude.{◌≡◌, ◌<◌, ◌^◌, length, slice_get, Option, Some, None, IfOk, OnOk};
ghost use Rattle.hare_declare.specs.Lacking as spec;

use crate::outline::{Outline, SizeSeen};
use hare_graph::{Graph, flood, no_labels};
use std::alloc::{AllocError, Global};

/// A label for each declaration whose type is seen to have no size, and for no other. Each declaration is looked at once: the label spreads
/// from those that lack a size by themselves to those that name them, so that a chain of names that returns to itself gets none.
pub fn lacking(alloc: Global, outlines: &[Outline]) -> Result<Vec<Option<usize>>, AllocError>
    requires few { length outlines.now < 2 ^ 32 }
    requires within { spec.AreWithin outlines.now }
    ensures { IfOk result (λ ls. spec.TellsLacking outlines.now ls.items) }
{
    let root = outlines.len();
    let graph = names_of(alloc, outlines)?;
    let mut labels = no_labels(alloc, root + 1)?;
    flood(alloc, &graph, &mut labels, root, 0)?;
    Ok(labels)
}

/// The graph in which each declaration leads to those that name it. One more node, behind them, leads to those that lack a size by
/// themselves.
fn names_of(alloc: Global, outlines: &[Outline]) -> Result<Graph, AllocError>
    requires { length outlines.now < 2 ^ 32 }
    ensures { IfOk result (λ g. spec.IsGraphBelow outlines.now (length outlines.now) g) }
{
    let root = outlines.len();
    let mut graph = Graph::new(alloc, root + 1)?;
    for decl in 0..root {
        put_name(&mut graph, root, decl, outlines[decl].size)?;
    }
    Ok(graph)
}

/// Lets the node from which a declaration has it that it lacks a size, if there is one, lead to the declaration.
fn put_name(graph: &mut Graph, root: usize, decl: usize, size: SizeSeen) -> Result<(), AllocError>
    ensures { OnOk result (graph.new ≡ spec.with_source graph.old decl (spec.source_of root size)) }
{
    match size {
        SizeSeen::Has => Ok(()),
        SizeSeen::Lacks => graph.put(root, decl),
        SizeSeen::ThatOf(named) => graph.put(named as usize, decl),
    }
}
