//! Circles of declarations.
//!
//! The nodes of the graph of dependence are parted into ranks such that no edge leads to a lower one. So an edge that leads to a higher
//! rank leads back by no way, and only the others are followed. The ranks are such that the first that is followed ends the search, and all
//! takes linear time; but the answer rests on nothing more than that no edge leads to a lower rank.

ghost use Rattle.std.specs.Prelude.{◌≡◌, ◌↔◌, ◌<◌, ◌^◌, length, IsTrue, IfOk};
ghost use Rattle.hare_graph.specs.Graphs.{Reached};
ghost use Rattle.hare_graph.specs.Ranks.{AreRanks, StaysWithin, IsReverse};
ghost use Rattle.hare_depends.specs.Circles.{AllWithin, TellsCircle};
ghost use Rattle.hare_depends.specs.Edges as spec;

use crate::edges::{backward_of, edges_of, forward_of, is_constant_at};
use crate::said::Said;
use hare_graph::{Graph, flood, label_of, leads_to, leads_up, no_labels, ranks};
use hare_tree::Fault;
use std::alloc::{AllocError, Global};

/// The fault of circles of declarations, of which these are said by their numbers: the first in source order that depends on itself has it
/// at its name, E23 where a def or a global without a type lies on a circle with it, and else E17. None where no declaration depends on
/// itself.
///
/// There are fewer than 2^32 declarations, and each number that one says is that of one of them.
///
/// Fails only for want of memory. Takes time in proportion to the declarations and to what they name, and no more of the host's stack for
/// longer circles.
pub fn first_circle(alloc: Global, saids: &[Said]) -> Result<Option<Fault>, AllocError>
    requires few { length saids.now < 2 ^ 32 }
    requires within { AllWithin saids.now }
    ensures { IfOk result (TellsCircle saids.now) }
{
    let count = saids.len();
    let edges = edges_of(alloc, saids)?;
    let forward = forward_of(alloc, count + count + count, edges.as_slice())?;
    let backward = backward_of(alloc, count + count + count, edges.as_slice())?;
    let ranks = ranks(alloc, &forward, &backward)?;
    let Some(decl) = first_returning(alloc, &forward, ranks.as_slice(), count)? else {
        return Ok(None);
    };
    let constant = has_constant(alloc, &forward, &backward, saids, decl)?;
    Ok(Some(circle_fault(saids, decl, constant)))
}

/// The fault of a declaration on a circle, on which a def or a global without a type lies or not.
fn circle_fault(saids: &[Said], decl: usize, constant: bool) -> Fault
    requires { decl < length saids.now }
    ensures { result ≡ spec.circle_fault saids.now decl constant }
{
    Fault {
        number: if constant { 23 } else { 17 },
        place: saids[decl].place,
    }
}

/// The first of so many nodes that leads back to itself.
fn first_returning(
    alloc: Global,
    forward: &Graph,
    ranks: &[Option<usize>],
    count: usize,
) -> Result<Option<usize>, AllocError>
    requires ranks { AreRanks forward.now ranks.now }
    requires stays { StaysWithin forward.now }
    ensures { IfOk result (spec.TellsReturn forward.now count) }
{
    for node in 0..count {
        if returns(alloc, forward, ranks, node)? {
            return Ok(Some(node));
        }
    }
    Ok(None)
}

/// Whether a node leads back to itself.
fn returns(
    alloc: Global,
    forward: &Graph,
    ranks: &[Option<usize>],
    node: usize,
) -> Result<bool, AllocError>
    requires ranks { AreRanks forward.now ranks.now }
    requires stays { StaysWithin forward.now }
    ensures { IfOk result (λ b. IsTrue b ↔ spec.Returns forward.now node) }
{
    let Some(targets) = forward.next(node) else {
        return Ok(false);
    };
    returns_over(alloc, forward, ranks, node, targets.as_slice())
}

/// Whether one of these nodes leads to a node that leads to each of them.
fn returns_over(
    alloc: Global,
    forward: &Graph,
    ranks: &[Option<usize>],
    node: usize,
    targets: &[usize],
) -> Result<bool, AllocError>
    requires ranks { AreRanks forward.now ranks.now }
    requires stays { StaysWithin forward.now }
    requires edges { spec.AreTargets forward.now node targets.now }
    ensures { IfOk result (λ b. IsTrue b ↔ spec.SomeLeads forward.now node targets.now) }
{
    for target in targets {
        if leads_back(alloc, forward, ranks, node, *target)? {
            return Ok(true);
        }
    }
    Ok(false)
}

/// Whether the node to which an edge leads leads back to where it begins.
fn leads_back(
    alloc: Global,
    forward: &Graph,
    ranks: &[Option<usize>],
    node: usize,
    target: usize,
) -> Result<bool, AllocError>
    requires ranks { AreRanks forward.now ranks.now }
    requires stays { StaysWithin forward.now }
    requires there { target < length forward.now }
    ensures { IfOk result (λ b. IsTrue b ↔ Reached forward.now target node) }
{
    if leads_up(ranks, node, target) {
        return Ok(false);
    }
    leads_to(alloc, forward, target, node)
}

/// Whether a def or a global without a type lies on a circle with a declaration.
fn has_constant(
    alloc: Global,
    forward: &Graph,
    backward: &Graph,
    saids: &[Said],
    decl: usize,
) -> Result<bool, AllocError>
    requires reverse { IsReverse forward.now backward.now }
    requires back { IsReverse backward.now forward.now }
    requires stays { StaysWithin forward.now }
    requires stays_back { StaysWithin backward.now }
    requires there { decl < length forward.now }
    ensures { IfOk result (λ b. IsTrue b ↔ spec.HasConstantIn saids.now forward.now decl) }
{
    let ahead = reached(alloc, forward, decl)?;
    let behind = reached(alloc, backward, decl)?;
    Ok(has_common_constant(saids, &ahead, &behind))
}

/// The nodes that are reached from one have a label.
fn reached(alloc: Global, graph: &Graph, start: usize) -> Result<Vec<Option<usize>>, AllocError>
    requires stays { StaysWithin graph.now }
    requires there { start < length graph.now }
    ensures { IfOk result (λ ls. spec.TellsReached graph.now start ls.items) }
{
    let mut labels = no_labels(alloc, graph.len())?;
    flood(alloc, graph, &mut labels, start, 0)?;
    Ok(labels)
}

/// Whether a def or a global without a type has both labels.
fn has_common_constant(saids: &[Said], ahead: &[Option<usize>], behind: &[Option<usize>]) -> bool
    ensures { IsTrue result ↔ spec.HasLabelled saids.now ahead.now behind.now }
{
    for decl in 0..saids.len() {
        if is_constant_at(saids, decl)
            && label_of(ahead, decl).is_some()
            && label_of(behind, decl).is_some()
        {
            return true;
        }
    }
    false
}
