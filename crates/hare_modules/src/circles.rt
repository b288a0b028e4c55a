//! Circles of imports.
//!
//! The modules are parted into ranks such that no import leads to a lower one. So an import that leads to a higher rank leads back by no
//! way, and only the others are followed. The ranks are those of Kosaraju's algorithm, where each import within a rank lies on a circle:
//! the first that is followed ends the search, and all takes linear time. But the answer rests on nothing more than that no import leads to
//! a lower rank.

ghost use Rattle.std.specs.Prelude.{◌≡◌, map, length, IfOk, OnOk};
ghost use Rattle.hare_modules.specs.Order.{TellsFirst, fault};
ghost use Rattle.hare_modules.specs.Uses.{place_of};
ghost use Rattle.hare_graph.specs.Ranks.{AreRanks, StaysWithin};
ghost use Rattle.hare_modules.specs.CirclesIn as spec;
ghost use Rattle.hare_modules.specs.Takings.{using};

use crate::claims::Used;
use crate::order::{counts_before, earlier};
use hare_graph::{Graph, leads_to, leads_up, ranks};
use hare_tree::Fault;
use std::alloc::{AllocError, Global};

/// The first of E16 at the imports whose module leads back to that of their file, where there are so many modules.
///
/// The module of the file of each import, and that which it means, if it means one, are below `modules`. Fails for want of memory alone.
pub fn first_circle(
    alloc: Global,
    modules: usize,
    uses: &[Used<'_>],
) -> Result<Option<Fault>, AllocError>
    requires { spec.AreUsingsWithin modules (map using uses.now) }
    ensures { IfOk result (TellsFirst (spec.IsCircleIn (spec.imports_graph modules (map using uses.now)) (map using uses.now))) }
{
    let forward = forward(alloc, modules, uses)?;
    let backward = backward(alloc, modules, uses)?;
    let ranks = ranks(alloc, &forward, &backward)?;
    follow_all(alloc, &forward, ranks.as_slice(), uses)
}

/// The graph of imports.
fn forward(alloc: Global, modules: usize, uses: &[Used<'_>]) -> Result<Graph, AllocError>
    ensures { IfOk result (λ g. g ≡ spec.imports_graph modules (map using uses.now)) }
{
    let mut graph = Graph::new(alloc, modules)?;
    for used in uses {
        put(&mut graph, *used)?;
    }
    Ok(graph)
}

/// Puts an import into the graph.
fn put(graph: &mut Graph, used: Used<'_>) -> Result<(), AllocError>
    ensures { OnOk result (graph.new ≡ spec.with_import graph.old (using used.entry)) }
{
    if let Some(to) = used.to {
        graph.put(used.home, to)?;
    }
    Ok(())
}

/// The graph of imports the other way round.
fn backward(alloc: Global, modules: usize, uses: &[Used<'_>]) -> Result<Graph, AllocError>
    ensures { IfOk result (λ g. g ≡ spec.imports_graph_back modules (map using uses.now)) }
{
    let mut graph = Graph::new(alloc, modules)?;
    for used in uses {
        put_back(&mut graph, *used)?;
    }
    Ok(graph)
}

/// Puts an import into the graph the other way round.
fn put_back(graph: &mut Graph, used: Used<'_>) -> Result<(), AllocError>
    ensures { OnOk result (graph.new ≡ spec.with_import_back graph.old (using used.entry)) }
{
    if let Some(to) = used.to {
        graph.put(to, used.home)?;
    }
    Ok(())
}

/// The same as of `first_circle`, by the graph of imports and ranks of the modules.
fn follow_all(
    alloc: Global,
    forward: &Graph,
    ranks: &[Option<usize>],
    uses: &[Used<'_>],
) -> Result<Option<Fault>, AllocError>
    requires ranks { AreRanks forward.now ranks.now }
    requires stays { StaysWithin forward.now }
    requires within { spec.AreUsingsWithin (length forward.now) (map using uses.now) }
    ensures { IfOk result (TellsFirst (spec.IsCircleIn forward.now (map using uses.now))) }
{
    let mut first = None;
    for used in uses {
        first = follow(alloc, forward, ranks, *used, first)?;
    }
    Ok(first)
}

/// The fault that counts first of one that was found before, if there was one, and of that of an import, if it lies on a circle.
fn follow(
    alloc: Global,
    forward: &Graph,
    ranks: &[Option<usize>],
    used: Used<'_>,
    found: Option<Fault>,
) -> Result<Option<Fault>, AllocError>
    requires ranks { AreRanks forward.now ranks.now }
    requires stays { StaysWithin forward.now }
    requires within { spec.IsUsingWithin (length forward.now) (using used) }
    ensures { IfOk result (spec.Follows forward.now (using used.entry) found) }
{
    let Some(to) = used.to else {
        return Ok(found);
    };
    let fault = circle(used);
    if is_later(found, fault) {
        return Ok(found);
    }
    if leads_up(ranks, used.home, to) {
        return Ok(found);
    }
    if leads_to(alloc, forward, to, used.home)? {
        return Ok(earlier(found, fault));
    }
    Ok(found)
}

/// The fault of an import on a circle.
fn circle(used: Used<'_>) -> Fault
    ensures { result ≡ fault 16 (place_of used.entry.tree.now) }
{
    let tree = used.tree;
    Fault {
        number: 16,
        place: tree.place,
    }
}

/// Whether a fault was found, and the other does not count before it.
fn is_later(found: Option<Fault>, other: Fault) -> bool
    ensures { result ≡ spec.is_later found other }
{
    match found {
        Some(f) => !counts_before(other, f),
        None => false,
    }
}
