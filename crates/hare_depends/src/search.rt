//! The order in which declarations are judged.
//!
//! A search in depth, with a frame for each declaration under way. A frame has the declarations on which its own depends that were left
//! when it was entered, in ascending order: the first of them that is still left is gone on to. Nodes of what is mentioned get a label once
//! all that they lead to is done, and are not looked at again.

ghost use Rattle.std.specs.Prelude.{◌≡◌, ◌+◌, ◌<◌, ◌^◌, ◌++◌, ◌∷◌, [], length, slice_get, filter, None, IfOk, OnOk};
ghost use Rattle.hare_graph.specs.Graphs.{label_of};
ghost use Rattle.hare_graph.specs.Ranks.{StaysWithin};
ghost use Rattle.hare_depends.specs.Circles.{AllWithin, TellsCircle};
ghost use Rattle.hare_depends.specs.Order.{IsReady, IsOrder};
ghost use Rattle.hare_depends.specs.Search as spec;

use crate::dependence::{dependence_of, source};
use crate::said::Said;
use hare_graph::{Graph, clear, flood, label_of, no_labels, spread};
use std::alloc::{AllocError, Global};

/// A declaration under way.
#[derive(Drop)]
pub struct Frame {
    pub decl: usize,
    /// The declarations on which it depends that were left when it was entered, in ascending order.
    pub left: Vec<usize>,
    /// How many of these are done.
    pub next: usize,
}

/// What is done, and what is under way.
#[derive(Drop)]
pub struct Search {
    /// The declarations that are done, in their order.
    pub done: Vec<u32>,
    /// Nodes from which only what is done is reached have a label.
    pub spent: Vec<Option<usize>>,
    /// The declarations that were entered have a label.
    pub entered: Vec<Option<usize>>,
    /// From the first declaration that is left to the one that is looked at.
    pub way: Vec<Frame>,
}

/// The order in which declarations are judged, of which these are said by their numbers: that of the source, each behind those on which it
/// depends, depth first. No declaration may depend on itself, which `first_circle` tells.
///
/// There are fewer than 2^32 declarations, and each number that one says is that of one of them.
///
/// Fails only for want of memory. Uses no more of the host's stack for longer chains. Takes time in proportion to the declarations and to
/// what they name, but for sorting, and but for values that depend on one another and mention the same types while these are left: those
/// types are gone over for each such value.
pub fn order(alloc: Global, saids: &[Said]) -> Result<Vec<u32>, AllocError>
    requires few { length saids.now < 2 ^ 32 }
    requires within { AllWithin saids.now }
    requires no_circle { TellsCircle saids.now None }
    ensures { IfOk result (λ ds. IsOrder saids.now ds.items) }
{
    let graph = dependence_of(alloc, saids)?;
    let begun = start(alloc, saids, &graph)?;
    let search = finish_all(alloc, saids, &graph, begun)?;
    Ok(search.done)
}

/// Goes on until all declarations are done.
fn finish_all(
    alloc: Global,
    saids: &[Said],
    graph: &Graph,
    search: Search,
) -> Result<Search, AllocError>
    requires few { length saids.now < 2 ^ 32 }
    requires no_circle { TellsCircle saids.now None }
    requires graph { spec.IsDependence saids.now graph.now }
    requires at { spec.IsAt saids.now graph.now 0 search }
    ensures { IfOk result (λ s. IsOrder saids.now s.done.items) }
{
    let mut search = search;
    for decl in 0..saids.len() {
        search = finish(alloc, saids, graph, search, decl)?;
    }
    Ok(search)
}

/// Nothing is done.
fn start(alloc: Global, saids: &[Said], graph: &Graph) -> Result<Search, AllocError>
    requires { spec.IsDependence saids.now graph.now }
    ensures { IfOk result (λ s. spec.IsAt saids.now graph.now 0 s) }
{
    Ok(Search {
        done: Vec::new(alloc),
        spent: no_labels(alloc, graph.len())?,
        entered: no_labels(alloc, saids.len())?,
        way: Vec::new(alloc),
    })
}

/// Goes on until a declaration is done, where those before it are.
fn finish(
    alloc: Global,
    saids: &[Said],
    graph: &Graph,
    search: Search,
    decl: usize,
) -> Result<Search, AllocError>
    requires few { length saids.now < 2 ^ 32 }
    requires no_circle { TellsCircle saids.now None }
    requires graph { spec.IsDependence saids.now graph.now }
    requires there { decl < length saids.now }
    requires at { spec.IsAt saids.now graph.now decl search }
    ensures { IfOk result (λ s. spec.IsAt saids.now graph.now (decl + 1) s) }
{
    if label_of(&search.spent, decl).is_some() {
        return Ok(search);
    }
    let mut search = enter(alloc, saids, graph, search, decl)?;
    while let Some(frame) = search.way.pop() {
        search = go_on(alloc, saids, graph, search, frame)?;
    }
    Ok(search)
}

/// Goes on from a declaration under way: to the first of those that are left on which it depends, or it is done.
fn go_on(
    alloc: Global,
    saids: &[Said],
    graph: &Graph,
    search: Search,
    frame: Frame,
) -> Result<Search, AllocError>
    requires few { length saids.now < 2 ^ 32 }
    requires no_circle { TellsCircle saids.now None }
    requires graph { spec.IsDependence saids.now graph.now }
    requires stands { spec.Stands saids.now graph.now search.done.items search.spent.items search.entered.items
        (search.way.items ++ frame ∷ []) }
    ensures { IfOk result (spec.Continues saids.now graph.now search frame.decl (spec.work search + 1)) }
{
    let mut search = search;
    let frame = skip_done(frame, &search.spent);
    let Some(next) = next_of(&frame.left, frame.next) else {
        return put_out(alloc, saids, graph, search, frame);
    };
    search.way.push(frame)?;
    let search = enter(alloc, saids, graph, search, next)?;
    Ok(search)
}

/// The element with this number.
fn next_of(left: &[usize], next: usize) -> Option<usize>
    ensures { result ≡ slice_get left.now next }
{
    left.get(next).copied()
}

/// Passes over those of a frame that are done.
fn skip_done(frame: Frame, spent: &[Option<usize>]) -> Frame
    ensures { spec.Skips spent.now frame result }
{
    let mut frame = frame;
    while is_passed(&frame.left, frame.next, spent) {
        frame.next += 1;
    }
    frame
}

/// Whether there is such an element, and it has a label.
fn is_passed(left: &[usize], next: usize, spent: &[Option<usize>]) -> bool
    ensures { result ≡ spec.is_passed spent.now left.now next }
{
    next < left.len() && label_of(spent, left[next]).is_some()
}

/// Enters a declaration: the first of those that are left on which the last on the way depends, or of all.
fn enter(
    alloc: Global,
    saids: &[Said],
    graph: &Graph,
    search: Search,
    decl: usize,
) -> Result<Search, AllocError>
    requires few { length saids.now < 2 ^ 32 }
    requires graph { spec.IsDependence saids.now graph.now }
    requires stands { spec.Stands saids.now graph.now search.done.items search.spent.items search.entered.items search.way.items }
    requires first { spec.IsNextOn saids.now search.done.items search.way.items decl }
    requires fresh { label_of search.entered.items decl ≡ None }
    ensures { IfOk result (spec.Continues saids.now graph.now search decl (spec.work search)) }
{
    let mut search = search;
    let left = left_of(alloc, graph, &mut search.spent, saids.len(), decl)?;
    search.entered[decl] = Some(0);
    search.way.push(Frame {
        decl,
        left,
        next: 0,
    })?;
    Ok(search)
}

/// The declarations without a label on which a declaration depends, in ascending order. Those with one lead only to what has one.
fn left_of(
    alloc: Global,
    graph: &Graph,
    spent: &mut Vec<Option<usize>>,
    count: usize,
    decl: usize,
) -> Result<Vec<usize>, AllocError>
    requires few { count < 2 ^ 32 }
    requires there { decl < count }
    requires nodes { length graph.now ≡ spec.source count count }
    requires stays { StaysWithin graph.now }
    requires size { length spent.old.items ≡ length graph.now }
    requires closed { spec.IsClosed graph.now spent.old.items }
    ensures { IfOk result (λ xs. spec.AreLeft graph.now count (spec.source count decl) spent.old.items spent.new.items xs.items) }
{
    let found = spread(alloc, graph, spent, source(count, decl), 0)?;
    clear(spent, &found);
    let mut left = below(alloc, &found, count)?;
    left.sort_unstable();
    Ok(left)
}

/// Those of some numbers that are below another.
fn below(alloc: Global, numbers: &[usize], bound: usize) -> Result<Vec<usize>, AllocError>
    ensures { IfOk result (λ ns. ns.items ≡ filter (spec.is_below bound) numbers.now) }
{
    let mut below = Vec::new(alloc);
    for number in numbers {
        if *number < bound {
            below.push(*number)?;
        }
    }
    Ok(below)
}

/// Puts the last on the way behind what is done.
fn put_out(
    alloc: Global,
    saids: &[Said],
    graph: &Graph,
    search: Search,
    frame: Frame,
) -> Result<Search, AllocError>
    requires few { length saids.now < 2 ^ 32 }
    requires no_circle { TellsCircle saids.now None }
    requires graph { spec.IsDependence saids.now graph.now }
    requires stands { spec.Stands saids.now graph.now search.done.items search.spent.items search.entered.items
        (search.way.items ++ frame ∷ []) }
    requires ready { IsReady saids.now search.done.items frame.decl }
    ensures { IfOk result (spec.Continues saids.now graph.now search frame.decl (spec.work search + 1)) }
{
    let mut search = search;
    let decl = frame.decl;
    search.done.push(decl as u32)?;
    flood(
        alloc,
        graph,
        &mut search.spent,
        source(saids.len(), decl),
        0,
    )?;
    search.spent[decl] = Some(0);
    Ok(search)
}
