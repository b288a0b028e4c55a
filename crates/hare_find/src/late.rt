//! What is settled of yielded values, when the body is done.

ghost use Rattle.std.specs.Prelude.{◌≡◌, ◌++◌, map, drop, IfOk, OnOk};
ghost use Rattle.hare_flow.specs.Seen.{given_of};
ghost use Rattle.hare_told.specs.Settled.{late_where, listed_late};
ghost use Rattle.hare_find.specs.Late.{settled_in};

use hare_flow::Handed;
use hare_rules::Coercions;
use hare_types::Coercion;
use hx_base::Items;
use std::alloc::{AllocError, Global};

/// What becomes of the value of one node, when the body is done.
#[derive(Clone, Copy, Debug, PartialEq, Eq)]
pub struct Late {
    /// The number of the node.
    pub node: u32,
    /// The coercion that it gets.
    pub coercion: Coercion,
}

/// Puts what is settled of one value behind the others; nothing, where no node gets its coercion.
fn put_late(late: &mut Items<Late>, g: &Handed, coercion: &Coercion) -> Result<(), AllocError>
    ensures { OnOk result (map settled_in late.new ≡ map settled_in late.old ++ late_where (given_of g.now).node (given_of g.now).ty
        coercion.now) }
{
    let (Some(node), Some(_)) = (g.node, g.ty) else {
        return Ok(());
    };
    late.push(Late {
        node,
        coercion: *coercion,
    })
}

/// What is settled of these values, of which the coercions are listed behind the first `from`.
pub(crate) fn late_each(
    alloc: Global,
    gs: &[Handed],
    coercions: &Coercions,
    from: usize,
) -> Result<Items<Late>, AllocError>
    ensures { IfOk result (λ late. map settled_in late ≡ listed_late (map given_of gs.now) (drop from coercions.now)) }
{
    let mut late = Items::new(alloc);
    if from > coercions.len() {
        return Ok(late);
    }
    let rest = &coercions.as_slice()[from..];
    for i in 0..gs.len() {
        if i >= rest.len() {
            return Ok(late);
        }
        put_late(&mut late, &gs[i], &rest[i])?;
    }
    Ok(late)
}
