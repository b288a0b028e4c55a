//! Coercions that are settled when the tree of a node is done.

ghost use Rattle.std.specs.Prelude.{◌≡◌, slice_index_or};
ghost use Rattle.hare_typed.specs.Typed.{typed_nodes};
ghost use Rattle.hare_typed.specs.Coats.{settled_at, coat as coated, coat_each};

use super::{Typed, TypedKids};
use hare_types::Coercion;

impl TypedKids {
    /// Settles the coercion of the tree at a place of the list, from 0; nothing changes past the end.
    pub fn settle(&mut self, i: usize, coerce: Coercion)
        ensures { self.new ≡ settled_at i coerce self.old }
    {
        if let Some(t) = self.trees.get_mut(i) {
            t.coerce = coerce;
        }
    }
}

/// Gives each node the coercion with its number; a node with a number behind them keeps its own. The call goes as deep in the host as the
/// tree is.
#[cycle(coat)]
pub fn coat(t: &mut Typed, cs: &[Coercion])
    ensures { t.new ≡ coated cs.now t.old }
{
    t.coerce = numbered(cs, t.node, t.coerce);
    coat_kids(&mut t.kids, cs);
}

#[cycle(coat)]
fn coat_kids(ts: &mut TypedKids, cs: &[Coercion])
    ensures { typed_nodes ts.new ≡ coat_each cs.now (typed_nodes ts.old) }
{
    for t in ts.trees.iter_mut() {
        coat(t, cs);
    }
}

fn numbered(cs: &[Coercion], node: u32, own: Coercion) -> Coercion
    ensures { result ≡ slice_index_or cs.now node own }
{
    match cs.get(node as usize) {
        Some(c) => *c,
        None => own,
    }
}
