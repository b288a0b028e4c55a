//! Coercions by the numbers of nodes.

ghost use Rattle.std.specs.Prelude.{◌≡◌, map, slice_set};
ghost use Rattle.hare_rules.specs.Flow.{write_each};
ghost use Rattle.hare_flow.specs.Seen.{settled_of};

use hare_types::Coercion;

/// What becomes of the value of one node.
#[derive(Clone, Copy, Debug, PartialEq, Eq)]
pub(crate) struct Settled {
    pub(crate) node: u32,
    pub(crate) coercion: Coercion,
}

/// Gives the node with a number its coercion; nothing changes where there is no such node.
pub(crate) fn write(cs: &mut [Coercion], node: u32, coercion: Coercion)
    ensures { cs.new ≡ slice_set cs.old node coercion }
{
    let i = node as usize;
    if i < cs.len() {
        cs[i] = coercion;
    }
}

/// Gives each node that is settled its coercion.
pub(crate) fn write_all(cs: &mut [Coercion], settled: &[Settled])
    ensures { cs.new ≡ write_each (map settled_of settled.now) cs.old }
{
    for s in settled {
        write(cs, s.node, s.coercion);
    }
}
