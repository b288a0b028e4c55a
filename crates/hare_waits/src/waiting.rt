//! What is kept of a node that waits, and what is told of a type that is too large.

ghost use Rattle.std.specs.Prelude.{◌≡◌, ◌↔◌, IsTrue, true, false, not, IfSome, IsSomeAnd};
ghost use Rattle.hare_seen.specs.Sizes.{is_small_at};
ghost use Rattle.hare_waits.specs.Nodes.{ComesBefore, IsFirstOf};

use hare_tree::Place;
use hare_types::{TypeId, TypeStore};

/// The greatest size of a type, in bytes.
const MOST_BYTES: u64 = 67_108_864;

/// A node of a written type whose bytes are not known yet.
#[derive(Clone, Copy, Debug, PartialEq, Eq)]
pub struct Waiting {
    /// The declaration in which it is written.
    pub decl: u32,
    /// How many nodes of the declaration's written types stand before it, in check order.
    pub order: u32,
    /// Where it stands in the source.
    pub place: Place,
    /// Its type.
    pub ty: TypeId,
}

/// A written type that turned out to be too large.
#[derive(Clone, Copy, Debug, PartialEq, Eq)]
pub struct Late {
    /// The declaration in which it is written.
    pub decl: u32,
    /// Where it stands in the source.
    pub place: Place,
}

/// Whether a node stands before another: in an earlier declaration, or in the same one and before it in check order.
fn is_before(node: &Waiting, other: &Waiting) -> bool
    ensures { IsTrue result ↔ ComesBefore node.now other.now }
{
    node.decl < other.decl || node.decl == other.decl && node.order < other.order
}

/// Whether a node stands before the one that is the first so far.
fn is_earlier(node: &Waiting, first: &Option<Waiting>) -> bool
    ensures before { result ≡ true → IfSome first.now (ComesBefore node.now) }
    ensures behind { result ≡ false → IsSomeAnd first.now (λ f. ¬ ComesBefore node.now f) }
{
    match first {
        Some(f) => is_before(node, f),
        None => true,
    }
}

/// Whether a type is known to have more bytes than a type may have.
fn is_large(s: &TypeStore, t: TypeId) -> bool
    ensures { result ≡ not (is_small_at s.now t) }
{
    match s.extent(t) {
        Some(x) => x.size > MOST_BYTES,
        None => false,
    }
}

/// The first of these nodes whose type is too large.
pub(crate) fn first_large(s: &TypeStore, nodes: &[Waiting]) -> Option<Waiting>
    ensures { IsFirstOf s.now nodes.now result }
{
    let mut first: Option<Waiting> = None;
    for node in nodes {
        if is_large(s, node.ty) && is_earlier(node, &first) {
            first = Some(*node);
        }
    }
    first
}
