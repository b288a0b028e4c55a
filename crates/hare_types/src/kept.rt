//! What is kept beside the rows of a store.

ghost use Rattle.std.specs.Prelude.{◌≡◌, ◌<◌, None, IfSome};
ghost use Rattle.hare_types.specs.Numbering.{most};
ghost use Rattle.hare_types.specs.Packed.{Tells, base_in};
ghost use Rattle.hare_types.specs.Waiting.{extent_at, root_at};

use crate::extent::Extent;
use crate::id::TypeId;
use crate::packed::PackedExtent;
use crate::root::{PackedRoot, Root};

/// The number of no row.
pub(crate) const NOWHERE: u32 = 4_294_967_295;

/// What is kept of a row: its extent and its root, where they are known, and its place in the lists of rows that wait.
///
/// `first` and `last` are the ends of the list of the rows that wait for this one, and `next` is the row behind this one in the list in
/// which it
/// stands itself. Of the first `seen` types that it holds by value an extent is kept.
#[derive(Clone, Copy, Drop)]
pub(crate) struct Kept {
    pub extent: PackedExtent,
    pub root: PackedRoot,
    pub first: u32,
    pub last: u32,
    pub next: u32,
    pub seen: u32,
}

/// What is found of a type: its extent and its root, where they are known.
#[derive(Clone, Copy, Drop)]
pub(crate) struct Found {
    pub extent: PackedExtent,
    pub root: PackedRoot,
}

/// The extent and the root that are kept of a type.
pub(crate) fn found_at(kept: &[Kept], t: TypeId) -> Found
    ensures extent { result.extent ≡ extent_at kept.now t }
    ensures root { result.root ≡ root_at kept.now t }
{
    match kept.get(t.index() as usize) {
        Some(k) => Found {
            extent: k.extent,
            root: k.root,
        },
        None => nothing(),
    }
}

/// Nothing is found.
pub(crate) fn nothing() -> Found
    ensures extent { result.extent ≡ None }
    ensures root { result.root ≡ None }
{
    Found {
        extent: PackedExtent::of(None),
        root: PackedRoot::of(None),
    }
}

/// The extent that is kept of a type.
pub(crate) fn extent_at(kept: &[Kept], t: TypeId) -> Option<Extent>
    ensures { result ≡ extent_at kept.now t }
{
    match kept.get(t.index() as usize) {
        Some(k) => k.extent.get(),
        None => None,
    }
}

/// The root that is kept of a type.
pub(crate) fn root_at(kept: &[Kept], t: TypeId) -> Option<Root>
    ensures value { result ≡ root_at kept.now t }
    ensures tells { IfSome result (λ r. Tells r) }
{
    match kept.get(t.index() as usize) {
        Some(k) => k.root.get(),
        None => None,
    }
}

/// The base that is kept of a type.
pub(crate) fn base_at(kept: &[Kept], t: TypeId) -> Option<TypeId>
    ensures value { result ≡ base_in (root_at kept.now t) }
    ensures within { IfSome result (λ b. b < most) }
{
    match root_at(kept, t) {
        Some(root) => root.base,
        None => None,
    }
}
