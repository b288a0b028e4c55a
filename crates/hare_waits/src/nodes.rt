//! The nodes of written types whose bytes are not known.

ghost use Rattle.std.specs.Prelude.{◌≡◌, ◌<◌, ◌+◌, ◌++◌, ℕ, length, is_some, IfOk, OnOk};
ghost use Rattle.hare_typed.specs.Order.{check_order};
ghost use Rattle.hare_types.specs.declared.coercion.Ty.TheVariants as of;
ghost use Rattle.hare_seen.specs.Sizes.{size_row, nodes_of_types};
ghost use Rattle.hare_waits.specs.Nodes as spec;

use crate::waiting::Waiting;
use hare_tree::Kind;
use hare_typed::{Typed, TypedKids};
use hare_types::{Row, Ty, TypeId, TypeStore};
use std::alloc::AllocError;

/// Whether a row asks for the size of a written type of this kind.
fn is_asked(s: &TypeStore, kind: Kind, t: TypeId) -> bool
    requires { t < length s.now.rows }
    ensures { result ≡ is_some (size_row s.now kind t) }
{
    match kind {
        Kind::TypeArray | Kind::TypeStruct | Kind::TypeTuple => true,
        Kind::TypeUnion => matches!(s.row(t), Row::Union(_)),
        _ => false,
    }
}

/// The type of a node, where a row asks for its size and its bytes are not known.
fn unmeasured_type(s: &TypeStore, kind: Kind, ty: Ty) -> Option<TypeId>
    requires { (u : ℕ) → ty ≡ of.Of u → u < length s.now.rows }
    ensures { result ≡ spec.unmeasured_as s.now kind ty }
{
    match ty {
        Ty::Of(t) => {
            if is_asked(s, kind, t) && s.extent(t).is_none() {
                Some(t)
            } else {
                None
            }
        }
        Ty::Iconst(_) | Ty::Null | Ty::Empty => None,
    }
}

/// Puts the nodes of a tree whose bytes are not known at the end, in check order. So many nodes stand before the tree; the answer is how
/// many stand before what comes behind it. The call goes as deep in the host as the tree is.
#[cycle(collect)]
fn collect_tree(
    s: &TypeStore,
    decl: u32,
    order: u32,
    t: &Typed,
    found: &mut Vec<Waiting>,
) -> Result<u32, AllocError>
    requires { spec.AreIn s.now (check_order t.now) }
    ensures order { IfOk result (λ o. o ≡ order + length (check_order t.now)) }
    ensures found { OnOk result (found.new.items ≡ found.old.items ++ spec.unmeasured s.now decl order (check_order t.now)) }
{
    let order = collect(s, decl, order, &t.kids, found)?;
    if let Some(ty) = unmeasured_type(s, t.kind, t.ty) {
        found.push(Waiting {
            decl,
            order,
            place: t.place,
            ty,
        })?;
    }
    match order.checked_add(1) {
        Some(next) => Ok(next),
        None => Err(AllocError),
    }
}

/// The same of some trees.
#[cycle(collect)]
pub(crate) fn collect(
    s: &TypeStore,
    decl: u32,
    order: u32,
    ts: &TypedKids,
    found: &mut Vec<Waiting>,
) -> Result<u32, AllocError>
    requires { spec.AreIn s.now (nodes_of_types ts.now) }
    ensures order { IfOk result (λ o. o ≡ order + length (nodes_of_types ts.now)) }
    ensures found { OnOk result (found.new.items ≡ found.old.items ++ spec.unmeasured s.now decl order (nodes_of_types ts.now)) }
{
    let mut next = order;
    for i in 0..ts.len() {
        match ts.get(i) {
            Some(t) => next = collect_tree(s, decl, next, t, found)?,
            None => return Err(AllocError),
        }
    }
    Ok(next)
}
