//! The types that are left in a union, as its members are flattened and spread.

ghost use Rattle.std.specs.Prelude.{◌≡◌, ℕ, ◌<◌, ◌↔◌, length, slice_index, All, Some, IsTrue, IfOk, IfErr, OnOk};
ghost use Rattle.hare_types.specs.Sound.{IsStore};
ghost use Rattle.hare_types.specs.Store.{tree_at};
ghost use Rattle.hare_layout.specs.Reduction.{written};
ghost use Rattle.hare_layout.specs.Admission.{Spreading, Passes, StopsFirst};
ghost use Rattle.hare_layout.specs.Ids.{AreIds, Gains, AreLeftBelow, never};

use crate::spelled::{Spelled, is_spread, place_of};
use crate::spread::brought;
use hare_tree::{Fault, Place, Stop};
use hare_types::{Row, Scalar, TypeId, TypeIds, TypeStore};
use std::alloc::{AllocError, Global};

/// Whether a type is never.
pub(crate) fn is_never(s: &TypeStore, t: TypeId) -> bool
    requires { t < length s.now.rows }
    ensures { IsTrue result ↔ (tree_at s.now t ≡ Some never) }
{
    match s.row(t) {
        Row::Scalar(k) => matches!(k, Scalar::Never),
        _ => false,
    }
}

/// Puts the types other than never at the end.
fn push_members(left: &mut Vec<TypeId>, s: &TypeStore, types: &[TypeId]) -> Result<(), AllocError>
    requires { AreIds s.now types.now }
    ensures { OnOk result (Gains s.now left.old.items left.new.items types.now) }
{
    for t in types {
        if !is_never(s, *t) {
            left.push(*t)?;
        }
    }
    Ok(())
}

/// The types that are left in a union: a type stands as often as members bring it. The fault of the first spread whose base is no union.
pub(crate) fn members_left(
    alloc: Global,
    s: &TypeStore,
    r: &Spelled,
    members: &TypeIds,
    place: Place,
) -> Result<Vec<TypeId>, Stop<Fault>>
    requires union { written r.now.row ≡ Some members.now }
    requires within { AreIds s.now members.now }
    requires sound { IsStore s.now }
    ensures ok { IfOk result (λ v. AreLeftBelow s.now r.now (length members.now) v.items) }
    ensures passes { OnOk result (Passes s.now r.now place Spreading) }
    ensures err { IfErr result (StopsFirst s.now r.now place) }
{
    let mut left = Vec::new(alloc);
    let types = members.as_slice();
    for k in 0..types.len() {
        match brought(s, types[k], is_spread(r, k), &types[k..k + 1]) {
            Some(more) => push_members(&mut left, s, more)?,
            None => {
                return Err(Stop::Fault(Fault {
                    number: 35,
                    place: place_of(r, place, k),
                }));
            }
        }
    }
    Ok(left)
}
