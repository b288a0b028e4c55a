//! What spelled types are reduced to.

ghost use Rattle.std.specs.Prelude.{◌≡◌, ◌≤◌, [], ◌∷◌, length, Some, None, IfOk, IfErr, OnOk};
ghost use Rattle.hare_types.specs.Rows.{IsWithin};
ghost use Rattle.hare_types.specs.Sound.{IsStore};
ghost use Rattle.hare_layout.specs.Reduction.{written};
ghost use Rattle.hare_layout.specs.Admission.{Spreading, Sized, Inhabited, Narrow, PassesAll};
ghost use Rattle.hare_layout.specs.Ids.{AreIds};
ghost use Rattle.hare_layout.specs.Reduced.{IsReduction, IsOfMembers, StopsEarly};

use crate::ascending::{MOST_MEMBERS, ascending};
use crate::copy::{copied, type_ids};
use crate::members_left::members_left;
use crate::sized::{any_unsized, lacks_size};
use crate::spelled::Spelled;
use hare_tree::{Fault, Place, Stop};
use hare_types::{Row, TypeId, TypeIds, TypeStore};
use std::alloc::{AllocError, Global};

/// What a spelled type is reduced to.
#[derive(Drop)]
pub(crate) enum Reduced {
    /// A type of the store.
    Known(TypeId),
    /// A type that may be new to it.
    Fresh(Row),
}

/// The type of these members: one alone is itself.
fn of_members(alloc: Global, members: &[TypeId]) -> Result<Reduced, AllocError>
    requires { 1 ≤ length members.now }
    ensures { IfOk result (IsOfMembers members.now) }
{
    if members.len() == 1 {
        return Ok(Reduced::Known(members[0]));
    }
    let types = type_ids(alloc, members)?;
    Ok(Reduced::Fresh(Row::Union(types)))
}

/// What a union is reduced to.
fn reduce_union(
    alloc: Global,
    s: &TypeStore,
    r: &Spelled,
    members: &TypeIds,
    place: Place,
) -> Result<Reduced, Stop<Fault>>
    requires union { written r.now.row ≡ Some members.now }
    requires within { AreIds s.now members.now }
    requires sound { IsStore s.now }
    ensures ok { IfOk result (IsReduction s.now r.now) }
    ensures passes { OnOk result (PassesAll s.now r.now place (Spreading ∷ Sized ∷ Inhabited ∷ Narrow ∷ [])) }
    ensures err { IfErr result (StopsEarly s.now r.now place) }
{
    let brought = members_left(alloc, s, r, members, place)?;
    if any_unsized(s, &brought) {
        return Err(Stop::Fault(Fault { number: 17, place }));
    }
    let left = ascending(alloc, &brought)?;
    if left.len() == 0 {
        return Err(Stop::Fault(Fault { number: 19, place }));
    }
    if left.len() > MOST_MEMBERS {
        return Err(Stop::Fault(Fault { number: 20, place }));
    }
    let reduced = of_members(alloc, &left)?;
    Ok(reduced)
}

/// What a type that is no union is reduced to: itself.
fn reduce_other(
    alloc: Global,
    s: &TypeStore,
    r: &Spelled,
    place: Place,
) -> Result<Reduced, Stop<Fault>>
    requires other { written r.now.row ≡ None }
    requires within { IsWithin (length s.now.rows) r.now.row }
    ensures ok { IfOk result (IsReduction s.now r.now) }
    ensures passes { OnOk result (PassesAll s.now r.now place (Spreading ∷ Sized ∷ Inhabited ∷ Narrow ∷ [])) }
    ensures err { IfErr result (StopsEarly s.now r.now place) }
{
    if lacks_size(s, &r.row) {
        return Err(Stop::Fault(Fault { number: 17, place }));
    }
    let row = copied(alloc, &r.row)?;
    Ok(Reduced::Fresh(row))
}

/// What a spelled type is reduced to, or the fault of the first check that it fails, but for that of sizes.
pub(crate) fn reduce(
    alloc: Global,
    s: &TypeStore,
    r: &Spelled,
    place: Place,
) -> Result<Reduced, Stop<Fault>>
    requires within { IsWithin (length s.now.rows) r.now.row }
    ensures ok { IfOk result (IsReduction s.now r.now) }
    ensures passes { OnOk result (PassesAll s.now r.now place (Spreading ∷ Sized ∷ Inhabited ∷ Narrow ∷ [])) }
    ensures err { IfErr result (StopsEarly s.now r.now place) }
    ensures sound { IsStore s.now }
{
    // that the store is sound
    let _law = s.declarations();
    match &r.row {
        Row::Union(members) => reduce_union(alloc, s, r, members, place),
        _ => reduce_other(alloc, s, r, place),
    }
}
