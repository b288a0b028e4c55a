//! The rows of places, aggregates and the heap.

ghost use Rattle.std.specs.Prelude.{◌≡◌, true, cond, Some, None, IfOk};
ghost use Rattle.hare_types.specs.Store.{Store};
ghost use Rattle.hare_types.specs.Later.{IsLater};
ghost use Rattle.rule_judge.specs.Asked as spec;
ghost use Rattle.rule_mem.specs.Kinds.{asks};
ghost use Rattle.rule_judge.specs.Grown.{IsGrown};
ghost use Rattle.rule_mem.specs.Needs.{IsReady};
ghost use Rattle.rule_judge.specs.Turns.{context_in, IsTurn};

use crate::allocs::{has_object, has_sequence, has_sized_object};
use crate::deletes::{deletes_at_mutable, deletes_at_place, deletes_from_slice};
use crate::literals::names_fields;
use crate::paths::names_value;
use crate::rows::{
    has_member, is_counted, is_first_mutable, is_first_place, is_freeable, is_indexable, is_member,
    is_part, is_pointed, is_slice,
};
use crate::{arrays, tuples};
use hare_rules::RowId;
use hare_tree::Place;
use hare_types::TypeStore;
use rule_judge::{Turn, place_at};
use std::alloc::{AllocError, Global};

/// The place of the fault, unless the row is met.
fn unless(met: bool, place: Place) -> Option<Place>
    ensures { result ≡ cond met None (Some place) }
{
    if met { None } else { Some(place) }
}

/// The place of the fault, where the node fails one of these rows; none where it meets it.
pub(crate) fn unmet(
    alloc: Global,
    s: &mut TypeStore,
    t: &Turn<'_>,
    row: RowId,
) -> Result<Option<Place>, AllocError>
    requires turn { IsTurn s.old t.now }
    requires needs { IsReady s.old t.now }
    requires row { asks row ≡ true }
    ensures value { IfOk result (λ o. (f : Store) → IsLater s.new f → o ≡ spec.unmet row (context_in f t.now)) }
    ensures grown { IsGrown s.old s.new }
{
    let _law = s.declarations();
    let node = t.node;
    let here = node.place;
    match row {
        RowId::PathBindingKnown => Ok(None),
        RowId::PathNamed => {
            let met = names_value(s, t)?;
            Ok(unless(met, here))
        }
        RowId::DerefPointed => Ok(unless(is_pointed(s, t), here)),
        RowId::AddrPlace | RowId::AssignPlace | RowId::AppendPlace => {
            Ok(unless(is_first_place(s, t), here))
        }
        RowId::AddrMutable | RowId::AssignMutable | RowId::AppendMutable => {
            Ok(unless(is_first_mutable(s, t), here))
        }
        RowId::IndexIndexable => Ok(unless(is_indexable(s, t), here)),
        RowId::SliceIndexable => Ok(unless(is_indexable(s, t), here)),
        RowId::FieldMember => Ok(unless(has_member(s, t), here)),
        RowId::StructLitFields => {
            let met = names_fields(alloc, s, t)?;
            Ok(unless(met, here))
        }
        RowId::TupleDefaults => Ok(tuples::lacking(s, t)),
        RowId::TupleHasSize => {
            let met = tuples::are_sized(alloc, s, t)?;
            Ok(unless(met, here))
        }
        RowId::TupleSmall => {
            let met = tuples::fits(alloc, s, t)?;
            Ok(unless(met, here))
        }
        RowId::ArrayFirstDefault => {
            Ok(unless(arrays::has_first_default(s, t), place_at(t.kids, 0)))
        }
        RowId::ArrayLong => Ok(unless(arrays::is_long(s, t), here)),
        RowId::ArrayHasSize => {
            let met = arrays::is_sized(s, t)?;
            Ok(unless(met, here))
        }
        RowId::ArraySmall => {
            let met = arrays::fits(s, t)?;
            Ok(unless(met, here))
        }
        RowId::AllocDefault => Ok(unless(has_object(t), place_at(t.kids, 0))),
        RowId::AllocHasSize => {
            let met = has_sized_object(s, t)?;
            Ok(unless(met, here))
        }
        RowId::AllocSequence => Ok(unless(has_sequence(s, t), here)),
        RowId::FreeFreeable => Ok(unless(is_freeable(s, t), here)),
        RowId::AppendSequence => Ok(unless(is_slice(s, t), here)),
        RowId::DeleteKind => Ok(unless(is_part(t), here)),
        RowId::DeleteSequence => Ok(unless(deletes_from_slice(s, t), here)),
        RowId::DeletePlace => Ok(unless(deletes_at_place(s, t), here)),
        RowId::DeleteMutable => Ok(unless(deletes_at_mutable(s, t), here)),
        RowId::LenCounted => Ok(unless(is_counted(s, t), here)),
        RowId::OffsetKind => Ok(unless(is_member(t), here)),
        _ => unreachable!(),
    }
}
