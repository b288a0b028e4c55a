//! Where the fields of the structs of a store stand, by the numbers of their names.

ghost use Rattle.std.specs.Prelude.{◌≡◌, ◌≢◌, ◌≤◌, ℕ, length, position, true, Some, None, ◌==◌, slice_get, option_and_then, OnOk};
ghost use Rattle.indexmap.specs.IndexMap.{spare};
ghost use Rattle.hare_types.specs.declared.row.Row.{Row as RowOf};
ghost use Rattle.hare_types.specs.ByIds.{fields_in, field_in};
ghost use Rattle.hare_types.specs.Fields.{place_of};
ghost use Rattle.hare_types.specs.Numbering.{most};
ghost use Rattle.hare_types.specs.Rows.{NamesBelow};

use crate::id::TypeId;
use crate::lists::Field;
use crate::row::Row;
use indexmap::IndexMap;
use std::alloc::AllocError;

/// The name of a field of one struct.
#[derive(Clone, Copy, Debug, PartialEq, Eq, Hash, Drop)]
pub(crate) struct FieldName {
    pub of: TypeId,
    pub name: u32,
}

/// The places of the fields of structs, counted from 0.
pub(crate) type FieldPlaces = IndexMap<FieldName, usize>;

/// The fields of a struct, and none of any other row.
fn fields_in(row: &Row) -> &[Field]
    ensures { result.now ≡ fields_in row.now }
{
    match row {
        Row::Struct(fields) => fields.as_slice(),
        _ => &[],
    }
}

/// Whether each field of a row has the number of one of so many names.
pub(crate) fn are_named(row: &Row, names: usize) -> bool
    ensures { result ≡ true → NamesBelow names (fields_in row.now) }
{
    for field in fields_in(row) {
        if field.name as usize >= names {
            return false;
        }
    }
    true
}

/// Makes room for the places of the fields of a row.
pub(crate) fn reserve_fields(places: &mut FieldPlaces, row: &Row) -> Result<(), AllocError>
    ensures same { places.new.entries ≡ places.old.entries }
    ensures room { OnOk result (length (fields_in row.now) ≤ spare places.new) }
{
    let fields = fields_in(row);
    if fields.is_empty() {
        return Ok(());
    }
    places.reserve(fields.len())?;
    Ok(())
}

/// Enters the places of the fields of struct `t`, of which none is entered yet. Of fields of one name the first counts.
#[inline(never)]
fn enter_fields(places: &mut FieldPlaces, t: TypeId, fields: &[Field])
    requires room { length fields.now ≤ spare places.old }
    requires none { (name : ℕ) → place_of places.old.entries t name ≡ None }
    ensures here { (name : ℕ) → place_of places.new.entries t name ≡ position (λ f. f.name == name) fields.now }
    ensures there { (u name : ℕ) → u ≢ t → place_of places.new.entries u name ≡ place_of places.old.entries u name }
{
    for i in (0..fields.len()).rev() {
        let key = FieldName {
            of: t,
            name: fields[i].name,
        };
        match places.insert(key, i) {
            Ok(_) => {}
            Err(_) => unreachable!(),
        }
    }
}

/// Enters the places of the fields of row `i`, where it was taken in just now.
pub(crate) fn enter_if_new(rows: &[Row], places: &mut FieldPlaces, i: usize)
    requires few { length rows.now ≤ most }
    requires room { (r : RowOf) → slice_get rows.now i ≡ Some r → length (fields_in r) ≤ spare places.old }
    requires none { (name : ℕ) → place_of places.old.entries i name ≡ None }
    ensures here { (name : ℕ) → place_of places.new.entries i name ≡ option_and_then (field_in name) (slice_get rows.now i) }
    ensures there { (u name : ℕ) → u ≢ i → place_of places.new.entries u name ≡ place_of places.old.entries u name }
{
    if i < rows.len() {
        let fields = fields_in(&rows[i]);
        if !fields.is_empty() {
            enter_fields(places, TypeId::at(i as u32), fields);
        }
    }
}
