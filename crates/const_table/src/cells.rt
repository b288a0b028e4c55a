//! Cells as a line spells them.

use crate::words::word;
use anyhow::Result;
use hare_const::little_endian;
use hare_typed::{Cell, Cells, ConstObjects};
use hare_types::{Row, TypeId, TypeStore};

/// So many equal cells, and more, are written once with their number.
const MANY: usize = 9;

/// How many cells a pointer has.
const POINTER_CELLS: usize = 8;

/// The objects of strings, and of arrays that became slices, have the numbers from here on; those below are globals.
const FIRST_OBJECT: u64 = 4_294_967_296;

/// Writes the cells from one on: `nothing` where there are none at all.
pub(crate) fn put_cells(out: &mut String, cells: &Cells, from: usize) -> Result<()> {
    if cells.len() == 0 {
        out.push_str("nothing")?;
    }
    let mut at = from;
    for _turn in 0..cells.len() {
        let Some(cell) = cells.get(at) else {
            return Ok(());
        };
        if at > 0 {
            out.push(' ')?;
        }
        at = at.saturating_add(put_next(out, cells, at, cell)?);
    }
    Ok(())
}

/// Writes the pointer that begins at a place, or the cell there with those behind it that are equal; and says how many cells were written.
fn put_next(out: &mut String, cells: &Cells, at: usize, cell: Cell) -> Result<usize> {
    if let Cell::Fragment(object, offset, 0) = cell {
        if is_pointer(cells, at, object, offset) {
            put_address(out, object, offset)?;
            return Ok(POINTER_CELLS);
        }
    }
    put_cell(out, cell)?;
    let count = equal_from(cells, at, cell);
    if count < MANY {
        return Ok(1);
    }
    write!(out, "*{count}")?;
    Ok(count)
}

/// Whether the eight fragments of a pointer stand from a place on.
fn is_pointer(cells: &Cells, at: usize, object: u64, offset: u64) -> bool {
    for k in 0..8 {
        if cells.get(at.saturating_add(k as usize)) != Some(Cell::Fragment(object, offset, k)) {
            return false;
        }
    }
    true
}

/// How many cells from a place on are equal to one.
fn equal_from(cells: &Cells, at: usize, cell: Cell) -> usize {
    for i in at..cells.len() {
        if cells.get(i) != Some(cell) {
            return i.saturating_sub(at);
        }
    }
    cells.len().saturating_sub(at)
}

/// Writes one cell.
fn put_cell(out: &mut String, cell: Cell) -> Result<()> {
    match cell {
        Cell::Byte(b) => write!(out, "{b:02x}")?,
        Cell::Undef => out.push_str("..")?,
        Cell::Fragment(object, offset, k) => {
            put_address(out, object, offset)?;
            write!(out, "/{k}")?;
        }
    }
    Ok(())
}

/// Writes a place in an object.
fn put_address(out: &mut String, object: u64, offset: u64) -> Result<()> {
    out.push('&')?;
    put_object(out, object)?;
    write!(out, "+{offset}")?;
    Ok(())
}

/// Writes the number of an object: that of the declaration of a global, or those of the declaration and of the node in it.
fn put_object(out: &mut String, object: u64) -> Result<()> {
    if object < FIRST_OBJECT {
        write!(out, "{object}")?;
    } else {
        let declared = (object - FIRST_OBJECT) / FIRST_OBJECT;
        let node = object % FIRST_OBJECT;
        write!(out, "{declared}.{node}")?;
    }
    Ok(())
}

/// Writes objects, each with its cells.
pub(crate) fn put_objects(out: &mut String, objects: &ConstObjects) -> Result<()> {
    for o in objects.as_slice() {
        out.push_str("; ")?;
        put_object(out, o.object)?;
        out.push_str(": ")?;
        put_cells(out, o.cells.cells(), 0)?;
    }
    Ok(())
}

/// Writes what the member is of which a value of a union is, and says how many cells its tag has; nothing of another type.
pub(crate) fn put_tag(out: &mut String, s: &TypeStore, t: TypeId, cells: &Cells) -> Result<usize> {
    let Some(Row::Union(members)) = row_of(s, t) else {
        return Ok(0);
    };
    let mut tag = [Cell::Undef; 4];
    if !cells.read(0, &mut tag) {
        return Ok(0);
    }
    for m in members.as_slice() {
        if little_endian(&tag) == Some(u64::from(m.index()) + 1) {
            write!(out, "<{}>", word(row_of(s, *m)))?;
            return Ok(tag.len());
        }
    }
    Ok(0)
}

/// The row of the base of a type.
fn row_of(s: &TypeStore, t: TypeId) -> Option<&Row> {
    let base = s.base(t)?;
    Some(s.row(base))
}
