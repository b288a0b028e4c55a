//! Literals, and names that stand for what is known.

ghost use Rattle.std.specs.Prelude.{◌≡◌, ◌<◌, ◌^◌, IfOk};
ghost use Rattle.hare_typed.specs.Cells.{byte_cells};
ghost use Rattle.hare_typed.specs.Typed.{head_of};
ghost use Rattle.hare_typed.specs.ConstantForms.{bool_cells as cells_of_bool};
ghost use Rattle.hare_const.specs.NodeValues as spec;

use crate::number::number_cells;
use hare_typed::{Cell, Cells, Const, Typed};
use hare_types::TypeStore;
use std::alloc::{AllocError, Global};

/// The cell of a bool: 1 for true and 0 for false.
pub(crate) fn bool_cells(alloc: Global, holds: bool) -> Result<Cells, AllocError>
    ensures { IfOk result (λ cells. cells ≡ cells_of_bool holds) }
{
    let mut cells = Cells::with_room(alloc, 1);
    cells.push(Cell::Byte(u8::from(holds)))?;
    Ok(cells)
}

/// The value of a number or of a rune. A whole number without a suffix has no cells: its type says which it is.
pub(crate) fn literal(alloc: Global, s: &TypeStore, t: &Typed) -> Result<Cells, AllocError>
    requires { (head_of t.now).number < 2 ^ 127 }
    ensures { IfOk result (λ cells. cells ≡ spec.literal s.now t.now) }
{
    number_cells(alloc, s, t.ty, t.number as i128)
}

/// The value of `true` or of `false`.
pub(crate) fn literal_bool(alloc: Global, t: &Typed) -> Result<Cells, AllocError>
    ensures { IfOk result (λ cells. cells ≡ spec.literal_bool t.now) }
{
    bool_cells(alloc, t.text.bytes() == b"true".as_slice())
}

/// The cells of the constant that a path has; none where it has none.
pub(crate) fn cells_known(alloc: Global, value: &Const) -> Result<Cells, AllocError>
    ensures { IfOk result (λ cells. cells ≡ spec.cells_known value.now) }
{
    let mut copy = Cells::new(alloc);
    if let Const::Known { cells, .. } = value {
        copy.append(alloc, cells)?;
    }
    Ok(copy)
}

/// Bytes as the cells of an object.
pub(crate) fn cells_of_bytes(alloc: Global, bytes: &[u8]) -> Result<Cells, AllocError>
    ensures { IfOk result (λ cells. cells ≡ byte_cells bytes.now) }
{
    let mut cells = Cells::with_room(alloc, bytes.len());
    for b in bytes {
        cells.push(Cell::Byte(*b))?;
    }
    Ok(cells)
}
