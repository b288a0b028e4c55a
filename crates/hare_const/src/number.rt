//! The numbers that cells spell.

ghost use Rattle.std.specs.Prelude.{◌≡◌, ◌≤◌, ◌<◌, ◌^◌, pos, neg_ℤ, ◌≤ℤ◌, ◌<ℤ◌, length, option_map, IfSome, IfOk, Some};
ghost use Rattle.hx_base.specs.Memory.{le_bytes, le_number};
ghost use Rattle.hare_typed.specs.Cells.{bytes_of, byte_cells};
ghost use Rattle.hare_typed.specs.Scalars.{number_spelled, bool_spelled, width as scalar_width};
ghost use Rattle.hare_typed.specs.Shapes.{shape_at as spec_shape_at};
ghost use Rattle.hare_typed.specs.Coercions.{number_of_value as number_of_cells, number_cells as cells_of_number};
ghost use Rattle.hare_const.specs.Shapes.{shape_of, IsNarrow};
ghost use Rattle.hare_types.specs.declared.coercion.Ty.TheVariants as ty;
ghost use Rattle.hare_const.specs.Operators.{IsWhole};
ghost use Rattle.hare_const.specs.Numbers as spec;

use crate::shape::{Shape, shape_at};
use hare_typed::{Cell, Cells, Const};
use hare_types::{Ty, TypeId, TypeStore};
use hx_base::{le_byte, wrap};
use std::alloc::{AllocError, Global};

/// How many cells a number has at most.
const MOST_CELLS: usize = 8;

/// How many cells a scalar has.
fn width(shape: Shape) -> u32
    requires { IsNarrow shape }
    ensures value { result ≡ scalar_width (shape_of shape) }
    ensures few { result ≤ 8 }
{
    match shape {
        Shape::Whole(bytes, _) => bytes,
        Shape::Truth => 1,
        Shape::Reference | Shape::Nullable => 8,
    }
}

/// The byte that a cell is.
pub(crate) fn byte_of(cell: Cell) -> Option<u8>
    ensures { result ≡ spec.byte_in cell }
{
    match cell {
        Cell::Byte(b) => Some(b),
        _ => None,
    }
}

/// The number that bytes spell, the lowest first; none where a cell is no byte. There are at most eight cells.
pub fn little_endian(cells: &[Cell]) -> Option<u64>
    requires { length cells.now ≤ 8 }
    ensures value { result ≡ option_map le_number (bytes_of cells.now) }
    ensures within { IfSome result (λ n. n < 256 ^ length cells.now) }
{
    let Some((first, others)) = cells.split_first() else {
        return Some(0);
    };
    let low = byte_of(*first)?;
    match little_endian(others) {
        Some(high) => Some(u64::from(low) + 256 * high),
        None => None,
    }
}

/// The number of so many bytes that cells spell.
fn whole(cells: &[Cell], bytes: u32, signed: bool) -> Option<i128>
    requires { bytes ≤ 8 }
    ensures value { result ≡ spec.number_of_scalar (number_spelled bytes signed cells.now) }
    ensures low { IfSome result (λ v. neg_ℤ (pos (2 ^ 63)) ≤ℤ v) }
    ensures high { IfSome result (λ v. v <ℤ pos (2 ^ 64)) }
{
    if cells.len() != bytes as usize {
        return None;
    }
    if bytes == 0 {
        return Some(0);
    }
    match little_endian(cells) {
        Some(number) => Some(wrap(i128::from(number), 8 * bytes, signed)),
        None => None,
    }
}

/// 1 where a cell is the byte of true, and 0 where it is that of false.
fn truth(cells: &[Cell]) -> Option<i128>
    ensures value { result ≡ spec.number_of_scalar (bool_spelled cells.now) }
    ensures low { IfSome result (λ v. neg_ℤ (pos (2 ^ 63)) ≤ℤ v) }
    ensures high { IfSome result (λ v. v <ℤ pos (2 ^ 64)) }
{
    match cells {
        [Cell::Byte(0)] => Some(0),
        [Cell::Byte(1)] => Some(1),
        _ => None,
    }
}

/// The number that cells spell at the shape of a type.
fn number_by(shape: Shape, cells: &[Cell]) -> Option<i128>
    requires { IsNarrow shape }
    ensures value { result ≡ spec.number_by (Some (shape_of shape)) cells.now }
    ensures low { IfSome result (λ v. neg_ℤ (pos (2 ^ 63)) ≤ℤ v) }
    ensures high { IfSome result (λ v. v <ℤ pos (2 ^ 64)) }
{
    match shape {
        Shape::Whole(bytes, signed) => whole(cells, bytes, signed),
        Shape::Truth => truth(cells),
        Shape::Reference | Shape::Nullable => None,
    }
}

/// The number that the cells of a value of a type spell.
pub(crate) fn number_at(s: &TypeStore, t: TypeId, cells: &Cells) -> Option<i128>
    ensures value { result ≡ spec.number_by (spec_shape_at s.now t) cells.now }
    ensures low { IfSome result (λ v. neg_ℤ (pos (2 ^ 63)) ≤ℤ v) }
    ensures high { IfSome result (λ v. v <ℤ pos (2 ^ 64)) }
{
    let shape = shape_at(s, t)?;
    let count = cells.len();
    if count > MOST_CELLS {
        return None;
    }
    let mut buffer = [Cell::Undef; MOST_CELLS];
    let read = &mut buffer[..count];
    let _whole = cells.read(0, read);
    number_by(shape, read)
}

/// The number that a value of a type of the store is. What is no number is 0.
pub(crate) fn typed_number(s: &TypeStore, t: TypeId, cells: &Cells) -> i128
    ensures value { result ≡ number_of_cells s.now (ty.Of t) cells.now }
    ensures whole { IsWhole result }
{
    number_at(s, t, cells).unwrap_or(0)
}

/// The number that a value of a type is. A whole number without a suffix has no cells: its type says which it is. What is no number is 0.
pub fn number_of_value(s: &TypeStore, t: Ty, cells: &Cells) -> i128
    ensures { result ≡ number_of_cells s.now t cells.now }
{
    match t {
        Ty::Of(t) => typed_number(s, t, cells),
        Ty::Iconst(v) => v,
        Ty::Null | Ty::Empty => 0,
    }
}

/// The bytes of a number, the lowest first.
pub(crate) fn word_of(number: u64) -> [Cell; 8]
    ensures { result ≡ byte_cells (le_bytes 8 number) }
{
    [
        Cell::Byte(le_byte(number, 0)),
        Cell::Byte(le_byte(number, 1)),
        Cell::Byte(le_byte(number, 2)),
        Cell::Byte(le_byte(number, 3)),
        Cell::Byte(le_byte(number, 4)),
        Cell::Byte(le_byte(number, 5)),
        Cell::Byte(le_byte(number, 6)),
        Cell::Byte(le_byte(number, 7)),
    ]
}

/// The lowest bytes of a number, the lowest first.
pub(crate) fn byte_cells_of(alloc: Global, number: u64, bytes: u32) -> Result<Cells, AllocError>
    requires { bytes ≤ 8 }
    ensures { IfOk result (λ cells. cells ≡ byte_cells (le_bytes bytes number)) }
{
    let word = word_of(number);
    Cells::of(alloc, &word[..bytes as usize])
}

/// The cells of a number at a type: as many bytes as it has, the lowest first, in two's complement. A whole number without a suffix has
/// none.
pub fn number_cells(alloc: Global, s: &TypeStore, t: Ty, v: i128) -> Result<Cells, AllocError>
    ensures { IfOk result (λ cells. cells ≡ cells_of_number s.now t v) }
{
    let Ty::Of(t) = t else {
        return Ok(Cells::new(alloc));
    };
    let Some(shape) = shape_at(s, t) else {
        return Ok(Cells::new(alloc));
    };
    let bytes = width(shape);
    if bytes == 0 {
        return Ok(Cells::new(alloc));
    }
    byte_cells_of(alloc, wrap(v, 8 * bytes, false) as u64, bytes)
}

/// The number that a constant of a type is; none where its cells are no number of the type.
pub fn number_of(s: &TypeStore, t: TypeId, c: &Const) -> Option<i128>
    ensures value { result ≡ spec.number_of s.now t c.now }
    ensures low { IfSome result (λ v. neg_ℤ (pos (2 ^ 63)) ≤ℤ v) }
    ensures high { IfSome result (λ v. v <ℤ pos (2 ^ 64)) }
{
    let Const::Known { cells, .. } = c else {
        return None;
    };
    number_at(s, t, cells)
}

/// The same, where the constant has a type of the store.
pub(crate) fn number_in(s: &TypeStore, t: Ty, c: &Const) -> Option<i128>
    ensures value { result ≡ spec.number_in s.now t c.now }
{
    match t {
        Ty::Of(t) => number_of(s, t, c),
        _ => None,
    }
}
