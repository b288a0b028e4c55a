//! The texts that constants of type `str` are.

ghost use Rattle.std.specs.Prelude.{◌≡◌, ◌+◌, ◌≤◌, [], List, length, option_map, IfOk, IfSome, IfNone};
ghost use Rattle.hare_typed.specs.declared.constant.ConstObject.{ConstObject as ObjectValue};
ghost use Rattle.hare_typed.specs.Answers.{or_undefined, Gives, ◌then◌};
ghost use Rattle.hare_typed.specs.Cells.{are_fragments, bytes_of, cells_within};
ghost use Rattle.hare_typed.specs.Objects.{scalar_of};
ghost use Rattle.hare_typed.specs.Scalars as scalars;
ghost use Rattle.hare_typed.specs.Words.{pointer_in, size_in, words};
ghost use Rattle.hare_const.specs.Numbers.{byte_in};
ghost use Rattle.hare_rules.specs.Constants as constants;
ghost use Rattle.rule_switch.specs.Texts.{is_fragment, pointer_told, pointing_told, bytes_in};

use hare_const::little_endian;
use hare_typed::{Cell, Cells, Const, ConstObjects};
use std::alloc::{AllocError, Global};

/// How many cells a word has.
const WORD: usize = 8;

/// Where a pointer of a constant leads.
#[derive(Clone, Copy, Debug, PartialEq, Eq)]
enum Pointer {
    /// Nowhere.
    Null,
    /// To an offset of an object.
    Address(u64, u64),
}

/// Where the bytes of a text begin, and how many they are.
#[derive(Clone, Copy, Debug, PartialEq, Eq)]
struct Text {
    at: Pointer,
    length: u64,
}

/// Whether a cell is the fragment with this place of the pointer to an offset of an object.
fn is_fragment(object: u64, offset: u64, place: u32, cell: Cell) -> bool
    ensures { result ≡ is_fragment object offset place cell }
{
    match cell {
        Cell::Fragment(o, d, k) => object == o && offset == d && place == k,
        Cell::Byte(_) | Cell::Undef => false,
    }
}

/// Whether cells are the fragments of that pointer from a place on.
fn are_fragments(object: u64, offset: u64, place: u32, cells: &[Cell]) -> bool
    requires { place + length cells.now ≤ 8 }
    ensures { result ≡ are_fragments object offset place cells.now }
{
    let Some((first, others)) = cells.split_first() else {
        return true;
    };
    if !is_fragment(object, offset, place, *first) {
        return false;
    }
    are_fragments(object, offset, place + 1, others)
}

/// The pointer, not null, of which cells are the eight fragments.
fn address(cells: &[Cell]) -> Option<Pointer>
    ensures { option_map pointing_told result ≡ scalars.address_spelled cells.now }
{
    if cells.len() != WORD {
        return None;
    }
    match cells[0] {
        Cell::Fragment(object, offset, _) => {
            if are_fragments(object, offset, 0, cells) {
                Some(Pointer::Address(object, offset))
            } else {
                None
            }
        }
        Cell::Byte(_) | Cell::Undef => None,
    }
}

/// Null, where cells are eight zero bytes.
fn null_pointer(cells: &[Cell]) -> Option<Pointer>
    ensures { option_map pointing_told result ≡ scalars.null_spelled cells.now }
{
    if cells.len() != WORD {
        return None;
    }
    match little_endian(cells) {
        Some(0) => Some(Pointer::Null),
        _ => None,
    }
}

/// The pointer that the cells of a word are.
fn pointer_in_word(cells: &[Cell]) -> Option<Pointer>
    ensures { or_undefined 3 (option_map pointer_told result) ≡ (scalar_of scalars.Nullable cells.now then (λ p. Gives (pointer_in p))) }
{
    match address(cells) {
        Some(p) => Some(p),
        None => null_pointer(cells),
    }
}

/// The pointer that the first word of cells is.
fn pointer_of(cells: &Cells) -> Option<Pointer>
    ensures { or_undefined 3 (option_map pointer_told result) ≡
        (scalar_of scalars.Nullable (cells_within 0 8 cells.now) then (λ p. Gives (pointer_in p))) }
{
    let mut word = [Cell::Undef; WORD];
    let buffer = &mut word[..];
    if !cells.read(0, buffer) {
        return None;
    }
    pointer_in_word(buffer)
}

/// The number that the word of cells at a place is.
fn size_at(cells: &Cells, at: usize) -> Option<u64>
    ensures { or_undefined 3 result ≡ size_in (cells_within at 8 cells.now) }
{
    let mut word = [Cell::Undef; WORD];
    let buffer = &mut word[..];
    if !cells.read(at, buffer) {
        return None;
    }
    little_endian(buffer)
}

/// Where the text begins that cells are, and how long it is.
fn text_words(cells: &Cells) -> Option<Text>
    ensures { (os : List ObjectValue) → bytes_in os result ≡ constants.text_of_words os (words cells.now) }
{
    let at = pointer_of(cells)?;
    let length = size_at(cells, 8)?;
    let _capacity = size_at(cells, 16)?;
    Some(Text { at, length })
}

/// The cells of the object with this number; none where it is none of these.
fn object_cells(objects: &ConstObjects, number: u64) -> Option<&Cells>
    ensures found { IfSome result (λ cs. cs.now ≡ constants.object_cells objects.now number) }
    ensures none { IfNone result (constants.object_cells objects.now number ≡ []) }
{
    for o in objects.as_slice() {
        if o.object == number {
            return Some(o.cells.cells());
        }
    }
    None
}

/// The byte that a cell is.
fn byte_of(cell: Cell) -> Option<u8>
    ensures { result ≡ byte_in cell }
{
    match cell {
        Cell::Byte(b) => Some(b),
        Cell::Fragment(_, _, _) | Cell::Undef => None,
    }
}

/// The bytes that so many cells from a place on are; none where one is no byte. Where there are fewer, those that there are.
fn cell_bytes(
    alloc: Global,
    cells: &Cells,
    from: usize,
    count: usize,
) -> Result<Option<Vec<u8>>, AllocError>
    ensures { IfOk result (λ o. option_map (λ v. v.items) o ≡ bytes_of (cells_within from count cells.now)) }
{
    let mut out = Vec::new(alloc);
    let mut left = count;
    for i in from..cells.len() {
        if left == 0 {
            return Ok(Some(out));
        }
        left -= 1;
        let Some(cell) = cells.get(i) else {
            return Ok(Some(out));
        };
        let Some(byte) = byte_of(cell) else {
            return Ok(None);
        };
        out.push(byte)?;
    }
    Ok(Some(out))
}

/// The bytes of a text among these objects.
fn text_bytes(
    alloc: Global,
    objects: &ConstObjects,
    text: Text,
) -> Result<Option<Vec<u8>>, AllocError>
    ensures { IfOk result (λ o. option_map (λ v. v.items) o ≡ constants.bytes_at objects.now (pointer_told text.at) text.length) }
{
    match text.at {
        Pointer::Null => Ok(Some(Vec::new(alloc))),
        Pointer::Address(object, offset) => match object_cells(objects, object) {
            Some(cells) => {
                let found = cell_bytes(alloc, cells, offset as usize, text.length as usize)?;
                Ok(found)
            }
            None => Ok(Some(Vec::new(alloc))),
        },
    }
}

/// The bytes of the text that a constant is; none where it is no text.
pub(crate) fn text_in(alloc: Global, c: &Const) -> Result<Option<Vec<u8>>, AllocError>
    ensures { IfOk result (λ o. option_map (λ v. v.items) o ≡ constants.text_in c.now) }
{
    let Const::Known { cells, objects } = c else {
        return Ok(None);
    };
    let Some(text) = text_words(cells) else {
        return Ok(None);
    };
    let found = text_bytes(alloc, objects, text)?;
    Ok(found)
}
