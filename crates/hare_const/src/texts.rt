//! Texts whose bytes are told without an evaluation: strings and the constants of defs, in parentheses or not, cast to texts or not.

ghost use Rattle.std.specs.Prelude.{◌≡◌, ◌↔◌, Some, None, IsTrue, IsSome, IfOk, IfSome, MatchOption};
ghost use Rattle.hare_typed.specs.Typed.{typed_nodes, mark_of, kids_of};
ghost use Rattle.hare_typed.specs.Scalars.{Address};
ghost use Rattle.hare_typed.specs.Words.{words};
ghost use Rattle.hare_const.specs.NodeValues as values;
ghost use Rattle.hare_typed.specs.Texts as spec;

use crate::number::byte_of;
use crate::shape::is_str;
use crate::words::{Text, text_words};
use hare_tree::Kind;
use hare_typed::{Cell, Cells, Const, ConstObjects, Typed, TypedKids};
use hare_types::TypeStore;
use std::alloc::{AllocError, Global};

/// Strings have fewer bytes.
const LONGEST: u64 = 1 << 32;

/// The row of a coercion to the type that a value has.
const SAME_TYPE: u8 = 1;

/// The row of a coercion between types of one base.
const SAME_BASE: u8 = 8;

/// Whether a coercion leaves a text as it is.
fn keeps_text(t: &Typed) -> bool
    ensures { result ≡ spec.keeps_text (mark_of t.now).coerce.row }
{
    t.coerce.row == SAME_TYPE || t.coerce.row == SAME_BASE
}

/// The cells of the first object with this number.
fn object_cells(objects: &ConstObjects, number: u64) -> Option<&Cells>
    ensures { MatchOption result (spec.cells_found objects.now number ≡ None) (λ cs. spec.cells_found objects.now number ≡ Some cs.now) }
{
    for i in 0..objects.len() {
        let Some(o) = objects.get(i) else {
            return None;
        };
        if o.object == number {
            return Some(o.cells.cells());
        }
    }
    None
}

/// The bytes that so many cells from a place on are; none where there are fewer, or where one is no byte.
fn bytes_behind(
    alloc: Global,
    cells: &Cells,
    from: usize,
    count: usize,
) -> Result<Option<Vec<u8>>, AllocError>
    ensures { IfOk result (λ o. IfSome o (λ v. spec.bytes_behind from count cells.now ≡ Some v.items)) }
{
    if from > cells.len() || count > cells.len() - from {
        return Ok(None);
    }
    let mut out = Vec::new(alloc);
    for i in 0..count {
        let Some(Cell::Byte(b)) = cells.get(from + i) else {
            return Ok(None);
        };
        out.push(b)?;
    }
    Ok(Some(out))
}

/// The bytes of the text that a constant is, among the objects that it lists.
fn text_in(alloc: Global, c: &Const) -> Result<Option<Vec<u8>>, AllocError>
    ensures { IfOk result (λ o. IfSome o (λ v. spec.text_in c.now ≡ Some v.items)) }
{
    let Const::Known { cells, objects } = c else {
        return Ok(None);
    };
    let Some(text) = text_words(cells) else {
        return Ok(None);
    };
    match object_cells(objects, text.object) {
        Some(held) => bytes_behind(alloc, held, text.offset as usize, text.length as usize),
        None => Ok(None),
    }
}

/// The bytes of a string; none of one that is too long.
fn string_bytes(alloc: Global, bytes: &[u8]) -> Result<Option<Vec<u8>>, AllocError>
    ensures { IfOk result (λ o. IfSome o (λ v. spec.unless_long bytes.now ≡ Some v.items)) }
{
    if bytes.len() as u64 >= LONGEST {
        return Ok(None);
    }
    Ok(Some(Vec::from_slice(alloc, bytes)?))
}

/// The bytes of the text that a tree is; none where they are not told.
#[cycle(texts)]
fn text_of(alloc: Global, s: &TypeStore, t: &Typed) -> Result<Option<Vec<u8>>, AllocError>
    ensures { IfOk result (λ o. IfSome o (λ v. spec.text_of s.now t.now ≡ Some v.items)) }
{
    if !keeps_text(t) {
        return Ok(None);
    }
    match t.kind {
        Kind::Str => string_bytes(alloc, t.text.bytes()),
        Kind::Path => text_in(alloc, &t.value),
        Kind::Paren => text_of_kid(alloc, s, &t.kids, 0),
        Kind::Cast if is_str(s, t.ty) => text_of_kid(alloc, s, &t.kids, 0),
        _ => Ok(None),
    }
}

/// The bytes of the text that the kid with so many before it is; none where they are not told.
#[cycle(texts)]
fn text_of_kid(
    alloc: Global,
    s: &TypeStore,
    kids: &TypedKids,
    i: usize,
) -> Result<Option<Vec<u8>>, AllocError>
    ensures { IfOk result (λ o. IfSome o (λ v. spec.text_of_kid s.now i (typed_nodes kids.now) ≡ Some v.items)) }
{
    let Some(kid) = kids.get(i) else {
        return Ok(None);
    };
    text_of(alloc, s, kid)
}

/// Whether two operands are texts of the same bytes. Want of memory where one of them is not told.
pub(crate) fn same_texts(alloc: Global, s: &TypeStore, t: &Typed) -> Result<bool, AllocError>
    ensures { IfOk result (λ b. b ≡ values.same_texts s.now (kids_of t.now)) }
{
    let Some(left) = text_of_kid(alloc, s, &t.kids, 0)? else {
        return Err(AllocError);
    };
    let Some(right) = text_of_kid(alloc, s, &t.kids, 1)? else {
        return Err(AllocError);
    };
    Ok(left.as_slice() == right.as_slice())
}

/// Whether so many cells from a place on are there, and each is a byte.
fn are_bytes(cells: &Cells, from: usize, count: usize) -> bool
    ensures { IsTrue result ↔ IsSome (spec.bytes_behind from count cells.now) }
{
    if from > cells.len() || count > cells.len() - from {
        return false;
    }
    for i in 0..count {
        let Some(cell) = cells.get(from + i) else {
            return false;
        };
        if byte_of(cell).is_none() {
            return false;
        }
    }
    true
}

/// Whether one of these objects has the bytes that the words of a text tell.
fn has_bytes(objects: &ConstObjects, text: Text) -> bool
    ensures { IsTrue result ↔ IsSome (spec.bytes_at objects.now (Address text.object text.offset) text.length) }
{
    match object_cells(objects, text.object) {
        Some(held) => are_bytes(held, text.offset as usize, text.length as usize),
        None => false,
    }
}

/// Whether cells are the words of a text whose bytes are those of one of these objects.
fn says_text(cells: &Cells, objects: &ConstObjects) -> bool
    ensures { IsTrue result ↔ IsSome (spec.text_of_words objects.now (words cells.now)) }
{
    match text_words(cells) {
        Some(text) => has_bytes(objects, text),
        None => false,
    }
}

/// Whether a constant is a text whose bytes are those of an object that it lists.
fn has_text(c: &Const) -> bool
    ensures { IsTrue result ↔ IsSome (spec.text_in c.now) }
{
    match c {
        Const::Absent => false,
        Const::Known { cells, objects } => says_text(cells, objects),
    }
}

/// Whether a tree is a text whose bytes are told.
#[cycle(told)]
fn is_text(s: &TypeStore, t: &Typed) -> bool
    ensures { IsTrue result ↔ IsSome (spec.text_of s.now t.now) }
{
    if !keeps_text(t) {
        return false;
    }
    match t.kind {
        Kind::Str => (t.text.bytes().len() as u64) < LONGEST,
        Kind::Path => has_text(&t.value),
        Kind::Paren => is_text_kid(s, &t.kids, 0),
        Kind::Cast if is_str(s, t.ty) => is_text_kid(s, &t.kids, 0),
        _ => false,
    }
}

/// Whether the kid with so many before it is a text whose bytes are told.
#[cycle(told)]
fn is_text_kid(s: &TypeStore, kids: &TypedKids, i: usize) -> bool
    ensures { IsTrue result ↔ IsSome (spec.text_of_kid s.now i (typed_nodes kids.now)) }
{
    match kids.get(i) {
        Some(kid) => is_text(s, kid),
        None => false,
    }
}

/// Whether both operands are texts whose bytes are told.
pub(crate) fn are_texts(s: &TypeStore, t: &Typed) -> bool
    ensures { IsTrue result ↔ spec.AreTexts s.now (kids_of t.now) }
{
    is_text_kid(s, &t.kids, 0) && is_text_kid(s, &t.kids, 1)
}
