//! Addresses of static objects, and slices over them.

ghost use Rattle.std.specs.Prelude.{◌≡◌, ◌+◌, ◌-◌, ◌<◌, ◌^◌, IfOk};
ghost use Rattle.hare_typed.specs.Scalars.{Nullable, Pointing, Null, Address, cells as cells_of};
ghost use Rattle.hare_typed.specs.Words.{three};
ghost use Rattle.hare_const.specs.NodeValues as spec;

use crate::kids::meaning_of_first;
use crate::number::{byte_cells_of, word_of};
use hare_tree::Meaning;
use hare_typed::{Cell, Cells, Typed};
use std::alloc::{AllocError, Global};

/// How many cells a pointer or a word has.
const WORD: u32 = 8;

/// How many cells a slice or a text has: a pointer and two words.
const SLICE: usize = 24;

/// The fragments of the address of an object's first byte.
fn address_of(object: u64) -> [Cell; 8]
    ensures { result ≡ cells_of Nullable (Pointing (Address object 0)) }
{
    [
        Cell::Fragment(object, 0, 0),
        Cell::Fragment(object, 0, 1),
        Cell::Fragment(object, 0, 2),
        Cell::Fragment(object, 0, 3),
        Cell::Fragment(object, 0, 4),
        Cell::Fragment(object, 0, 5),
        Cell::Fragment(object, 0, 6),
        Cell::Fragment(object, 0, 7),
    ]
}

/// The cells of the address of an object's first byte.
fn address_cells(alloc: Global, object: u64) -> Result<Cells, AllocError>
    ensures { IfOk result (λ cells. cells ≡ cells_of Nullable (Pointing (Address object 0))) }
{
    Cells::of(alloc, &address_of(object))
}

/// The cells of null.
pub(crate) fn null_cells(alloc: Global) -> Result<Cells, AllocError>
    ensures { IfOk result (λ cells. cells ≡ cells_of Nullable (Pointing Null)) }
{
    byte_cells_of(alloc, 0, WORD)
}

/// The cells of a slice or a text of so many elements that begin with an object, and with no room behind them.
fn slice_cells(alloc: Global, object: u64, count: u64) -> Result<Cells, AllocError>
    ensures { IfOk result (λ cells. cells ≡ three (record { data_at = Address object 0; length = count; capacity = count })) }
{
    let mut cells = Cells::with_room(alloc, SLICE);
    let word = word_of(count);
    cells.extend(&address_of(object))?;
    cells.extend(&word)?;
    cells.extend(&word)?;
    Ok(cells)
}

/// The number of the object of a node: of a string, or of an array that becomes a slice.
pub(crate) fn object_number(own: u32, t: &Typed) -> u64
    requires { own < 2 ^ 32 - 1 }
    ensures { result ≡ spec.object_number own t.now }
{
    (u64::from(own) + 1) * 4_294_967_296 + u64::from(t.node)
}

/// The cells of a slice of so many elements that begin with the node's object.
pub(crate) fn slice_of(alloc: Global, own: u32, t: &Typed, count: u64) -> Result<Cells, AllocError>
    requires { own < 2 ^ 32 - 1 }
    ensures { IfOk result (λ cells. cells ≡ spec.slice_of own t.now count) }
{
    slice_cells(alloc, object_number(own, t), count)
}

/// The value of a string: a text over its object.
pub(crate) fn literal_text(alloc: Global, own: u32, t: &Typed) -> Result<Cells, AllocError>
    requires { own < 2 ^ 32 - 1 }
    ensures { IfOk result (λ cells. cells ≡ spec.literal_text own t.now) }
{
    slice_of(alloc, own, t, t.text.bytes().len() as u64)
}

/// The declaration that a path means; 0 where it means none.
fn declared_by(meaning: Meaning) -> u32
    ensures { result ≡ spec.declared_by meaning }
{
    match meaning {
        Meaning::Decl(d) => d,
        _ => 0,
    }
}

/// The value of `&` before the path to a global: the object of a global has the number of its declaration.
pub(crate) fn address_value(alloc: Global, t: &Typed) -> Result<Cells, AllocError>
    ensures { IfOk result (λ cells. cells ≡ spec.address_value t.now) }
{
    let declared = declared_by(meaning_of_first(t));
    address_cells(alloc, u64::from(declared))
}
