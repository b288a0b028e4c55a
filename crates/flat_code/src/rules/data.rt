//! Globals: their alignments, items and sizes.

ghost use Rattle.std.specs.Prelude.{◌≡◌, ◌-◌, ◌^◌, ◌&&◌, min, bytes_eq, sum_by};
ghost use Rattle.std.specs.List.{list_all, list_any};
ghost use Rattle.flat_code.specs.Addresses.{item_size};
ghost use Rattle.flat_code.specs.WellFormed.{is_alignment, is_width, is_bits, has_global, is_item, is_global, global_size, are_few};

use super::names::is_symbol;
use crate::program::{Data, FlatProgram, Item};

/// How many functions a program may have.
const MOST_FUNCTIONS: usize = 268_435_456;

/// How many globals a program may have.
const MOST_GLOBALS: usize = 1_073_741_824;

/// How many bytes all globals may have, and so may zeros.
const MOST_BYTES: u64 = 1_073_741_824;

/// Whether a global has a symbol, an alignment and items that can be written.
pub fn is_global(p: &FlatProgram, d: &Data) -> bool
    ensures { result ≡ is_global p.now d.now }
{
    is_symbol(d.name.bytes()) && is_alignment(d.align) && are_items(p, d.items.as_slice())
}

fn is_alignment(n: u32) -> bool
    ensures { result ≡ is_alignment n }
{
    n == 1 || n == 2 || n == 4 || n == 8 || n == 16
}

/// Whether a width is one of 1, 2, 4 and 8 bytes.
pub fn is_width(width: u32) -> bool
    ensures { result ≡ is_width width }
{
    width == 1 || width == 2 || width == 4 || width == 8
}

/// Every number of the types has 64 bits.
pub fn is_bits(n: u64) -> bool
    ensures { result ≡ is_bits n }
{
    n <= u64::MAX
}

fn are_items(p: &FlatProgram, items: &[Item]) -> bool
    ensures { result ≡ list_all (is_item p.now) items.now }
{
    items.iter().all(|i| is_item(p, i))
}

fn is_item(p: &FlatProgram, i: &Item) -> bool
    ensures { result ≡ is_item p.now i.now }
{
    match i {
        Item::Number(width, n) => is_width(*width) && is_bits(*n),
        Item::Bytes(_) => true,
        Item::Symbol(name, offset) => has_global(p, name.bytes()) && is_bits(*offset),
        Item::Zero(n) => *n <= MOST_BYTES,
    }
}

fn has_global(p: &FlatProgram, name: &[u8]) -> bool
    ensures { result ≡ has_global p.now name.now }
{
    p.globals.as_slice().iter().any(|d| d.name.bytes() == name)
}

/// Whether there are no more functions, globals and bytes of globals than there may be.
pub fn are_few(p: &FlatProgram) -> bool
    ensures { result ≡ are_few p.now }
{
    p.functions.len() <= MOST_FUNCTIONS
        && p.globals.len() <= MOST_GLOBALS
        && globals_size(p.globals.as_slice()) <= MOST_BYTES
}

fn globals_size(globals: &[Data]) -> u64
    ensures { result ≡ min (sum_by global_size globals.now) (2 ^ 64 - 1) }
{
    let mut total: u64 = 0;
    for d in globals {
        total = total.saturating_add(items_size(d.items.as_slice()));
    }
    total
}

fn items_size(items: &[Item]) -> u64
    ensures { result ≡ min (sum_by item_size items.now) (2 ^ 64 - 1) }
{
    let mut total: u64 = 0;
    for i in items {
        total = total.saturating_add(item_size(i));
    }
    total
}

fn item_size(i: &Item) -> u64
    ensures { result ≡ item_size i.now }
{
    match i {
        Item::Number(width, _) => u64::from(*width),
        Item::Bytes(bytes) => bytes.bytes().len() as u64,
        Item::Symbol(_, _) => 8,
        Item::Zero(n) => *n,
    }
}
