//! Data items.

ghost use Rattle.std.specs.Prelude.{◌≡◌, flat_map, sum_by, IfOk, OnOk};
ghost use Rattle.il_code.specs.Addresses.{part_size, value_size, width_bytes};
ghost use Rattle.il_mem.specs.Holds.{IsWidth};
ghost use Rattle.il_load.specs.Puts.{IsReady, IsSome, PutsBefore};
ghost use Rattle.il_load.specs.Data.{IsFree, PutsItem, address_in, part_in, ranges_with, value_in};

use crate::pieces::{put_bytes, put_number, put_zeros};
use hx_base::Text;
use il_code::{IlItem, Part, PartValue};
use il_decode::{Symbol, Table, data_size};
use il_mem::Mem;
use std::alloc::AllocError;

/// Puts an item of data where it stands. A function has no bytes.
pub(crate) fn put_item(
    memory: &mut Mem,
    symbols: &Table<Symbol>,
    item: &IlItem,
) -> Result<(), AllocError>
    requires free { IsFree memory.old.ranges symbols.now item.now }
    requires some { IsSome memory.old }
    ensures item { OnOk result (PutsItem symbols.now memory.old memory.new item.now) }
    ensures ranges { OnOk result (memory.new.ranges ≡ ranges_with memory.old.ranges symbols.now item.now) }
{
    match item {
        IlItem::Function { .. } => Ok(()),
        IlItem::Data { name, parts, .. } => {
            let at = address_of(symbols, name);
            let size = data_size(parts.as_slice());
            memory.map(at, size)?;
            put_parts(memory, symbols, at + size, parts.as_slice())?;
            Ok(())
        }
    }
}

fn address_of(symbols: &Table<Symbol>, name: &Text) -> u64
    ensures { result ≡ address_in symbols.now name.now }
{
    match symbols.find(name.bytes()) {
        Some(symbol) => symbol.address,
        None => 0,
    }
}

// Puts parts in front of an address, and gives where they begin.
fn put_parts(
    memory: &mut Mem,
    symbols: &Table<Symbol>,
    end: u64,
    parts: &[Part],
) -> Result<u64, AllocError>
    requires { IsReady memory.old end (sum_by part_size parts.now) }
    ensures { IfOk result (PutsBefore memory.old memory.new end (flat_map (part_in symbols.now) parts.now)) }
{
    let mut at = end;
    for i in (0..parts.len()).rev() {
        at = put_part(memory, symbols, at, &parts[i])?;
    }
    Ok(at)
}

fn put_part(
    memory: &mut Mem,
    symbols: &Table<Symbol>,
    end: u64,
    part: &Part,
) -> Result<u64, AllocError>
    requires { IsReady memory.old end (part_size part.now) }
    ensures { IfOk result (PutsBefore memory.old memory.new end (part_in symbols.now part.now)) }
{
    match part {
        Part::Values { width, values } => {
            put_values(memory, symbols, end, *width, values.as_slice())
        }
        Part::Zero(count) => put_zeros(memory, end, *count),
    }
}

fn put_values(
    memory: &mut Mem,
    symbols: &Table<Symbol>,
    end: u64,
    width: u32,
    values: &[PartValue],
) -> Result<u64, AllocError>
    requires { IsReady memory.old end (sum_by (value_size width) values.now) }
    ensures { IfOk result (PutsBefore memory.old memory.new end (flat_map (value_in symbols.now width) values.now)) }
{
    let mut at = end;
    for i in (0..values.len()).rev() {
        at = put_value(memory, symbols, at, width, &values[i])?;
    }
    Ok(at)
}

fn put_value(
    memory: &mut Mem,
    symbols: &Table<Symbol>,
    end: u64,
    width: u32,
    value: &PartValue,
) -> Result<u64, AllocError>
    requires { IsReady memory.old end (value_size width value.now) }
    ensures { IfOk result (PutsBefore memory.old memory.new end (value_in symbols.now width value.now)) }
{
    match value {
        PartValue::Number(n) => put_number(memory, end, width_of(width), *n),
        PartValue::Str(text) => put_bytes(memory, end, text.bytes()),
        PartValue::Symbol(name, offset) => {
            let to = address_of(symbols, name).wrapping_add(*offset);
            put_number(memory, end, width_of(width), to)
        }
    }
}

// The bytes of a number that is written with a width.
fn width_of(width: u32) -> u32
    ensures value { result ≡ width_bytes width }
    ensures width { IsWidth result }
{
    match width {
        1 => 1,
        2 => 2,
        4 => 4,
        _ => 8,
    }
}
