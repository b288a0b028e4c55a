//! The data items of globals.

ghost use Rattle.std.specs.Prelude.{◌≡◌, ℕ, List, [], ◌∷◌, ◌++◌, OnOk, IfOk};
ghost use Rattle.il_code.specs.Tokens.{is_string_byte};
ghost use Rattle.il_emit.specs.Emitted.{string_of, byte_values, bytes_part, item_parts, parts_of, data_item};

use crate::names::same_text;
use flat_code::{Data, Item};
use hx_base::Bytes;
use il_code::{IlItem, Part, PartValue, PartValues, Parts};
use std::alloc::{AllocError, Global};

/// The data item of a global.
pub fn data_item(alloc: Global, d: &Data) -> Result<IlItem, AllocError>
    ensures { IfOk result (λ i. i ≡ data_item d.now) }
{
    let name = same_text(alloc, &d.name)?;
    let mut parts = Parts::new(alloc);
    put_items(alloc, &mut parts, d.items.as_slice())?;
    Ok(IlItem::Data {
        export: false,
        name,
        align: d.align,
        parts,
    })
}

fn put_items(alloc: Global, out: &mut Parts, items: &[Item]) -> Result<(), AllocError>
    ensures { OnOk result (out.new ≡ out.old ++ parts_of items.now) }
{
    let mut left = items;
    'each: while let [item, more @ ..] = left {
        put_item(alloc, out, item)?;
        left = more;
    }
    Ok(())
}

fn put_item(alloc: Global, out: &mut Parts, item: &Item) -> Result<(), AllocError>
    ensures { OnOk result (out.new ≡ out.old ++ item_parts item.now) }
{
    match item {
        Item::Number(width, n) => put_value(alloc, out, *width, PartValue::Number(*n)),
        Item::Bytes(bytes) => put_bytes(alloc, out, bytes.bytes()),
        Item::Symbol(name, offset) => {
            let name = same_text(alloc, name)?;
            put_value(alloc, out, 8, PartValue::Symbol(name, *offset))
        }
        Item::Zero(n) => out.push(Part::Zero(*n)),
    }
}

/// A part of one value.
fn put_value(alloc: Global, out: &mut Parts, width: u32, value: PartValue) -> Result<(), AllocError>
    ensures { OnOk result (out.new ≡ out.old ++ Part.Values width (value ∷ []) ∷ []) }
{
    let mut values = PartValues::new(alloc);
    values.push(value)?;
    out.push(Part::Values { width, values })
}

/// Bytes as one part, if there are any.
fn put_bytes(alloc: Global, out: &mut Parts, bytes: &[u8]) -> Result<(), AllocError>
    ensures { OnOk result (out.new ≡ out.old ++ bytes_part (byte_values [] bytes.now)) }
{
    let values = values_of(alloc, bytes)?;
    if values.is_empty() {
        return Ok(());
    }
    out.push(Part::Values { width: 1, values })
}

/// Bytes as strings, and as numbers where no string may hold them.
fn values_of(alloc: Global, bytes: &[u8]) -> Result<PartValues, AllocError>
    ensures { IfOk result (λ vs. vs ≡ byte_values [] bytes.now) }
{
    let mut values = PartValues::new(alloc);
    let mut string = Bytes::new(alloc);
    let mut left = bytes;
    'each: while let [c, more @ ..] = left {
        string = put_byte(alloc, &mut values, string, *c)?;
        left = more;
    }
    put_string(&mut values, string)?;
    Ok(values)
}

/// A byte more: it goes to the string, or ends it. Gives the string that is not ended.
fn put_byte(
    alloc: Global,
    values: &mut PartValues,
    string: Bytes,
    c: u8,
) -> Result<Bytes, AllocError>
    ensures { IfOk result (λ s. (rest : List ℕ) → values.new ++ byte_values s rest ≡ values.old ++ byte_values string (c ∷ rest)) }
{
    if is_string_byte(c) {
        let mut string = string;
        string.extend(&[c])?;
        return Ok(string);
    }
    put_string(values, string)?;
    values.push(PartValue::Number(u64::from(c)))?;
    Ok(Bytes::new(alloc))
}

/// Ends a string, if it has bytes.
fn put_string(values: &mut PartValues, string: Bytes) -> Result<(), AllocError>
    ensures { OnOk result (values.new ≡ values.old ++ string_of string) }
{
    if string.bytes().is_empty() {
        return Ok(());
    }
    values.push(PartValue::Str(string))
}

fn is_string_byte(c: u8) -> bool
    ensures { result ≡ is_string_byte c }
{
    c != b'"' && c != b'\\' && c != b'\n'
}
