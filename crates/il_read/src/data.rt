//! Data items.

ghost use Rattle.il_read.specs.Data as spec;
ghost use Rattle.il_read.specs.Taken.{Takes};

use crate::front::{behind, name_at, number_at, skip, string_at};
use crate::list::{Construct, Repeated, each_at, listed_at};
use crate::taken::{NotPrinted, Taken};
use crate::value::symbol_at;
use hx_base::Items;
use il_code::{IlItem, Part, PartValue, Parts, Stop};
use std::alloc::Global;

/// A data item behind its word.
#[tactic(auto, unfolding(crate::specs::Data::data_at))]
pub fn data_at(alloc: Global, export: bool, s: &[u8]) -> Taken<'_, IlItem>
    ensures { Takes result (spec.data_at export s.now) }
{
    let (name, rest) = symbol_at(alloc, s)?;
    let rest = skip(rest, b" = align ")?;
    let (align, rest) = align_at(rest)?;
    let rest = skip(rest, b" ")?;
    let (parts, rest) = parts_at(alloc, rest)?;
    let rest = skip(rest, b"\n")?;
    let data = IlItem::Data {
        export,
        name,
        align,
        parts,
    };
    Ok((data, rest))
}

// An alignment.
#[tactic(auto, unfolding(crate::specs::Data::align_at))]
fn align_at(s: &[u8]) -> Taken<'_, u32>
    ensures { Takes result (spec.align_at s.now) }
{
    let (number, rest) = number_at(s)?;
    match u32::try_from(number) {
        Ok(align) => Ok((align, rest)),
        Err(_) => Err(Stop::Fault(NotPrinted)),
    }
}

// The parts in their braces.
#[tactic(auto, unfolding(crate::specs::Data::parts_at))]
fn parts_at(alloc: Global, s: &[u8]) -> Taken<'_, Parts>
    ensures { Takes result (spec.parts_at s.now) }
{
    if let Some(rest) = behind(s, b"{ }") {
        return Ok((Items::new(alloc), rest));
    }
    let rest = skip(s, b"{ ")?;
    some_parts_at(alloc, rest)
}

// One part or more, and the closing brace.
#[tactic(auto, unfolding(crate::specs::Data::some_parts_at))]
fn some_parts_at(alloc: Global, s: &[u8]) -> Taken<'_, Parts>
    ensures { Takes result (spec.some_parts_at s.now) }
{
    let (parts, rest) = listed_at(alloc, s)?;
    let rest = skip(rest, b" }")?;
    Ok((parts, rest))
}

impl Construct for Part {
    ghost reads = { spec.part_at };

    fn at(alloc: Global, s: &[u8]) -> Taken<'_, Self> {
        part_at(alloc, s)
    }
}

// A part.
#[tactic(auto, unfolding(crate::specs::Data::part_at))]
fn part_at(alloc: Global, s: &[u8]) -> Taken<'_, Part>
    ensures { Takes result (spec.part_at s.now) }
{
    if let Some(rest) = behind(s, b"z ") {
        return zeros_at(rest);
    }
    values_at(alloc, s)
}

// Zeros, behind their letter.
#[tactic(auto, unfolding(crate::specs::Data::zeros_at))]
fn zeros_at(s: &[u8]) -> Taken<'_, Part>
    ensures { Takes result (spec.zeros_at s.now) }
{
    let (number, rest) = number_at(s)?;
    Ok((Part::Zero(number), rest))
}

// A part with values.
#[tactic(auto, unfolding(crate::specs::Data::values_at))]
fn values_at(alloc: Global, s: &[u8]) -> Taken<'_, Part>
    ensures { Takes result (spec.values_at s.now) }
{
    let (width, rest) = width_at(s)?;
    let (values, rest) = each_at(alloc, rest)?;
    Ok((Part::Values { width, values }, rest))
}

// The width in bytes that the letter of a part says.
#[tactic(auto, unfolding(crate::specs::Data::width_at))]
fn width_at(s: &[u8]) -> Taken<'_, u32>
    ensures { Takes result (spec.width_at s.now) }
{
    if let Some(rest) = behind(s, b"b") {
        return Ok((1, rest));
    }
    if let Some(rest) = behind(s, b"h") {
        return Ok((2, rest));
    }
    if let Some(rest) = behind(s, b"w") {
        return Ok((4, rest));
    }
    let rest = skip(s, b"l")?;
    Ok((8, rest))
}

impl Construct for PartValue {
    ghost reads = { spec.part_value_at };

    fn at(alloc: Global, s: &[u8]) -> Taken<'_, Self> {
        part_value_at(alloc, s)
    }
}

impl Repeated for PartValue {
    ghost starts = { spec.begins_value };

    fn begins(s: &[u8]) -> bool {
        match s {
            [b' ', second, ..] => *second != b'}',
            [b' '] => true,
            _ => false,
        }
    }
}

// A value of a part, behind its space.
#[tactic(auto, unfolding(crate::specs::Data::part_value_at))]
fn part_value_at(alloc: Global, s: &[u8]) -> Taken<'_, PartValue>
    ensures { Takes result (spec.part_value_at s.now) }
{
    let rest = skip(s, b" ")?;
    if let Some(rest) = behind(rest, b"\"") {
        return text_at(alloc, rest);
    }
    if let Some(rest) = behind(rest, b"$") {
        return address_at(alloc, rest);
    }
    amount_at(rest)
}

// A string behind its first quote.
#[tactic(auto, unfolding(crate::specs::Data::text_at))]
fn text_at(alloc: Global, s: &[u8]) -> Taken<'_, PartValue>
    ensures { Takes result (spec.text_at s.now) }
{
    let (bytes, rest) = string_at(alloc, s)?;
    Ok((PartValue::Str(bytes), rest))
}

// A symbol behind its sigil, and its offset.
#[tactic(auto, unfolding(crate::specs::Data::address_at))]
fn address_at(alloc: Global, s: &[u8]) -> Taken<'_, PartValue>
    ensures { Takes result (spec.address_at s.now) }
{
    let (name, rest) = name_at(alloc, s)?;
    let (offset, rest) = offset_at(rest)?;
    Ok((PartValue::Symbol(name, offset), rest))
}

// An offset in bytes behind a symbol: 0 where none stands.
#[tactic(auto, unfolding(crate::specs::Data::offset_at))]
fn offset_at(s: &[u8]) -> Taken<'_, u64>
    ensures { Takes result (spec.offset_at s.now) }
{
    if let Some(rest) = behind(s, b" + ") {
        return number_at(rest);
    }
    Ok((0, s))
}

// A number.
#[tactic(auto, unfolding(crate::specs::Data::amount_at))]
fn amount_at(s: &[u8]) -> Taken<'_, PartValue>
    ensures { Takes result (spec.amount_at s.now) }
{
    let (number, rest) = number_at(s)?;
    Ok((PartValue::Number(number), rest))
}
