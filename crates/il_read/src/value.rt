//! Classes, names behind their sigils, and operands.

ghost use Rattle.il_read.specs.Taken.{Takes};
ghost use Rattle.il_read.specs.Values as spec;

use crate::front::{behind, name_at, number_at, skip};
use crate::list::Construct;
use crate::taken::Taken;
use hx_base::Text;
use il_code::{Class, IlArg, IlParam, IlValue, PhiArg};
use std::alloc::Global;

/// A class.
#[tactic(auto, unfolding(crate::specs::Values::class_at))]
pub fn class_at(s: &[u8]) -> Taken<'_, Class>
    ensures { Takes result (spec.class_at s.now) }
{
    if let Some(rest) = behind(s, b"w") {
        return Ok((Class::W, rest));
    }
    let rest = skip(s, b"l")?;
    Ok((Class::L, rest))
}

/// The name of a temporary behind its sigil.
#[tactic(auto, unfolding(crate::specs::Values::temp_at))]
pub fn temp_at(alloc: Global, s: &[u8]) -> Taken<'_, Text>
    ensures { Takes result (spec.temp_at s.now) }
{
    let rest = skip(s, b"%")?;
    name_at(alloc, rest)
}

/// The name of a symbol behind its sigil.
#[tactic(auto, unfolding(crate::specs::Values::symbol_at))]
pub fn symbol_at(alloc: Global, s: &[u8]) -> Taken<'_, Text>
    ensures { Takes result (spec.symbol_at s.now) }
{
    let rest = skip(s, b"$")?;
    name_at(alloc, rest)
}

/// A label behind its sigil.
#[tactic(auto, unfolding(crate::specs::Values::label_at))]
pub fn label_at(alloc: Global, s: &[u8]) -> Taken<'_, Text>
    ensures { Takes result (spec.label_at s.now) }
{
    let rest = skip(s, b"@")?;
    name_at(alloc, rest)
}

/// An operand.
#[tactic(auto, unfolding(crate::specs::Values::value_at))]
pub fn value_at(alloc: Global, s: &[u8]) -> Taken<'_, IlValue>
    ensures { Takes result (spec.value_at s.now) }
{
    if let Some(rest) = behind(s, b"%") {
        return temp_value_at(alloc, rest);
    }
    if let Some(rest) = behind(s, b"$") {
        return symbol_value_at(alloc, rest);
    }
    number_value_at(s)
}

// An operand that is a temporary, behind its sigil.
#[tactic(auto, unfolding(crate::specs::Values::temp_value_at))]
fn temp_value_at(alloc: Global, s: &[u8]) -> Taken<'_, IlValue>
    ensures { Takes result (spec.temp_value_at s.now) }
{
    let (name, rest) = name_at(alloc, s)?;
    Ok((IlValue::Temp(name), rest))
}

// An operand that is a symbol, behind its sigil.
#[tactic(auto, unfolding(crate::specs::Values::symbol_value_at))]
fn symbol_value_at(alloc: Global, s: &[u8]) -> Taken<'_, IlValue>
    ensures { Takes result (spec.symbol_value_at s.now) }
{
    let (name, rest) = name_at(alloc, s)?;
    Ok((IlValue::Symbol(name), rest))
}

// An operand that is a number.
#[tactic(auto, unfolding(crate::specs::Values::number_value_at))]
fn number_value_at(s: &[u8]) -> Taken<'_, IlValue>
    ensures { Takes result (spec.number_value_at s.now) }
{
    let (number, rest) = number_at(s)?;
    Ok((IlValue::Number(number), rest))
}

/// A temporary with its class, in front of what it is set to.
#[tactic(auto, unfolding(crate::specs::Values::target_at))]
pub fn target_at(alloc: Global, s: &[u8]) -> Taken<'_, IlParam>
    ensures { Takes result (spec.target_at s.now) }
{
    let (name, rest) = temp_at(alloc, s)?;
    let rest = skip(rest, b" =")?;
    let (class, rest) = class_at(rest)?;
    let rest = skip(rest, b" ")?;
    Ok((IlParam { name, class }, rest))
}

impl Construct for IlParam {
    ghost reads = { spec.param_at };

    fn at(alloc: Global, s: &[u8]) -> Taken<'_, Self> {
        param_at(alloc, s)
    }
}

// A parameter.
#[tactic(auto, unfolding(crate::specs::Values::param_at))]
fn param_at(alloc: Global, s: &[u8]) -> Taken<'_, IlParam>
    ensures { Takes result (spec.param_at s.now) }
{
    let (class, rest) = class_at(s)?;
    let rest = skip(rest, b" ")?;
    let (name, rest) = temp_at(alloc, rest)?;
    Ok((IlParam { name, class }, rest))
}

impl Construct for IlArg {
    ghost reads = { spec.arg_at };

    fn at(alloc: Global, s: &[u8]) -> Taken<'_, Self> {
        arg_at(alloc, s)
    }
}

// An argument of a call.
#[tactic(auto, unfolding(crate::specs::Values::arg_at))]
fn arg_at(alloc: Global, s: &[u8]) -> Taken<'_, IlArg>
    ensures { Takes result (spec.arg_at s.now) }
{
    let (class, rest) = class_at(s)?;
    let rest = skip(rest, b" ")?;
    let (value, rest) = value_at(alloc, rest)?;
    Ok((IlArg { class, value }, rest))
}

impl Construct for PhiArg {
    ghost reads = { spec.phi_arg_at };

    fn at(alloc: Global, s: &[u8]) -> Taken<'_, Self> {
        phi_arg_at(alloc, s)
    }
}

// The value of a phi for the block with a label.
#[tactic(auto, unfolding(crate::specs::Values::phi_arg_at))]
fn phi_arg_at(alloc: Global, s: &[u8]) -> Taken<'_, PhiArg>
    ensures { Takes result (spec.phi_arg_at s.now) }
{
    let (label, rest) = label_at(alloc, s)?;
    let rest = skip(rest, b" ")?;
    let (value, rest) = value_at(alloc, rest)?;
    Ok((PhiArg { label, value }, rest))
}
