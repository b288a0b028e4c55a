//! Functions.

ghost use Rattle.il_read.specs.Functions as spec;
ghost use Rattle.il_read.specs.Taken.{Takes};

use crate::front::{behind, skip};
use crate::list::{bracketed_at, each_at};
use crate::taken::Taken;
use crate::value::symbol_at;
use il_code::{Blocks, Class, IlItem};
use std::alloc::Global;

/// A function behind its word.
#[tactic(auto, unfolding(crate::specs::Functions::function_at))]
pub fn function_at(alloc: Global, export: bool, s: &[u8]) -> Taken<'_, IlItem>
    ensures { Takes result (spec.function_at export s.now) }
{
    let (class, rest) = result_class_at(s)?;
    let (name, rest) = symbol_at(alloc, rest)?;
    let rest = skip(rest, b"(")?;
    let (params, rest) = bracketed_at(alloc, rest)?;
    let (blocks, rest) = blocks_at(alloc, rest)?;
    let function = IlItem::Function {
        export,
        class,
        name,
        params,
        blocks,
    };
    Ok((function, rest))
}

// The class of a function's result, if it has one.
#[tactic(auto, unfolding(crate::specs::Functions::result_class_at))]
fn result_class_at(s: &[u8]) -> Taken<'_, Option<Class>>
    ensures { Takes result (spec.result_class_at s.now) }
{
    if let Some(rest) = behind(s, b"w ") {
        return Ok((Some(Class::W), rest));
    }
    if let Some(rest) = behind(s, b"l ") {
        return Ok((Some(Class::L), rest));
    }
    Ok((None, s))
}

// The blocks between their braces.
#[tactic(auto, unfolding(crate::specs::Functions::blocks_at))]
fn blocks_at(alloc: Global, s: &[u8]) -> Taken<'_, Blocks>
    ensures { Takes result (spec.blocks_at s.now) }
{
    let rest = skip(s, b" {\n")?;
    let (blocks, rest) = each_at(alloc, rest)?;
    let rest = skip(rest, b"}\n")?;
    Ok((blocks, rest))
}
