//! The jumps that end blocks.

ghost use Rattle.il_read.specs.Jumps as spec;
ghost use Rattle.il_read.specs.Taken.{Takes};

use crate::front::{behind, skip};
use crate::taken::Taken;
use crate::value::{label_at, value_at};
use il_code::{IlValue, Jump};
use std::alloc::Global;

/// A jump: a fall where no line of one stands.
#[tactic(auto, unfolding(crate::specs::Jumps::jump_at))]
pub fn jump_at(alloc: Global, s: &[u8]) -> Taken<'_, Jump>
    ensures { Takes result (spec.jump_at s.now) }
{
    if let Some(rest) = behind(s, b"\tjmp ") {
        return jmp_at(alloc, rest);
    }
    if let Some(rest) = behind(s, b"\tjnz ") {
        return jnz_at(alloc, rest);
    }
    if let Some(rest) = behind(s, b"\tret") {
        return ret_at(alloc, rest);
    }
    if let Some(rest) = behind(s, b"\thlt\n") {
        return Ok((Jump::Hlt, rest));
    }
    Ok((Jump::Fall, s))
}

// A `jmp` behind its word.
#[tactic(auto, unfolding(crate::specs::Jumps::jmp_at))]
fn jmp_at(alloc: Global, s: &[u8]) -> Taken<'_, Jump>
    ensures { Takes result (spec.jmp_at s.now) }
{
    let (label, rest) = label_at(alloc, s)?;
    let rest = skip(rest, b"\n")?;
    Ok((Jump::Jmp(label), rest))
}

// A `jnz` behind its word.
#[tactic(auto, unfolding(crate::specs::Jumps::jnz_at))]
fn jnz_at(alloc: Global, s: &[u8]) -> Taken<'_, Jump>
    ensures { Takes result (spec.jnz_at s.now) }
{
    let (value, rest) = value_at(alloc, s)?;
    let rest = skip(rest, b", ")?;
    let (a, rest) = label_at(alloc, rest)?;
    let rest = skip(rest, b", ")?;
    let (b, rest) = label_at(alloc, rest)?;
    let rest = skip(rest, b"\n")?;
    Ok((Jump::Jnz(value, a, b), rest))
}

// A `ret` behind its word.
#[tactic(auto, unfolding(crate::specs::Jumps::ret_at))]
fn ret_at(alloc: Global, s: &[u8]) -> Taken<'_, Jump>
    ensures { Takes result (spec.ret_at s.now) }
{
    let (value, rest) = returned_at(alloc, s)?;
    let rest = skip(rest, b"\n")?;
    Ok((Jump::Ret(value), rest))
}

// The value behind `ret`, if there is one.
#[tactic(auto, unfolding(crate::specs::Jumps::returned_at))]
fn returned_at(alloc: Global, s: &[u8]) -> Taken<'_, Option<IlValue>>
    ensures { Takes result (spec.returned_at s.now) }
{
    let Some(rest) = behind(s, b" ") else {
        return Ok((None, s));
    };
    let (value, rest) = value_at(alloc, rest)?;
    Ok((Some(value), rest))
}
