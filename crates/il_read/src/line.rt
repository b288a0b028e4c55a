//! The lines of a block: phis and instructions.

ghost use Rattle.std.specs.Prelude.{◌≡◌, length};
ghost use Rattle.il_read.specs.Lines as spec;
ghost use Rattle.il_read.specs.Taken.{Takes};

use crate::front::{behind, number_at, skip};
use crate::list::{bracketed_at, listed_at};
use crate::op::op_at;
use crate::taken::Taken;
use crate::value::{symbol_at, target_at, value_at};
use hx_base::Items;
use il_code::{IlParam, IlValue, Inst, Insts, Phi, Phis};
use std::alloc::Global;

/// What stands on a line of a block in front of its jump.
#[derive(Drop)]
pub enum Line {
    Phi(Phi),
    Inst(Inst),
}

/// The phis and the instructions of a block.
pub fn lines_at(alloc: Global, s: &[u8]) -> Taken<'_, (Phis, Insts)>
    ensures { Takes result (spec.lines (length s.now) s.now) }
{
    let mut phis = Items::new(alloc);
    let mut insts = Items::new(alloc);
    let mut rest = s;
    // Each takes a byte at least, so there are at most as many as there are bytes.
    for _turn in 0..s.len() {
        if !begins_line(rest) {
            return Ok(((phis, insts), rest));
        }
        let (line, more) = line_at(alloc, rest)?;
        match line {
            Line::Phi(phi) => phis.push(phi)?,
            Line::Inst(inst) => insts.push(inst)?,
        }
        rest = more;
    }
    Ok(((phis, insts), rest))
}

// Whether a line begins that is no jump's.
fn begins_line(s: &[u8]) -> bool
    ensures { result ≡ spec.begins_line s.now }
{
    match s {
        [b'\t', second, ..] => !matches!(*second, b'j' | b'r' | b'h'),
        [b'\t'] => true,
        _ => false,
    }
}

// A phi or an instruction on its line.
#[tactic(auto, unfolding(crate::specs::Lines::line_at))]
fn line_at(alloc: Global, s: &[u8]) -> Taken<'_, Line>
    ensures { Takes result (spec.line_at s.now) }
{
    let rest = skip(s, b"\t")?;
    let (line, rest) = code_at(alloc, rest)?;
    let rest = skip(rest, b"\n")?;
    Ok((line, rest))
}

// A phi or an instruction.
#[tactic(auto, unfolding(crate::specs::Lines::code_at))]
fn code_at(alloc: Global, s: &[u8]) -> Taken<'_, Line>
    ensures { Takes result (spec.code_at s.now) }
{
    if let Some(rest) = behind(s, b"store") {
        return store_at(alloc, rest);
    }
    if let Some(rest) = behind(s, b"blit ") {
        return blit_at(alloc, rest);
    }
    if let Some(rest) = behind(s, b"call ") {
        return call_at(alloc, None, rest);
    }
    set_at(alloc, s)
}

// A store, behind the letters that all stores begin with.
#[tactic(auto, unfolding(crate::specs::Lines::store_at))]
fn store_at(alloc: Global, s: &[u8]) -> Taken<'_, Line>
    ensures { Takes result (spec.store_at s.now) }
{
    let (width, rest) = store_width_at(s)?;
    let (value, rest) = value_at(alloc, rest)?;
    let rest = skip(rest, b", ")?;
    let (at, rest) = value_at(alloc, rest)?;
    let store = Inst::Store { width, value, at };
    Ok((Line::Inst(store), rest))
}

// The width of a store in bytes, behind those letters.
#[tactic(auto, unfolding(crate::specs::Lines::store_width_at))]
fn store_width_at(s: &[u8]) -> Taken<'_, u32>
    ensures { Takes result (spec.store_width_at s.now) }
{
    if let Some(rest) = behind(s, b"b ") {
        return Ok((1, rest));
    }
    if let Some(rest) = behind(s, b"h ") {
        return Ok((2, rest));
    }
    if let Some(rest) = behind(s, b"w ") {
        return Ok((4, rest));
    }
    let rest = skip(s, b"l ")?;
    Ok((8, rest))
}

// A blit, behind its word.
#[tactic(auto, unfolding(crate::specs::Lines::blit_at))]
fn blit_at(alloc: Global, s: &[u8]) -> Taken<'_, Line>
    ensures { Takes result (spec.blit_at s.now) }
{
    let (from, rest) = value_at(alloc, s)?;
    let rest = skip(rest, b", ")?;
    let (to, rest) = value_at(alloc, rest)?;
    let rest = skip(rest, b", ")?;
    let (bytes, rest) = number_at(rest)?;
    let blit = Inst::Blit { from, to, bytes };
    Ok((Line::Inst(blit), rest))
}

// A call behind its word, of which the result is given to this, if it is.
#[tactic(auto, unfolding(crate::specs::Lines::call_at))]
fn call_at(alloc: Global, result_to: Option<IlParam>, s: &[u8]) -> Taken<'_, Line>
    ensures { Takes result (spec.call_at result_to s.now) }
{
    let (target, rest) = symbol_at(alloc, s)?;
    let rest = skip(rest, b"(")?;
    let (args, rest) = bracketed_at(alloc, rest)?;
    let call = Inst::Call {
        result: result_to,
        target,
        args,
    };
    Ok((Line::Inst(call), rest))
}

// What sets a temporary.
#[tactic(auto, unfolding(crate::specs::Lines::set_at))]
fn set_at(alloc: Global, s: &[u8]) -> Taken<'_, Line>
    ensures { Takes result (spec.set_at s.now) }
{
    let (target, rest) = target_at(alloc, s)?;
    if let Some(rest) = behind(rest, b"phi ") {
        return phi_at(alloc, target, rest);
    }
    if let Some(rest) = behind(rest, b"call ") {
        return call_at(alloc, Some(target), rest);
    }
    operation_at(alloc, target, rest)
}

// A phi, behind its word.
#[tactic(auto, unfolding(crate::specs::Lines::phi_at))]
fn phi_at(alloc: Global, target: IlParam, s: &[u8]) -> Taken<'_, Line>
    ensures { Takes result (spec.phi_at target s.now) }
{
    let (args, rest) = listed_at(alloc, s)?;
    let phi = Phi {
        temp: target.name,
        class: target.class,
        args,
    };
    Ok((Line::Phi(phi), rest))
}

// An operation, behind what is set to it.
#[tactic(auto, unfolding(crate::specs::Lines::operation_at))]
fn operation_at(alloc: Global, target: IlParam, s: &[u8]) -> Taken<'_, Line>
    ensures { Takes result (spec.operation_at target s.now) }
{
    let (op, rest) = op_at(s)?;
    let rest = skip(rest, b" ")?;
    let (a, rest) = value_at(alloc, rest)?;
    let (b, rest) = second_at(alloc, rest)?;
    let set = Inst::Set {
        temp: target.name,
        class: target.class,
        op,
        a,
        b,
    };
    Ok((Line::Inst(set), rest))
}

// The second operand of an operation, if there is one.
#[tactic(auto, unfolding(crate::specs::Lines::second_at))]
fn second_at(alloc: Global, s: &[u8]) -> Taken<'_, Option<IlValue>>
    ensures { Takes result (spec.second_at s.now) }
{
    let Some(rest) = behind(s, b", ") else {
        return Ok((None, s));
    };
    let (value, rest) = value_at(alloc, rest)?;
    Ok((Some(value), rest))
}
