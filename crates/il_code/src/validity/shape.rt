//! Whether the grammar can write a module: its names, widths, operands and last blocks.

ghost use Rattle.std.specs.Prelude.{◌≡◌};
ghost use Rattle.std.specs.List.{list_all};
ghost use Rattle.il_code.specs.Tokens.{is_string_byte};
ghost use Rattle.il_code.specs.Shaped.{is_shaped, is_bits, is_item, is_part, is_part_value, is_block, ends, falls, is_jump, is_returned, is_phi, is_phi_arg, is_inst, is_second, is_result, is_width, is_arg, is_param, is_value, some};

use super::kinds::kind;
use super::names::{is_identifier, some};
use crate::types::{
    Block, IlArg, IlItem, IlParam, IlValue, Inst, Jump, Module, Part, PartValue, Phi, PhiArg,
};

/// Whether some text is that of the module, and so the printed one is: names are identifiers, numbers have 64 bits, strings can be written,
/// each operation has its operands, and control does not fall out of a function. Takes no memory.
#[tactic(auto, unfolding(crate::specs::Shaped::is_shaped))]
pub fn is_shaped(m: &Module) -> bool
    ensures { result ≡ is_shaped m.now }
{
    are_items(m.items.as_slice())
}

fn are_items(xs: &[IlItem]) -> bool
    ensures { result ≡ list_all is_item xs.now }
{
    xs.iter().all(|x| is_item(x))
}

fn is_item(i: &IlItem) -> bool
    ensures { result ≡ is_item i.now }
{
    match i {
        IlItem::Data {
            name,
            align,
            parts,
            ..
        } => {
            is_identifier(name.bytes()) && is_bits(u64::from(*align)) && are_parts(parts.as_slice())
        }
        IlItem::Function {
            name,
            params,
            blocks,
            ..
        } => {
            is_identifier(name.bytes())
                && are_params(params.as_slice())
                && are_blocks(blocks.as_slice())
                && ends(blocks.as_slice())
        }
    }
}

/// Every number of the types has 64 bits.
fn is_bits(n: u64) -> bool
    ensures { result ≡ is_bits n }
{
    n <= u64::MAX
}

fn are_parts(xs: &[Part]) -> bool
    ensures { result ≡ list_all is_part xs.now }
{
    xs.iter().all(|x| is_part(x))
}

fn is_part(p: &Part) -> bool
    ensures { result ≡ is_part p.now }
{
    match p {
        Part::Values { width, values } => {
            is_width(*width) && some(values.as_slice()) && are_part_values(values.as_slice())
        }
        Part::Zero(n) => is_bits(*n),
    }
}

fn is_width(width: u32) -> bool
    ensures { result ≡ is_width width }
{
    width == 1 || width == 2 || width == 4 || width == 8
}

fn are_part_values(xs: &[PartValue]) -> bool
    ensures { result ≡ list_all is_part_value xs.now }
{
    xs.iter().all(|x| is_part_value(x))
}

fn are_string_bytes(s: &[u8]) -> bool
    ensures { result ≡ list_all is_string_byte s.now }
{
    s.iter().all(|c| is_string_byte(*c))
}

fn is_part_value(v: &PartValue) -> bool
    ensures { result ≡ is_part_value v.now }
{
    match v {
        PartValue::Number(n) => is_bits(*n),
        PartValue::Str(s) => are_string_bytes(s.bytes()),
        PartValue::Symbol(s, offset) => is_identifier(s.bytes()) && is_bits(*offset),
    }
}

fn is_string_byte(c: u8) -> bool
    ensures { result ≡ is_string_byte c }
{
    c != b'"' && c != b'\\' && c != b'\n'
}

fn are_blocks(xs: &[Block]) -> bool
    ensures { result ≡ list_all is_block xs.now }
{
    xs.iter().all(|x| is_block(x))
}

fn is_block(b: &Block) -> bool
    ensures { result ≡ is_block b.now }
{
    is_identifier(b.label.bytes())
        && are_phis(b.phis.as_slice())
        && are_insts(b.insts.as_slice())
        && is_jump(&b.jump)
}

/// Whether there is a last block, and control does not fall out of it.
fn ends(blocks: &[Block]) -> bool
    ensures { result ≡ ends blocks.now }
{
    let mut left = blocks;
    'each: while let [b, rest @ ..] = left {
        match rest {
            [] => return !falls(&b.jump),
            [_, ..] => left = rest,
        }
    }
    false
}

fn falls(jump: &Jump) -> bool
    ensures { result ≡ falls jump.now }
{
    match jump {
        Jump::Fall => true,
        Jump::Jmp(_) | Jump::Jnz(_, _, _) | Jump::Ret(_) | Jump::Hlt => false,
    }
}

fn is_jump(jump: &Jump) -> bool
    ensures { result ≡ is_jump jump.now }
{
    match jump {
        Jump::Fall | Jump::Hlt => true,
        Jump::Jmp(l) => is_identifier(l.bytes()),
        Jump::Jnz(v, a, b) => {
            is_value(v) && is_identifier(a.bytes()) && is_identifier(b.bytes())
        }
        Jump::Ret(v) => is_returned(v),
    }
}

fn is_returned(v: &Option<IlValue>) -> bool
    ensures { result ≡ is_returned v.now }
{
    match v {
        None => true,
        Some(v) => is_value(v),
    }
}

fn are_phis(xs: &[Phi]) -> bool
    ensures { result ≡ list_all is_phi xs.now }
{
    xs.iter().all(|x| is_phi(x))
}

fn is_phi(p: &Phi) -> bool
    ensures { result ≡ is_phi p.now }
{
    is_identifier(p.temp.bytes()) && some(p.args.as_slice()) && are_phi_args(p.args.as_slice())
}

fn are_phi_args(xs: &[PhiArg]) -> bool
    ensures { result ≡ list_all is_phi_arg xs.now }
{
    xs.iter().all(|x| is_phi_arg(x))
}

fn is_phi_arg(a: &PhiArg) -> bool
    ensures { result ≡ is_phi_arg a.now }
{
    is_identifier(a.label.bytes()) && is_value(&a.value)
}

fn are_insts(xs: &[Inst]) -> bool
    ensures { result ≡ list_all is_inst xs.now }
{
    xs.iter().all(|x| is_inst(x))
}

fn is_inst(i: &Inst) -> bool
    ensures { result ≡ is_inst i.now }
{
    match i {
        Inst::Set { temp, op, a, b, .. } => {
            is_identifier(temp.bytes()) && is_value(a) && is_second(kind(*op).takes_two(), b)
        }
        Inst::Store { width, value, at } => is_width(*width) && is_value(value) && is_value(at),
        Inst::Blit { from, to, bytes } => is_value(from) && is_value(to) && is_bits(*bytes),
        Inst::Call {
            result,
            target,
            args,
        } => { is_result(result) && is_identifier(target.bytes()) && are_args(args.as_slice()) }
    }
}

/// Whether there is a second operand exactly where there are to be two.
fn is_second(two: bool, b: &Option<IlValue>) -> bool
    ensures { result ≡ is_second two b.now }
{
    match b {
        None => !two,
        Some(b) => two && is_value(b),
    }
}

fn is_result(result_param: &Option<IlParam>) -> bool
    ensures { result ≡ is_result result_param.now }
{
    match result_param {
        None => true,
        Some(p) => is_param(p),
    }
}

fn are_params(xs: &[IlParam]) -> bool
    ensures { result ≡ list_all is_param xs.now }
{
    xs.iter().all(|x| is_param(x))
}

fn is_param(p: &IlParam) -> bool
    ensures { result ≡ is_param p.now }
{
    is_identifier(p.name.bytes())
}

fn are_args(xs: &[IlArg]) -> bool
    ensures { result ≡ list_all is_arg xs.now }
{
    xs.iter().all(|x| is_arg(x))
}

fn is_arg(a: &IlArg) -> bool
    ensures { result ≡ is_arg a.now }
{
    is_value(&a.value)
}

fn is_value(v: &IlValue) -> bool
    ensures { result ≡ is_value v.now }
{
    match v {
        IlValue::Number(n) => is_bits(*n),
        IlValue::Temp(t) => is_identifier(t.bytes()),
        IlValue::Symbol(s) => is_identifier(s.bytes()),
    }
}
