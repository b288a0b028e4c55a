//! Operands: each is known, and right at the class at which it is wanted.

ghost use Rattle.std.specs.Prelude.{◌≡◌};
ghost use Rattle.std.specs.List.{list_all};
ghost use Rattle.il_code.specs.Rules.{is_long, is_right, second_is_right, stored_class, call_is_right, inst_is_right, phi_is_right, return_is_right, jump_is_right, block_is_right, part_value_is_right, part_is_right, is_main_right, is_main, no_long, item_is_right};

use super::calls::is_call_right;
use super::kinds::kind;
use super::names::has_named;
use super::temps::{each_has_one_class, is_set};
use crate::types::{
    Block, IlArg, IlItem, IlParam, IlValue, Inst, Jump, Part, PartValue, Phi, PhiArg,
};
use hx_base::Class;

/// Whether all that an item mentions is known and has the class that is wanted.
pub fn item_is_right(items: &[IlItem], i: &IlItem) -> bool
    ensures { result ≡ item_is_right items.now i.now }
{
    match i {
        IlItem::Data { parts, .. } => parts_are_right(items, parts.as_slice()),
        IlItem::Function {
            class,
            name,
            params,
            blocks,
            ..
        } => {
            is_main_right(name.bytes(), class, params.as_slice())
                && each_has_one_class(params.as_slice(), blocks.as_slice())
                && blocks_are_right(items, params.as_slice(), blocks.as_slice(), class)
        }
    }
}

fn no_long(class: &Option<Class>) -> bool
    ensures { result ≡ no_long class.now }
{
    match class {
        None => true,
        Some(c) => !is_long(*c),
    }
}

fn is_main_right(name: &[u8], class: &Option<Class>, params: &[IlParam]) -> bool
    ensures { result ≡ is_main_right name.now class.now params.now }
{
    !(name == b"main".as_slice()) || params.is_empty() && no_long(class)
}

fn parts_are_right(items: &[IlItem], xs: &[Part]) -> bool
    ensures { result ≡ list_all (part_is_right items.now) xs.now }
{
    xs.iter().all(|x| part_is_right(items, x))
}

fn part_values_are_right(items: &[IlItem], width: u32, xs: &[PartValue]) -> bool
    ensures { result ≡ list_all (part_value_is_right items.now width) xs.now }
{
    xs.iter().all(|x| part_value_is_right(items, width, x))
}

fn part_is_right(items: &[IlItem], p: &Part) -> bool
    ensures { result ≡ part_is_right items.now p.now }
{
    match p {
        Part::Values { width, values } => {
            part_values_are_right(items, *width, values.as_slice())
        }
        Part::Zero(_) => true,
    }
}

fn part_value_is_right(items: &[IlItem], width: u32, v: &PartValue) -> bool
    ensures { result ≡ part_value_is_right items.now width v.now }
{
    match v {
        PartValue::Number(_) => true,
        PartValue::Str(_) => width == 1,
        PartValue::Symbol(s, _) => width == 8 && has_named(s.bytes(), items),
    }
}

fn is_long(c: Class) -> bool
    ensures { result ≡ is_long c }
{
    match c {
        Class::W => false,
        Class::L => true,
    }
}

/// Whether an operand is known, and right at the class at which it is wanted.
fn is_right(
    items: &[IlItem],
    params: &[IlParam],
    blocks: &[Block],
    class: Class,
    v: &IlValue,
) -> bool
    ensures { result ≡ is_right items.now params.now blocks.now class v.now }
{
    match (v, class) {
        (IlValue::Number(_), _) => true,
        (IlValue::Temp(t), Class::W) => {
            is_set(params, blocks, t.bytes(), Class::W)
                || is_set(params, blocks, t.bytes(), Class::L)
        }
        (IlValue::Temp(t), Class::L) => {
            is_set(params, blocks, t.bytes(), Class::L)
                && !is_set(params, blocks, t.bytes(), Class::W)
        }
        (IlValue::Symbol(s), _) => is_long(class) && has_named(s.bytes(), items),
    }
}

fn second_is_right(
    items: &[IlItem],
    params: &[IlParam],
    blocks: &[Block],
    class: Class,
    b: &Option<IlValue>,
) -> bool
    ensures { result ≡ second_is_right items.now params.now blocks.now class b.now }
{
    match b {
        None => true,
        Some(b) => is_right(items, params, blocks, class, b),
    }
}

fn stored_class(width: u32) -> Class
    ensures { result ≡ stored_class width }
{
    if width == 1 || width == 2 || width == 4 {
        Class::W
    } else {
        Class::L
    }
}

fn inst_is_right(items: &[IlItem], params: &[IlParam], blocks: &[Block], i: &Inst) -> bool
    ensures { result ≡ inst_is_right items.now params.now blocks.now i.now }
{
    match i {
        Inst::Set {
            class,
            op,
            a,
            b,
            ..
        } => {
            let kind = kind(*op);
            kind.may_give(*class)
                && is_right(items, params, blocks, kind.first_class(*class), a)
                && second_is_right(items, params, blocks, kind.second_class(*class), b)
        }
        Inst::Store { width, value, at } => {
            is_right(items, params, blocks, stored_class(*width), value)
                && is_right(items, params, blocks, Class::L, at)
        }
        Inst::Blit { from, to, .. } => {
            is_right(items, params, blocks, Class::L, from)
                && is_right(items, params, blocks, Class::L, to)
        }
        Inst::Call {
            result: to,
            target,
            args,
        } => { call_is_right(items, params, blocks, to, target.bytes(), args.as_slice()) }
    }
}

#[tactic(auto, unfolding(crate::specs::Rules::call_is_right))]
fn call_is_right(
    items: &[IlItem],
    params: &[IlParam],
    blocks: &[Block],
    to: &Option<IlParam>,
    target: &[u8],
    args: &[IlArg],
) -> bool
    ensures { result ≡ call_is_right items.now params.now blocks.now to.now target.now args.now }
{
    is_call_right(items, to, target, args) && args_are_right(items, params, blocks, args)
}

fn args_are_right(items: &[IlItem], params: &[IlParam], blocks: &[Block], xs: &[IlArg]) -> bool
    ensures { result ≡ list_all (λ a. is_right items.now params.now blocks.now a.class a.value) xs.now }
{
    xs.iter()
        .all(|x| is_right(items, params, blocks, x.class, &x.value))
}

fn phi_args_are_right(
    items: &[IlItem],
    params: &[IlParam],
    blocks: &[Block],
    class: Class,
    xs: &[PhiArg],
) -> bool
    ensures { result ≡ list_all (λ a. is_right items.now params.now blocks.now class a.value) xs.now }
{
    xs.iter()
        .all(|x| is_right(items, params, blocks, class, &x.value))
}

fn insts_are_right(items: &[IlItem], params: &[IlParam], blocks: &[Block], xs: &[Inst]) -> bool
    ensures { result ≡ list_all (inst_is_right items.now params.now blocks.now) xs.now }
{
    xs.iter().all(|x| inst_is_right(items, params, blocks, x))
}

fn phis_are_right(items: &[IlItem], params: &[IlParam], blocks: &[Block], xs: &[Phi]) -> bool
    ensures { result ≡ list_all (phi_is_right items.now params.now blocks.now) xs.now }
{
    xs.iter().all(|x| phi_is_right(items, params, blocks, x))
}

fn phi_is_right(items: &[IlItem], params: &[IlParam], blocks: &[Block], p: &Phi) -> bool
    ensures { result ≡ phi_is_right items.now params.now blocks.now p.now }
{
    phi_args_are_right(items, params, blocks, p.class, p.args.as_slice())
}

fn return_is_right(
    items: &[IlItem],
    params: &[IlParam],
    blocks: &[Block],
    class: &Option<Class>,
    v: &Option<IlValue>,
) -> bool
    ensures { result ≡ return_is_right items.now params.now blocks.now class.now v.now }
{
    match (class, v) {
        (None, None) => true,
        (None, Some(_)) => false,
        (Some(_), None) => false,
        (Some(c), Some(v)) => is_right(items, params, blocks, *c, v),
    }
}

fn jump_is_right(
    items: &[IlItem],
    params: &[IlParam],
    blocks: &[Block],
    class: &Option<Class>,
    jump: &Jump,
) -> bool
    ensures { result ≡ jump_is_right items.now params.now blocks.now class.now jump.now }
{
    match jump {
        Jump::Fall | Jump::Jmp(_) | Jump::Hlt => true,
        Jump::Jnz(v, _, _) => is_right(items, params, blocks, Class::W, v),
        Jump::Ret(v) => return_is_right(items, params, blocks, class, v),
    }
}

fn block_is_right(
    items: &[IlItem],
    params: &[IlParam],
    blocks: &[Block],
    class: &Option<Class>,
    b: &Block,
) -> bool
    ensures { result ≡ block_is_right items.now params.now blocks.now class.now b.now }
{
    phis_are_right(items, params, blocks, b.phis.as_slice())
        && insts_are_right(items, params, blocks, b.insts.as_slice())
        && jump_is_right(items, params, blocks, class, &b.jump)
}

fn blocks_are_right(
    items: &[IlItem],
    params: &[IlParam],
    blocks: &[Block],
    class: &Option<Class>,
) -> bool
    ensures { result ≡ list_all (block_is_right items.now params.now blocks.now class.now) blocks.now }
{
    blocks
        .iter()
        .all(|b| block_is_right(items, params, blocks, class, b))
}

/// Whether the item is the function `$main`.
pub fn is_main(i: &IlItem) -> bool
    ensures { result ≡ is_main i.now }
{
    match i {
        IlItem::Data { .. } => false,
        IlItem::Function { name, .. } => name.bytes() == b"main".as_slice(),
    }
}
