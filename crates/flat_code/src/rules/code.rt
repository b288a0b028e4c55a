//! Code: its nesting, and the rules of each statement.

ghost use Rattle.std.specs.Prelude.{◌≡◌, ◌≤◌, ◌&&◌};
ghost use Rattle.hx_runtime.specs.Functions.{runtime_function};
ghost use Rattle.flat_code.specs.Shape.{code_of};
ghost use Rattle.flat_code.specs.Code.{codes_of};
ghost use Rattle.flat_code.specs.Evaluation.{function_named};
ghost use Rattle.flat_code.specs.Kinds.{op_kind, may_give, takes_two, first_class, second_class};
ghost use Rattle.flat_code.specs.WellFormed.{nests_within, each_nests_within, is_operand, is_second, is_target, takes_result, is_runtime_call, is_call, is_return, stored_class, is_right, are_right};

use super::data::is_width;
use super::names::function_named;
use super::operand::{are_args, is_operand, is_return, is_second};
use super::temps::has_one_class;
use crate::flat::{Flat, FlatKids};
use crate::op::Op;
use crate::program::{FlatFn, FlatProgram};
use crate::value::{Value, Values};
use hx_base::{Class, Text};
use hx_runtime::RuntimeFunction;

/// How many statements may stand within one another. The walks recurse as deep: what they ask of a single statement is never inlined into
/// them, so that they take little of the stack for each level.
pub const DEEPEST: u32 = 65_536;

/// How many bytes a Move may have.
const MOST_BYTES: u64 = 1_073_741_824;

/// Whether no more than so many statements of the code stand within one another. Looks no deeper than that.
#[cycle(nests)]
pub fn nests_within(code: &Flat, left: u32) -> bool
    ensures { result ≡ nests_within (code_of code.now) left }
{
    if left == 0 {
        return false;
    }
    match code {
        Flat::Seq(kids) => each_nests_within(kids, left - 1),
        Flat::If { yes, no, .. } => {
            nests_within(yes.get(), left - 1) && nests_within(no.get(), left - 1)
        }
        Flat::Loop(body) => nests_within(body.get(), left - 1),
        Flat::Set { .. }
        | Flat::Load { .. }
        | Flat::Store { .. }
        | Flat::Move { .. }
        | Flat::Leave(_)
        | Flat::Call { .. }
        | Flat::Ret(_) => true,
    }
}

#[cycle(nests)]
#[tactic(auto, using(crate::proofs::Kids::kid_deep, crate::proofs::Kids::drop_kid, crate::proofs::Kids::drop_rest))]
fn each_nests_within(kids: &FlatKids, left: u32) -> bool
    ensures { result ≡ each_nests_within (codes_of kids.now) left }
{
    for i in 0..kids.len() {
        if let Some(kid) = kids.get(i) {
            if !nests_within(kid, left) {
                return false;
            }
        }
    }
    true
}

#[inline(never)]
fn is_target(p: &FlatProgram, f: &FlatFn, t: u32, class: Class) -> bool
    ensures { result ≡ is_target p.now f.now t class }
{
    t < f.temps && has_one_class(p, f, t, class)
}

fn takes_result(p: &FlatProgram, f: &FlatFn, temp: Option<u32>, given: Option<Class>) -> bool
    ensures { result ≡ takes_result p.now f.now temp given }
{
    match (temp, given) {
        (None, _) => true,
        (Some(_), None) => false,
        (Some(t), Some(class)) => is_target(p, f, t, class),
    }
}

fn is_runtime_call(
    p: &FlatProgram,
    f: &FlatFn,
    temp: Option<u32>,
    args: &[Value],
    name: &[u8],
) -> bool
    ensures { result ≡ is_runtime_call p.now f.now temp args.now (runtime_function name.now) }
{
    match RuntimeFunction::named(name) {
        None => false,
        Some(g) => are_args(p, f, g.params(), args) && takes_result(p, f, temp, g.result()),
    }
}

/// Whether a call is of a function of the program, or else of the runtime, with its arguments and its result.
fn is_call(p: &FlatProgram, f: &FlatFn, temp: Option<u32>, name: &[u8], args: &[Value]) -> bool
    ensures { result ≡ is_call p.now f.now temp name.now args.now (function_named p.now.functions name.now) }
{
    match function_named(p, name) {
        None => is_runtime_call(p, f, temp, args, name),
        Some(g) => {
            are_args(p, f, g.params.as_slice(), args) && takes_result(p, f, temp, g.result)
        }
    }
}

/// Whether what is set at a class by an operation may be, and has the operands that it takes.
#[inline(never)]
fn is_result(p: &FlatProgram, f: &FlatFn, class: Class, op: Op, a: &Value, b: &Value) -> bool
    ensures { result ≡ (may_give (op_kind op) class && (is_operand p.now f.now (first_class (op_kind op) class) a.now
        && is_second p.now f.now (second_class (op_kind op) class) (takes_two (op_kind op)) b.now)) }
{
    let kind = op.kind();
    kind.may_give(class)
        && is_operand(p, f, kind.first_class(class), *a)
        && is_second(p, f, kind.second_class(class), kind.takes_two(), *b)
}

#[inline(never)]
fn is_load_right(p: &FlatProgram, f: &FlatFn, temp: u32, at: &Value) -> bool
    ensures { result ≡ (is_target p.now f.now temp Class.L && is_operand p.now f.now Class.L at.now) }
{
    is_target(p, f, temp, Class::L) && is_operand(p, f, Class::L, *at)
}

fn stored_class(width: u32) -> Class
    ensures { result ≡ stored_class width }
{
    if width == 8 { Class::L } else { Class::W }
}

#[inline(never)]
fn is_store_right(p: &FlatProgram, f: &FlatFn, width: u32, value: &Value, at: &Value) -> bool
    ensures { result ≡ is_right p.now f.now 0 (Rattle.flat_code.specs.Code.Store width value.now at.now) }
{
    is_width(width)
        && is_operand(p, f, stored_class(width), *value)
        && is_operand(p, f, Class::L, *at)
}

#[inline(never)]
fn is_move_right(p: &FlatProgram, f: &FlatFn, to: &Value, from: &Value, bytes: u64) -> bool
    ensures { result ≡ is_right p.now f.now 0 (Rattle.flat_code.specs.Code.Move to.now from.now bytes) }
{
    bytes <= MOST_BYTES && is_operand(p, f, Class::L, *to) && is_operand(p, f, Class::L, *from)
}

#[inline(never)]
fn is_condition(p: &FlatProgram, f: &FlatFn, cond: &Value) -> bool
    ensures { result ≡ is_operand p.now f.now Class.W cond.now }
{
    is_operand(p, f, Class::W, *cond)
}

#[inline(never)]
fn is_call_right(
    p: &FlatProgram,
    f: &FlatFn,
    temp: &Option<u32>,
    name: &Text,
    args: &Values,
) -> bool
    ensures { result ≡ is_right p.now f.now 0 (Rattle.flat_code.specs.Code.Call temp.now name.now args.now) }
{
    is_call(p, f, *temp, name.bytes(), args.as_slice())
}

#[inline(never)]
fn is_ret_right(p: &FlatProgram, f: &FlatFn, value: &Option<Value>) -> bool
    ensures { result ≡ is_return p.now f.now f.now.result value.now }
{
    is_return(p, f, f.result, *value)
}

/// A function, and the program that it is of.
#[derive(Drop)]
pub struct Place<'a> {
    pub program: &'a FlatProgram,
    pub function: &'a FlatFn,
}

/// Whether a statement keeps the rules, with so many Seqs and Loops round it, in a function of a program. Recurses as deep as statements
/// stand within one another, so it has few parameters.
#[cycle(right)]
pub fn is_right(place: &Place<'_>, around: u32, code: &Flat) -> bool
    ensures { result ≡ is_right place.now.program.now place.now.function.now around (code_of code.now) }
{
    let (p, f) = (place.program, place.function);
    match code {
        Flat::Seq(kids) => around < DEEPEST && are_right(place, around + 1, kids),
        Flat::Set {
            temp,
            class,
            op,
            a,
            b,
        } => is_target(p, f, *temp, *class) && is_result(p, f, *class, *op, a, b),
        Flat::Load { temp, at, .. } => is_load_right(p, f, *temp, at),
        Flat::Store { width, value, at } => is_store_right(p, f, *width, value, at),
        Flat::Move { to, from, bytes } => is_move_right(p, f, to, from, *bytes),
        Flat::If { cond, yes, no } => {
            is_condition(p, f, cond)
                && is_right(place, around, yes.get())
                && is_right(place, around, no.get())
        }
        Flat::Loop(body) => around < DEEPEST && is_right(place, around + 1, body.get()),
        Flat::Leave(k) => *k < around,
        Flat::Call { temp, name, args } => is_call_right(p, f, temp, name, args),
        Flat::Ret(value) => is_ret_right(p, f, value),
    }
}

#[cycle(right)]
#[tactic(auto, using(crate::proofs::Kids::kid_deep, crate::proofs::Kids::drop_kid, crate::proofs::Kids::drop_rest))]
fn are_right(place: &Place<'_>, around: u32, kids: &FlatKids) -> bool
    ensures { result ≡ are_right place.now.program.now place.now.function.now around (codes_of kids.now) }
{
    for i in 0..kids.len() {
        if let Some(kid) = kids.get(i) {
            if !is_right(place, around, kid) {
                return false;
            }
        }
    }
    true
}
