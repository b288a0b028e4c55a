//! Operands: their classes, and that what they name is there.

ghost use Rattle.std.specs.Prelude.{◌≡◌};
ghost use Rattle.flat_code.specs.WellFormed.{is_long, is_operand, is_zero, is_second, are_args, is_return};

use super::data::is_bits;
use super::temps::is_set;
use crate::program::{FlatFn, FlatProgram};
use crate::value::Value;
use hx_base::Class;

/// Whether a class is `L`.
pub fn is_long(c: Class) -> bool
    ensures { result ≡ is_long c }
{
    match c {
        Class::W => false,
        Class::L => true,
    }
}

/// Whether an operand is right at a class, in a function of a program.
pub fn is_operand(p: &FlatProgram, f: &FlatFn, class: Class, v: Value) -> bool
    ensures { result ≡ is_operand p.now f.now class v }
{
    match v {
        Value::Number(n) => is_bits(n),
        Value::Temp(t) => is_temp(p, f, class, t),
        Value::Symbol(i, offset) => is_long(class)
            && (i as usize) < p.globals.len()
            && is_bits(offset),
        Value::Frame(offset) => is_long(class) && offset < f.frame,
    }
}

fn is_temp(p: &FlatProgram, f: &FlatFn, class: Class, t: u32) -> bool
    ensures { result ≡ is_operand p.now f.now class (Value.Temp t) }
{
    match class {
        Class::W => is_set(p, f, t, Class::W) || is_set(p, f, t, Class::L),
        Class::L => is_set(p, f, t, Class::L) && !is_set(p, f, t, Class::W),
    }
}

fn is_zero(v: Value) -> bool
    ensures { result ≡ is_zero v }
{
    match v {
        Value::Number(n) => n == 0,
        Value::Temp(_) | Value::Symbol(_, _) | Value::Frame(_) => false,
    }
}

/// Whether what stands as second operand is right: an operand where there are to be two, else the number 0.
pub fn is_second(p: &FlatProgram, f: &FlatFn, class: Class, two: bool, b: Value) -> bool
    ensures { result ≡ is_second p.now f.now class two b }
{
    if two {
        is_operand(p, f, class, b)
    } else {
        is_zero(b)
    }
}

/// Whether there are operands of these classes.
pub fn are_args(p: &FlatProgram, f: &FlatFn, classes: &[Class], args: &[Value]) -> bool
    ensures { result ≡ are_args p.now f.now classes.now args.now }
{
    let mut classes_left = classes;
    let mut args_left = args;
    'each: while let [class, more_classes @ ..] = classes_left {
        match args_left {
            [] => return false,
            [v, more_args @ ..] => {
                if !is_operand(p, f, *class, *v) {
                    return false;
                }
                classes_left = more_classes;
                args_left = more_args;
            }
        }
    }
    args_left.is_empty()
}

/// Whether a value is returned exactly by a function with a result, and right.
pub fn is_return(p: &FlatProgram, f: &FlatFn, class: Option<Class>, value: Option<Value>) -> bool
    ensures { result ≡ is_return p.now f.now class value }
{
    match (class, value) {
        (None, None) => true,
        (None, Some(_)) => false,
        (Some(_), None) => false,
        (Some(class), Some(v)) => is_operand(p, f, class, v),
    }
}
