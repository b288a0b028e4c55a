//! The text of numbers, classes and operands.

ghost use Rattle.std.specs.Prelude.{◌≡◌, ◌++◌, OnOk};
ghost use Rattle.std.specs.Fmt.{decimal};
ghost use Rattle.il_code.specs.Print.{class_text, value_text, target_text, param_text, arg_text};

use super::list::Printed;
use crate::types::{IlArg, IlParam, IlValue};
use hx_base::{Bytes, Class, Text};
use std::alloc::AllocError;

pub fn put_number(out: &mut Bytes, n: u64) -> Result<(), AllocError>
    ensures { OnOk result (out.new ≡ out.old ++ decimal n) }
{
    let mut buffer = itoa::Buffer::new();
    out.extend(buffer.format(n).as_bytes())
}

pub fn put_class(out: &mut Bytes, class: Class) -> Result<(), AllocError>
    ensures { OnOk result (out.new ≡ out.old ++ class_text class) }
{
    match class {
        Class::W => out.extend(b"w"),
        Class::L => out.extend(b"l"),
    }
}

pub fn put_value(out: &mut Bytes, v: &IlValue) -> Result<(), AllocError>
    ensures { OnOk result (out.new ≡ out.old ++ value_text v.now) }
{
    match v {
        IlValue::Number(n) => put_number(out, *n),
        IlValue::Temp(t) => {
            out.extend(b"%")?;
            out.extend(t.bytes())
        }
        IlValue::Symbol(s) => {
            out.extend(b"$")?;
            out.extend(s.bytes())
        }
    }
}

/// Puts a temporary with its class, in front of what it is set to.
pub fn put_target(out: &mut Bytes, temp: &Text, class: Class) -> Result<(), AllocError>
    ensures { OnOk result (out.new ≡ out.old ++ target_text temp.now class) }
{
    out.extend(b"%")?;
    out.extend(temp.bytes())?;
    out.extend(b" =")?;
    put_class(out, class)?;
    out.extend(b" ")
}

impl Printed for IlParam {
    ghost text = { λ p. param_text p };

    fn put(&self, out: &mut Bytes) -> Result<(), AllocError> {
        put_class(out, self.class)?;
        out.extend(b" %")?;
        out.extend(self.name.bytes())
    }
}

impl Printed for IlArg {
    ghost text = { λ a. arg_text a };

    fn put(&self, out: &mut Bytes) -> Result<(), AllocError> {
        put_class(out, self.class)?;
        out.extend(b" ")?;
        put_value(out, &self.value)
    }
}
