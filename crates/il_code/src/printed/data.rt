//! The text of a data item's parts.

ghost use Rattle.std.specs.Prelude.{◌≡◌, ◌++◌, OnOk};
ghost use Rattle.il_code.specs.Print.{part_text, part_value_text, parts_text, width_text};

use super::list::{Printed, put_each, put_with_commas};
use super::value::put_number;
use crate::types::{Part, PartValue};
use hx_base::Bytes;
use std::alloc::AllocError;

pub fn put_parts(out: &mut Bytes, parts: &[Part]) -> Result<(), AllocError>
    ensures { OnOk result (out.new ≡ out.old ++ parts_text parts.now) }
{
    if parts.is_empty() {
        return out.extend(b"{ }");
    }
    out.extend(b"{ ")?;
    put_with_commas(out, parts)?;
    out.extend(b" }")
}

impl Printed for Part {
    ghost text = { λ p. part_text p };

    fn put(&self, out: &mut Bytes) -> Result<(), AllocError> {
        match self {
            Part::Values { width, values } => {
                put_width(out, *width)?;
                put_each(out, values.as_slice())
            }
            Part::Zero(n) => {
                out.extend(b"z ")?;
                put_number(out, *n)
            }
        }
    }
}

fn put_width(out: &mut Bytes, width: u32) -> Result<(), AllocError>
    ensures { OnOk result (out.new ≡ out.old ++ width_text width) }
{
    match width {
        1 => out.extend(b"b"),
        2 => out.extend(b"h"),
        4 => out.extend(b"w"),
        _ => out.extend(b"l"),
    }
}

impl Printed for PartValue {
    ghost text = { λ v. part_value_text v };

    fn put(&self, out: &mut Bytes) -> Result<(), AllocError> {
        match self {
            PartValue::Number(n) => {
                out.extend(b" ")?;
                put_number(out, *n)
            }
            PartValue::Str(s) => {
                out.extend(b" \"")?;
                out.extend(s.bytes())?;
                out.extend(b"\"")
            }
            PartValue::Symbol(s, offset) => {
                out.extend(b" $")?;
                out.extend(s.bytes())?;
                if *offset != 0 {
                    out.extend(b" + ")?;
                    put_number(out, *offset)?;
                }
                Ok(())
            }
        }
    }
}
