//! The text of blocks and of what stands in them.

ghost use Rattle.std.specs.Prelude.{◌≡◌, ◌++◌, OnOk};
ghost use Rattle.il_code.specs.Print.{block_text, inst_text, phi_text, phi_arg_text, jump_text, second_text, result_text, returned_text, store_word};

use super::list::{Printed, put_lines, put_with_commas};
use super::value::{put_number, put_target, put_value};
use crate::op::word;
use crate::types::{Block, IlParam, IlValue, Inst, Jump, Phi, PhiArg};
use hx_base::Bytes;
use std::alloc::AllocError;

impl Printed for Block {
    ghost text = { λ b. block_text b };

    fn put(&self, out: &mut Bytes) -> Result<(), AllocError> {
        out.extend(b"@")?;
        out.extend(self.label.bytes())?;
        out.extend(b"\n")?;
        put_lines(out, self.phis.as_slice())?;
        put_lines(out, self.insts.as_slice())?;
        put_jump(out, &self.jump)
    }
}

impl Printed for Phi {
    ghost text = { λ p. phi_text p };

    fn put(&self, out: &mut Bytes) -> Result<(), AllocError> {
        put_target(out, &self.temp, self.class)?;
        out.extend(b"phi ")?;
        put_with_commas(out, self.args.as_slice())
    }
}

impl Printed for PhiArg {
    ghost text = { λ a. phi_arg_text a };

    fn put(&self, out: &mut Bytes) -> Result<(), AllocError> {
        out.extend(b"@")?;
        out.extend(self.label.bytes())?;
        out.extend(b" ")?;
        put_value(out, &self.value)
    }
}

impl Printed for Inst {
    ghost text = { λ i. inst_text i };

    fn put(&self, out: &mut Bytes) -> Result<(), AllocError> {
        match self {
            Inst::Set {
                temp,
                class,
                op,
                a,
                b,
            } => {
                put_target(out, temp, *class)?;
                out.extend(word(*op))?;
                out.extend(b" ")?;
                put_value(out, a)?;
                put_second(out, b)
            }
            Inst::Store { width, value, at } => {
                put_store_word(out, *width)?;
                out.extend(b" ")?;
                put_value(out, value)?;
                out.extend(b", ")?;
                put_value(out, at)
            }
            Inst::Blit { from, to, bytes } => {
                out.extend(b"blit ")?;
                put_value(out, from)?;
                out.extend(b", ")?;
                put_value(out, to)?;
                out.extend(b", ")?;
                put_number(out, *bytes)
            }
            Inst::Call {
                result,
                target,
                args,
            } => {
                put_result(out, result)?;
                out.extend(b"call $")?;
                out.extend(target.bytes())?;
                out.extend(b"(")?;
                put_with_commas(out, args.as_slice())?;
                out.extend(b")")
            }
        }
    }
}

fn put_second(out: &mut Bytes, b: &Option<IlValue>) -> Result<(), AllocError>
    ensures { OnOk result (out.new ≡ out.old ++ second_text b.now) }
{
    if let Some(b) = b {
        out.extend(b", ")?;
        put_value(out, b)?;
    }
    Ok(())
}

fn put_store_word(out: &mut Bytes, width: u32) -> Result<(), AllocError>
    ensures { OnOk result (out.new ≡ out.old ++ store_word width) }
{
    match width {
        1 => out.extend(b"storeb"),
        2 => out.extend(b"storeh"),
        4 => out.extend(b"storew"),
        _ => out.extend(b"storel"),
    }
}

fn put_result(out: &mut Bytes, result_to: &Option<IlParam>) -> Result<(), AllocError>
    ensures { OnOk result (out.new ≡ out.old ++ result_text result_to.now) }
{
    if let Some(p) = result_to {
        put_target(out, &p.name, p.class)?;
    }
    Ok(())
}

fn put_jump(out: &mut Bytes, jump: &Jump) -> Result<(), AllocError>
    ensures { OnOk result (out.new ≡ out.old ++ jump_text jump.now) }
{
    match jump {
        Jump::Fall => Ok(()),
        Jump::Jmp(l) => {
            out.extend(b"\tjmp @")?;
            out.extend(l.bytes())?;
            out.extend(b"\n")
        }
        Jump::Jnz(v, a, b) => {
            out.extend(b"\tjnz ")?;
            put_value(out, v)?;
            out.extend(b", @")?;
            out.extend(a.bytes())?;
            out.extend(b", @")?;
            out.extend(b.bytes())?;
            out.extend(b"\n")
        }
        Jump::Ret(v) => {
            out.extend(b"\tret")?;
            put_returned(out, v)?;
            out.extend(b"\n")
        }
        Jump::Hlt => out.extend(b"\thlt\n"),
    }
}

fn put_returned(out: &mut Bytes, v: &Option<IlValue>) -> Result<(), AllocError>
    ensures { OnOk result (out.new ≡ out.old ++ returned_text v.now) }
{
    if let Some(v) = v {
        out.extend(b" ")?;
        put_value(out, v)?;
    }
    Ok(())
}
