//! Operands, and what computes their addresses.

ghost use Rattle.std.specs.Prelude.{◌≡◌, OnOk, IfOk};
ghost use Rattle.flat_code.specs.Costs.{addressed};
ghost use Rattle.il_emit.specs.Lines.{name_at, operand, address_inst, place_inst, address_lines, second};
ghost use Rattle.il_emit.specs.Emitting.{Emits};

use crate::emitter::Emitter;
use crate::names::{address_name, frame_name, same_text, temp_name};
use flat_code::{Data, Value};
use hx_base::{Class, Text};
use il_code::{IlOp, IlValue, Inst};
use std::alloc::{AllocError, Global};

/// The name of a global, by its place; empty where there is none.
fn name_at(alloc: Global, globals: &[Data], i: u32) -> Result<Text, AllocError>
    ensures { IfOk result (λ s. s ≡ name_at globals.now i) }
{
    match globals.get(i as usize) {
        None => Ok(Text::new(alloc)),
        Some(d) => same_text(alloc, &d.name),
    }
}

/// An operand, where its address has the number `k` if it is computed.
fn operand(alloc: Global, globals: &[Data], v: Value, k: u64) -> Result<IlValue, AllocError>
    ensures { IfOk result (λ o. o ≡ operand globals.now v k) }
{
    match v {
        Value::Temp(t) => Ok(IlValue::Temp(temp_name(alloc, t)?)),
        Value::Number(n) => Ok(IlValue::Number(n)),
        Value::Symbol(i, offset) => {
            if offset == 0 {
                Ok(IlValue::Symbol(name_at(alloc, globals, i)?))
            } else {
                Ok(IlValue::Temp(address_name(alloc, k)?))
            }
        }
        Value::Frame(_) => Ok(IlValue::Temp(address_name(alloc, k)?)),
    }
}

/// What computes an address, of number `k`, from a symbol and an offset.
fn address_inst(
    alloc: Global,
    globals: &[Data],
    i: u32,
    offset: u64,
    k: u64,
) -> Result<Inst, AllocError>
    ensures { IfOk result (λ x. x ≡ address_inst globals.now i offset k) }
{
    Ok(Inst::Set {
        temp: address_name(alloc, k)?,
        class: Class::L,
        op: IlOp::Add,
        a: IlValue::Symbol(name_at(alloc, globals, i)?),
        b: Some(IlValue::Number(offset)),
    })
}

/// What computes an address, of number `k`, from that of the frame and an offset.
fn place_inst(alloc: Global, offset: u64, k: u64) -> Result<Inst, AllocError>
    ensures { IfOk result (λ x. x ≡ place_inst offset k) }
{
    Ok(Inst::Set {
        temp: address_name(alloc, k)?,
        class: Class::L,
        op: IlOp::Add,
        a: IlValue::Temp(frame_name(alloc)?),
        b: Some(IlValue::Number(offset)),
    })
}

/// The second operand, where there are two.
pub fn second(two: bool, v: IlValue) -> Option<IlValue>
    ensures { result ≡ second two v }
{
    if two { Some(v) } else { None }
}

impl Emitter {
    /// Computes the address of an operand, if it needs one.
    fn address(&mut self, globals: &[Data], v: Value) -> Result<(), AllocError>
        ensures { OnOk result (Emits self.old self.new
            (address_lines globals.now v self.old.addresses) 0 (addressed v) self.old.exits.items) }
    {
        match v {
            Value::Temp(_) | Value::Number(_) => Ok(()),
            Value::Symbol(i, offset) => {
                if offset == 0 {
                    return Ok(());
                }
                let k = self.take_address()?;
                self.inst(address_inst(self.alloc, globals, i, offset, k)?)
            }
            Value::Frame(offset) => {
                let k = self.take_address()?;
                self.inst(place_inst(self.alloc, offset, k)?)
            }
        }
    }

    /// An operand, behind what computes its address.
    pub fn operand(&mut self, globals: &[Data], v: Value) -> Result<IlValue, AllocError>
        ensures value { IfOk result (λ o. o ≡ operand globals.now v self.old.addresses) }
        ensures ok { OnOk result (Emits self.old self.new
            (address_lines globals.now v self.old.addresses) 0 (addressed v) self.old.exits.items) }
    {
        let k = self.addresses;
        self.address(globals, v)?;
        operand(self.alloc, globals, v, k)
    }
}
