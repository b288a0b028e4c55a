//! The table of arguments.

ghost use Rattle.std.specs.Prelude.{◌≡◌, ℕ, ◌+◌, ◌*◌, ◌<◌, ◌^◌, ◌++◌, length, sum_by, IfOk, OnOk};
ghost use Rattle.hx_base.specs.Memory.{Memory, le_bytes};
ghost use Rattle.hx_base.specs.Runtime.{argument_records, argument_size, arguments_start, record_size, with_arguments, write_arguments};
ghost use Rattle.il_mem.specs.Kept.{IsBare};
ghost use Rattle.il_load.specs.Puts.{IsReady, IsSome, PutsBefore, Stands};
ghost use Rattle.il_load.specs.Arguments.{AreFew, ranges_with_arguments};

use crate::pieces::{put_bytes, put_number};
use hx_base::Text;
use il_mem::Mem;
use std::alloc::AllocError;

// Where the table of arguments begins, and the bytes of a record.
const START: u64 = 0x10_0000_0000;

const RECORD: u64 = 24;

/// Puts the table of arguments: a record for each, and then the bytes of each.
pub(crate) fn put_arguments(memory: &mut Mem, arguments: &[Text]) -> Result<(), AllocError>
    requires few { AreFew arguments.now }
    requires bare { (n : ℕ) → IsBare memory.old.ranges arguments_start n }
    requires some { IsSome memory.old }
    ensures done { (m : Memory) → Stands memory.old m → OnOk result (Stands memory.new (with_arguments m arguments.now)) }
    ensures ranges { OnOk result (memory.new.ranges ≡ ranges_with_arguments memory.old.ranges arguments.now) }
{
    if arguments.is_empty() {
        return Ok(());
    }
    let texts = START + RECORD * arguments.len() as u64;
    let end = texts + bytes_of(arguments);
    memory.map(START, end - START)?;
    put_records(memory, texts, end, arguments)?;
    put_texts(memory, texts, arguments)?;
    Ok(())
}

// The bytes of an argument in the table, at least one.
fn size(argument: &Text) -> u64
    ensures { result ≡ argument_size argument.now }
{
    (argument.bytes().len() as u64).max(1)
}

// The bytes of all arguments in the table.
fn bytes_of(arguments: &[Text]) -> u64
    requires { AreFew arguments.now }
    ensures { result ≡ sum_by argument_size arguments.now }
{
    let mut bytes = 0u64;
    for argument in arguments {
        bytes += size(argument);
    }
    bytes
}

// Puts the records of arguments in front of where their texts begin. The texts end at `end`.
fn put_records(
    memory: &mut Mem,
    texts: u64,
    end: u64,
    arguments: &[Text],
) -> Result<u64, AllocError>
    requires end { texts + sum_by argument_size arguments.now ≡ end }
    requires ready { IsReady memory.old texts (record_size * length arguments.now) }
    ensures { IfOk result (PutsBefore memory.old memory.new texts (argument_records texts arguments.now)) }
{
    let mut at = texts;
    let mut text = end;
    for i in (0..arguments.len()).rev() {
        text -= size(&arguments[i]);
        let bytes = arguments[i].bytes().len() as u64;
        at = put_record(memory, at, text, bytes)?;
    }
    Ok(at)
}

// Puts a record of an argument: its address, and twice its length.
fn put_record(memory: &mut Mem, end: u64, text: u64, bytes: u64) -> Result<u64, AllocError>
    requires { IsReady memory.old end record_size }
    ensures { IfOk result (PutsBefore memory.old memory.new end (le_bytes 8 text ++ le_bytes 8 bytes ++ le_bytes 8 bytes)) }
{
    let capacity = put_number(memory, end, 8, bytes)?;
    let length = put_number(memory, capacity, 8, bytes)?;
    put_number(memory, length, 8, text)
}

// Puts the bytes of arguments, one argument behind the other.
fn put_texts(memory: &mut Mem, texts: u64, arguments: &[Text]) -> Result<(), AllocError>
    requires few { texts + sum_by argument_size arguments.now < 2 ^ 64 }
    requires ready { IsReady memory.old (texts + sum_by argument_size arguments.now) (sum_by argument_size arguments.now) }
    ensures ranges { OnOk result (memory.new.ranges ≡ memory.old.ranges) }
    ensures done { (m : Memory) → Stands memory.old m → OnOk result (Stands memory.new (write_arguments m texts arguments.now)) }
{
    let mut at = texts;
    for argument in arguments {
        put_bytes(memory, at + argument.bytes().len() as u64, argument.bytes())?;
        at += size(argument);
    }
    Ok(())
}
