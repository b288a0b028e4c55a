//! Bytes that are put in front of an address, the last first, as the definition's list of writes has them.

ghost use Rattle.std.specs.Prelude.{◌≡◌, ◌+◌, ◌≤◌, length, replicate, IfOk, OnOk};
ghost use Rattle.hx_base.specs.Memory.{le_bytes};
ghost use Rattle.il_mem.specs.Holds.{IsWidth};
ghost use Rattle.il_mem.specs.Kept.{page_size};
ghost use Rattle.il_load.specs.Puts.{IsReady, PutsAt, PutsBefore};

use il_mem::{Mem, MemStop, PAGE};
use std::alloc::AllocError;

/// Puts a number of 1, 2, 4 or 8 bytes in front of an address, and gives where it begins.
pub(crate) fn put_number(
    memory: &mut Mem,
    end: u64,
    width: u32,
    value: u64,
) -> Result<u64, AllocError>
    requires width { IsWidth width }
    requires ready { IsReady memory.old end width }
    ensures { IfOk result (PutsBefore memory.old memory.new end (le_bytes width value)) }
{
    let at = end - u64::from(width);
    match memory.store(at, width, value) {
        Ok(()) => Ok(at),
        Err(MemStop::Memory) => Err(AllocError),
        Err(MemStop::Wild) => unreachable!(),
    }
}

// Puts at most a page of bytes at an address.
fn put_piece(memory: &mut Mem, at: u64, bytes: &[u8]) -> Result<(), AllocError>
    requires few { length bytes.now ≤ page_size }
    requires ready { IsReady memory.old (at + length bytes.now) (length bytes.now) }
    ensures { OnOk result (PutsAt memory.old memory.new at bytes.now) }
{
    match memory.write(at, bytes) {
        Ok(()) => Ok(()),
        Err(MemStop::Memory) => Err(AllocError),
        Err(MemStop::Wild) => unreachable!(),
    }
}

/// Puts bytes in front of an address, and gives where they begin.
pub(crate) fn put_bytes(memory: &mut Mem, end: u64, bytes: &[u8]) -> Result<u64, AllocError>
    requires { IsReady memory.old end (length bytes.now) }
    ensures { IfOk result (PutsBefore memory.old memory.new end bytes.now) }
{
    let begin = end - bytes.len() as u64;
    let mut left = bytes.len();
    while left > 0 {
        let from = left - left.min(PAGE as usize);
        put_piece(memory, begin + from as u64, &bytes[from..left])?;
        left = from;
    }
    Ok(begin)
}

/// Puts so many zeros in front of an address, and gives where they begin.
pub(crate) fn put_zeros(memory: &mut Mem, end: u64, count: u64) -> Result<u64, AllocError>
    requires { IsReady memory.old end count }
    ensures { IfOk result (PutsBefore memory.old memory.new end (replicate count 0)) }
{
    let zeros = [0; PAGE as usize];
    put_page_by_page(memory, end, count, &zeros)
}

fn put_page_by_page(memory: &mut Mem, end: u64, count: u64, zeros: &[u8]) -> Result<u64, AllocError>
    requires zeros { zeros.now ≡ replicate page_size 0 }
    requires ready { IsReady memory.old end count }
    ensures { IfOk result (PutsBefore memory.old memory.new end (replicate count 0)) }
{
    let begin = end - count;
    let mut left = count;
    while left > 0 {
        let more = left.min(PAGE);
        put_piece(memory, begin + (left - more), &zeros[..more as usize])?;
        left -= more;
    }
    Ok(begin)
}
