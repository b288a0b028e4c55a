//! Blocks.

ghost use Rattle.il_read.specs.Blocks as spec;
ghost use Rattle.il_read.specs.Taken.{Takes};

use crate::front::skip;
use crate::jump::jump_at;
use crate::line::lines_at;
use crate::list::{Construct, Repeated};
use crate::taken::Taken;
use crate::value::label_at;
use il_code::Block;
use std::alloc::Global;

impl Construct for Block {
    ghost reads = { spec.block_at };

    fn at(alloc: Global, s: &[u8]) -> Taken<'_, Self> {
        block_at(alloc, s)
    }
}

impl Repeated for Block {
    ghost starts = { spec.begins_block };

    fn begins(s: &[u8]) -> bool {
        matches!(s, [b'@', ..])
    }
}

// A block.
#[tactic(auto, unfolding(crate::specs::Blocks::block_at))]
fn block_at(alloc: Global, s: &[u8]) -> Taken<'_, Block>
    ensures { Takes result (spec.block_at s.now) }
{
    let (label, rest) = label_at(alloc, s)?;
    let rest = skip(rest, b"\n")?;
    let ((phis, insts), rest) = lines_at(alloc, rest)?;
    let (jump, rest) = jump_at(alloc, rest)?;
    let block = Block {
        label,
        phis,
        insts,
        jump,
    };
    Ok((block, rest))
}
