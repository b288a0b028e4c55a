//! The blocks of a function.

ghost use Rattle.std.specs.Prelude.{◌≡◌, ◌++◌, ◌∷◌, [], true, false, reverse, option_to_list, OnOk, IfOk, if◌then◌else◌};
ghost use Rattle.il_code.specs.Shaped.{falls};
ghost use Rattle.il_tight.specs.Tight.{begins, joined, with_joined, with_block, with_blocks, staying, unset, tight};
ghost use Rattle.il_tight.specs.Tightness.{IsTight};

use crate::labels::falls;
use crate::temps::unset;
use crate::wanted::{begins, wanted};
use il_code::{Block, Blocks, IlParam, Insts};
use std::alloc::{AllocError, Global};

/// Blocks from the last to the first.
#[tactic(auto, using(crate::proofs::KeptBlocks::Lists::turned))]
fn reversed(alloc: Global, blocks: Blocks) -> Result<Blocks, AllocError>
    ensures { IfOk result (λ bs. bs ≡ reverse blocks) }
{
    let mut from = blocks;
    let mut to = Blocks::new(alloc);
    'each: while let Some(b) = from.pop() {
        to.push(b)?;
    }
    Ok(to)
}

/// Puts instructions behind others.
#[tactic(auto, using(crate::proofs::KeptBlocks::Lists::turned, crate::proofs::KeptBlocks::Lists::twice))]
fn append(alloc: Global, to: &mut Insts, insts: Insts) -> Result<(), AllocError>
    ensures { OnOk result (to.new ≡ to.old ++ insts) }
{
    let mut from = insts;
    let mut turned = Insts::new(alloc);
    'turn: while let Some(i) = from.pop() {
        turned.push(i)?;
    }
    'each: while let Some(i) = turned.pop() {
        to.push(i)?;
    }
    Ok(())
}

/// A block with what control falls into behind it.
fn joined(alloc: Global, a: Block, b: Block) -> Result<Block, AllocError>
    ensures { IfOk result (λ c. c ≡ joined a b) }
{
    let Block {
        label,
        phis,
        mut insts,
        jump: _fall,
    } = a;
    let Block {
        label: _label,
        phis: _phis,
        insts: more,
        jump,
    } = b;
    append(alloc, &mut insts, more)?;
    Ok(Block {
        label,
        phis,
        insts,
        jump,
    })
}

/// Joins a block to the last one, where control falls into it, and else drops it.
#[tactic(auto, using(crate::proofs::KeptBlocks::Lists::last_joined))]
fn join(alloc: Global, out: &mut Blocks, b: Block) -> Result<(), AllocError>
    ensures { OnOk result (out.new ≡ with_joined out.old b) }
{
    match out.pop() {
        None => Ok(()),
        Some(last) => {
            if falls(&last.jump) {
                let whole = joined(alloc, last, b)?;
                out.push(whole)
            } else {
                out.push(last)
            }
        }
    }
}

/// Puts a block behind others, by whether it begins.
fn put(alloc: Global, out: &mut Blocks, begin: bool, b: Block) -> Result<(), AllocError>
    ensures { OnOk result (out.new ≡ with_block out.old begin b) }
{
    if begin {
        return out.push(b);
    }
    join(alloc, out, b)
}

/// Blocks, by which of them begin.
#[tactic(auto, using(crate::proofs::KeptBlocks::Lists::last_first, crate::proofs::KeptBlocks::Lists::twice))]
fn with_blocks(alloc: Global, blocks: Blocks, flags: &[bool]) -> Result<Blocks, AllocError>
    ensures { IfOk result (λ bs. bs ≡ with_blocks [] flags.now blocks) }
{
    let mut left = reversed(alloc, blocks)?;
    let mut begins = flags;
    let mut out = Blocks::new(alloc);
    'each: while let Some(b) = left.pop() {
        let mut begin = true;
        if let [first, more @ ..] = begins {
            begin = *first;
            begins = more;
        }
        put(alloc, &mut out, begin, b)?;
    }
    Ok(out)
}

/// What becomes of the blocks of a function: which begin, and what stands behind all.
struct Plan {
    begins: Vec<bool>,
    last: Option<Block>,
}

fn planned(alloc: Global, params: &[IlParam], blocks: &[Block]) -> Result<Plan, AllocError>
    ensures begins { IfOk result (λ p. p.begins.items ≡ begins (staying blocks.now) blocks.now) }
    ensures last { IfOk result (λ p. option_to_list p.last ≡ unset params.now (staying blocks.now) blocks.now) }
{
    let labels = wanted(alloc, blocks)?;
    let begins = begins(alloc, &labels, blocks)?;
    let last = unset(alloc, params, &labels, blocks)?;
    Ok(Plan { begins, last })
}

fn tight_blocks(alloc: Global, params: &[IlParam], blocks: Blocks) -> Result<Blocks, AllocError>
    ensures { IfOk result (λ bs. bs ≡ tight params.now blocks) }
{
    let Plan { begins, last } = planned(alloc, params, blocks.as_slice())?;
    let mut out = with_blocks(alloc, blocks, begins.as_slice())?;
    match last {
        None => {}
        Some(b) => out.push(b)?,
    }
    Ok(out)
}

/// The blocks of a function with these parameters, each of which begins where it must: where a jump that control comes to names its
/// label. Any other is joined to the one that falls into it, or dropped where none does. Where what stays reads temporaries that only
/// what is dropped sets, one block that sets these stands behind all, to which control does not come. The blocks have no phis. An error is
/// want of memory.
pub fn tighten(alloc: Global, params: &[IlParam], blocks: Blocks) -> Result<Blocks, AllocError>
    ensures value { IfOk result (λ bs. bs ≡ tight params.now blocks) }
    ensures tightness { IfOk result IsTight }
{
    let bs = tight_blocks(alloc, params, blocks)?;
    Ok(bs)
}
