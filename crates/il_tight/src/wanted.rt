//! Which blocks of a function begin.

ghost use Rattle.std.specs.Prelude.{◌≡◌, ◌++◌, [], true, false, OnOk, IfOk};
ghost use Rattle.il_code.specs.Shaped.{falls};
ghost use Rattle.il_tight.specs.Tight.{begins, is_known, with_name, with_targets, wanted_from, closed_from, wanted, is_closed};

use crate::labels::{add_targets, falls, is_closed, stays};
use hx_table::Table;
use il_code::Block;
use std::alloc::{AllocError, Global};

/// Adds the labels that these blocks name where control comes to them, of which the first stays or stands behind a jump.
fn add_wanted<'a>(known: &mut Table<'a, ()>, blocks: &'a [Block]) -> Result<(), AllocError>
    ensures { OnOk result (known.new ≡ wanted_from known.old false blocks.now) }
{
    let mut into = false;
    let mut left = blocks;
    'each: while let [b, more @ ..] = left {
        if into || stays(known, &b.label) {
            add_targets(known, &b.jump)?;
            into = falls(&b.jump);
        }
        left = more;
    }
    Ok(())
}

/// Adds them again and again, as long as a jump of what stays names a label that does not.
fn close<'a>(known: &mut Table<'a, ()>, blocks: &'a [Block]) -> Result<(), AllocError>
    ensures { OnOk result (known.new ≡ closed_from blocks.now known.old blocks.now) }
{
    let mut turns = blocks;
    'each: while let [_, more @ ..] = turns {
        if is_closed(known, blocks) {
            return Ok(());
        }
        add_wanted(known, blocks)?;
        turns = more;
    }
    Ok(())
}

/// The labels that stay.
pub fn wanted<'a>(alloc: Global, blocks: &'a [Block]) -> Result<Table<'a, ()>, AllocError>
    ensures { IfOk result (λ t. t ≡ wanted blocks.now) }
{
    let mut known = Table::new(alloc);
    match blocks {
        [] => {}
        [first, ..] => {
            known.add(first.label.bytes(), ())?;
            add_wanted(&mut known, blocks)?;
            close(&mut known, blocks)?;
        }
    }
    Ok(known)
}

/// Which blocks begin.
pub fn begins(
    alloc: Global,
    known: &Table<'_, ()>,
    blocks: &[Block],
) -> Result<Vec<bool>, AllocError>
    ensures { IfOk result (λ v. v.items ≡ begins (is_known known.now) blocks.now) }
{
    let mut flags = Vec::new(alloc);
    let mut left = blocks;
    'each: while let [b, more @ ..] = left {
        flags.push(stays(known, &b.label))?;
        left = more;
    }
    Ok(flags)
}
