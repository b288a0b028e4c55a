//! The labels that jumps name, and which of them stay.

ghost use Rattle.std.specs.Prelude.{◌≡◌, true, false, OnOk};
ghost use Rattle.il_code.specs.Rules.{targets_pass};
ghost use Rattle.il_code.specs.Shaped.{falls};
ghost use Rattle.il_tight.specs.Tight.{is_known, with_name, with_targets, is_closed};

use hx_base::Text;
use hx_table::Table;
use il_code::{Block, Jump};
use std::alloc::AllocError;

/// Whether control goes on to the next block.
pub fn falls(jump: &Jump) -> bool
    ensures { result ≡ falls jump.now }
{
    matches!(jump, Jump::Fall)
}

/// Adds the labels that a jump names.
pub fn add_targets<'a>(known: &mut Table<'a, ()>, jump: &'a Jump) -> Result<(), AllocError>
    ensures { OnOk result (known.new ≡ with_targets known.old jump.now) }
{
    match jump {
        Jump::Jmp(l) => known.add(l.bytes(), ()),
        Jump::Jnz(_, a, b) => {
            known.add(a.bytes(), ())?;
            known.add(b.bytes(), ())
        }
        Jump::Fall | Jump::Ret(_) | Jump::Hlt => Ok(()),
    }
}

/// Whether a label stays.
pub fn stays(known: &Table<'_, ()>, label: &Text) -> bool
    ensures { result ≡ is_known known.now label.now }
{
    known.find(label.bytes()).is_some()
}

/// Whether all labels that a jump names stay.
fn targets_stay(known: &Table<'_, ()>, jump: &Jump) -> bool
    ensures { result ≡ targets_pass (is_known known.now) jump.now }
{
    match jump {
        Jump::Jmp(l) => stays(known, l),
        Jump::Jnz(_, a, b) => stays(known, a) && stays(known, b),
        Jump::Fall | Jump::Ret(_) | Jump::Hlt => true,
    }
}

/// Whether jumps that stay name only labels that do.
pub fn is_closed(known: &Table<'_, ()>, blocks: &[Block]) -> bool
    ensures { result ≡ is_closed (is_known known.now) false blocks.now }
{
    let mut into = false;
    let mut left = blocks;
    'each: while let [b, more @ ..] = left {
        if into || stays(known, &b.label) {
            if !targets_stay(known, &b.jump) {
                return false;
            }
            into = falls(&b.jump);
        }
        left = more;
    }
    true
}
