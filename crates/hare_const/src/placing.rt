//! Parts of a value at their places.

ghost use Rattle.std.specs.Prelude.{◌≡◌, ◌≤◌, ◌<◌, ℕ, [], length, IfOk};
ghost use Rattle.hare_typed.specs.Cells.{with_cells, undefined_cells};
ghost use Rattle.hare_const.specs.declared.outcome.Outcome.TheVariants.{Known};
ghost use Rattle.hare_const.specs.NodeValues.{filled};
ghost use Rattle.hare_const.specs.Placing.{placed, Holds};

use crate::kids::kid_at;
use crate::outcome::Outcome;
use crate::unions::with_undefined;
use hare_typed::Cells;
use std::alloc::{AllocError, Global};

/// A part of a value: the value of a kid, at its place.
#[derive(Clone, Copy, Debug, PartialEq, Eq)]
pub(crate) struct Part {
    /// How many cells of the whole stand before it.
    pub start: u64,
    /// How many kids stand before the one that gives it.
    pub kid: usize,
}

/// The known cells of a value of `size` cells once a part is put into it behind them, at its place. Takes the memory that the part's own
/// cells take, and one for what lies between. Where the part begins before the end of what is known, or has no room, the answer is want of
/// memory.
fn with_part(
    alloc: Global,
    cells: Cells,
    size: usize,
    start: u64,
    part: &Cells,
) -> Result<Cells, AllocError>
    requires { length cells ≤ size }
    ensures within { IfOk result (λ more. length more ≤ size) }
    ensures value { IfOk result (λ more. filled size more ≡ with_cells start part.now (filled size cells)) }
    ensures grows { IfOk result (λ more. length cells ≤ length more) }
    ensures behind { IfOk result (λ more. (place : ℕ) → Holds start part.now place → (length cells ≤ place) × (place < length more)) }
{
    let (known, count) = (cells.len(), part.len());
    if count == 0 {
        return Ok(cells);
    }
    if size < count {
        return Err(AllocError);
    }
    if start < known as u64 || start > (size - count) as u64 {
        return Err(AllocError);
    }
    let mut more = with_undefined(cells, start as usize - known)?;
    more.append(alloc, part)?;
    Ok(more)
}

/// A value of `size` cells of these parts, with undefined cells between them. They are laid from front to back, in whatever order they are
/// given. Where two of them have cells at one place, or one has no room, the answer is want of memory: no struct or tuple has such parts.
/// `none` stands for a kid that is not there.
pub(crate) fn whole_of(
    alloc: Global,
    size: usize,
    mut parts: Vec<Part>,
    kids: &[Outcome],
    none: &Outcome,
) -> Result<Cells, AllocError>
    requires { none.now ≡ Known [] }
    ensures { IfOk result (λ whole. whole ≡ placed kids.now parts.items (undefined_cells size)) }
{
    parts.sort_by_key(|p| p.start)?;
    let mut whole = Cells::new(alloc);
    for part in parts.as_slice() {
        if let Outcome::Known(cells) = kid_at(kids, part.kid, none) {
            whole = with_part(alloc, whole, size, part.start, cells)?;
        }
    }
    let missing = size - whole.len();
    let filled = with_undefined(whole, missing)?;
    Ok(filled)
}
