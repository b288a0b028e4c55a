//! Parts of lists of cells. What is repeated within a part takes the memory of one there too.

ghost use Rattle.std.specs.Prelude.{◌≡◌, ◌+◌, ◌-◌, ◌<◌, ◌≤◌, List, length, IfOk, IfSome};
ghost use Rattle.hare_typed.specs.declared.cell.Cell.{Cell as CellValue};
ghost use Rattle.hare_typed.specs.Cells.{cells_within};
ghost use Rattle.hare_typed.specs.Repeats.{repeated, with_repeat, FitIn, IsOrigin};

use crate::cell::Cell;
use crate::cells::{Cells, Repeat};
use std::alloc::{AllocError, Global};

/// What a part of the cells behind a repetition is of those before it.
#[derive(Clone, Copy, Debug, PartialEq, Eq)]
enum Origin {
    /// The cells from one place up to another.
    Plain(usize, usize),
    /// The cells from one place up to another, with this repetition of them.
    Repeated(usize, usize, Repeat),
    /// Neither: the part holds some of the repetition's cells and not all.
    Cut,
}

/// What the part from one place up to another is of the cells before the repetition.
fn origin_of(r: Repeat, from: usize, to: usize) -> Origin
    requires proper { r.from < r.to }
    requires order { from ≤ to }
    ensures { (cs : List CellValue) → r.to ≤ length cs → to ≤ length (with_repeat r cs) → IsOrigin r from to result cs }
{
    if to <= r.to {
        return Origin::Plain(from, to);
    }
    let part = r.to - r.from;
    if (to - r.to) / part < r.more {
        return Origin::Cut;
    }
    let added = r.more * part;
    if from <= r.from {
        let inside = Repeat {
            from: r.from - from,
            to: r.to - from,
            more: r.more,
        };
        return Origin::Repeated(from, to - added, inside);
    }
    if from >= r.to + added {
        Origin::Plain(from - added, to - added)
    } else {
        Origin::Cut
    }
}

/// The cells from one place up to another of those that were written with these repetitions. What is repeated stands once; none where a
/// repetition is cut.
fn uncut(
    alloc: Global,
    written: &[Cell],
    repeats: &[Repeat],
    from: usize,
    to: usize,
) -> Result<Option<Cells>, AllocError>
    requires fit { FitIn repeats.now written.now }
    requires order { from ≤ to }
    requires within { to ≤ length (repeated repeats.now written.now) }
    ensures { IfOk result (λ found. IfSome found (λ part. part ≡ cells_within from (to - from) (repeated repeats.now written.now))) }
{
    let mut inside = Vec::new(alloc);
    let mut first = from;
    let mut end = to;
    let mut left = repeats.len();
    while left > 0 {
        left -= 1;
        match origin_of(repeats[left], first, end) {
            Origin::Plain(before, behind) => {
                first = before;
                end = behind;
            }
            Origin::Repeated(before, behind, repeat) => {
                inside.push(repeat)?;
                first = before;
                end = behind;
            }
            Origin::Cut => return Ok(None),
        }
    }
    inside.reverse();
    let mut cells = Vec::new(alloc);
    cells.extend_from_slice(&written[first..end])?;
    Ok(Some(Cells {
        written: cells,
        repeats: inside,
        count: to - from,
    }))
}

impl Cells {
    /// The cells from one place up to another, one by one.
    fn copied_part(&self, alloc: Global, from: usize, to: usize) -> Result<Cells, AllocError>
        requires order { from ≤ to }
        requires within { to ≤ length self.now }
        ensures { IfOk result (λ part. part ≡ cells_within from (to - from) self.now) }
    {
        let mut part = Cells::new(alloc);
        for place in from..to {
            if let Some(cell) = self.get(place) {
                part.push(cell)?;
            }
        }
        Ok(part)
    }

    /// So many cells from a place on, as far as there are so many. What is repeated takes the memory of one, but where the part begins or
    /// ends within what is repeated it takes that of each cell.
    pub fn part(&self, alloc: Global, at: usize, count: usize) -> Result<Cells, AllocError>
        ensures { IfOk result (λ part. part ≡ cells_within at count self.now) }
    {
        let from = at.min(self.count);
        let to = from + count.min(self.count - from);
        let uncut_part = uncut(
            alloc,
            self.written.as_slice(),
            self.repeats.as_slice(),
            from,
            to,
        )?;
        match uncut_part {
            Some(part) => Ok(part),
            None => self.copied_part(alloc, from, to),
        }
    }
}
