//! Lists of cells in which a part that stands there often is kept once.

ghost use Rattle.std.specs.Prelude.{◌≡◌, ◌↔◌, IsTrue, if◌then◌else◌, [], ◌∷◌, ◌++◌, ◌+◌, ◌<◌, ◌≤◌, List, drop, length, map, slice_get, Contains, IfOk, OnOk, OnErr};
ghost use Rattle.hare_typed.specs.declared.cell.Cell.{Cell as CellValue};
ghost use Rattle.hare_typed.specs.Cells.{cells_within};
ghost use Rattle.hare_typed.specs.Repeats.{again, moved, with_repeat, repeated, FitIn};

mod part;
mod same;

use crate::cell::Cell;
use std::alloc::{AllocError, Global};
use std::marker::Model;

/// The cells from one place up to another stand so many times more, behind the second.
#[derive(Clone, Copy, Debug, PartialEq, Eq)]
struct Repeat {
    from: usize,
    to: usize,
    more: usize,
}

/// The cells of a value, in the order of their addresses, which contracts see as the list of them all. A part that is repeated takes the
/// memory of one.
#[derive(Drop)]
pub struct Cells {
    /// Each cell that was put there, once.
    written: Vec<Cell>,
    /// What is repeated of them, in the order in which it was: each says so of the cells that the ones before it gave.
    repeats: Vec<Repeat>,
    /// How many cells there are.
    count: usize,
}

impl Model for Cells {
    ghost use Rattle.std.specs.Prelude.{◌≡◌, List, length};
    ghost use Rattle.hare_typed.specs.declared.cell.Cell.{Cell};

    ghost Value = { List Cell };

    ghost use Rattle.hare_typed.specs.Cells.{cells_within};
    ghost use Rattle.hare_typed.specs.Repeats.{repeated, FitIn};

    ghost view = { λ a. repeated a.repeats.items a.written.items };

    ghost invariant = { λ a. FitIn a.repeats.items a.written.items × (a.count ≡ length (repeated a.repeats.items a.written.items)) };
}

/// The place, among the cells before a repetition, of the cell that stands at this one behind it.
fn source(r: Repeat, at: usize) -> usize
    requires { r.from < r.to }
    ensures { (cs : List CellValue) → r.to ≤ length cs → slice_get (with_repeat r cs) at ≡ slice_get cs result }
{
    if at < r.to {
        return at;
    }
    let part = r.to - r.from;
    let beyond = at - r.to;
    if beyond / part < r.more {
        r.from + beyond % part
    } else {
        at - r.more * part
    }
}

/// The place, among the cells that were written, of the cell that stands at this one behind all repetitions.
fn written_place(repeats: &[Repeat], place: usize) -> usize
    requires { (cs : List CellValue) × FitIn repeats.now cs }
    ensures { (cs : List CellValue) → FitIn repeats.now cs → slice_get (repeated repeats.now cs) place ≡ slice_get cs result }
{
    let mut at = place;
    let mut left = repeats.len();
    while left > 0 {
        left -= 1;
        at = source(repeats[left], at);
    }
    at
}

/// The same repetitions behind so many other cells.
fn moved_on(alloc: Global, repeats: &[Repeat], by: usize) -> Result<Vec<Repeat>, AllocError>
    ensures { IfOk result (λ v. v.items ≡ map (moved by) repeats.now) }
{
    let mut out = Vec::new(alloc);
    for r in repeats {
        let (Some(from), Some(to)) = (by.checked_add(r.from), by.checked_add(r.to)) else {
            return Err(AllocError);
        };
        out.push(Repeat {
            from,
            to,
            more: r.more,
        })?;
    }
    Ok(out)
}

impl Cells {
    /// No cells. Takes no memory.
    pub fn new(alloc: Global) -> Cells
        ensures { result ≡ [] }
    {
        Cells {
            written: Vec::new(alloc),
            repeats: Vec::new(alloc),
            count: 0,
        }
    }

    /// No cells, with room for so many where there is memory for it: putting these takes no more then.
    pub fn with_room(alloc: Global, count: usize) -> Cells
        ensures { result ≡ [] }
    {
        match Vec::with_capacity(alloc, count) {
            Ok(written) => Cells {
                written,
                repeats: Vec::new(alloc),
                count: 0,
            },
            Err(_) => Cells::new(alloc),
        }
    }

    /// Just these cells, in the memory that they take.
    pub fn of(alloc: Global, cells: &[Cell]) -> Result<Cells, AllocError>
        ensures { IfOk result (λ made. made ≡ cells.now) }
    {
        Ok(Cells {
            written: Vec::from_slice(alloc, cells)?,
            repeats: Vec::new(alloc),
            count: cells.len(),
        })
    }

    /// How many cells there are.
    pub fn len(&self) -> usize
        ensures { result ≡ length self.now }
    {
        self.count
    }

    /// The cell with so many before it; none past the end.
    pub fn get(&self, place: usize) -> Option<Cell>
        ensures { result ≡ slice_get self.now place }
    {
        let at = written_place(self.repeats.as_slice(), place);
        match self.written.get(at) {
            Some(cell) => Some(*cell),
            None => None,
        }
    }

    /// The cells that were written, each once, however often it is repeated: just the cells that stand in the list, in no order.
    pub fn kept(&self) -> &[Cell]
        ensures { (c : CellValue) → Contains result.now c ↔ Contains self.now c }
    {
        self.written.as_slice()
    }

    /// Copies the cells from a place on, as many as there is room for, and says whether there are so many. Nothing is copied where there
    /// are not.
    pub fn read(&self, at: usize, out: &mut [Cell]) -> bool
        ensures known { IsTrue result ↔ at + length out.old ≤ length self.now }
        ensures cells { out.new ≡ (if result then cells_within at (length out.old) self.now else out.old) }
    {
        let count = self.len();
        if count < at || count - at < out.len() {
            return false;
        }
        for i in 0..out.len() {
            if let Some(cell) = self.get(at + i) {
                out[i] = cell;
            }
        }
        true
    }

    /// Puts a cell at the end. More cells than a `usize` counts are want of memory too; nothing changes then.
    pub fn push(&mut self, cell: Cell) -> Result<(), AllocError>
        ensures ok { OnOk result (self.new ≡ self.old ++ cell ∷ []) }
        ensures err { OnErr result (self.new ≡ self.old) }
    {
        let Some(count) = self.count.checked_add(1) else {
            return Err(AllocError);
        };
        self.written.push(cell)?;
        self.count = count;
        Ok(())
    }

    /// Puts some cells at the end. More cells than a `usize` counts are want of memory too. Nothing changes where memory is short.
    pub fn extend(&mut self, cells: &[Cell]) -> Result<(), AllocError>
        ensures ok { OnOk result (self.new ≡ self.old ++ cells.now) }
        ensures err { OnErr result (self.new ≡ self.old) }
    {
        let Some(count) = self.count.checked_add(cells.len()) else {
            return Err(AllocError);
        };
        self.written.extend_from_slice(cells)?;
        self.count = count;
        Ok(())
    }

    /// Puts the cells from a place on so many times more at the end. Takes the memory of one repetition, however many cells they are; more
    /// cells than a
    /// `usize` counts are want of memory too. Nothing changes where memory is short.
    pub fn repeat(&mut self, from: usize, more: usize) -> Result<(), AllocError>
        ensures ok { OnOk result (self.new ≡ self.old ++ again more (drop from self.old)) }
        ensures err { OnErr result (self.new ≡ self.old) }
    {
        let to = self.count;
        if to <= from || more == 0 {
            return Ok(());
        }
        let Some(added) = (to - from).checked_mul(more) else {
            return Err(AllocError);
        };
        let Some(count) = to.checked_add(added) else {
            return Err(AllocError);
        };
        self.repeats.push(Repeat { from, to, more })?;
        self.count = count;
        Ok(())
    }

    /// Puts the cells of `other` at the end. Takes the memory that these take; more cells than a `usize` counts are want of memory too.
    /// Nothing changes where memory is short.
    pub fn append(&mut self, alloc: Global, other: &Cells) -> Result<(), AllocError>
        ensures ok { OnOk result (self.new ≡ self.old ++ other.now) }
        ensures err { OnErr result (self.new ≡ self.old) }
    {
        let Some(count) = self.count.checked_add(other.count) else {
            return Err(AllocError);
        };
        let repeats = moved_on(alloc, other.repeats.as_slice(), self.count)?;
        let before = self.written.len();
        self.written.extend_from_slice(other.written.as_slice())?;
        if self.repeats.extend_from_slice(repeats.as_slice()).is_err() {
            self.written.truncate(before);
            return Err(AllocError);
        }
        self.count = count;
        Ok(())
    }
}
