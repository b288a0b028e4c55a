//! Cells that several constants share.

ghost use Rattle.std.specs.Prelude.{◌≡◌, ◌↔◌, IsTrue, [], IfOk};
ghost use Rattle.hare_typed.specs.Leads.{leads};

use crate::cells::Cells;
use crate::leads::lead_nowhere;
use std::alloc::{AllocError, Global};
use std::marker::Model;
use std::rc::Rc;

/// Cells that several constants may hold and none changes, which contracts see as the list of them all. They stand in memory once, however
/// many constants hold them.
#[derive(Drop)]
pub struct SharedCells {
    cells: Rc<Cells>,
    /// Whether they lead to no object but globals: a text need not be looked through for that at each use.
    lead_nowhere: bool,
}

impl Model for SharedCells {
    ghost use Rattle.std.specs.Prelude.{◌≡◌, ◌↔◌, IsTrue, List, []};
    ghost use Rattle.hare_typed.specs.declared.cell.Cell.{Cell};
    ghost use Rattle.hare_typed.specs.Leads.{leads};

    ghost Value = { List Cell };

    ghost view = { λ s. s.cells.value };

    ghost invariant = { λ s. IsTrue s.lead_nowhere ↔ leads s.cells.value ≡ [] };
}

impl SharedCells {
    /// These cells, which others may hold from here on. They are given up where memory is short.
    pub fn new(alloc: Global, cells: Cells) -> Result<SharedCells, AllocError>
        ensures { IfOk result (λ s. s ≡ cells) }
    {
        let lead_nowhere = lead_nowhere(cells.kept());
        Ok(SharedCells {
            cells: Rc::new(alloc, cells)?,
            lead_nowhere,
        })
    }

    /// The cells.
    pub fn cells(&self) -> &Cells
        ensures { result.now ≡ self.now }
    {
        &self.cells
    }

    /// Whether the cells lead to no object that is no global. Takes constant time.
    pub fn lead_nowhere(&self) -> bool
        ensures { IsTrue result ↔ leads self.now ≡ [] }
    {
        self.lead_nowhere
    }

    /// The same cells, held once more: no cell is copied. More holders than a `usize` counts are want of memory.
    pub fn share(&self) -> Result<SharedCells, AllocError>
        ensures { IfOk result (λ s. s ≡ self.now) }
    {
        Ok(SharedCells {
            cells: self.cells.clone()?,
            lead_nowhere: self.lead_nowhere,
        })
    }
}
