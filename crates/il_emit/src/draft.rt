//! Blocks that are written line by line.

ghost use Rattle.std.specs.Prelude.{◌≡◌, OnOk};
ghost use Rattle.il_emit.specs.Lines.{Label, Do, End};
ghost use Rattle.il_emit.specs.Drafts.{ended, fallen, add};
ghost use Rattle.il_emit.specs.Emitted.{empty_draft};

use crate::names::label_name;
use hx_base::Text;
use il_code::{Block, Blocks, Inst, Insts, Jump, Phis};
use std::alloc::{AllocError, Global};
use std::mem;

/// The blocks that are finished, and the one that is being written if it is open.
#[derive(Drop)]
pub struct Draft {
    pub blocks: Blocks,
    pub label: Text,
    pub insts: Insts,
    pub is_open: bool,
}

impl Draft {
    /// Nothing is written yet. Takes no memory.
    pub fn new(alloc: Global) -> Draft
        ensures { result ≡ empty_draft }
    {
        Draft {
            blocks: Blocks::new(alloc),
            label: Text::new(alloc),
            insts: Insts::new(alloc),
            is_open: false,
        }
    }

    /// Finishes the block with a jump.
    pub fn end(&mut self, alloc: Global, jump: Jump) -> Result<(), AllocError>
        ensures { OnOk result (self.new ≡ add self.old (End jump)) }
    {
        let mut label = Text::new(alloc);
        label.append(&self.label)?;
        let insts = mem::replace(&mut self.insts, Insts::new(alloc));
        self.is_open = false;
        self.blocks.push(Block {
            label,
            phis: Phis::new(alloc),
            insts,
            jump,
        })
    }

    /// An open block falls to the next one.
    fn fall(&mut self, alloc: Global) -> Result<(), AllocError>
        ensures { OnOk result (self.new ≡ fallen self.old self.old.is_open) }
    {
        if !self.is_open {
            return Ok(());
        }
        self.end(alloc, Jump::Fall)?;
        Ok(())
    }

    /// Begins the block of a number.
    pub fn label(&mut self, alloc: Global, n: u64) -> Result<(), AllocError>
        ensures { OnOk result (self.new ≡ add self.old (Label n)) }
    {
        self.fall(alloc)?;
        self.label = label_name(alloc, n)?;
        self.insts = Insts::new(alloc);
        self.is_open = true;
        Ok(())
    }

    /// Adds an instruction to the block.
    pub fn inst(&mut self, i: Inst) -> Result<(), AllocError>
        ensures { OnOk result (self.new ≡ add self.old (Do i)) }
    {
        self.insts.push(i)?;
        Ok(())
    }
}
