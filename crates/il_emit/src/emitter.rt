//! The state of emitting one function.

ghost use Rattle.std.specs.Prelude.{◌≡◌, ◌+◌, ◌∷◌, ◌++◌, ◌<◌, ◌^◌, [], OnOk, IfOk};
ghost use Rattle.il_emit.specs.Lines.{Label, Do, End, exit_at, go_lines, own_label};
ghost use Rattle.il_emit.specs.Names.{label_name};
ghost use Rattle.il_emit.specs.Emitting.{Emits};

use crate::draft::Draft;
use crate::goal::Goal;
use crate::names::label_name;
use il_code::{Inst, Jump};
use std::alloc::{AllocError, Global};

/// A function that is being emitted.
#[derive(Drop)]
pub struct Emitter {
    pub alloc: Global,
    /// What is written.
    pub draft: Draft,
    /// The number of the next label.
    pub labels: u64,
    /// The number of the next computed address.
    pub addresses: u64,
    /// The labels to which a Leave of each Seq and Loop round the statement goes, the outermost first.
    pub exits: Vec<u64>,
}

impl Emitter {
    /// Takes so many labels, and gives the number of the first.
    pub fn take_labels(&mut self, count: u64) -> Result<u64, AllocError>
        ensures first { IfOk result (λ n. n ≡ self.old.labels) }
        ensures fits { OnOk result (self.old.labels + count < 2 ^ 64) }
        ensures ok { OnOk result (Emits self.old self.new [] count 0 self.old.exits.items) }
    {
        let first = self.labels;
        let Some(next) = first.checked_add(count) else {
            return Err(AllocError);
        };
        self.labels = next;
        Ok(first)
    }

    /// Takes an address, and gives its temporary.
    pub fn take_address(&mut self) -> Result<u64, AllocError>
        ensures first { IfOk result (λ k. k ≡ self.old.addresses) }
        ensures ok { OnOk result (Emits self.old self.new [] 0 1 self.old.exits.items) }
    {
        let first = self.addresses;
        let Some(next) = first.checked_add(1) else {
            return Err(AllocError);
        };
        self.addresses = next;
        Ok(first)
    }

    /// Begins a block.
    #[inline(never)]
    pub fn label(&mut self, n: u64) -> Result<(), AllocError>
        ensures { OnOk result (Emits self.old self.new (Label n ∷ []) 0 0 self.old.exits.items) }
    {
        self.draft.label(self.alloc, n)?;
        Ok(())
    }

    /// Adds an instruction.
    pub fn inst(&mut self, i: Inst) -> Result<(), AllocError>
        ensures { OnOk result (Emits self.old self.new (Do i ∷ []) 0 0 self.old.exits.items) }
    {
        self.draft.inst(i)?;
        Ok(())
    }

    /// Finishes the block with a jump.
    pub fn end(&mut self, jump: Jump) -> Result<(), AllocError>
        ensures { OnOk result (Emits self.old self.new (End jump ∷ []) 0 0 self.old.exits.items) }
    {
        self.draft.end(self.alloc, jump)?;
        Ok(())
    }

    /// The label to which a Leave goes of the Seq or Loop with so many others between it and a statement.
    pub fn exit(&self, j: u32) -> u64
        ensures { result ≡ exit_at self.now.exits.items j }
    {
        let at = self.exits.len().saturating_sub(j as usize + 1);
        self.exits.get(at).copied().unwrap_or(0)
    }

    /// Goes to a goal behind a statement that comes to its end.
    #[inline(never)]
    pub fn go(&mut self, goal: Goal) -> Result<(), AllocError>
        ensures { OnOk result (Emits self.old self.new (go_lines goal) 0 0 self.old.exits.items) }
    {
        match goal {
            Goal::Next | Goal::Near(_) => Ok(()),
            Goal::Far(x) => {
                let jump = self.jump_to(x)?;
                self.end(jump)
            }
        }
    }

    /// Begins the block behind a statement, where the label there is the statement's own, `n`.
    #[inline(never)]
    pub fn own_label(&mut self, goal: Goal, n: u64) -> Result<(), AllocError>
        ensures { OnOk result (Emits self.old self.new (own_label goal n) 0 0 self.old.exits.items) }
    {
        match goal {
            Goal::Next => self.label(n),
            Goal::Near(_) | Goal::Far(_) => Ok(()),
        }
    }

    /// A jump to the block of a number.
    pub fn jump_to(&self, n: u64) -> Result<Jump, AllocError>
        ensures { IfOk result (λ j. j ≡ Jump.Jmp (label_name n)) }
    {
        Ok(Jump::Jmp(label_name(self.alloc, n)?))
    }
}
