//! The code of a block as it grows.

ghost use Rattle.std.specs.Prelude.{◌≡◌, ◌+◌, [], ◌∷◌, ◌++◌, IfOk, OnOk};
ghost use Rattle.hx_base.specs.declared.Class.TheVariants.{L};
ghost use Rattle.flat_code.specs.Code.{Set, Call};
ghost use Rattle.flat_code.specs.Shape.{code_of};
ghost use Rattle.low_blocks.specs.Expressions.{last_set, operand_of};
ghost use Rattle.low_blocks.specs.Statements.{seq};
ghost use Rattle.low_blocks.specs.Drafts.{piece_of, steps_of, Grows, IsEmptyDraft};

use crate::last::Last;
use flat_code::{Class, Flat, FlatBox, FlatKids, Op, Value, Values};
use hx_base::Text;
use std::alloc::{AllocError, Global};

/// The code of a block as it grows.
#[derive(Drop)]
pub struct Draft {
    pub alloc: Global,
    pub code: FlatKids,
    /// The first temporary that no code sets yet.
    pub next: u32,
}

impl Draft {
    /// No code, whose temporaries are those from `next` on. Takes no memory.
    pub fn new(alloc: Global, next: u32) -> Draft
        ensures { IsEmptyDraft next result }
    {
        Draft {
            alloc,
            code: FlatKids::new(alloc),
            next,
        }
    }

    /// Puts a statement at the end.
    pub fn push(&mut self, c: Flat) -> Result<(), AllocError>
        ensures { OnOk result (Grows self.old self.new (code_of c ∷ []) self.old.next) }
    {
        self.code.push(c)?;
        Ok(())
    }

    /// Sets a temporary, of class l, by a last step.
    pub fn set(&mut self, temp: u32, last: Last) -> Result<(), AllocError>
        ensures { OnOk result (Grows self.old self.new (last_set temp last ∷ []) self.old.next) }
    {
        match last {
            Last::Operand(v) => self.operate(temp, Op::Copy, v, Value::Number(0)),
            Last::Operation(op, a, b) => self.operate(temp, op, a, b),
            Last::ArgCount => self.call(Some(temp), "rt.nargs", Values::new(self.alloc)),
        }
    }

    /// The operand that a last step gives. Where it is none yet, the next temporary is set by that step.
    pub fn operand(&mut self, last: Last) -> Result<Value, AllocError>
        ensures { IfOk result (λ v. piece_of self.new v ≡ operand_of (steps_of self.old last)) }
    {
        if let Last::Operand(v) = last {
            return Ok(v);
        }
        let temp = self.take_temp()?;
        self.set(temp, last)?;
        Ok(Value::Temp(temp))
    }

    /// Takes the next temporary.
    pub fn take_temp(&mut self) -> Result<u32, AllocError>
        ensures temp { IfOk result (λ t. t ≡ self.old.next) }
        ensures ok { OnOk result (Grows self.old self.new [] (self.old.next + 1)) }
    {
        let temp = self.next;
        let Some(next) = temp.checked_add(1) else {
            return Err(AllocError);
        };
        self.next = next;
        Ok(temp)
    }

    /// Sets a temporary, of class l, to what an operation gives.
    fn operate(&mut self, temp: u32, op: Op, a: Value, b: Value) -> Result<(), AllocError>
        ensures { OnOk result (Grows self.old self.new (Set temp L op a b ∷ []) self.old.next) }
    {
        self.push(Flat::Set {
            temp,
            class: Class::L,
            op,
            a,
            b,
        })
    }

    /// Calls a function of the runtime, and sets a temporary to its result, where one is named.
    pub fn call(&mut self, temp: Option<u32>, name: &str, args: Values) -> Result<(), AllocError>
        ensures { OnOk result (Grows self.old self.new (Call temp name.now args ∷ []) self.old.next) }
    {
        let name = Text::copy(self.alloc, name)?;
        self.push(Flat::Call { temp, name, args })?;
        Ok(())
    }

    /// Statements within a statement.
    pub fn seq(&self, code: FlatKids) -> Result<FlatBox, AllocError>
        ensures { IfOk result (λ b. b ≡ seq code) }
    {
        let boxed = FlatBox::new(self.alloc, Flat::Seq(code))?;
        Ok(boxed)
    }
}
