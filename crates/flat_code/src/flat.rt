//! The code of a function, a tree of statements.

ghost use Rattle.std.specs.Prelude.{◌≡◌, ◌≤◌, [], ◌∷◌, ◌++◌, ◌==◌, length, slice_get, Some, IfSome, IfNone, IfOk, OnOk, OnErr};
ghost use Rattle.flat_code.specs.Shape.{code_of};

mod given_up;

use crate::op::{LoadKind, Op};
use crate::value::{Value, Values};
use hx_base::{Class, Text};
use std::alloc::{AllocError, Global};
use std::marker::Model;

/// A statement of flat code.
///
/// What a temporary is set to is cut to a class: 32 bits at `W`, 64 at `L`.
///
/// Code is given up without recursion and takes no memory for it, however deep its statements stand within one another.
#[cycle(flat)]
pub enum Flat {
    /// One statement after the other.
    Seq(FlatKids),
    /// Sets a temporary to what an operation gives.
    Set {
        temp: u32,
        class: Class,
        op: Op,
        a: Value,
        b: Value,
    },
    /// Sets a temporary of class `L` to the number at an address.
    Load {
        temp: u32,
        how: LoadKind,
        at: Value,
    },
    /// Writes the low `width` bytes of a value, 1, 2, 4 or 8, to an address.
    Store {
        width: u32,
        value: Value,
        at: Value,
    },
    /// Copies so many bytes. The ranges are equal or do not overlap.
    Move {
        to: Value,
        from: Value,
        bytes: u64,
    },
    /// Does `yes` where the condition is not 0 at class `W`, else `no`.
    If {
        cond: Value,
        yes: FlatBox,
        no: FlatBox,
    },
    /// Does its body again and again, until it is left.
    Loop(FlatBox),
    /// Goes on behind the `Seq` or `Loop` with so many others between it and this statement.
    Leave(u32),
    /// Calls a function of the program or of the runtime by its symbol, and sets a temporary to the result, where one is named.
    Call {
        temp: Option<u32>,
        name: Text,
        args: Values,
    },
    /// Returns from the function, with its result where it has one.
    Ret(Option<Value>),
}

impl Drop for Flat {
    fn drop(self) {
        let mut left = self;
        'parts: while let Some((first, rest)) = left.parted() {
            left = first.turned(rest);
        }
    }
}

/// A list of statements, which contracts see as a list of [`Flat`] without addresses.
#[derive(Drop)]
#[cycle(flat)]
pub struct FlatKids {
    items: Vec<Flat>,
}

impl Model for FlatKids {
    ghost use Rattle.std.specs.Prelude.{List, map};
    ghost use Rattle.std.specs.Coded.{coded_list};
    ghost use Rattle.hx_base.specs.contracts.Class as class;
    ghost use Rattle.flat_code.specs.contracts.op.Op as op;
    ghost use Rattle.flat_code.specs.contracts.op.LoadKind as how;
    ghost use Rattle.flat_code.specs.contracts.value.Value as value;
    ghost use Rattle.flat_code.specs.Code.{Code, code_code, heights, codes_of};

    ghost Value = { List Code };

    ghost coded = { coded_list (code_code class.the_row.coded op.the_row.coded how.the_row.coded value.the_row.coded) };

    ghost use Rattle.flat_code.specs.Shape.{code_of};

    ghost view = { λ a. map code_of a.items.items };

    ghost size = { λ cs. heights (codes_of cs) };

    ghost use Rattle.std.proofs.Common.{arith};
    ghost use Rattle.flat_code.specs.Falls.{most_le-heights};

    ghost size_decreases = { λ a h. Prim.omega (arith, most_le-heights a.items.items) };
}

/// One statement within another, which contracts see as a [`Flat`] without addresses.
#[derive(Drop)]
#[cycle(flat)]
pub struct FlatBox {
    inner: Box<Flat>,
}

impl Model for FlatBox {
    ghost use Rattle.hx_base.specs.contracts.Class as class;
    ghost use Rattle.flat_code.specs.contracts.op.Op as op;
    ghost use Rattle.flat_code.specs.contracts.op.LoadKind as how;
    ghost use Rattle.flat_code.specs.contracts.value.Value as value;
    ghost use Rattle.flat_code.specs.Code.{Code, code_code, height};

    ghost Value = { Code };

    ghost coded = { code_code class.the_row.coded op.the_row.coded how.the_row.coded value.the_row.coded };

    ghost use Rattle.flat_code.specs.Shape.{code_of};

    ghost view = { λ a. code_of a.inner.value };

    ghost size = { height };
}

impl FlatKids {
    /// No statements. Takes no memory.
    pub fn new(alloc: Global) -> FlatKids
        ensures { result ≡ [] }
    {
        FlatKids {
            items: Vec::new(alloc),
        }
    }

    /// How many statements there are.
    pub fn len(&self) -> usize
        ensures { result ≡ length self.now }
    {
        self.items.len()
    }

    /// Whether there are no statements.
    pub fn is_empty(&self) -> bool
        ensures { result ≡ (length self.now == 0) }
    {
        self.items.is_empty()
    }

    /// The statement with `i` statements before it, or none where the list is not that long.
    pub fn get(&self, i: usize) -> Option<&Flat>
        ensures past { IfNone result (length self.now ≤ i) }
        ensures found { IfSome result (λ f. slice_get self.now i ≡ Some (code_of f.now)) }
    {
        self.items.get(i)
    }

    /// Puts a statement at the end. Nothing changes where memory is short; the statement is dropped then.
    pub fn push(&mut self, f: Flat) -> Result<(), AllocError>
        ensures ok { OnOk result (self.new ≡ self.old ++ code_of f ∷ []) }
        ensures err { OnErr result (self.new ≡ self.old) }
    {
        self.items.push(f)?;
        Ok(())
    }
}

impl FlatBox {
    /// This statement.
    pub fn new(alloc: Global, f: Flat) -> Result<FlatBox, AllocError>
        ensures { IfOk result (λ b. b ≡ code_of f) }
    {
        let inner = Box::new(alloc, f)?;
        Ok(FlatBox { inner })
    }

    /// The statement.
    pub fn get(&self) -> &Flat
        ensures { code_of result.now ≡ self.now }
    {
        &self.inner
    }
}
