//! Whole programs.

ghost use Rattle.std.specs.Prelude.{◌≡◌, ℕ, List, IfOk};
ghost use Rattle.flat_code.specs.WellFormed.{IsWellFormed};
ghost use Rattle.hare_blocks.specs.Shape.{program_of};
ghost use Rattle.hare_blocks.specs.Class.{IsSource};
ghost use Rattle.low_blocks.specs.Programs.{lowered, main_of};
ghost use Rattle.low_blocks.specs.Agreement.{DoesTheSame};
ghost use Rattle.low_blocks.specs.Shape.{HasItsLoops, HasShape, CostsLittle};

use crate::condition::TEST_TEMP;
use crate::draft::Draft;
use crate::statement::{lower_exit, lower_statements};
use flat_code::{Classes, DataList, Flat, FlatFn, FlatFns, FlatKids, FlatProgram};
use hare_blocks::{Program, Scope};
use hx_base::Text;
use std::alloc::{AllocError, Global};

/// The flat program of a program of the class: one function `main`, and a global for each string.
///
/// The program is that of some file of the class, as one is that `hare_blocks::read` gives.
///
/// It is well formed, and does the same as the program: for all arguments, all input and every number of turns it ends as the program does,
/// with the same output. It has a loop for each `for`, its function has no frame and calls functions of the runtime alone, and its calls
/// cost the stack at most a mebibyte. An error is want of memory, or of numbers for temporaries and globals, which are below 2^32.
pub fn lower(alloc: Global, p: &Program) -> Result<FlatProgram, AllocError>
    requires { (text : List ℕ) × IsSource text (program_of p.now) }
    ensures well_formed { IfOk result (λ f. IsWellFormed f) }
    ensures does { IfOk result (λ f. DoesTheSame (program_of p.now) f) }
    ensures loops { IfOk result (λ f. HasItsLoops (program_of p.now) f) }
    ensures shape { IfOk result (λ f. HasShape (program_of p.now) f) }
    ensures costs { IfOk result (λ f. CostsLittle f) }
{
    let f = lowered(alloc, p)?;
    Ok(f)
}

fn lowered(alloc: Global, p: &Program) -> Result<FlatProgram, AllocError>
    ensures { IfOk result (λ f. f ≡ lowered (program_of p.now)) }
{
    let mut draft = Draft::new(alloc, TEST_TEMP + 1);
    let mut scope = Scope::new(alloc);
    let mut globals = DataList::new(alloc);
    match p {
        Program::Exit(e) => lower_exit(&mut draft, &scope, e)?,
        Program::Block(body) => lower_statements(&mut draft, &mut scope, &mut globals, body)?,
    }
    let Draft { code, next, .. } = draft;
    let mut functions = FlatFns::new(alloc);
    functions.push(main_of(alloc, code, next)?)?;
    Ok(FlatProgram { functions, globals })
}

/// The function `main` of some code, whose temporaries are below `temps`.
fn main_of(alloc: Global, code: FlatKids, temps: u32) -> Result<FlatFn, AllocError>
    ensures { IfOk result (λ f. f ≡ main_of code temps) }
{
    Ok(FlatFn {
        name: Text::copy(alloc, "main")?,
        params: Classes::new(alloc),
        result: None,
        temps,
        frame: 0,
        body: Flat::Seq(code),
    })
}
