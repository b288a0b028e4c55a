//! Whether a program is well formed.

ghost use Rattle.std.specs.Prelude.{◌≡◌, ◌↔◌, ◌&&◌, ◌==◌, IsTrue};
ghost use Rattle.std.specs.List.{list_all, list_any};
ghost use Rattle.flat_code.specs.WellFormed.{IsWellFormed, passes, how_many, is_main, is_function_right, is_global};

mod code;
mod data;
mod function;
mod names;
mod operand;
mod temps;

use crate::program::FlatProgram;
use data::{are_few, is_global};
use function::{is_function_right, is_main};
use names::is_once;

/// Whether code of the intermediate language can be made of the program. Takes no memory.
///
/// Each function and each global has an identifier of its own that does not begin with `rt.`, and there is a function `main` that has no
/// parameters and gives no long. Temporaries are below `temps`, are set at one class each, and are set somewhere where they are read;
/// operands have the classes that their operations want; addresses are of globals that are there, or of places of the function's frame. A
/// Load sets a long, a Store has a width of 1, 2, 4 or 8 bytes, and a Move at most 2^30 bytes. A Leave leaves a Seq or Loop round it, and
/// a Ret has a value exactly in a function with a result. A call is of a function of the program, or else of the runtime. It has as many
/// arguments as that has parameters, each at its parameter's class, where a word may be given a long and never the other way; and its
/// result goes to a temporary only where there is one, at its class. At most 65,536 statements stand within one another. Globals have
/// alignments and sizes that the intermediate language admits.
///
/// As it takes no memory, it looks through the code of a function for each temporary that is read or set there, and through the functions
/// of the program for each call.
#[tactic(auto, using(crate::proofs::Passes::passes_is))]
pub fn well_formed(p: &FlatProgram) -> bool
    ensures { IsTrue result ↔ IsWellFormed p.now }
{
    passes(p)
}

#[tactic(auto, unfolding(crate::specs::WellFormed::passes))]
fn passes(p: &FlatProgram) -> bool
    ensures { result ≡ passes p.now }
{
    functions_differ(p)
        && globals_differ(p)
        && has_main(p)
        && are_functions_right(p)
        && are_globals(p)
        && are_few(p)
}

fn functions_differ(p: &FlatProgram) -> bool
    ensures { result ≡ list_all (λ f. how_many p.now f.name == 1) p.now.functions }
{
    p.functions
        .as_slice()
        .iter()
        .all(|f| is_once(p, f.name.bytes()))
}

fn globals_differ(p: &FlatProgram) -> bool
    ensures { result ≡ list_all (λ d. how_many p.now d.name == 1) p.now.globals }
{
    p.globals
        .as_slice()
        .iter()
        .all(|d| is_once(p, d.name.bytes()))
}

fn has_main(p: &FlatProgram) -> bool
    ensures { result ≡ list_any is_main p.now.functions }
{
    p.functions.as_slice().iter().any(|f| is_main(f))
}

fn are_functions_right(p: &FlatProgram) -> bool
    ensures { result ≡ list_all (is_function_right p.now) p.now.functions }
{
    p.functions
        .as_slice()
        .iter()
        .all(|f| is_function_right(p, f))
}

fn are_globals(p: &FlatProgram) -> bool
    ensures { result ≡ list_all (is_global p.now) p.now.globals }
{
    p.globals.as_slice().iter().all(|d| is_global(p, d))
}
