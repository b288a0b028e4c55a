//! Names of functions and globals.

ghost use Rattle.std.specs.Prelude.{◌≡◌, ◌+◌, ◌==◌, bytes_eq, count_by, find, option_copied};
ghost use Rattle.std.specs.List.{list_all};
ghost use Rattle.flat_code.specs.Evaluation.{function_named};
ghost use Rattle.flat_code.specs.WellFormed.{how_many, is_digit_byte, is_name_byte, is_identifier, is_symbol};

use crate::program::{Data, FlatFn, FlatProgram};
use hx_runtime::is_reserved;

/// The first function of the program with a name, which is the one that a call of the name calls.
#[tactic(auto, using(crate::proofs::Named::called))]
pub fn function_named<'a>(p: &'a FlatProgram, name: &[u8]) -> Option<&'a FlatFn>
    ensures { option_copied result ≡ function_named p.now.functions name.now }
{
    first_named(p.functions.as_slice(), name)
}

fn first_named<'a>(functions: &'a [FlatFn], name: &[u8]) -> Option<&'a FlatFn>
    ensures { option_copied result ≡ find (λ f. bytes_eq f.name name.now) functions.now }
{
    functions.iter().find(|f| f.name.bytes() == name)
}

/// Whether exactly one function or global has the name.
pub fn is_once(p: &FlatProgram, name: &[u8]) -> bool
    ensures { result ≡ (how_many p.now name.now == 1) }
{
    is_one(
        functions_named(p.functions.as_slice(), name),
        globals_named(p.globals.as_slice(), name),
    )
}

/// Whether two numbers are 1 together.
fn is_one(a: usize, b: usize) -> bool
    ensures { result ≡ (a + b == 1) }
{
    if a == 0 { b == 1 } else { a == 1 && b == 0 }
}

fn functions_named(functions: &[FlatFn], name: &[u8]) -> usize
    ensures { result ≡ count_by (λ f. bytes_eq f.name name.now) functions.now }
{
    functions.iter().filter(|f| f.name.bytes() == name).count()
}

fn globals_named(globals: &[Data], name: &[u8]) -> usize
    ensures { result ≡ count_by (λ d. bytes_eq d.name name.now) globals.now }
{
    globals.iter().filter(|d| d.name.bytes() == name).count()
}

/// Whether a name is an identifier that is none of the runtime's.
pub fn is_symbol(name: &[u8]) -> bool
    ensures { result ≡ is_symbol name.now }
{
    is_identifier(name) && !is_reserved(name)
}

fn is_identifier(s: &[u8]) -> bool
    ensures { result ≡ is_identifier s.now }
{
    match s {
        [] => false,
        [first, ..] => !is_digit_byte(*first) && are_name_bytes(s),
    }
}

fn are_name_bytes(s: &[u8]) -> bool
    ensures { result ≡ list_all is_name_byte s.now }
{
    s.iter().all(|c| is_name_byte(*c))
}

fn is_digit_byte(c: u8) -> bool
    ensures { result ≡ is_digit_byte c }
{
    c.is_ascii_digit()
}

fn is_name_byte(c: u8) -> bool
    ensures { result ≡ is_name_byte c }
{
    c.is_ascii_lowercase() || c.is_ascii_uppercase() || is_digit_byte(c) || c == b'_' || c == b'.'
}
