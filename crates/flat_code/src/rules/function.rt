//! Functions.

ghost use Rattle.std.specs.Prelude.{◌≡◌, ◌≤◌, length};
ghost use Rattle.flat_code.specs.WellFormed.{is_main, no_long, is_main_right, params_have_one_class, is_function_right};

use super::code::{DEEPEST, Place, is_right, nests_within};
use super::names::is_symbol;
use super::operand::is_long;
use super::temps::has_one_class;
use crate::program::{FlatFn, FlatProgram};
use hx_base::Class;

/// Whether a function is named `main`.
pub fn is_main(f: &FlatFn) -> bool
    ensures { result ≡ is_main f.now }
{
    f.name.bytes() == b"main".as_slice()
}

fn no_long(class: Option<Class>) -> bool
    ensures { result ≡ no_long class }
{
    match class {
        None => true,
        Some(c) => !is_long(c),
    }
}

fn is_main_right(f: &FlatFn) -> bool
    ensures { result ≡ is_main_right f.now }
{
    !is_main(f) || (f.params.is_empty() && no_long(f.result))
}

fn params_have_one_class(p: &FlatProgram, f: &FlatFn) -> bool
    requires { length f.now.params ≤ f.now.temps }
    ensures { result ≡ params_have_one_class p.now f.now 0 f.now.params }
{
    let _temps = f.temps;
    for (at, class) in f.params.as_slice().iter().enumerate() {
        if !has_one_class(p, f, at as u32, *class) {
            return false;
        }
    }
    true
}

/// Whether a function of a program keeps the rules.
pub fn is_function_right(p: &FlatProgram, f: &FlatFn) -> bool
    ensures { result ≡ is_function_right p.now f.now }
{
    let place = Place {
        program: p,
        function: f,
    };
    is_symbol(f.name.bytes())
        && is_main_right(f)
        && f.params.len() <= f.temps as usize
        && nests_within(&f.body, DEEPEST)
        && params_have_one_class(p, f)
        && is_right(&place, 0, &f.body)
}
