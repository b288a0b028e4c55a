//! Temporaries: what sets them, and at which class.

ghost use Rattle.std.specs.Prelude.{◌≡◌};
ghost use Rattle.hx_runtime.specs.Functions.{runtime_function};
ghost use Rattle.flat_code.specs.Shape.{code_of};
ghost use Rattle.flat_code.specs.Code.{codes_of};
ghost use Rattle.flat_code.specs.Temps.{same_class, other_class, is_temp_of, call_class, result_class, is_given, call_sets, code_sets, one_sets, params_set, is_set, has_one_class};

use super::names::function_named;
use crate::flat::{Flat, FlatKids};
use crate::program::{FlatFn, FlatProgram};
use hx_base::Class;
use hx_runtime::RuntimeFunction;

fn same_class(a: Class, b: Class) -> bool
    ensures { result ≡ same_class a b }
{
    match (a, b) {
        (Class::W, Class::W) => true,
        (Class::W, Class::L) => false,
        (Class::L, Class::W) => false,
        (Class::L, Class::L) => true,
    }
}

fn other_class(c: Class) -> Class
    ensures { result ≡ other_class c }
{
    match c {
        Class::W => Class::L,
        Class::L => Class::W,
    }
}

fn is_temp_of(t: u32, class: Class, temp: u32, c: Class) -> bool
    ensures { result ≡ is_temp_of t class temp c }
{
    temp == t && same_class(c, class)
}

fn call_class(name: &[u8]) -> Option<Class>
    ensures { result ≡ call_class (runtime_function name.now) }
{
    match RuntimeFunction::named(name) {
        None => None,
        Some(f) => f.result(),
    }
}

/// The class of the result of what a name calls, where it has one. The functions of the program come before those of the runtime.
fn result_class(p: &FlatProgram, name: &[u8]) -> Option<Class>
    ensures { result ≡ result_class p.now name.now }
{
    match function_named(p, name) {
        Some(g) => g.result,
        None => call_class(name),
    }
}

fn is_given(class: Class, given: Option<Class>) -> bool
    ensures { result ≡ is_given class given }
{
    match given {
        None => false,
        Some(c) => same_class(c, class),
    }
}

/// A temporary at a class, in a program.
#[derive(Drop)]
struct Target<'a> {
    program: &'a FlatProgram,
    temp: u32,
    class: Class,
}

/// Whether a call sets the temporary at the class. The name is looked up only where the call sets the temporary at all.
#[inline(never)]
fn call_sets(target: &Target<'_>, temp: Option<u32>, name: &[u8]) -> bool
    ensures { result ≡ call_sets target.now.temp target.now.class temp (result_class target.now.program.now name.now) }
{
    match temp {
        None => false,
        Some(temp) => {
            temp == target.temp && is_given(target.class, result_class(target.program, name))
        }
    }
}

/// Whether code sets a temporary at a class. Recurses as deep as statements stand within one another, so it has few parameters.
#[cycle(sets)]
fn code_sets(target: &Target<'_>, code: &Flat) -> bool
    ensures { result ≡ code_sets target.now.program.now target.now.temp target.now.class (code_of code.now) }
{
    match code {
        Flat::Seq(kids) => one_sets(target, kids),
        Flat::Set { temp, class, .. } => is_temp_of(target.temp, target.class, *temp, *class),
        Flat::Load { temp, .. } => is_temp_of(target.temp, target.class, *temp, Class::L),
        Flat::If { yes, no, .. } => { code_sets(target, yes.get()) || code_sets(target, no.get()) }
        Flat::Loop(body) => code_sets(target, body.get()),
        Flat::Call { temp, name, .. } => call_sets(target, *temp, name.bytes()),
        Flat::Store { .. } | Flat::Move { .. } | Flat::Leave(_) | Flat::Ret(_) => false,
    }
}

#[cycle(sets)]
#[tactic(auto, using(crate::proofs::Kids::kid_deep, crate::proofs::Kids::drop_kid, crate::proofs::Kids::drop_rest))]
fn one_sets(target: &Target<'_>, kids: &FlatKids) -> bool
    ensures { result ≡ one_sets target.now.program.now target.now.temp target.now.class (codes_of kids.now) }
{
    for i in 0..kids.len() {
        if let Some(kid) = kids.get(i) {
            if code_sets(target, kid) {
                return true;
            }
        }
    }
    false
}

/// Whether parameter number `at`, of class `c`, is the temporary at the class.
fn is_param(t: u32, class: Class, at: usize, c: Class) -> bool
    ensures { result ≡ is_temp_of t class at c }
{
    at == t as usize && same_class(c, class)
}

fn params_set(t: u32, class: Class, params: &[Class]) -> bool
    ensures { result ≡ params_set t class 0 params.now }
{
    for (at, c) in params.iter().enumerate() {
        if is_param(t, class, at, *c) {
            return true;
        }
    }
    false
}

/// Whether the function sets the temporary at the class, as a parameter or in its code.
pub fn is_set(p: &FlatProgram, f: &FlatFn, t: u32, class: Class) -> bool
    ensures { result ≡ is_set p.now f.now t class }
{
    let target = Target {
        program: p,
        temp: t,
        class,
    };
    params_set(t, class, f.params.as_slice()) || code_sets(&target, &f.body)
}

/// Whether the function sets the temporary at no other class.
pub fn has_one_class(p: &FlatProgram, f: &FlatFn, t: u32, class: Class) -> bool
    ensures { result ≡ has_one_class p.now f.now t class }
{
    !is_set(p, f, t, other_class(class))
}
