//! The program that is emitted, in which calls find what they call.

ghost use Rattle.std.specs.Prelude.{◌≡◌, [], option_copied, IfOk};
ghost use Rattle.hx_runtime.specs.Functions.{runtime_function};
ghost use Rattle.flat_code.specs.Evaluation.{function_named};
ghost use Rattle.flat_code.specs.Temps.{call_class, result_class};
ghost use Rattle.hx_table.specs.Tables.{with_entries};
ghost use Rattle.il_emit.specs.Lines.{call_params, called_params};
ghost use Rattle.il_emit.specs.Sources.{places_from};

use flat_code::{FlatFn, FlatProgram};
use hx_base::Class;
use hx_runtime::RuntimeFunction;
use hx_table::Table;
use std::alloc::{AllocError, Global};

/// The classes of the parameters of a function, and of its result, where it has one.
#[derive(Drop)]
pub struct Signature<'a> {
    pub params: &'a [Class],
    pub result: Option<Class>,
}

/// A program, and where among its functions the first one with a name stands, so that no call searches them.
#[derive(Drop)]
pub struct Source<'a> {
    pub program: &'a FlatProgram,
    pub places: Table<'a, usize>,
    ghost whole: { places ≡ with_entries [] (places_from 0 program.now.functions) },
}

/// Where the first function with each name stands.
fn places_of<'a>(alloc: Global, functions: &'a [FlatFn]) -> Result<Table<'a, usize>, AllocError>
    ensures { IfOk result (λ t. t ≡ with_entries [] (places_from 0 functions.now)) }
{
    let mut places = Table::new(alloc);
    let mut at: usize = 0;
    let mut left = functions;
    'each: while let [f, more @ ..] = left {
        places.add(f.name.bytes(), at)?;
        let Some(next) = at.checked_add(1) else {
            return Err(AllocError);
        };
        at = next;
        left = more;
    }
    Ok(places)
}

/// The classes of the parameters of a function of the runtime.
fn call_params(name: &[u8]) -> &'static [Class]
    ensures { result.now ≡ call_params (runtime_function name.now) }
{
    match RuntimeFunction::named(name) {
        None => &[],
        Some(f) => f.params(),
    }
}

/// The class of its result, where it has one.
fn call_class(name: &[u8]) -> Option<Class>
    ensures { result ≡ call_class (runtime_function name.now) }
{
    match RuntimeFunction::named(name) {
        None => None,
        Some(f) => f.result(),
    }
}

impl<'a> Source<'a> {
    /// The source that a program is.
    pub fn new(alloc: Global, program: &'a FlatProgram) -> Result<Source<'a>, AllocError>
        ensures { IfOk result (λ s. s.program.now ≡ program.now) }
    {
        let places = places_of(alloc, program.functions.as_slice())?;
        Ok(Source { program, places })
    }

    /// The first function with a name.
    #[tactic(auto, using(crate::proofs::NamesAndNumbers::Sources::found_none, crate::proofs::NamesAndNumbers::Sources::found_some))]
    fn find(&self, name: &[u8]) -> Option<&FlatFn>
        ensures { option_copied result ≡ function_named self.now.program.now.functions name.now }
    {
        match self.places.find(name) {
            None => None,
            Some(at) => self.program.functions.get(*at),
        }
    }

    /// The signature of what a name calls: of a function of the program, or else of the runtime.
    pub fn signature(&self, name: &[u8]) -> Signature<'_>
        ensures params { result.params.now ≡ called_params (function_named self.now.program.now.functions name.now) name.now }
        ensures class { result.result ≡ result_class self.now.program.now name.now }
    {
        match self.find(name) {
            Some(f) => Signature {
                params: f.params.as_slice(),
                result: f.result,
            },
            None => Signature {
                params: call_params(name),
                result: call_class(name),
            },
        }
    }
}
