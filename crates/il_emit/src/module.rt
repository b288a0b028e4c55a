//! Functions, and the module of a program.

ghost use Rattle.std.specs.Prelude.{◌≡◌, ◌++◌, ◌<◌, ◌^◌, map, OnOk, IfOk};
ghost use Rattle.std.specs.List.{AllByRecursion};
ghost use Rattle.flat_code.specs.WellFormed.{IsWellFormed, is_main};
ghost use Rattle.il_code.specs.Rules.{IsValid};
ghost use Rattle.il_emit.specs.Lines.{end_value};
ghost use Rattle.il_emit.specs.Numbered.{HasFewNames};
ghost use Rattle.il_emit.specs.Reaches.{Reaches};
ghost use Rattle.il_emit.specs.Shape.{HasShape};
ghost use Rattle.il_tight.specs.Tight.{tight, tight_item, tight_module};
ghost use Rattle.il_tight.specs.Tightness.{AreTight};
ghost use Rattle.il_emit.specs.Emitted.{data_item, params_of, blocks_of, function_item, module_of};

use crate::code::code;
use crate::data::data_item;
use crate::draft::Draft;
use crate::emitter::Emitter;
use crate::goal::Goal;
use crate::names::{same_text, temp_name};
use crate::source::Source;
use flat_code::{Data, FlatFn, FlatProgram};
use hx_base::Class;
use il_code::{Blocks, IlItem, IlItems, IlParam, IlParams, IlValue, Jump, Module};
use il_tight::tighten;
use std::alloc::{AllocError, Global};

/// The module of a program: a data item for each global, and then a function for each function, in their order. `main` is exported.
///
/// The program is well formed, as `flat_code::well_formed` tells.
///
/// The module is valid, and it does what the program does: at every number of turns there is a budget, of at most four units for each flat
/// step and one more, with which a run of it comes to the same end and the same world, or to the same world where turns ran out. Where
/// calls that are active at once cost more than the stack holds, its end may be a full stack instead. No function jumps back more often
/// than its code has Loops, calls a function more often than its code has Calls of it, or costs the stack more than flat code says. Each
/// function is tight.
///
/// An error is want of memory.
pub fn emit(alloc: Global, p: &FlatProgram) -> Result<Module, AllocError>
    requires { IsWellFormed p.now }
    ensures valid { IfOk result (λ m. IsValid m) }
    ensures reaches { IfOk result (λ m. Reaches p.now m) }
    ensures shape { IfOk result (λ m. HasShape p.now m) }
    ensures tight { IfOk result AreTight }
{
    let m = module_of(alloc, p)?;
    Ok(m)
}

fn module_of(alloc: Global, p: &FlatProgram) -> Result<Module, AllocError>
    ensures value { IfOk result (λ m. m ≡ tight_module (module_of p.now)) }
    ensures fits { OnOk result (AllByRecursion HasFewNames p.now.functions) }
{
    let source = Source::new(alloc, p)?;
    let mut items = IlItems::new(alloc);
    put_globals(alloc, &mut items, p.globals.as_slice())?;
    put_functions(alloc, &mut items, &source, p.functions.as_slice())?;
    Ok(Module { items })
}

fn put_globals(alloc: Global, out: &mut IlItems, globals: &[Data]) -> Result<(), AllocError>
    ensures { OnOk result (out.new ≡ out.old ++ map data_item globals.now) }
{
    let mut left = globals;
    'each: while let [d, more @ ..] = left {
        out.push(data_item(alloc, d)?)?;
        left = more;
    }
    Ok(())
}

fn put_functions(
    alloc: Global,
    out: &mut IlItems,
    source: &Source,
    functions: &[FlatFn],
) -> Result<(), AllocError>
    ensures value { OnOk result (out.new ≡ out.old ++ map (λ f. tight_item (function_item source.now.program.now f)) functions.now) }
    ensures fits { OnOk result (AllByRecursion HasFewNames functions.now) }
{
    let mut left = functions;
    'each: while let [f, more @ ..] = left {
        out.push(function_item(alloc, source, f)?)?;
        left = more;
    }
    Ok(())
}

fn function_item(alloc: Global, source: &Source, f: &FlatFn) -> Result<IlItem, AllocError>
    ensures value { IfOk result (λ i. i ≡ tight_item (function_item source.now.program.now f.now)) }
    ensures fits { OnOk result (HasFewNames f.now) }
{
    let name = same_text(alloc, &f.name)?;
    let params = params_of(alloc, f.params.as_slice())?;
    let blocks = tight_blocks_of(alloc, source, f, params.as_slice())?;
    Ok(IlItem::Function {
        export: is_main(f),
        class: f.result,
        name,
        params,
        blocks,
    })
}

fn is_main(f: &FlatFn) -> bool
    ensures { result ≡ is_main f.now }
{
    f.name.bytes() == b"main".as_slice()
}

/// Parameters are the first temporaries.
fn params_of(alloc: Global, classes: &[Class]) -> Result<IlParams, AllocError>
    ensures { IfOk result (λ ps. ps ≡ params_of 0 classes.now) }
{
    let mut params = IlParams::new(alloc);
    let mut t: u32 = 0;
    let mut left = classes;
    'each: while let [class, more @ ..] = left {
        params.push(IlParam {
            name: temp_name(alloc, t)?,
            class: *class,
        })?;
        let Some(next) = t.checked_add(1) else {
            return Err(AllocError);
        };
        t = next;
        left = more;
    }
    Ok(params)
}

/// What a body that ends without a Ret returns.
fn end_value(class: Option<Class>) -> Option<IlValue>
    ensures { result ≡ end_value class }
{
    match class {
        None => None,
        Some(_) => Some(IlValue::Number(0)),
    }
}

/// What a caller may rest on: a `u64` is below 2^64.
fn has_64_bits(n: u64)
    ensures { n < 2 ^ 64 }
{}

/// The blocks of a function with these parameters, each of which begins where it must.
fn tight_blocks_of(
    alloc: Global,
    source: &Source,
    f: &FlatFn,
    params: &[IlParam],
) -> Result<Blocks, AllocError>
    ensures value { IfOk result (λ bs. bs ≡ tight params.now (blocks_of source.now.program.now f.now)) }
    ensures fits { OnOk result (HasFewNames f.now) }
{
    let blocks = blocks_of(alloc, source, f)?;
    tighten(alloc, params, blocks)
}

/// The blocks of a function, one at each label.
fn blocks_of(alloc: Global, source: &Source, f: &FlatFn) -> Result<Blocks, AllocError>
    ensures value { IfOk result (λ bs. bs ≡ blocks_of source.now.program.now f.now) }
    ensures fits { OnOk result (HasFewNames f.now) }
{
    let mut e = Emitter {
        alloc,
        draft: Draft::new(alloc),
        labels: 1,
        addresses: 0,
        exits: Vec::new(alloc),
    };
    e.label(0)?;
    e.frame(f.frame)?;
    code(&mut e, source, &f.body, Goal::Next)?;
    has_64_bits(e.labels);
    has_64_bits(e.addresses);
    has_64_bits(u64::from(f.temps));
    has_64_bits(f.frame);
    e.end(Jump::Ret(end_value(f.result)))?;
    let Emitter { draft, .. } = e;
    let Draft { blocks, .. } = draft;
    Ok(blocks)
}
