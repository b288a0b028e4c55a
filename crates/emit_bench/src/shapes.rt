//! Programs of a shape and a size.

use flat_code::{
    Class, Classes, Data, DataList, Flat, FlatBox, FlatFn, FlatFns, FlatKids, FlatProgram, Item,
    LoadKind, Op, Value, Values,
};
use hx_base::{Items, Text};
use std::alloc::{AllocError, Global};

/// The one temporary of each function.
const TEMP: u32 = 0;

/// The program of a shape, if there is a shape of that name.
pub fn program_of(
    alloc: Global,
    shape: &str,
    size: u32,
) -> Result<Option<FlatProgram>, AllocError> {
    let body = match shape {
        "statements" => statements(alloc, size)?,
        "functions" => return Ok(Some(functions(alloc, size)?)),
        "seqs" => within(alloc, Nest::Seq, size)?,
        "loops" => within(alloc, Nest::Loop, size)?,
        "ifs" => within(alloc, Nest::If, size)?,
        _ => return Ok(None),
    };
    let mut functions = FlatFns::new(alloc);
    functions.push(function(Text::copy(alloc, "main")?, alloc, body))?;
    Ok(Some(FlatProgram {
        functions,
        globals: globals(alloc)?,
    }))
}

/// One global, of sixteen bytes.
fn globals(alloc: Global) -> Result<DataList, AllocError> {
    let mut items = Items::new(alloc);
    items.push(Item::Zero(16))?;
    let mut globals = DataList::new(alloc);
    globals.push(Data {
        name: Text::copy(alloc, "bytes")?,
        align: 8,
        items,
    })?;
    Ok(globals)
}

/// A function without parameters and result.
fn function(name: Text, alloc: Global, body: Flat) -> FlatFn {
    FlatFn {
        name,
        params: Classes::new(alloc),
        result: None,
        temps: 1,
        frame: 0,
        body,
    }
}

/// Adds 1 to the temporary.
fn add_one() -> Flat {
    Flat::Set {
        temp: TEMP,
        class: Class::L,
        op: Op::Add,
        a: Value::Temp(TEMP),
        b: Value::Number(1),
    }
}

/// Loads the second half of the global.
fn load() -> Flat {
    Flat::Load {
        temp: TEMP,
        how: LoadKind::L,
        at: Value::Symbol(0, 8),
    }
}

/// So many statements, of which each second needs a computed address.
fn statements(alloc: Global, count: u32) -> Result<Flat, AllocError> {
    let mut list = FlatKids::new(alloc);
    for i in 0..count {
        list.push(if i % 2 == 0 { add_one() } else { load() })?;
    }
    Ok(Flat::Seq(list))
}

/// The name of a function.
fn name(alloc: Global, number: u32) -> Result<Text, AllocError> {
    let mut name = Text::copy(alloc, "f")?;
    name.push_decimal(i128::from(number))?;
    Ok(name)
}

/// A call of a function without arguments and result.
fn call(alloc: Global, name: Text) -> Flat {
    Flat::Call {
        temp: None,
        name,
        args: Values::new(alloc),
    }
}

/// So many functions, of which each calls the one before, and `main`, which calls the last.
fn functions(alloc: Global, count: u32) -> Result<FlatProgram, AllocError> {
    let mut functions = FlatFns::new(alloc);
    let mut body = add_one();
    for i in 0..count {
        functions.push(function(name(alloc, i)?, alloc, body))?;
        body = call(alloc, name(alloc, i)?);
    }
    functions.push(function(Text::copy(alloc, "main")?, alloc, body))?;
    Ok(FlatProgram {
        functions,
        globals: globals(alloc)?,
    })
}

/// What stands round a statement.
#[derive(Clone, Copy)]
enum Nest {
    Seq,
    Loop,
    If,
}

/// So many statements within one another, of which the innermost adds 1. No other reads a temporary, so that asking whether the code is
/// well formed goes over it few times.
fn within(alloc: Global, nest: Nest, count: u32) -> Result<Flat, AllocError> {
    let mut code = add_one();
    for _ in 1..count {
        code = round(alloc, nest, code)?;
    }
    Ok(code)
}

fn round(alloc: Global, nest: Nest, code: Flat) -> Result<Flat, AllocError> {
    match nest {
        Nest::Seq => {
            let mut list = FlatKids::new(alloc);
            list.push(code)?;
            Ok(Flat::Seq(list))
        }
        Nest::Loop => Ok(Flat::Loop(FlatBox::new(alloc, code)?)),
        Nest::If => Ok(Flat::If {
            cond: Value::Number(1),
            yes: FlatBox::new(alloc, code)?,
            no: FlatBox::new(alloc, Flat::Seq(FlatKids::new(alloc)))?,
        }),
    }
}
