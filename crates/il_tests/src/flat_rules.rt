//! Programs of one function, of which it is plain whether they are well formed.

use flat_code::*;
use hx_base::Text;
use std::alloc::{AllocError, Global};
use std::test::Fail;

/// A program that is one function without parameters, of two temporaries.
fn program(
    alloc: Global,
    name: &str,
    class: Option<Class>,
    body: Flat,
) -> Result<FlatProgram, AllocError> {
    let mut functions = FlatFns::new(alloc);
    functions.push(FlatFn {
        name: Text::copy(alloc, name)?,
        params: Classes::new(alloc),
        result: class,
        temps: 2,
        frame: 0,
        body,
    })?;
    Ok(FlatProgram {
        functions,
        globals: DataList::new(alloc),
    })
}

fn seq(alloc: Global, first: Flat, second: Flat) -> Result<Flat, AllocError> {
    let mut kids = FlatKids::new(alloc);
    kids.push(first)?;
    kids.push(second)?;
    Ok(Flat::Seq(kids))
}

fn copy(temp: u32, class: Class, a: Value) -> Flat {
    Flat::Set {
        temp,
        class,
        op: Op::Copy,
        a,
        b: Value::Number(0),
    }
}

/// Whether such a program is well formed.
fn is_formed(
    alloc: Global,
    name: &str,
    class: Option<Class>,
    body: Flat,
) -> Result<bool, AllocError> {
    let p = program(alloc, name, class, body)?;
    Ok(well_formed(&p))
}

/// Whether `main` without a result is, with this body.
fn is_body(alloc: Global, body: Flat) -> Result<bool, AllocError> {
    is_formed(alloc, "main", None, body)
}

#[test]
fn a_program_has_a_main(rt: HostRuntime) -> Result<(), Fail> {
    let zero = Some(Value::Number(0));
    for (name, class, value, wanted) in [
        ("main", None, None, true),
        ("mein", None, None, false),
        ("main", Some(Class::L), zero, false),
        ("main", None, zero, false),
    ] {
        assert_eq!(rt;
            is_formed(rt.alloc(), name, class, Flat::Ret(value))?,
            wanted
        );
    }
    Ok(())
}

/// A loop, with what leaves so many others in it.
fn leaving(alloc: Global, out: u32) -> Result<Flat, AllocError> {
    Ok(Flat::Loop(FlatBox::new(alloc, Flat::Leave(out))?))
}

#[test]
fn a_leave_has_something_to_leave(rt: HostRuntime) -> Result<(), Fail> {
    for (out, wanted) in [(0, true), (1, false)] {
        let body = leaving(rt.alloc(), out)?;
        assert_eq!(rt; is_body(rt.alloc(), body)?, wanted);
    }
    Ok(())
}

/// What sets a temporary of a class to a value.
#[derive(Clone, Copy)]
struct Setting(u32, Class, Value);

fn copy_of(setting: Setting) -> Flat {
    copy(setting.0, setting.1, setting.2)
}

#[test]
fn a_temporary_is_set_and_has_one_class(rt: HostRuntime) -> Result<(), Fail> {
    let (w, l, one) = (Class::W, Class::L, Value::Number(1));
    for (first, second, wanted) in [
        // Cut, and widened.
        (Setting(0, l, one), Setting(1, w, Value::Temp(0)), true),
        (Setting(0, w, one), Setting(1, l, Value::Temp(0)), false),
        // Of both classes.
        (Setting(0, w, one), Setting(0, l, one), false),
    ] {
        let body = seq(rt.alloc(), copy_of(first), copy_of(second))?;
        assert_eq!(rt; is_body(rt.alloc(), body)?, wanted);
    }
    // Not set, and none of the function.
    for setting in [Setting(0, w, Value::Temp(1)), Setting(2, w, one)] {
        assert!(rt; !is_body(rt.alloc(), copy_of(setting))?);
    }
    Ok(())
}

/// So many loops within one another, and in the innermost what leaves it.
fn loops(alloc: Global, count: u32) -> Result<Flat, AllocError> {
    let mut code = Flat::Leave(0);
    for _ in 0..count {
        code = Flat::Loop(FlatBox::new(alloc, code)?);
    }
    Ok(code)
}

/// A build without optimisation has no stack for a walk as deep as the limit, so only what is given up here is deeper.
#[test]
fn deep_code_is_well_formed_and_is_given_up(rt: HostRuntime) -> Result<(), Fail> {
    let deep = loops(rt.alloc(), 5000)?;
    assert!(rt; is_body(rt.alloc(), deep)?);
    let deepest = loops(rt.alloc(), 100_000)?;
    assert!(rt; matches!(&deepest, Flat::Loop(_)));
    Ok(())
}
