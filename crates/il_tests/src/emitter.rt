//! Small programs and their texts, which are written by hand.

use flat_code::{
    Class, Classes, Data, DataList, Flat, FlatBox, FlatFn, FlatFns, FlatKids, FlatProgram, Item,
    LoadKind, Op, Value, Values, well_formed,
};
use hx_base::{Bytes, Items, Text};
use il_code::{print, valid};
use il_emit::emit;
use std::alloc::{AllocError, Global};
use std::test::Fail;

/// A statement that holds no other.
#[derive(Clone, Copy)]
enum Plain {
    /// A temporary, its class, the operation and its operands.
    Set(u32, Class, Op, Value, Value),
    Load(u32, LoadKind, Value),
    /// How many bytes, the value, and where it goes.
    Store(u32, Value, Value),
    /// To where, from where, and how many bytes.
    Move(Value, Value, u64),
    Leave(u32),
    Ret(Value),
}

/// A step of making a body. The statements that are made stand on a pile, until another takes them in.
#[derive(Clone, Copy)]
enum Step<'a> {
    Plain(Plain),
    /// A temporary, the function and its arguments.
    Call(Option<u32>, &'a str, &'a [Value]),
    /// Takes in the last so many.
    Seq(usize),
    /// Takes in the last.
    Loop,
    /// Takes in the last two.
    If(Value),
}

/// A function of so many parameters, which are longs.
#[derive(Clone, Copy)]
struct Function<'a> {
    name: &'a str,
    params: u32,
    result: Option<Class>,
    temps: u32,
    frame: u64,
    steps: &'a [Step<'a>],
}

/// `main`, of three temporaries and a word as result.
fn main_of<'a>(frame: u64, steps: &'a [Step<'a>]) -> Function<'a> {
    Function {
        name: "main",
        params: 0,
        result: Some(Class::W),
        temps: 3,
        frame,
        steps,
    }
}

// ---- programs

fn plain_statement(statement: Plain) -> Flat {
    match statement {
        Plain::Set(temp, class, op, a, b) => Flat::Set {
            temp,
            class,
            op,
            a,
            b,
        },
        Plain::Load(temp, how, at) => Flat::Load { temp, how, at },
        Plain::Store(width, value, at) => Flat::Store { width, value, at },
        Plain::Move(to, from, bytes) => Flat::Move { to, from, bytes },
        Plain::Leave(out) => Flat::Leave(out),
        Plain::Ret(value) => Flat::Ret(Some(value)),
    }
}

fn call(alloc: Global, temp: Option<u32>, name: &str, list: &[Value]) -> Result<Flat, AllocError> {
    let name = Text::copy(alloc, name)?;
    let mut args = Values::new(alloc);
    for v in list {
        args.push(*v)?;
    }
    Ok(Flat::Call { temp, name, args })
}

/// The last so many statements of the pile, one after the other.
fn seq(alloc: Global, pile: &mut Vec<Flat>, count: usize) -> Result<Flat, Fail> {
    let first = pile.len().checked_sub(count).ok_or("no statements")?;
    let mut list = FlatKids::new(alloc);
    for _ in 0..count {
        if first < pile.len() {
            list.push(pile.remove(first))?;
        }
    }
    Ok(Flat::Seq(list))
}

fn last(alloc: Global, pile: &mut Vec<Flat>) -> Result<FlatBox, Fail> {
    let last = pile.pop().ok_or("no statement")?;
    Ok(FlatBox::new(alloc, last)?)
}

fn branch(alloc: Global, pile: &mut Vec<Flat>, cond: Value) -> Result<Flat, Fail> {
    let no = last(alloc, pile)?;
    let yes = last(alloc, pile)?;
    Ok(Flat::If { cond, yes, no })
}

/// What a step puts on the pile.
fn statement(alloc: Global, pile: &mut Vec<Flat>, step: Step) -> Result<Flat, Fail> {
    match step {
        Step::Plain(statement) => Ok(plain_statement(statement)),
        Step::Call(temp, name, args) => Ok(call(alloc, temp, name, args)?),
        Step::Seq(count) => seq(alloc, pile, count),
        Step::Loop => Ok(Flat::Loop(last(alloc, pile)?)),
        Step::If(cond) => branch(alloc, pile, cond),
    }
}

fn take(alloc: Global, pile: &mut Vec<Flat>, steps: &[Step]) -> Result<Flat, Fail> {
    for step in steps {
        let statement = statement(alloc, pile, *step)?;
        pile.push(statement)?;
    }
    Ok(pile.pop().ok_or("no body")?)
}

fn body(alloc: Global, steps: &[Step]) -> Result<Flat, Fail> {
    let mut pile = Vec::new(alloc);
    take(alloc, &mut pile, steps)
}

fn longs(alloc: Global, count: u32) -> Result<Classes, AllocError> {
    let mut classes = Classes::new(alloc);
    for _ in 0..count {
        classes.push(Class::L)?;
    }
    Ok(classes)
}

fn function_of(alloc: Global, f: &Function) -> Result<FlatFn, Fail> {
    let name = Text::copy(alloc, f.name)?;
    let params = longs(alloc, f.params)?;
    let body = body(alloc, f.steps)?;
    Ok(FlatFn {
        name,
        params,
        result: f.result,
        temps: f.temps,
        frame: f.frame,
        body,
    })
}

fn put_all(alloc: Global, functions: &mut FlatFns, list: &[Function]) -> Result<(), Fail> {
    for f in list {
        functions.push(function_of(alloc, f)?)?;
    }
    Ok(())
}

fn text(alloc: Global) -> Result<Items<Item>, AllocError> {
    let mut bytes = Bytes::new(alloc);
    bytes.extend(b"ab\n")?;
    let mut items = Items::new(alloc);
    items.push(Item::Bytes(bytes))?;
    Ok(items)
}

/// One global.
fn globals(alloc: Global) -> Result<DataList, AllocError> {
    let name = Text::copy(alloc, "h.text")?;
    let items = text(alloc)?;
    let mut globals = DataList::new(alloc);
    globals.push(Data {
        name,
        align: 1,
        items,
    })?;
    Ok(globals)
}

/// A program of these functions, with one global.
fn program_of(alloc: Global, list: &[Function]) -> Result<FlatProgram, Fail> {
    let mut p = FlatProgram {
        functions: FlatFns::new(alloc),
        globals: globals(alloc)?,
    };
    put_all(alloc, &mut p.functions, list)?;
    Ok(p)
}

/// Whether a program has this text; or with no text, whether it is not well formed or its module not valid.
fn prints(alloc: Global, p: &FlatProgram, wanted: Option<&str>) -> Result<bool, AllocError> {
    if !well_formed(p) {
        return Ok(wanted.is_none());
    }
    let m = emit(alloc, p)?;
    if !valid(&m) {
        return Ok(wanted.is_none());
    }
    let text = print(alloc, &m)?;
    Ok(wanted.is_some_and(|wanted| wanted.as_bytes() == text.bytes()))
}

fn has_text(alloc: Global, list: &[Function], wanted: Option<&str>) -> Result<bool, Fail> {
    let p = program_of(alloc, list)?;
    Ok(prints(alloc, &p, wanted)?)
}

// ---- bodies

/// Counts from 0 to the number of arguments, writes two bytes each time, and leaves the Loop.
const COUNTER: [Step; 12] = [
    Step::Plain(Plain::Set(0, Class::L, Op::Copy, Value::Number(0), Value::Number(0))),
    Step::Call(Some(1), "rt.nargs", &[]),
    Step::Plain(Plain::Set(2, Class::W, Op::Cultl, Value::Temp(0), Value::Temp(1))),
    Step::Seq(2),
    Step::Call(None, "rt.puts", &[Value::Symbol(0, 1), Value::Number(2)]),
    Step::Plain(Plain::Set(0, Class::L, Op::Add, Value::Temp(0), Value::Number(1))),
    Step::Seq(2),
    Step::Plain(Plain::Leave(1)),
    Step::If(Value::Temp(2)),
    Step::Seq(2),
    Step::Loop,
    Step::Seq(2),
];

const COUNTER_TEXT: &str = "data $h.text = align 1 { b \"ab\" 10 }
export function w $main() {
@b0
\t%t0 =l copy 0
\tjmp @b2
@b2
\t%t1 =l call $rt.nargs()
\t%t2 =w cultl %t0, %t1
\tjnz %t2, @b5, @b1
@b5
\t%a0 =l add $h.text, 1
\tcall $rt.puts(l %a0, l 2)
\t%t0 =l add %t0, 1
\tjmp @b2
@b1
\tret 0
}
";

/// A branch within a branch, of which one side returns.
const BRANCHES: [Step; 5] = [
    Step::Plain(Plain::Ret(Value::Temp(0))),
    Step::Plain(Plain::Set(1, Class::W, Op::Neg, Value::Temp(0), Value::Number(0))),
    Step::If(Value::Temp(0)),
    Step::Plain(Plain::Set(0, Class::W, Op::Copy, Value::Number(7), Value::Number(0))),
    Step::If(Value::Number(1)),
];

const BRANCHES_TEXT: &str = "data $h.text = align 1 { b \"ab\" 10 }
export function w $main() {
@b0
\tjnz 1, @b2, @b3
@b2
\tjnz %t0, @b4, @b5
@b4
\tret %t0
@b5
\t%t1 =w neg %t0
\tjmp @b1
@b3
\t%t0 =w copy 7
@b1
\tret 0
}
";

/// A Leave out of two Loops.
const LEAVE: [Step; 3] = [Step::Plain(Plain::Leave(1)), Step::Loop, Step::Loop];

const LEAVE_TEXT: &str = "data $h.text = align 1 { b \"ab\" 10 }
export function w $main() {
@b0
\tjmp @b2
@b2
\tjmp @b4
@b4
\tjmp @b1
@b1
\tret 0
}
";

/// Code behind a return, which sets a temporary and turns.
const UNREACHED: [Step; 5] = [
    Step::Plain(Plain::Ret(Value::Number(3))),
    Step::Plain(Plain::Set(0, Class::L, Op::Copy, Value::Symbol(0, 1), Value::Number(0))),
    Step::Plain(Plain::Set(1, Class::L, Op::Neg, Value::Temp(0), Value::Number(0))),
    Step::Loop,
    Step::Seq(3),
];

const UNREACHED_TEXT: &str = "data $h.text = align 1 { b \"ab\" 10 }
export function w $main() {
@b0
\tret 3
}
";

/// Code behind a return, which alone sets what is returned: control does not come to what is left of it.
const READ: [Step; 3] = [
    Step::Plain(Plain::Ret(Value::Temp(0))),
    Step::Plain(Plain::Set(0, Class::W, Op::Copy, Value::Number(7), Value::Number(0))),
    Step::Seq(2),
];

const READ_TEXT: &str = "data $h.text = align 1 { b \"ab\" 10 }
export function w $main() {
@b0
\tret %t0
@b2
\t%t0 =w copy 0
\thlt
}
";

/// A call of five arguments, each a place of the frame or of a global, and the function that is called.
const CALL: [Step; 1] = [Step::Call(
    None,
    "h.f",
    &[
        Value::Frame(0),
        Value::Symbol(0, 1),
        Value::Frame(8),
        Value::Symbol(0, 2),
        Value::Symbol(0, 3),
    ],
)];

const CALLED: [Step; 1] = [Step::Plain(Plain::Set(
    0,
    Class::L,
    Op::Copy,
    Value::Temp(4),
    Value::Number(0),
))];

const CALL_TEXT: &str = "data $h.text = align 1 { b \"ab\" 10 }
export function w $main() {
@b0
\t%f =l alloc16 16
\t%a0 =l add %f, 0
\t%a1 =l add $h.text, 1
\t%a2 =l add %f, 8
\t%a3 =l add $h.text, 2
\t%a4 =l add $h.text, 3
\tcall $h.f(l %a0, l %a1, l %a2, l %a3, l %a4)
\tret 0
}
function $h.f(l %t0, l %t1, l %t2, l %t3, l %t4) {
@b0
\t%t0 =l copy %t4
\tret
}
";

/// A symbol with an offset as each operand that may be an address: each is computed in front of its statement.
const SYMBOLS: [Step; 7] = [
    Step::Plain(Plain::Set(
        0,
        Class::L,
        Op::Sub,
        Value::Symbol(0, 1),
        Value::Symbol(0, 2),
    )),
    Step::Plain(Plain::Load(1, LoadKind::Ub, Value::Symbol(0, 1))),
    Step::Plain(Plain::Store(8, Value::Symbol(0, 1), Value::Symbol(0, 2))),
    Step::Plain(Plain::Move(Value::Symbol(0, 1), Value::Symbol(0, 2), 1)),
    Step::Call(None, "rt.puts", &[Value::Symbol(0, 1), Value::Number(2)]),
    Step::Plain(Plain::Ret(Value::Symbol(0, 3))),
    Step::Seq(6),
];

const CALL_ALONE: [Step; 1] = [Step::Call(None, "h.f", &[])];

const SYMBOLS_TEXT: &str = "data $h.text = align 1 { b \"ab\" 10 }
function l $h.f() {
@b0
\t%a0 =l add $h.text, 1
\t%a1 =l add $h.text, 2
\t%t0 =l sub %a0, %a1
\t%a2 =l add $h.text, 1
\t%t1 =l loadub %a2
\t%a3 =l add $h.text, 1
\t%a4 =l add $h.text, 2
\tstorel %a3, %a4
\t%a5 =l add $h.text, 1
\t%a6 =l add $h.text, 2
\tblit %a6, %a5, 1
\t%a7 =l add $h.text, 1
\tcall $rt.puts(l %a7, l 2)
\t%a8 =l add $h.text, 3
\tret %a8
}
export function w $main() {
@b0
\tcall $h.f()
\tret 0
}
";

/// A condition is a word, and so it is no symbol.
const CONDITION: [Step; 3] = [Step::Seq(0), Step::Seq(0), Step::If(Value::Symbol(0, 1))];

// ---- tests

#[test]
fn programs_of_main_alone(rt: HostRuntime) -> Result<(), Fail> {
    let rows: [(&[Step], Option<&str>); 6] = [
        (COUNTER.as_slice(), Some(COUNTER_TEXT)),
        (BRANCHES.as_slice(), Some(BRANCHES_TEXT)),
        (LEAVE.as_slice(), Some(LEAVE_TEXT)),
        (UNREACHED.as_slice(), Some(UNREACHED_TEXT)),
        (READ.as_slice(), Some(READ_TEXT)),
        (CONDITION.as_slice(), None),
    ];
    for (steps, wanted) in rows {
        assert!(rt; has_text(rt.alloc(), &[main_of(0, steps)], wanted)?);
    }
    Ok(())
}

#[test]
fn programs_of_two_functions(rt: HostRuntime) -> Result<(), Fail> {
    let called = Function {
        name: "h.f",
        params: 5,
        result: None,
        temps: 5,
        frame: 0,
        steps: CALLED.as_slice(),
    };
    let symbols = Function {
        name: "h.f",
        params: 0,
        result: Some(Class::L),
        temps: 2,
        frame: 0,
        steps: SYMBOLS.as_slice(),
    };
    let call = [main_of(16, CALL.as_slice()), called];
    let alone = [symbols, main_of(0, CALL_ALONE.as_slice())];
    assert!(rt; has_text(rt.alloc(), &call, Some(CALL_TEXT))?);
    assert!(rt; has_text(rt.alloc(), &alone, Some(SYMBOLS_TEXT))?);
    Ok(())
}
