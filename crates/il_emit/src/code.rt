//! The lines of statements.
//!
//! [`code`] recurses as deep as statements stand within one another. What it does for a single statement is never inlined into it, and a
//! Seq and a Loop have a function of their own that is called last, so that it takes little of the stack for each level.

ghost use Rattle.std.specs.Prelude.{◌≡◌, ◌+◌, ◌-◌, ◌<◌, ◌^◌, ◌++◌, true, false, not, length, take, drop, OnOk, IfOk};
ghost use Rattle.flat_code.specs.Code.{Seq, Loop, codes_of};
ghost use Rattle.flat_code.specs.Costs.{addressed};
ghost use Rattle.flat_code.specs.Shape.{code_of};
ghost use Rattle.il_emit.specs.Lines.{labels_in, labels_in_all, addresses_in, addresses_in_all, addresses_of, all_addressed, code_lines, each_lines, set_lines, load_lines, store_lines, move_lines, is_next, fresh, is_more, is_single, has_lines, way, side, in_front, first_goal, go_lines, seq_end, if_branch, named_call_lines, return_lines};
ghost use Rattle.il_emit.specs.Emitting.{Emits};

use crate::emitter::Emitter;
use crate::goal::{Goal, fresh};
use crate::source::Source;
use flat_code::{Flat, FlatBox, FlatKids, LoadKind, Op, Value, Values};
use hx_base::{Class, Text};
use std::alloc::AllocError;

#[inline(never)]
#[tactic(auto, using(crate::proofs::Lines::Emitting::go_emits))]
fn set(
    e: &mut Emitter,
    s: &Source,
    temp: u32,
    class: Class,
    op: Op,
    a: &Value,
    b: &Value,
    goal: Goal,
) -> Result<(), AllocError>
    ensures { OnOk result (Emits e.old e.new
        (set_lines s.now.program.now.globals temp class op a.now b.now e.old.addresses ++ go_lines goal)
        0 (addressed a.now + addressed b.now) e.old.exits.items) }
{
    e.set(s.program.globals.as_slice(), temp, class, op, *a, *b)?;
    e.go(goal)?;
    Ok(())
}

#[inline(never)]
#[tactic(auto, using(crate::proofs::Lines::Emitting::go_emits))]
fn load(
    e: &mut Emitter,
    s: &Source,
    temp: u32,
    how: LoadKind,
    at: &Value,
    goal: Goal,
) -> Result<(), AllocError>
    ensures { OnOk result (Emits e.old e.new
        (load_lines s.now.program.now.globals temp how at.now e.old.addresses ++ go_lines goal) 0 (addressed at.now) e.old.exits.items) }
{
    e.load(s.program.globals.as_slice(), temp, how, *at)?;
    e.go(goal)?;
    Ok(())
}

#[inline(never)]
#[tactic(auto, using(crate::proofs::Lines::Emitting::go_emits))]
fn store(
    e: &mut Emitter,
    s: &Source,
    width: u32,
    value: &Value,
    at: &Value,
    goal: Goal,
) -> Result<(), AllocError>
    ensures { OnOk result (Emits e.old e.new
        (store_lines s.now.program.now.globals width value.now at.now e.old.addresses ++ go_lines goal)
        0 (addressed value.now + addressed at.now) e.old.exits.items) }
{
    e.store(s.program.globals.as_slice(), width, *value, *at)?;
    e.go(goal)?;
    Ok(())
}

#[inline(never)]
#[tactic(auto, using(crate::proofs::Lines::Emitting::go_emits))]
fn copy(
    e: &mut Emitter,
    s: &Source,
    to: &Value,
    from: &Value,
    bytes: u64,
    goal: Goal,
) -> Result<(), AllocError>
    ensures { OnOk result (Emits e.old e.new
        (move_lines s.now.program.now.globals to.now from.now bytes e.old.addresses ++ go_lines goal)
        0 (addressed to.now + addressed from.now) e.old.exits.items) }
{
    e.copy(s.program.globals.as_slice(), *to, *from, bytes)?;
    e.go(goal)?;
    Ok(())
}

/// Whether a side of an If has lines.
#[inline(never)]
#[tactic(auto, using(crate::proofs::NamesAndNumbers::Numbering::more_is))]
fn has_lines(c: &Flat) -> bool
    ensures { result ≡ has_lines (code_of c.now) }
{
    match c {
        Flat::Seq(kids) => !kids.is_empty(),
        Flat::Leave(_) => false,
        _ => true,
    }
}

/// The label to which a branch goes for a side, where the label behind the If is `x` and that of the side's lines, if it has any, is `own`.
fn way(e: &Emitter, c: &Flat, x: u64, own: u64) -> u64
    ensures { result ≡ way (code_of c.now) e.now.exits.items x own }
{
    match c {
        Flat::Leave(j) => e.exit(*j),
        _ => { if has_lines(c) { own } else { x } }
    }
}

/// Branches to the sides of an If, and gives its first label.
#[inline(never)]
fn begin_if(
    e: &mut Emitter,
    s: &Source,
    cond: &Value,
    yes: &Flat,
    no: &Flat,
    goal: Goal,
) -> Result<u64, AllocError>
    ensures first { IfOk result (λ n. n ≡ e.old.labels) }
    ensures fits { OnOk result (e.old.labels + fresh (is_next goal) + fresh (has_lines (code_of yes.now)) + fresh
        (has_lines (code_of no.now))
        < 2 ^ 64) }
    ensures ok { OnOk result (Emits e.old e.new
        (if_branch s.now.program.now.globals cond.now (code_of yes.now)
        (code_of no.now) goal e.old.labels e.old.addresses e.old.exits.items)
        (fresh (is_next goal) + fresh (has_lines (code_of yes.now)) + fresh (has_lines (code_of no.now)))
        (addressed cond.now) e.old.exits.items) }
{
    let n = e.begin_if(goal, has_lines(yes), has_lines(no))?;
    let x = goal.label(n);
    let one = n + goal.fresh();
    let other = one + fresh(has_lines(yes));
    let to_yes = way(e, yes, x, one);
    let to_no = way(e, no, x, other);
    e.branch(s.program.globals.as_slice(), *cond, to_yes, to_no)?;
    Ok(n)
}

#[inline(never)]
fn named_call(
    e: &mut Emitter,
    s: &Source,
    temp: &Option<u32>,
    name: &Text,
    args: &Values,
) -> Result<(), AllocError>
    ensures { OnOk result (Emits e.old e.new
        (named_call_lines s.now.program.now temp.now name.now args.now e.old.addresses)
        0 (all_addressed args.now) e.old.exits.items) }
{
    let called = s.signature(name.bytes());
    e.call(
        s.program.globals.as_slice(),
        &called,
        *temp,
        name,
        args.as_slice(),
    )
}

#[inline(never)]
fn call(
    e: &mut Emitter,
    s: &Source,
    temp: &Option<u32>,
    name: &Text,
    args: &Values,
    goal: Goal,
) -> Result<(), AllocError>
    ensures { OnOk result (Emits e.old e.new
        (named_call_lines s.now.program.now temp.now name.now args.now e.old.addresses ++ go_lines goal)
        0 (all_addressed args.now) e.old.exits.items) }
{
    named_call(e, s, temp, name, args)?;
    e.go(goal)?;
    Ok(())
}

#[inline(never)]
fn ret(e: &mut Emitter, s: &Source, value: &Option<Value>, goal: Goal) -> Result<(), AllocError>
    ensures { OnOk result (Emits e.old e.new
        (return_lines s.now.program.now.globals value.now goal e.old.labels e.old.addresses)
        (fresh (is_next goal)) (addresses_of value.now) e.old.exits.items) }
{
    e.ret(s.program.globals.as_slice(), *value, goal)
}

/// The goal of the first side of an If, before this other side.
#[inline(never)]
fn first_goal(other: &Flat, goal: Goal, n: u64) -> Goal
    ensures { result ≡ first_goal (has_lines (code_of other.now)) goal n }
{
    goal.of_first(has_lines(other), n)
}

/// The label of the first side of an If, if it has lines; `n` is the first label of the If.
fn first_label(goal: Goal, n: u64) -> u64
    requires { n + fresh (is_next goal) < 2 ^ 64 }
    ensures { result ≡ n + fresh (is_next goal) }
{
    n + goal.fresh()
}

/// The label of the other side, behind this first one.
#[inline(never)]
fn other_label(first: &Flat, goal: Goal, n: u64) -> u64
    requires { n + fresh (is_next goal) + fresh (has_lines (code_of first.now)) < 2 ^ 64 }
    ensures { result ≡ n + fresh (is_next goal) + fresh (has_lines (code_of first.now)) }
{
    n + goal.fresh() + fresh(has_lines(first))
}

/// Emits a statement that has none within it, behind which control goes to a goal.
#[inline(never)]
fn single(e: &mut Emitter, s: &Source, c: &Flat, goal: Goal) -> Result<(), AllocError>
    requires { is_single (code_of c.now) ≡ true }
    ensures { OnOk result (Emits e.old e.new
        (code_lines s.now.program.now (code_of c.now) goal e.old.labels e.old.addresses e.old.exits.items)
        (labels_in (code_of c.now) (is_next goal)) (addresses_in (code_of c.now)) e.old.exits.items) }
{
    match c {
        Flat::Set {
            temp,
            class,
            op,
            a,
            b,
        } => set(e, s, *temp, *class, *op, a, b, goal),
        Flat::Load { temp, how, at } => load(e, s, *temp, *how, at, goal),
        Flat::Store { width, value, at } => store(e, s, *width, value, at, goal),
        Flat::Move { to, from, bytes } => copy(e, s, to, from, *bytes, goal),
        Flat::Leave(j) => e.leave(*j, goal),
        Flat::Call { temp, name, args } => call(e, s, temp, name, args, goal),
        Flat::Ret(value) => ret(e, s, value, goal),
        Flat::Seq(_) | Flat::If { .. } | Flat::Loop(_) => Ok(()),
    }
}

/// Emits a statement, behind which control goes to a goal.
#[cycle(code)]
#[tactic(auto, using(crate::proofs::NamesAndNumbers::Numbering::inner_next, crate::proofs::NamesAndNumbers::Numbering::first_next))]
pub fn code(e: &mut Emitter, s: &Source, c: &Flat, goal: Goal) -> Result<(), AllocError>
    ensures { OnOk result (Emits e.old e.new
        (code_lines s.now.program.now (code_of c.now) goal e.old.labels e.old.addresses e.old.exits.items)
        (labels_in (code_of c.now) (is_next goal)) (addresses_in (code_of c.now)) e.old.exits.items) }
{
    match c {
        Flat::Seq(kids) => seq(e, s, kids, goal),
        Flat::If { cond, yes, no } => {
            let first = yes.get();
            let other = no.get();
            let n = begin_if(e, s, cond, first, other, goal)?;
            side(
                e,
                s,
                first,
                first_goal(other, goal, n),
                first_label(goal, n),
            )?;
            side(e, s, other, goal.inner(n), other_label(first, goal, n))?;
            e.own_label(goal, n)?;
            Ok(())
        }
        Flat::Loop(body) => repeat(e, s, body, goal),
        _ => single(e, s, c, goal),
    }
}

/// Emits a Loop.
#[inline(never)]
#[cycle(code)]
fn repeat(e: &mut Emitter, s: &Source, body: &FlatBox, goal: Goal) -> Result<(), AllocError>
    ensures { OnOk result (Emits e.old e.new
        (code_lines s.now.program.now (Loop body.now) goal e.old.labels e.old.addresses e.old.exits.items)
        (labels_in (Loop body.now) (is_next goal)) (addresses_in (Loop body.now)) e.old.exits.items) }
{
    let n = e.begin_loop(goal)?;
    code(e, s, body.get(), Goal::Next)?;
    e.end_loop(goal, n)?;
    Ok(())
}

/// Emits a side of an If, if it has lines, behind its own label. Its goal is a label.
#[cycle(code)]
#[tactic(auto, using(crate::proofs::NamesAndNumbers::Numbering::no_labels, crate::proofs::NamesAndNumbers::Numbering::no_addresses))]
fn side(e: &mut Emitter, s: &Source, c: &Flat, goal: Goal, own: u64) -> Result<(), AllocError>
    requires { is_next goal ≡ false }
    ensures { OnOk result (Emits e.old e.new
        (side (has_lines (code_of c.now)) own
        (code_lines s.now.program.now (code_of c.now) goal e.old.labels e.old.addresses e.old.exits.items))
        (labels_in (code_of c.now) false) (addresses_in (code_of c.now)) e.old.exits.items) }
{
    if !has_lines(c) {
        return Ok(());
    }
    e.label(own)?;
    code(e, s, c, goal)
}

/// The goal of a statement in front of those from one on.
#[tactic(auto, using(flat_code::proofs::Kids::drop_kid, flat_code::proofs::Kids::drop_rest))]
fn in_front(kids: &FlatKids, next: usize, goal: Goal) -> Goal
    ensures { result ≡ in_front (codes_of (drop next kids.now)) goal }
{
    match kids.get(next) {
        None => goal,
        Some(_) => Goal::Next,
    }
}

/// Ends a Seq of these statements, with this own label.
#[inline(never)]
#[tactic(auto, using(crate::proofs::Lines::Emitting::empty_is))]
fn end_seq(e: &mut Emitter, kids: &FlatKids, goal: Goal, n: u64) -> Result<(), AllocError>
    ensures { OnOk result (Emits e.old e.new (seq_end (not (is_more (codes_of kids.now))) goal n) 0 0
        (take (length e.old.exits.items - 1) e.old.exits.items)) }
{
    e.end_seq(kids.is_empty(), goal, n)
}

/// Emits a Seq.
#[inline(never)]
#[cycle(code)]
#[tactic(auto, using(crate::proofs::NamesAndNumbers::Numbering::inner_next))]
fn seq(e: &mut Emitter, s: &Source, kids: &FlatKids, goal: Goal) -> Result<(), AllocError>
    ensures { OnOk result (Emits e.old e.new
        (code_lines s.now.program.now (Seq (codes_of kids.now)) goal e.old.labels e.old.addresses e.old.exits.items)
        (labels_in (Seq (codes_of kids.now)) (is_next goal)) (addresses_in (Seq (codes_of kids.now))) e.old.exits.items) }
{
    let n = e.begin_seq(goal)?;
    each(e, s, kids, goal.inner(n))?;
    end_seq(e, kids, goal, n)?;
    Ok(())
}

/// Emits the statements of a Seq, one behind the other. The last has this goal, which is a label.
#[cycle(code)]
#[tactic(auto, using(flat_code::proofs::Kids::kid_deep, flat_code::proofs::Kids::drop_kid, flat_code::proofs::Kids::drop_rest))]
fn each(e: &mut Emitter, s: &Source, kids: &FlatKids, goal: Goal) -> Result<(), AllocError>
    requires { is_next goal ≡ false }
    ensures { OnOk result (Emits e.old e.new
        (each_lines s.now.program.now (codes_of kids.now) goal e.old.labels e.old.addresses e.old.exits.items)
        (labels_in_all (codes_of kids.now)) (addresses_in_all (codes_of kids.now)) e.old.exits.items) }
{
    for i in 0..kids.len() {
        if let Some(kid) = kids.get(i) {
            code(e, s, kid, in_front(kids, i + 1, goal))?;
        }
    }
    Ok(())
}
