//! The code of statements.

ghost use Rattle.std.specs.Prelude.{List, ◌∷◌, [], IfOk, OnOk};
ghost use Rattle.flat_code.specs.declared.program.Data.{Data};
ghost use Rattle.flat_code.specs.Code.{If, Loop};
ghost use Rattle.hare_blocks.specs.Trees.{declares, assigns, puts, exits};
ghost use Rattle.hare_blocks.specs.Sizes.{list_of_statements};
ghost use Rattle.hare_blocks.specs.Shape.{condition_of, statement_of};
ghost use Rattle.low_blocks.specs.Expressions.{Scope};
ghost use Rattle.low_blocks.specs.Statements.{seq, turn, statement_code, statements_code, statement_texts, statements_texts};
ghost use Rattle.low_blocks.specs.Drafts.{site, piece_of, Grows, Lowers, LowersBlock};

use crate::condition::lower_condition;
use crate::draft::Draft;
use crate::expr::{lower_expr, lower_operand};
use crate::text::text_global;
use flat_code::{DataList, Flat, FlatBox, FlatKids, Value, Values};
use hare_blocks::{Condition, Expr, Scope, Statement, Statements};
use std::alloc::AllocError;

/// Puts the code of statements at the end, their strings to the globals, and the variables that they declare into scope.
#[cycle(statement)]
#[tactic(auto, using(crate::proofs::LoweredParts::Kids::kid_deep))]
pub fn lower_statements(
    draft: &mut Draft,
    scope: &mut Scope,
    globals: &mut DataList,
    body: &Statements,
) -> Result<(), AllocError>
    ensures { OnOk result (Lowers draft.old draft.new scope.old globals.old globals.new scope.new
        (statements_code (site draft.old scope.old globals.old) (list_of_statements body.now))
        (statements_texts (list_of_statements body.now))) }
{
    for i in 0..body.len() {
        if let Some(s) = body.get(i) {
            lower_statement(draft, scope, globals, s)?;
        }
    }
    Ok(())
}

#[cycle(statement)]
fn lower_statement(
    draft: &mut Draft,
    scope: &mut Scope,
    globals: &mut DataList,
    s: &Statement,
) -> Result<(), AllocError>
    ensures { OnOk result (Lowers draft.old draft.new scope.old globals.old globals.new scope.new
        (statement_code (site draft.old scope.old globals.old) (statement_of s.now)) (statement_texts (statement_of s.now))) }
{
    match s {
        Statement::Declare { name, value } => declare(draft, scope, name.bytes(), value),
        Statement::Assign { name, value } => assign(draft, scope, name.bytes(), value),
        Statement::If { test, body } => {
            let cond = lower_condition(draft, scope, test)?;
            let yes = lower_block(draft, scope, globals, body)?;
            let no = FlatKids::new(draft.alloc);
            branch(draft, cond, yes, no)
        }
        Statement::IfElse {
            test,
            body,
            otherwise,
        } => {
            let cond = lower_condition(draft, scope, test)?;
            let yes = lower_block(draft, scope, globals, body)?;
            let no = lower_block(draft, scope, globals, otherwise)?;
            branch(draft, cond, yes, no)
        }
        Statement::For { test, body } => {
            let mut tests = Draft::new(draft.alloc, draft.next);
            let cond = lower_condition(&mut tests, scope, test)?;
            draft.next = tests.next;
            let does = lower_block(draft, scope, globals, body)?;
            repeat(draft, test, tests, cond, does)
        }
        Statement::Puts(text) => puts(draft, globals, text.bytes()),
        Statement::Exit(e) => lower_exit(draft, scope, e),
    }
}

/// The code of a block, whose variables end with it.
#[cycle(statement)]
fn lower_block(
    draft: &mut Draft,
    scope: &mut Scope,
    globals: &mut DataList,
    body: &Statements,
) -> Result<FlatKids, AllocError>
    ensures { IfOk result (λ cs. LowersBlock draft.old draft.new scope.old globals.old globals.new scope.new cs
        (statements_code (site draft.old scope.old globals.old) (list_of_statements body.now))
        (statements_texts (list_of_statements body.now))) }
{
    let mark = scope.mark();
    let mut inner = Draft::new(draft.alloc, draft.next);
    lower_statements(&mut inner, scope, globals, body)?;
    scope.back_to(mark);
    draft.next = inner.next;
    let Draft { code, .. } = inner;
    Ok(code)
}

/// A `let`: the last step of the value sets a temporary of its own, and the name stands for it.
fn declare(
    draft: &mut Draft,
    scope: &mut Scope,
    name: &[u8],
    value: &Expr,
) -> Result<(), AllocError>
    ensures { OnOk result ((g : List Data) → Lowers draft.old draft.new scope.old g g scope.new
        (statement_code (site draft.old scope.old g) (declares name.now value.now)) []) }
{
    let last = lower_expr(draft, scope, value)?;
    let temp = draft.take_temp()?;
    draft.set(temp, last)?;
    scope.declare(name, temp)
}

/// The last step of the value sets the temporary of the variable, if there is one.
fn assign(draft: &mut Draft, scope: &Scope, name: &[u8], value: &Expr) -> Result<(), AllocError>
    ensures { OnOk result ((g : List Data) → Lowers draft.old draft.new scope.now g g scope.now
        (statement_code (site draft.old scope.now g) (assigns name.now value.now)) []) }
{
    let last = lower_expr(draft, scope, value)?;
    match scope.find(name) {
        None => Ok(()),
        Some(temp) => draft.set(temp, last),
    }
}

/// A branch by a condition that stands in front of it.
fn branch(draft: &mut Draft, cond: Value, yes: FlatKids, no: FlatKids) -> Result<(), AllocError>
    ensures { OnOk result (Grows draft.old draft.new (If cond (seq yes) (seq no) ∷ []) draft.old.next) }
{
    let yes = draft.seq(yes)?;
    let no = draft.seq(no)?;
    draft.push(Flat::If { cond, yes, no })
}

/// A loop, by the code that tests its condition and that of its body.
fn repeat(
    draft: &mut Draft,
    test: &Condition,
    tests: Draft,
    cond: Value,
    does: FlatKids,
) -> Result<(), AllocError>
    ensures { OnOk result (Grows draft.old draft.new (Loop (turn (condition_of test.now) (piece_of tests cond) does) ∷ []) draft.old.next) }
{
    let body = match test {
        Condition::Always => draft.seq(does)?,
        Condition::Compares { .. } => {
            let mut tests = tests;
            let yes = draft.seq(does)?;
            let no = FlatBox::new(draft.alloc, Flat::Leave(1))?;
            tests.push(Flat::If { cond, yes, no })?;
            let Draft { code, .. } = tests;
            draft.seq(code)?
        }
    };
    draft.push(Flat::Loop(body))
}

/// Puts out a string, which becomes a global.
fn puts(draft: &mut Draft, globals: &mut DataList, text: &[u8]) -> Result<(), AllocError>
    ensures { OnOk result ((scope : Scope) → Lowers draft.old draft.new scope globals.old globals.new scope
        (statement_code (site draft.old scope globals.old) (puts text.now)) (text.now ∷ [])) }
{
    let Ok(place) = u32::try_from(globals.len()) else {
        return Err(AllocError);
    };
    globals.push(text_global(draft.alloc, place, text)?)?;
    let mut args = Values::new(draft.alloc);
    args.push(Value::Symbol(place, 0))?;
    args.push(Value::Number(text.len() as u64))?;
    draft.call(None, "rt.puts", args)
}

/// Ends the program with the value of an expression.
pub fn lower_exit(draft: &mut Draft, scope: &Scope, e: &Expr) -> Result<(), AllocError>
    ensures { OnOk result ((g : List Data) → Lowers draft.old draft.new scope.now g g scope.now
        (statement_code (site draft.old scope.now g) (exits e.now)) []) }
{
    let value = lower_operand(draft, scope, e)?;
    let mut args = Values::new(draft.alloc);
    args.push(value)?;
    draft.call(None, "rt.exit", args)
}
