//! The code of expressions.

ghost use Rattle.std.specs.Prelude.{◌≡◌, IfOk};
ghost use Rattle.hare_blocks.specs.Shape.{factor_of};
ghost use Rattle.low_blocks.specs.Expressions.{held, expr_piece, expr_steps, term_steps, factor_steps};
ghost use Rattle.low_blocks.specs.Drafts.{sign_op, piece_of, behind, steps_of, steps_behind};

use crate::draft::Draft;
use crate::last::Last;
use flat_code::{Op, Value};
use hare_blocks::{Expr, Factor, Scope, Sign, Term};
use std::alloc::AllocError;

/// Puts the code of an expression at the end, and gives the operand that is its value.
pub fn lower_operand(draft: &mut Draft, scope: &Scope, e: &Expr) -> Result<Value, AllocError>
    ensures { IfOk result (λ v. piece_of draft.new v ≡ behind draft.old.code (expr_piece scope.now draft.old.next e.now)) }
{
    let last = lower_expr(draft, scope, e)?;
    draft.operand(last)
}

/// Puts the code of an expression at the end but for its last step, and gives that step.
#[cycle(expr)]
pub fn lower_expr(draft: &mut Draft, scope: &Scope, e: &Expr) -> Result<Last, AllocError>
    ensures { IfOk result (λ s. steps_of draft.new s ≡ steps_behind draft.old.code (expr_steps scope.now draft.old.next e.now)) }
{
    let mut left = lower_term(draft, scope, &e.head)?;
    for t in e.rest.iter() {
        let a = draft.operand(left)?;
        let right = lower_term(draft, scope, &t.term)?;
        let b = draft.operand(right)?;
        left = Last::Operation(op_of(t.sign), a, b);
    }
    Ok(left)
}

#[cycle(expr)]
fn lower_term(draft: &mut Draft, scope: &Scope, t: &Term) -> Result<Last, AllocError>
    ensures { IfOk result (λ s. steps_of draft.new s ≡ steps_behind draft.old.code (term_steps scope.now draft.old.next t.now)) }
{
    let mut left = lower_factor(draft, scope, &t.head)?;
    for f in t.rest.iter() {
        let a = draft.operand(left)?;
        let right = lower_factor(draft, scope, f)?;
        let b = draft.operand(right)?;
        left = Last::Operation(Op::Mul, a, b);
    }
    Ok(left)
}

#[cycle(expr)]
fn lower_factor(draft: &mut Draft, scope: &Scope, f: &Factor) -> Result<Last, AllocError>
    ensures { IfOk result (λ s. steps_of draft.new s ≡ steps_behind draft.old.code
        (factor_steps scope.now draft.old.next (factor_of f.now))) }
{
    match f {
        Factor::Number(n) => Ok(Last::Operand(Value::Number(*n))),
        Factor::ArgCount => Ok(Last::ArgCount),
        Factor::Variable(x) => Ok(Last::Operand(held(scope.find(x.bytes())))),
        Factor::Group(e) => lower_expr(draft, scope, e),
    }
}

/// The operand that is a variable; 0 where there is none.
fn held(temp: Option<u32>) -> Value
    ensures { result ≡ held temp }
{
    match temp {
        None => Value::Number(0),
        Some(t) => Value::Temp(t),
    }
}

/// The operation that joins a term to what stands before it.
fn op_of(sign: Sign) -> Op
    ensures { result ≡ sign_op sign }
{
    match sign {
        Sign::Plus => Op::Add,
        Sign::Minus => Op::Sub,
    }
}
