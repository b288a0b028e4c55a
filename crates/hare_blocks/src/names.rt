//! Whether each name that a program uses is declared in a block that is open there.

ghost use Rattle.std.specs.Prelude.{◌≡◌, ◌++◌, ◌∷◌, List, ℕ, IfOk, IsTrue, bytes_eq, codes, ◌&&◌};
ghost use Rattle.hare_blocks.specs.Names as names;
ghost use Rattle.hare_blocks.specs.Names.{names_of};
ghost use Rattle.hare_blocks.specs.Trees.{declares};
ghost use Rattle.hare_blocks.specs.Class.{declared_behind};
ghost use Rattle.hare_blocks.specs.Sizes.{list_of_statements};
ghost use Rattle.hare_blocks.specs.Shape.{factor_of, condition_of, statement_of};

use crate::expr::{Expr, Factor, Term};
use crate::program::{Condition, Statement, Statements};
use crate::scope::Scope;
use hare_tree::Word;
use std::alloc::AllocError;

/// Whether each name that an expression uses is declared.
#[cycle(names)]
#[tactic(auto, using(crate::proofs::Parts::term_deep, crate::proofs::Declared::next_term, crate::proofs::Declared::last_term))]
pub fn expr_holds(e: &Expr, scope: &Scope) -> bool
    ensures { result ≡ names.expr_holds (names_of scope.now) e.now }
{
    if !term_holds(&e.head, scope) {
        return false;
    }
    for signed in e.rest.as_slice() {
        if !term_holds(&signed.term, scope) {
            return false;
        }
    }
    true
}

#[cycle(names)]
#[tactic(auto, using(crate::proofs::Parts::factor_deep, crate::proofs::Declared::next_factor, crate::proofs::Declared::last_factor))]
fn term_holds(t: &Term, scope: &Scope) -> bool
    ensures { result ≡ names.term_holds (names_of scope.now) t.now }
{
    if !factor_holds(&t.head, scope) {
        return false;
    }
    for factor in t.rest.as_slice() {
        if !factor_holds(factor, scope) {
            return false;
        }
    }
    true
}

#[cycle(names)]
fn factor_holds(f: &Factor, scope: &Scope) -> bool
    ensures { result ≡ names.factor_holds (names_of scope.now) (factor_of f.now) }
{
    match f {
        Factor::Number(_) | Factor::ArgCount => true,
        Factor::Variable(name) => is_declared(name, scope),
        Factor::Group(e) => expr_holds(e, scope),
    }
}

#[tactic(auto, using(crate::proofs::Declared::has_number))]
fn is_declared(name: &Word, scope: &Scope) -> bool
    ensures { result ≡ names.has_name (names_of scope.now) name.now }
{
    scope.find(name.bytes()).is_some()
}

fn condition_holds(c: &Condition, scope: &Scope) -> bool
    ensures { result ≡ names.condition_holds (names_of scope.now) (condition_of c.now) }
{
    match c {
        Condition::Always => true,
        Condition::Compares { left, right, .. } => {
            expr_holds(left, scope) && expr_holds(right, scope)
        }
    }
}

/// Whether the names of the statements of a block hold. What the block declares is forgotten where they do.
#[cycle(block_names)]
#[tactic(auto, using(crate::proofs::Parts::statement_deep, crate::proofs::Parts::drop_statement, crate::proofs::Parts::drop_last))]
pub fn block_holds(body: &Statements, scope: &mut Scope) -> Result<bool, AllocError>
    ensures told { IfOk result (λ b. b ≡ names.statements_hold (names_of scope.old) (list_of_statements body.now)) }
    ensures kept { IfOk result (λ b. IsTrue b → scope.new ≡ scope.old) }
{
    let mark = scope.mark();
    for i in 0..body.len() {
        if let Some(s) = body.get(i) {
            if !statement_holds(s, scope)? {
                return Ok(false);
            }
        }
    }
    scope.back_to(mark);
    Ok(true)
}

// Whether the names of a statement hold. What it declares is in the scope behind it where they do.
#[cycle(block_names)]
fn statement_holds(s: &Statement, scope: &mut Scope) -> Result<bool, AllocError>
    ensures told { IfOk result (λ b. b ≡ names.statement_holds (names_of scope.old) (statement_of s.now)) }
    ensures behind { IfOk result (λ b. IsTrue b → names_of scope.new ≡ declared_behind (statement_of s.now) (names_of scope.old)) }
    ensures grows { IfOk result (λ b. IsTrue b → (ds : List (List ℕ × ℕ)) × (scope.new ≡ ds ++ scope.old)) }
{
    match s {
        Statement::Declare { name, value } => declare(name, value, scope),
        Statement::Assign { name, value } => Ok(
            is_declared(name, scope) && expr_holds(value, scope),
        ),
        Statement::If { test, body } => tested(test, body, scope),
        Statement::For { test, body } => tested(test, body, scope),
        Statement::IfElse {
            test,
            body,
            otherwise,
        } => {
            if !tested(test, body, scope)? {
                return Ok(false);
            }
            block_holds(otherwise, scope)
        }
        Statement::Puts(_) => Ok(true),
        Statement::Exit(value) => Ok(expr_holds(value, scope)),
    }
}

// Whether the names of a condition and of the block behind it hold.
#[cycle(block_names)]
fn tested(test: &Condition, body: &Statements, scope: &mut Scope) -> Result<bool, AllocError>
    ensures told { IfOk result (λ b. b ≡
        (names.condition_holds (names_of scope.old) (condition_of test.now) &&
        names.statements_hold (names_of scope.old) (list_of_statements body.now))) }
    ensures kept { IfOk result (λ b. IsTrue b → scope.new ≡ scope.old) }
{
    if !condition_holds(test, scope) {
        return Ok(false);
    }
    block_holds(body, scope)
}

// Whether the names of a declaration hold, which is in the scope behind it where they do.
fn declare(name: &Word, value: &Expr, scope: &mut Scope) -> Result<bool, AllocError>
    ensures told { IfOk result (λ b. b ≡ names.statement_holds (names_of scope.old) (declares name.now value.now)) }
    ensures behind { IfOk result (λ b. IsTrue b → scope.new ≡ (name.now, 0) ∷ scope.old) }
{
    if is_runtime(name) {
        return Ok(false);
    }
    if !expr_holds(value, scope) {
        return Ok(false);
    }
    scope.declare(name.bytes(), 0)?;
    Ok(true)
}

fn is_runtime(name: &Word) -> bool
    ensures { result ≡ bytes_eq name.now (codes "rt") }
{
    name.bytes() == b"rt".as_slice()
}
