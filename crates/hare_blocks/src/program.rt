//! The trees of conditions, statements and programs, which contracts see as plain trees without addresses.

ghost use Rattle.std.specs.Prelude.{◌≡◌, ◌≤◌, [], ◌∷◌, ◌++◌, ◌==◌, length, map, slice_get, Some, IfSome, IfNone, OnOk, OnErr};
ghost use Rattle.hare_blocks.specs.Shape.{statement_of};

use crate::expr::Expr;
use hare_tree::Word;
use std::alloc::{AllocError, Global};
use std::marker::Model;

/// How two numbers are compared.
#[derive(Clone, Copy, Debug, PartialEq, Eq)]
pub enum Relation {
    /// `<`
    Less,
    /// `<=`
    LessEqual,
    /// `>`
    Greater,
    /// `>=`
    GreaterEqual,
    /// `==`
    Equal,
    /// `!=`
    Differ,
}

/// What an `if` or a `for` tests.
#[derive(Drop)]
pub enum Condition {
    /// `true`
    Always,
    /// The relation of two expressions.
    Compares {
        left: Expr,
        relation: Relation,
        right: Expr,
    },
}

/// A statement of a block. Contracts see the tree that it stands for by `statement_of` (`specs/Shape.antt`).
#[derive(Drop)]
#[cycle(statement_tree)]
pub enum Statement {
    /// `let` with the name and the value of the variable.
    Declare {
        name: Word,
        value: Expr,
    },
    /// The newest variable with the name gets another value.
    Assign {
        name: Word,
        value: Expr,
    },
    /// `if` without `else`.
    If {
        test: Condition,
        body: Statements,
    },
    /// `if` with `else`.
    IfElse {
        test: Condition,
        body: Statements,
        otherwise: Statements,
    },
    /// `for`, whose condition is tested before each turn.
    For {
        test: Condition,
        body: Statements,
    },
    /// `rt::puts`, with the characters between the quotes.
    Puts(Word),
    /// `rt::exit`, with the value of which the low eight bits are the status.
    Exit(Expr),
}

/// The statements of a block, which contracts see as a list of trees.
#[derive(Drop)]
#[cycle(statement_tree)]
pub struct Statements {
    items: Vec<Statement>,
}

/// The body of `main`. Contracts see the tree that it stands for by `program_of` (`specs/Shape.antt`).
#[derive(Drop)]
pub enum Program {
    /// One exit, with its value.
    Exit(Expr),
    /// A block.
    Block(Statements),
}

impl Model for Statements {
    ghost use Rattle.std.specs.Prelude.{List, map};
    ghost use Rattle.std.specs.Coded.{coded_list};
    ghost use Rattle.hare_blocks.specs.Trees.{Statement};
    ghost use Rattle.hare_blocks.specs.Sizes.{statements_size, list_of_statements};
    ghost use Rattle.hare_blocks.specs.Codes.{coded_statement};

    ghost Value = { List Statement };

    ghost coded = { coded_list coded_statement };

    ghost use Rattle.hare_blocks.specs.Shape.{statement_of};

    ghost view = { λ a. map statement_of a.items.items };

    ghost size = { λ ss. statements_size (list_of_statements ss) };

    ghost use Rattle.std.proofs.Common.{arith};
    ghost use Rattle.hare_blocks.specs.Falls.{most_le-statements_size};

    ghost size_decreases = { λ a h. Prim.omega (arith, most_le-statements_size a.items.items) };
}

impl Statements {
    /// No statements. Takes no memory.
    pub fn new(alloc: Global) -> Statements
        ensures { result ≡ [] }
    {
        Statements {
            items: Vec::new(alloc),
        }
    }

    /// How many statements there are.
    pub fn len(&self) -> usize
        ensures { result ≡ length self.now }
    {
        self.items.len()
    }

    /// Whether there are no statements.
    pub fn is_empty(&self) -> bool
        ensures { result ≡ (length self.now == 0) }
    {
        self.items.is_empty()
    }

    /// The statement with `i` statements before it, or none where there are no more than `i`.
    pub fn get(&self, i: usize) -> Option<&Statement>
        ensures past { IfNone result (length self.now ≤ i) }
        ensures found { IfSome result (λ s. slice_get self.now i ≡ Some (statement_of s.now)) }
    {
        self.items.get(i)
    }

    /// Puts a statement at the end. Nothing changes where memory is short; the statement is dropped then.
    pub fn push(&mut self, s: Statement) -> Result<(), AllocError>
        ensures ok { OnOk result (self.new ≡ self.old ++ statement_of s ∷ []) }
        ensures err { OnErr result (self.new ≡ self.old) }
    {
        self.items.push(s)?;
        Ok(())
    }
}
