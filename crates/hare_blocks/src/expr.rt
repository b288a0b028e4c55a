//! The trees of expressions, which contracts see as plain trees without addresses.

use hare_tree::Word;
use std::marker::Model;

/// How a term is joined to what stands before it.
#[derive(Clone, Copy, Debug, PartialEq, Eq)]
pub enum Sign {
    /// `+`
    Plus,
    /// `-`
    Minus,
}

/// Terms that are added and subtracted from the left to the right.
#[derive(Drop)]
#[cycle(expr_tree)]
pub struct Expr {
    /// The first term.
    pub head: Term,
    /// The terms behind it, in the order of the source.
    pub rest: Vec<SignedTerm>,
}

/// A term with the sign in front of it.
#[derive(Drop)]
#[cycle(expr_tree)]
pub struct SignedTerm {
    pub sign: Sign,
    pub term: Term,
}

/// Factors that are multiplied from the left to the right.
#[derive(Drop)]
#[cycle(expr_tree)]
pub struct Term {
    /// The first factor.
    pub head: Factor,
    /// The factors behind it, in the order of the source.
    pub rest: Vec<Factor>,
}

/// What terms are made of. Contracts see the part of the tree that it stands for by `factor_of` (`specs/Shape.antt`).
#[derive(Drop)]
#[cycle(expr_tree)]
pub enum Factor {
    /// A number, below 2^64.
    Number(u64),
    /// `rt::nargs()`
    ArgCount,
    /// The variable with this name.
    Variable(Word),
    /// An expression in parentheses.
    Group(Box<Expr>),
}

impl Model for Expr {
    ghost use Rattle.hare_blocks.specs.Trees.{Expr};
    ghost use Rattle.hare_blocks.specs.Sizes.{expr_size};
    ghost use Rattle.hare_blocks.specs.Codes.{coded_expr};

    ghost Value = { Expr };

    ghost coded = { coded_expr };

    ghost use Rattle.hare_blocks.specs.Trees.{sum_of};
    ghost use Rattle.hare_blocks.specs.Shape.{terms_of};

    ghost view = { λ a. sum_of a.head (terms_of a.rest.items) };

    ghost size = { expr_size };

    ghost use Rattle.std.proofs.Common.{arith};
    ghost use Rattle.hare_blocks.specs.Falls.{most_le-terms_size};

    ghost size_decreases = { λ a h. Prim.omega (arith, most_le-terms_size a.rest.items) };
}

impl Model for Term {
    ghost use Rattle.hare_blocks.specs.Trees.{Term};
    ghost use Rattle.hare_blocks.specs.Sizes.{term_size};
    ghost use Rattle.hare_blocks.specs.Codes.{coded_term};

    ghost Value = { Term };

    ghost coded = { coded_term };

    ghost use Rattle.hare_blocks.specs.Trees.{product_of};
    ghost use Rattle.hare_blocks.specs.Shape.{factor_of, factors_of};

    ghost view = { λ a. product_of (factor_of a.head) (factors_of a.rest.items) };

    ghost size = { term_size };

    ghost use Rattle.std.proofs.Common.{arith};
    ghost use Rattle.hare_blocks.specs.Falls.{deep_le-factor_size, most_le-factors_size};

    ghost size_decreases = { λ a h. Prim.omega (arith, deep_le-factor_size a.head, most_le-factors_size a.rest.items) };
}
