//! Lists of tokens, which contracts see as lists.

ghost use Rattle.std.specs.Prelude.{◌≡◌, [], ◌∷◌, ◌++◌, length, slice_get, option_copied, OnOk, OnErr};
ghost use Rattle.hare_tree.specs.Grammar.{before_end};

use crate::token::Token;
use std::alloc::{AllocError, Global};
use std::marker::Model;

/// A list of tokens.
#[derive(Drop)]
pub struct Tokens {
    tokens: Vec<Token>,
}

impl Model for Tokens {
    ghost use Rattle.std.specs.Prelude.{List};
    ghost use Rattle.hare_tree.specs.declared.token.Token.{Token};

    ghost Value = { List Token };

    ghost view = { λ a. a.tokens.items };
}

impl Tokens {
    /// No tokens.
    pub fn new(alloc: Global) -> Tokens
        ensures { result ≡ [] }
    {
        Tokens {
            tokens: Vec::new(alloc),
        }
    }

    /// Puts a token at the end. Nothing changes where memory is short.
    pub fn push(&mut self, t: Token) -> Result<(), AllocError>
        ensures ok { OnOk result (self.new ≡ self.old ++ t ∷ []) }
        ensures err { OnErr result (self.new ≡ self.old) }
    {
        self.tokens.push(t)?;
        Ok(())
    }

    /// Takes the last token off, where there is one.
    pub fn drop_last(&mut self)
        ensures { self.new ≡ before_end self.old }
    {
        let _ = self.tokens.pop();
    }

    /// How many tokens there are.
    pub fn len(&self) -> usize
        ensures { result ≡ length self.now }
    {
        self.tokens.len()
    }

    /// The token at a place of the list.
    pub fn get(&self, i: usize) -> Option<&Token>
        ensures { option_copied result ≡ slice_get self.now i }
    {
        self.tokens.get(i)
    }
}
