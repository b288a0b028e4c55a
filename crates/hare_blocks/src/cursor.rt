//! The tokens that are left to read.

ghost use Rattle.std.specs.Prelude.{ℕ, ◌≡◌, ◌≢◌, ◌≤◌, ◌∷◌, ◌++◌, [], List, length, map, true, false, drop, IsTrue, IsFalse, IfSome, IfNone, ◌↔◌};
ghost use Rattle.hare_blocks.specs.declared.token.Token.{Token};
ghost use Rattle.hare_blocks.specs.Parsing.{BeginsUnsigned, IsNoFactor, fixed_token, sign_token};
ghost use Rattle.hare_blocks.specs.Trees as tree;
ghost use Rattle.hare_blocks.specs.Trees.{relation_token};
ghost use Rattle.hare_blocks.specs.Shape.{relation_of};

use crate::expr::Sign;
use crate::program::Relation;
use crate::token::Token;
use hare_tree::Word;
use std::marker::Model;

/// A token that the grammar fixes: a keyword, a mark, or a name that it gives a meaning.
#[derive(Clone, Copy)]
pub enum Fixed {
    Use,
    Export,
    Function,
    Void,
    U8,
    True,
    Else,
    Semicolon,
    OpenParen,
    CloseParen,
    OpenBrace,
    CloseBrace,
    Assign,
    Colon,
    PathSeparator,
    Star,
    /// The name `rt`.
    Runtime,
    /// The name `main`.
    Main,
    /// The name `exit`.
    Exit,
    /// The name `puts`.
    Puts,
    /// The name `nargs`.
    ArgCount,
}

/// Whether a word is spelled so.
pub fn is_word(word: &Word, bytes: &[u8]) -> bool
    ensures { IsTrue result ↔ word.now ≡ bytes.now }
{
    word.bytes() == bytes
}

// Whether a token is a name that is spelled so.
fn is_name(token: &Token, word: &[u8]) -> bool
    ensures { IsTrue result ↔ token.now ≡ Token.Name word.now }
{
    match token {
        Token::Name(name) => is_word(name, word),
        _ => false,
    }
}

// Whether a token is the fixed one.
fn is_fixed(token: &Token, fixed: Fixed) -> bool
    ensures { IsTrue result ↔ token.now ≡ fixed_token fixed }
{
    match fixed {
        Fixed::Use => matches!(token, Token::Use),
        Fixed::Export => matches!(token, Token::Export),
        Fixed::Function => matches!(token, Token::Function),
        Fixed::Void => matches!(token, Token::Void),
        Fixed::U8 => matches!(token, Token::U8),
        Fixed::True => matches!(token, Token::True),
        Fixed::Else => matches!(token, Token::Else),
        Fixed::Semicolon => matches!(token, Token::Semicolon),
        Fixed::OpenParen => matches!(token, Token::OpenParen),
        Fixed::CloseParen => matches!(token, Token::CloseParen),
        Fixed::OpenBrace => matches!(token, Token::OpenBrace),
        Fixed::CloseBrace => matches!(token, Token::CloseBrace),
        Fixed::Assign => matches!(token, Token::Assign),
        Fixed::Colon => matches!(token, Token::Colon),
        Fixed::PathSeparator => matches!(token, Token::PathSeparator),
        Fixed::Star => matches!(token, Token::Star),
        Fixed::Runtime => is_name(token, b"rt"),
        Fixed::Main => is_name(token, b"main"),
        Fixed::Exit => is_name(token, b"exit"),
        Fixed::Puts => is_name(token, b"puts"),
        Fixed::ArgCount => is_name(token, b"nargs"),
    }
}

/// The tokens that are left to read, which contracts see as a list.
#[derive(Drop)]
pub struct Cursor<'a> {
    rest: &'a [Token],
}

impl<'a> Model for Cursor<'a> {
    ghost use Rattle.std.specs.Prelude.{List};
    ghost use Rattle.hare_blocks.specs.declared.token.Token.{Token};

    ghost Value = { List Token };

    ghost view = { λ a. a.rest.now };
}

impl<'a> Cursor<'a> {
    pub fn new(tokens: &'a [Token]) -> Cursor<'a>
        ensures { result ≡ tokens.now }
    {
        Cursor { rest: tokens }
    }

    /// The tokens.
    pub fn left(&self) -> &'a [Token]
        ensures { result.now ≡ self.now }
    {
        self.rest
    }

    /// Takes the next token, none at the end.
    pub fn next(&mut self) -> Option<&'a Token>
        ensures none { IfNone result (self.old ≡ []) }
        ensures some { IfSome result (λ t. self.old ≡ t.now ∷ self.new) }
    {
        let (first, rest) = self.rest.split_first()?;
        self.rest = rest;
        Some(first)
    }

    /// Takes the next token if it is this one.
    pub fn takes(&mut self, fixed: Fixed) -> bool
        ensures taken { IsTrue result → self.old ≡ fixed_token fixed ∷ self.new }
        ensures kept { IsFalse result → self.new ≡ self.old }
        ensures absent { IsFalse result → (rest : List Token) → self.old ≢ fixed_token fixed ∷ rest }
    {
        match self.rest.split_first() {
            Some((first, rest)) => {
                if !is_fixed(first, fixed) {
                    return false;
                }
                self.rest = rest;
                true
            }
            None => false,
        }
    }

    /// Takes tokens if they are the next ones.
    pub fn takes_all(&mut self, fixed: &[Fixed]) -> bool
        ensures taken { IsTrue result → self.old ≡ map fixed_token fixed.now ++ self.new }
        ensures absent { IsFalse result → (rest : List Token) → self.old ≢ map fixed_token fixed.now ++ rest }
    {
        for piece in fixed {
            if !self.takes(*piece) {
                return false;
            }
        }
        true
    }

    /// Takes a plus or a minus if one is next.
    pub fn takes_sign(&mut self) -> Option<Sign>
        ensures none { IfNone result (BeginsUnsigned self.old) }
        ensures kept { IfNone result (self.new ≡ self.old) }
        ensures some { IfSome result (λ s. self.old ≡ sign_token s ∷ self.new) }
    {
        let (first, rest) = self.rest.split_first()?;
        let sign = match first {
            Token::Plus => Sign::Plus,
            Token::Minus => Sign::Minus,
            _ => return None,
        };
        self.rest = rest;
        Some(sign)
    }

    /// Takes the sign of a relation if one is next.
    pub fn takes_relation(&mut self) -> Option<Relation>
        ensures none { IfNone result ((r : tree.Relation) (rest : List Token) → self.old ≢ relation_token r ∷ rest) }
        ensures some { IfSome result (λ r. self.old ≡ relation_token (relation_of r) ∷ self.new) }
    {
        let (first, rest) = self.rest.split_first()?;
        let relation = match first {
            Token::Less => Relation::Less,
            Token::LessEqual => Relation::LessEqual,
            Token::Greater => Relation::Greater,
            Token::GreaterEqual => Relation::GreaterEqual,
            Token::Equal => Relation::Equal,
            Token::Differ => Relation::Differ,
            _ => return None,
        };
        self.rest = rest;
        Some(relation)
    }

    /// Takes the next token if it is a name.
    pub fn takes_name(&mut self) -> Option<&'a Word>
        ensures none { IfNone result ((x : List ℕ) (rest : List Token) → self.old ≢ Token.Name x ∷ rest) }
        ensures some { IfSome result (λ x. self.old ≡ Token.Name x.now ∷ self.new) }
    {
        match self.rest.split_first() {
            Some((Token::Name(name), rest)) => {
                self.rest = rest;
                Some(name)
            }
            _ => None,
        }
    }

    /// Takes the next token if it is a string.
    pub fn takes_text(&mut self) -> Option<&'a Word>
        ensures none { IfNone result ((x : List ℕ) (rest : List Token) → self.old ≢ Token.Text x ∷ rest) }
        ensures some { IfSome result (λ x. self.old ≡ Token.Text x.now ∷ self.new) }
    {
        match self.rest.split_first() {
            Some((Token::Text(text), rest)) => {
                self.rest = rest;
                Some(text)
            }
            _ => None,
        }
    }
}
