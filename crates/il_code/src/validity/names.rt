//! Names: identifiers, and lists of things that have names.

ghost use Rattle.std.specs.Prelude.{◌≡◌, ℕ, List};
ghost use Rattle.std.specs.List.{list_all};
ghost use Rattle.il_code.specs.Tokens.{is_digit_byte, is_name_byte, is_identifier};
ghost use Rattle.il_code.specs.Rules.{item_name, how_many, are_distinct, has_named, has_own_names};
ghost use Rattle.il_code.specs.Shaped.{some};

use crate::types::{Block, IlItem, IlParam, PhiArg};
use hx_runtime::is_reserved;

/// What has a name.
pub trait Named {
    /// The name.
    ghost name_of: { Self → List ℕ };

    /// The name.
    fn name(&self) -> &[u8]
        ensures { result.now ≡ name_of self.now };
}

impl Named for IlItem {
    ghost name_of = { λ i. item_name i };

    fn name(&self) -> &[u8] {
        match self {
            IlItem::Data { name, .. } => name.bytes(),
            IlItem::Function { name, .. } => name.bytes(),
        }
    }
}

impl Named for IlParam {
    ghost name_of = { λ p. p.name };

    fn name(&self) -> &[u8] {
        self.name.bytes()
    }
}

impl Named for Block {
    ghost name_of = { λ b. b.label };

    fn name(&self) -> &[u8] {
        self.label.bytes()
    }
}

impl Named for PhiArg {
    ghost name_of = { λ a. a.label };

    fn name(&self) -> &[u8] {
        self.label.bytes()
    }
}

fn is_digit_byte(c: u8) -> bool
    ensures { result ≡ is_digit_byte c }
{
    c.is_ascii_digit()
}

fn is_name_byte(c: u8) -> bool
    ensures { result ≡ is_name_byte c }
{
    c.is_ascii_lowercase() || c.is_ascii_uppercase() || is_digit_byte(c) || c == b'_' || c == b'.'
}

/// Whether a text is an identifier.
pub fn is_identifier(s: &[u8]) -> bool
    ensures { result ≡ is_identifier s.now }
{
    match s {
        [] => false,
        [first, ..] => !is_digit_byte(*first) && are_name_bytes(s),
    }
}

fn are_name_bytes(s: &[u8]) -> bool
    ensures { result ≡ list_all is_name_byte s.now }
{
    s.iter().all(|c| is_name_byte(*c))
}

/// How many have this name.
fn how_many<T: Named>(name: &[u8], xs: &[T]) -> usize
    ensures { result ≡ how_many T.name_of name.now xs.now }
{
    xs.iter().filter(|x| x.name() == name).count()
}

/// Whether no two have one name.
pub fn are_distinct<T: Named>(xs: &[T]) -> bool
    ensures { result ≡ are_distinct T.name_of xs.now }
{
    xs.iter().all(|x| how_many(x.name(), xs) == 1)
}

/// Whether one has this name.
pub fn has_named<T: Named>(name: &[u8], xs: &[T]) -> bool
    ensures { result ≡ has_named T.name_of name.now xs.now }
{
    xs.iter().any(|x| x.name() == name)
}

/// Whether there is an element at all.
pub fn some<T>(xs: &[T]) -> bool
    ensures { result ≡ some xs.now }
{
    match xs {
        [] => false,
        [_, ..] => true,
    }
}

/// Whether a symbol is none of the runtime's, and a function's parameters and labels differ.
pub fn has_own_names(i: &IlItem) -> bool
    ensures { result ≡ has_own_names i.now }
{
    match i {
        IlItem::Data { name, .. } => !is_reserved(name.bytes()),
        IlItem::Function {
            name,
            params,
            blocks,
            ..
        } => {
            !is_reserved(name.bytes())
                && are_distinct(params.as_slice())
                && are_distinct(blocks.as_slice())
        }
    }
}
