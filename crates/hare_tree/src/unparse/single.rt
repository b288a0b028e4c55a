//! Single tokens at the end of a list.

ghost use Rattle.std.specs.Prelude.{◌≡◌, [], ◌∷◌, ◌++◌, OnOk};
ghost use Rattle.hare_tree.specs.Node.{head};
ghost use Rattle.hare_tree.specs.Spell as spec;

use crate::form::Sign;
use crate::place::Place;
use crate::sign::{sign_kind, sign_word};
use crate::token::{Suffix, Token, TokenKind};
use crate::tokens::Tokens;
use crate::tree::Tree;
use crate::word::Word;
use std::alloc::{AllocError, Global};

/// Line 1 and column 1 of a file.
fn start_of(file: u32) -> Place
    ensures { result ≡ spec.start_of file }
{
    Place {
        file,
        line: 1,
        column: 1,
    }
}

/// Puts a token that says no more than its spelling.
pub fn put_word(
    out: &mut Tokens,
    alloc: Global,
    file: u32,
    kind: TokenKind,
    text: &[u8],
) -> Result<(), AllocError>
    ensures { OnOk result (out.new ≡ out.old ++ spec.word_token file kind text.now ∷ []) }
{
    let text = Word::copy(alloc, text)?;
    out.push(Token {
        kind,
        place: start_of(file),
        text,
        number: 0,
        suffix: Suffix::None,
    })?;
    Ok(())
}

/// Puts a token with all that the tree says.
pub fn put_full(
    out: &mut Tokens,
    alloc: Global,
    file: u32,
    kind: TokenKind,
    t: &Tree,
) -> Result<(), AllocError>
    ensures { OnOk result (out.new ≡ out.old ++ spec.full_token file kind (head t.now) ∷ []) }
{
    let text = Word::copy(alloc, t.text.bytes())?;
    out.push(Token {
        kind,
        place: start_of(file),
        text,
        number: t.number,
        suffix: t.suffix,
    })?;
    Ok(())
}

/// Puts a keyword or mark.
pub fn put_sign(out: &mut Tokens, alloc: Global, file: u32, s: Sign) -> Result<(), AllocError>
    ensures { OnOk result (out.new ≡ out.old ++ spec.sign_token file s ∷ []) }
{
    put_word(out, alloc, file, sign_kind(s), sign_word(s))
}
