//! The tokens of a text.

ghost use Rattle.std.specs.Prelude.{◌≡◌, List, IfOk, IfSome, MatchOption};
ghost use Rattle.hare_blocks.specs.declared.token.Token.{Token};
ghost use Rattle.hare_blocks.specs.Tokens.{Spells};

use crate::lex::{token_at, token_of};
use crate::scan::unblanked;
use crate::token::Token;
use std::alloc::{AllocError, Global};

/// The tokens of a text that is blanks and tokens, each the longest that fits. None where the text is anything else: it has a comment, a
/// word, a number or a byte that no token of the class has.
pub fn tokens(alloc: Global, text: &[u8]) -> Result<Option<Vec<Token>>, AllocError>
    ensures sound { IfOk result (λ found. IfSome found (λ v. Spells v.items text.now)) }
    ensures whole { (ts : List Token) → Spells ts text.now → IfOk result (λ found. MatchOption found ⊥ (λ v. v.items ≡ ts)) }
{
    let mut tokens = Vec::new(alloc);
    let mut rest = text;
    'rest: loop {
        let front = unblanked(rest);
        if front.is_empty() {
            return Ok(Some(tokens));
        }
        let Some((found, behind)) = token_at(front) else {
            return Ok(None);
        };
        let token = token_of(alloc, found)?;
        tokens.push(token)?;
        rest = behind;
    }
}
