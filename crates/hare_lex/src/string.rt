//! The text between the quotes of a string.

ghost use Rattle.std.specs.Prelude.{◌≡◌, ◌≤◌, IfOk, length, false, true, IfSome};
ghost use Rattle.hare_lex.specs.Lexing.{bad_escape, unescaped, escape_at};

use crate::literal::escape;
use hare_tree::Word;
use std::alloc::{AllocError, Global};

// How many bytes are left from the first backslash on that begins no escape, where there is one.
#[tactic(auto, using(crate::proofs::Turns::Steps::bad_escape_at))]
pub fn bad_escape(s: &[u8]) -> Option<usize>
    ensures value { result ≡ bad_escape 0 s.now }
    ensures within { IfSome result (λ n. n ≤ length s.now) }
{
    let mut rest = s;
    while let Some((first, behind)) = rest.split_first() {
        if *first != 92 {
            rest = behind;
            continue;
        }
        let Some((_, len)) = escape(behind) else {
            return Some(rest.len());
        };
        rest = behind.split_at(len).1;
    }
    None
}

// The bytes with each escape replaced by its character.
#[tactic(auto, using(crate::proofs::Turns::Steps::unescaped_more))]
pub fn unescaped(alloc: Global, s: &[u8]) -> Result<Word, AllocError>
    ensures { IfOk result (λ w. w ≡ unescaped 0 s.now) }
{
    let mut word = Word::new(alloc);
    let mut rest = s;
    while let Some((first, behind)) = rest.split_first() {
        match escape_at(*first, behind) {
            Some((character, len)) => {
                let mut buffer = [0; 4];
                word.extend(character.encode_utf8(&mut buffer).as_bytes())?;
                rest = behind.split_at(len).1;
            }
            None => {
                word.push(*first)?;
                rest = behind;
            }
        }
    }
    Ok(word)
}

// The escape at a backslash.
fn escape_at(first: u8, behind: &[u8]) -> Option<(char, usize)>
    ensures value { result ≡ escape_at first behind.now }
    ensures within { IfSome result (λ r. r.1 ≤ length behind.now) }
{
    if first == 92 { escape(behind) } else { None }
}
