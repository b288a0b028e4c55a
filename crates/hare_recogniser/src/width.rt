//! Places behind tokens, of which strings side by side are one.

ghost use Rattle.std.specs.Prelude.{◌≡◌, ◌+◌, Some, drop, slice_get};
ghost use Rattle.hare_recogniser.specs.Width.{strings_in_front, width};

use hare_ll_table::{is_proper_string, place_behind};
use hare_tree::{Token, Tokens};

/// The place in the list behind a token, or behind the strings side by side of which it is the first.
#[tactic(auto, using(crate::proofs::Steps::Widths::width_strings, crate::proofs::Steps::Widths::width_other, std::proofs::lemmas::Option::slice_get_within))]
pub fn place_behind_joined(tokens: &Tokens, at: usize, token: &Token) -> usize
    requires { slice_get tokens.now at ≡ Some token.now }
    ensures { result ≡ at + width (drop at tokens.now) }
{
    let next = place_behind(tokens, at);
    if is_proper_string(token) {
        place_behind_strings(tokens, next)
    } else {
        next
    }
}

/// The place from this one on that is not a string's.
#[tactic(auto, using(crate::proofs::Steps::Widths::strings_at_more, crate::proofs::Steps::Widths::strings_at_other, crate::proofs::Steps::Widths::strings_past, std::proofs::lemmas::Option::slice_get_within))]
fn place_behind_strings(tokens: &Tokens, at: usize) -> usize
    ensures { result ≡ at + strings_in_front (drop at tokens.now) }
{
    let mut next = at;
    while let Some(token) = tokens.get(next) {
        if !is_proper_string(token) {
            return next;
        }
        next = place_behind(tokens, next);
    }
    next
}
