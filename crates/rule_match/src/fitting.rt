//! Whether the operand of a `match` can be matched, and which patterns are of its type.

ghost use Rattle.std.specs.Prelude.{◌≡◌, option_map};
ghost use Rattle.hare_types.specs.Store.{Store};
ghost use Rattle.hare_types.specs.Later.{IsLater};
ghost use Rattle.hare_rules.specs.Context.{place_of};
ghost use Rattle.hare_rules.specs.Control as control;
ghost use Rattle.hare_rules.specs.Words as words;
ghost use Rattle.rule_judge.specs.Defined.{IsDefinedTy};
ghost use Rattle.rule_judge.specs.Turns.{context_in, IsTurn};
ghost use Rattle.rule_match.specs.Patterns.{meant, IsDefinedPattern};

use crate::patterns::{Pattern, pattern_at, pattern_place};
use hare_tree::Place;
use hare_types::{Row, Ty, TypeStore};
use rule_judge::{Turn, base_row, is_member, seen};

/// Whether the base of the type is a union, or a pointer that may be null.
pub(crate) fn is_tagged(s: &TypeStore, a: &Ty) -> bool
    requires { IsDefinedTy s.now a.now }
    ensures { (f : Store) → IsLater s.now f → result ≡ words.is_tagged f a.now }
{
    matches!(base_row(s, a), Some(Row::Union(_) | Row::Nullable(_)))
}

/// Whether the pattern is one of the type: no pattern, or a member of the union that is its base; where that is `nullable *X`, `null` or
/// `*X` itself. A union has at most 64 members.
fn is_fitting(s: &TypeStore, a: &Ty, p: Pattern) -> bool
    requires operand { IsDefinedTy s.now a.now }
    requires pattern { IsDefinedPattern s.now (meant p) }
    ensures { (f : Store) → IsLater s.now f → result ≡ control.fits_pattern f a.now (meant p) }
{
    match p {
        Pattern::Default => true,
        Pattern::NullPointer => matches!(base_row(s, a), Some(Row::Nullable(_))),
        Pattern::Member(t) => is_member(s, a, t),
        Pattern::Lacking => false,
    }
}

/// Where the first pattern stands that is none of the operand's type; none where each is.
pub(crate) fn odd_pattern(s: &TypeStore, t: &Turn<'_>) -> Option<Place>
    requires { IsTurn s.now t.now }
    ensures { (f : Store) → IsLater s.now f → result ≡ option_map (λ x. place_of (control.pattern_kid x))
        (control.odd_case (context_in f t.now)) }
{
    let operand = seen(t, 0);
    for i in 1..t.kids.len() {
        if !is_fitting(s, &operand, pattern_at(t.kids, i)) {
            return Some(pattern_place(t.kids, i));
        }
    }
    None
}
