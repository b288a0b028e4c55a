//! Values of cases that are not constant.

ghost use Rattle.std.specs.Prelude.{◌≡◌, find, option_map};
ghost use Rattle.hare_types.specs.Store.{Store};
ghost use Rattle.hare_typed.specs.Typed.{mark_of};
ghost use Rattle.hare_rules.specs.Aggregates.{but_last};
ghost use Rattle.hare_rules.specs.Constants as constants;
ghost use Rattle.hare_rules.specs.Context.{place_of};
ghost use Rattle.rule_judge.specs.Turns.{context_in};
ghost use Rattle.rule_switch.specs.Odd.{is_odd};

use hare_tree::Place;
use hare_typed::{Const, Typed, TypedKids};
use rule_judge::Turn;

/// Whether a value has no constant.
fn is_odd(value: &Typed) -> bool
    ensures { result ≡ is_odd value.now }
{
    matches!(value.value, Const::Absent)
}

/// Where the first of these values stands that has no constant. The last of them is the place of a comma.
fn odd_among(values: &TypedKids) -> Option<Place>
    ensures { result ≡ option_map place_of (find is_odd (but_last values.now)) }
{
    for i in 0..values.len().saturating_sub(1) {
        let Some(value) = values.get(i) else {
            return None;
        };
        if is_odd(value) {
            return Some(value.place);
        }
    }
    None
}

/// Where the first value of a case stands that has no constant.
fn odd_of(case: &Typed) -> Option<Place>
    ensures { result ≡ option_map place_of (find is_odd (constants.values_of case.now)) }
{
    match case.kids.get(0) {
        Some(first) => odd_among(&first.kids),
        None => None,
    }
}

/// Where the first value of all cases stands that has no constant.
pub(crate) fn odd_value(t: &Turn<'_>) -> Option<Place>
    ensures { (f : Store) → result ≡ option_map place_of (constants.odd_value (context_in f t.now)) }
{
    for i in 1..t.kids.len() {
        let Some(case) = t.kids.get(i) else {
            return None;
        };
        if let Some(place) = odd_of(case) {
            return Some(place);
        }
    }
    None
}
