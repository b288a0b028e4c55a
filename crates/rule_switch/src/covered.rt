//! Whether the cases are for all values.

ghost use Rattle.std.specs.Prelude.{◌≡◌, ℕ, ◌≤◌, ◌^◌, pos, neg_ℤ, ◌≤ℤ◌, ◌<ℤ◌, Some, not, if◌then◌else◌, drop, map, Option, IfOk, IfSome};
ghost use Rattle.std.specs.List.{list_any};
ghost use Rattle.std.specs.Ordering.{int_eq};
ghost use Rattle.hare_types.specs.Store.{Store};
ghost use Rattle.hare_types.specs.Later.{IsLater};
ghost use Rattle.hare_typed.specs.Order.{kid_from_front};
ghost use Rattle.hare_rules.specs.Aggregates.{but_last};
ghost use Rattle.hare_rules.specs.Constants as constants;
ghost use Rattle.hare_rules.specs.Context.{is_there};
ghost use Rattle.hare_rules.specs.Rows.{holds};
ghost use Rattle.hare_rules.specs.declared.row_id.RowId.TheVariants as row;
ghost use Rattle.rule_judge.specs.Defined.{IsDefined};
ghost use Rattle.rule_judge.specs.Grown.{IsGrown};
ghost use Rattle.rule_judge.specs.Turns.{context_in, IsTurn};
ghost use Rattle.rule_switch.specs.Labels.{label_told, numbers_in, counted, is_default, is_number_within, range_told, HasLimits};

use crate::labels::{Label, number_label, values_of};
use crate::operand::switched;
use hare_const::{Limits, limits_at};
use hare_typed::{Const, Typed, TypedKids};
use hare_types::{TypeId, TypeStore};
use rule_judge::{Turn, is_there};
use std::alloc::AllocError;

/// Whether a label is a number within the limits.
fn is_within(label: &Label, limits: Limits) -> bool
    ensures { result ≡ is_number_within (range_told limits) (label_told label.now) }
{
    match label {
        Label::Value(v) => limits.least <= *v && *v <= limits.greatest,
        Label::Default | Label::Text(_) | Label::Lacking => false,
    }
}

/// 1 for a constant that is a number within the limits of its type, and 0 for any other.
fn tally(s: &TypeStore, t: TypeId, limits: Limits, c: &Const) -> usize
    requires defined { IsDefined s.now t }
    requires limits { HasLimits s.now t limits }
    ensures value { (f : Store) → IsLater s.now f →
        result ≡ (if is_number_within (range_told limits) (constants.label_of f (Some t) c.now) then 1 else 0) }
    ensures few { result ≤ 1 }
{
    let _law = s.declarations();
    let label = number_label(s, t, c);
    if is_within(&label, limits) { 1 } else { 0 }
}

/// How many of the values of a case are numbers within the limits of their type. The last of them is the place of a comma.
fn count_values(s: &TypeStore, t: TypeId, limits: Limits, values: &TypedKids) -> usize
    requires defined { IsDefined s.now t }
    requires limits { HasLimits s.now t limits }
    ensures { (f : Store) → IsLater s.now f →
        result ≡ counted (range_told limits) (map (constants.labelled f (Some t)) (but_last values.now)) }
{
    let mut count = 0;
    for i in 0..values.len().saturating_sub(1) {
        let Some(value) = values.get(i) else {
            unreachable!();
        };
        count += tally(s, t, limits, &value.value);
    }
    count
}

/// The same of what a case is for, which is no number where it is all others.
fn count_case(s: &TypeStore, t: TypeId, limits: Limits, case: &Typed) -> usize
    requires defined { IsDefined s.now t }
    requires limits { HasLimits s.now t limits }
    ensures { (f : Store) → IsLater s.now f → result ≡ counted (range_told limits) (constants.labels_of f (Some t) case.now) }
{
    match values_of(case) {
        Some(values) => count_values(s, t, limits, values),
        None => 0,
    }
}

/// The same of all cases: the kids behind the first. There are fewer than 2^64 of them, and as few values in each, so that the sum fits.
fn count_within(s: &TypeStore, t: TypeId, limits: Limits, kids: &TypedKids) -> u128
    requires defined { IsDefined s.now t }
    requires limits { HasLimits s.now t limits }
    ensures { (f : Store) → IsLater s.now f → result ≡ counted (range_told limits) (constants.each_label f (Some t) (drop 1 kids.now)) }
{
    let mut count: u128 = 0;
    for i in 1..kids.len() {
        let Some(case) = kids.get(i) else {
            unreachable!();
        };
        count += count_case(s, t, limits, case) as u128;
    }
    count
}

/// Whether so many numbers are all that the limits allow.
fn is_width(count: u128, limits: Limits) -> bool
    requires low { neg_ℤ (pos (2 ^ 63)) ≤ℤ limits.least }
    requires some { limits.least ≤ℤ limits.greatest }
    requires high { limits.greatest <ℤ pos (2 ^ 64) }
    ensures { result ≡ int_eq (pos count) (constants.width_of (range_told limits)) }
{
    count == (limits.greatest - limits.least + 1) as u128
}

/// Whether a case is for all that no other is for: it has no values.
fn is_default(case: &Typed) -> bool
    ensures { result ≡ not (is_there (kid_from_front 0 case.now)) }
{
    !is_there(&case.kids, 0)
}

/// Whether one of the cases is for all that no other is for: of the kids behind the first.
fn has_default(kids: &TypedKids) -> bool
    ensures { (f : Store) (o : Option ℕ) → result ≡ list_any is_default (constants.each_label f o (drop 1 kids.now)) }
{
    for i in 1..kids.len() {
        let Some(case) = kids.get(i) else {
            unreachable!();
        };
        if is_default(case) {
            return true;
        }
    }
    false
}

/// Whether the values of the cases, none of which stands twice, are all values of a type. None are those of `str`, or of no type. They are
/// counted as they stand there, and no text is looked at.
fn are_all(s: &TypeStore, to: &Option<TypeId>, kids: &TypedKids) -> bool
    requires { IfSome to.now (IsDefined s.now) }
    ensures { (f : Store) → IsLater s.now f → result ≡ constants.lists_range (constants.range_at f to.now)
        (numbers_in (constants.each_label f to.now (drop 1 kids.now))) }
{
    let _law = s.declarations();
    let Some(t) = to else {
        return false;
    };
    match limits_at(s, *t) {
        Some(limits) => is_width(count_within(s, *t, limits, kids), limits),
        None => false,
    }
}

/// Whether the cases are for all values of the operand's type: one of them has no values, or each value is listed.
pub(crate) fn is_covered(s: &mut TypeStore, t: &Turn<'_>) -> Result<bool, AllocError>
    requires { IsTurn s.old t.now }
    ensures value { IfOk result (λ b. (f : Store) → IsLater s.new f → b ≡ holds row.SwitchCovered (context_in f t.now)) }
    ensures grown { IsGrown s.old s.new }
{
    let _law = s.declarations();
    let to = switched(s, t)?;
    if has_default(t.kids) {
        return Ok(true);
    }
    Ok(are_all(s, &to, t.kids))
}
