//! What the cases of a `switch` are for.

ghost use Rattle.std.specs.Prelude.{◌≡◌, true, false, IfOk, IfSome, IfNone};
ghost use Rattle.hare_types.specs.declared.coercion.Ty.TheVariants.{Of};
ghost use Rattle.hare_types.specs.declared.row.Scalar.TheVariants as keyword;
ghost use Rattle.hare_types.specs.Store.{Store};
ghost use Rattle.hare_types.specs.Later.{IsLater};
ghost use Rattle.hare_typed.specs.Given.{base_row as row_of_base};
ghost use Rattle.hare_typed.specs.Order.{kid_from_front};
ghost use Rattle.hare_rules.specs.Aggregates.{but_last};
ghost use Rattle.hare_rules.specs.Constants as constants;
ghost use Rattle.hare_rules.specs.Context.{is_there};
ghost use Rattle.hare_rules.specs.Words.{is_word};
ghost use Rattle.rule_judge.specs.Defined.{IsDefined};
ghost use Rattle.rule_switch.specs.Labels.{label_told};

use crate::texts::text_in;
use hare_const::number_of;
use hare_typed::{Const, Typed, TypedKids};
use hare_types::{Row, Scalar, Ty, TypeId, TypeStore};
use rule_judge::{base_row, is_there};
use std::alloc::{AllocError, Global};

/// What a case is for.
#[derive(Debug, PartialEq, Eq, Hash, Drop)]
pub(crate) enum Label {
    /// All that no other case is for.
    Default,
    /// A number.
    Value(i128),
    /// The bytes of a text.
    Text(Vec<u8>),
    /// No constant of the type.
    Lacking,
}

/// Whether the base of a type is `str`.
fn is_str(s: &TypeStore, t: TypeId) -> bool
    requires { IsDefined s.now t }
    ensures { (f : Store) → IsLater s.now f → result ≡ is_word keyword.Str (row_of_base f (Of t)) }
{
    matches!(base_row(s, &Ty::Of(t)), Some(Row::Scalar(Scalar::Str)))
}

/// The number that a constant of a type is.
pub(crate) fn number_label(s: &TypeStore, t: TypeId, c: &Const) -> Label
    requires { IsDefined s.now t }
    ensures { (f : Store) → IsLater s.now f → label_told result ≡ constants.value_label (constants.number_in f t c.now) }
{
    let _law = s.declarations();
    match number_of(s, t, c) {
        Some(v) => Label::Value(v),
        None => Label::Lacking,
    }
}

/// The text that a constant is.
fn text_label(alloc: Global, c: &Const) -> Result<Label, AllocError>
    ensures { IfOk result (λ l. label_told l ≡ constants.text_label (constants.text_in c.now)) }
{
    let text = text_in(alloc, c)?;
    match text {
        Some(bytes) => Ok(Label::Text(bytes)),
        None => Ok(Label::Lacking),
    }
}

/// What a constant is as a value of the type by which a `switch` goes.
pub(crate) fn label_of(
    alloc: Global,
    s: &TypeStore,
    to: &Option<TypeId>,
    c: &Const,
) -> Result<Label, AllocError>
    requires { IfSome to.now (IsDefined s.now) }
    ensures { IfOk result (λ l. (f : Store) → IsLater s.now f → label_told l ≡ constants.label_of f to.now c.now) }
{
    let Some(t) = to else {
        return Ok(Label::Lacking);
    };
    if is_str(s, *t) {
        let text = text_label(alloc, c)?;
        return Ok(text);
    }
    Ok(number_label(s, *t, c))
}

/// The values of a case, with the place of a comma behind them; none where the case is for all others.
pub(crate) fn values_of(case: &Typed) -> Option<&TypedKids>
    ensures some { IfSome result (λ vs. is_there (kid_from_front 0 case.now) ≡ true) }
    ensures values { IfSome result (λ vs. constants.values_of case.now ≡ but_last vs.now) }
    ensures none { IfNone result (is_there (kid_from_front 0 case.now) ≡ false) }
{
    if !is_there(&case.kids, 0) {
        return None;
    }
    match case.kids.get(0) {
        Some(first) => Some(&first.kids),
        None => None,
    }
}
