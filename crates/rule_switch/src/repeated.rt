//! Values that stand twice.

ghost use Rattle.std.specs.Prelude.{◌≡◌, [], ◌∷◌, drop, map, option_map, IfOk, IfSome};
ghost use Rattle.hare_types.specs.Store.{Store};
ghost use Rattle.hare_types.specs.Later.{IsLater};
ghost use Rattle.hare_rules.specs.Aggregates.{but_last};
ghost use Rattle.hare_rules.specs.Constants as constants;
ghost use Rattle.rule_judge.specs.Defined.{IsDefined};
ghost use Rattle.rule_judge.specs.Grown.{IsGrown};
ghost use Rattle.rule_judge.specs.Turns.{context_in, IsTurn};
ghost use Rattle.rule_switch.specs.Labels.{is_constant, labels_met, place_in, repeated_place, told, Meets};

use crate::labels::{Label, label_of, values_of};
use crate::operand::switched;
use hare_tree::Place;
use hare_typed::{Typed, TypedKids};
use hare_types::{TypeId, TypeStore};
use indexmap::IndexSet;
use rule_judge::Turn;
use std::alloc::{AllocError, Global};

/// The labels that were met, each once.
type Met = IndexSet<Label>;

/// Whether a label is a value, or for all others.
fn is_constant(label: &Label) -> bool
    ensures { result ≡ is_constant label.now }
{
    !matches!(label, Label::Lacking)
}

/// Meets the label that stands at a place, and answers with the place if it was met before. What is no constant of the type never was.
fn meet(met: &mut Met, label: Label, place: Place) -> Result<Option<Place>, AllocError>
    ensures { IfOk result (λ o. Meets (labels_met met.old.keys) (told place label ∷ []) o (labels_met met.new.keys)) }
{
    if !is_constant(&label) {
        return Ok(None);
    }
    let is_first = met.insert(label)?;
    if is_first {
        return Ok(None);
    }
    Ok(Some(place))
}

/// Meets the values of a case in turn, and answers where the first stands that was met before. The last of them is the place of a comma.
fn meet_values(
    alloc: Global,
    s: &TypeStore,
    to: &Option<TypeId>,
    values: &TypedKids,
    met: &mut Met,
) -> Result<Option<Place>, AllocError>
    requires { IfSome to.now (IsDefined s.now) }
    ensures { IfOk result (λ o. (f : Store) → IsLater s.now f →
        Meets (labels_met met.old.keys) (map (constants.labelled f to.now) (but_last values.now)) o (labels_met met.new.keys)) }
{
    for i in 0..values.len().saturating_sub(1) {
        let Some(value) = values.get(i) else {
            unreachable!();
        };
        let label = label_of(alloc, s, to, &value.value)?;
        let at = meet(met, label, value.place)?;
        if let Some(place) = at {
            return Ok(Some(place));
        }
    }
    Ok(None)
}

/// Meets what a case is for: its values, or, without any, all others.
fn meet_case(
    alloc: Global,
    s: &TypeStore,
    to: &Option<TypeId>,
    case: &Typed,
    met: &mut Met,
) -> Result<Option<Place>, AllocError>
    requires { IfSome to.now (IsDefined s.now) }
    ensures { IfOk result (λ o. (f : Store) → IsLater s.now f →
        Meets (labels_met met.old.keys) (constants.labels_of f to.now case.now) o (labels_met met.new.keys)) }
{
    match values_of(case) {
        Some(values) => {
            let at = meet_values(alloc, s, to, values, met)?;
            Ok(at)
        }
        None => {
            let at = meet(met, Label::Default, case.place)?;
            Ok(at)
        }
    }
}

/// Where the first label stands that repeats an earlier one, by the type by which the `switch` goes; cases are the kids behind the first.
/// A label is made when its turn comes, and the first that was met before is the last to be made. So of each text one copy is held, however
/// often it stands there, and the one in hand; and the time is that of the labels that are made.
fn repeated_among(
    alloc: Global,
    s: &TypeStore,
    to: &Option<TypeId>,
    kids: &TypedKids,
) -> Result<Option<Place>, AllocError>
    requires { IfSome to.now (IsDefined s.now) }
    ensures { IfOk result (λ o. (f : Store) → IsLater s.now f → o ≡ repeated_place [] (constants.each_label f to.now (drop 1 kids.now))) }
{
    let mut met: Met = IndexSet::new(alloc);
    for i in 1..kids.len() {
        let Some(case) = kids.get(i) else {
            unreachable!();
        };
        let at = meet_case(alloc, s, to, case, &mut met)?;
        if let Some(place) = at {
            return Ok(Some(place));
        }
    }
    Ok(None)
}

/// Where the first value stands that an earlier one repeats, or the second case without values.
pub(crate) fn repeated(
    alloc: Global,
    s: &mut TypeStore,
    t: &Turn<'_>,
) -> Result<Option<Place>, AllocError>
    requires { IsTurn s.old t.now }
    ensures value { IfOk result (λ o. (f : Store) → IsLater s.new f →
        o ≡ option_map place_in (constants.repeated_label [] (constants.switch_labels (context_in f t.now)))) }
    ensures grown { IsGrown s.old s.new }
{
    let _law = s.declarations();
    let to = switched(s, t)?;
    let at = repeated_among(alloc, s, &to, t.kids)?;
    Ok(at)
}
