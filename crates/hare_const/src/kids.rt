//! What the kids of a node give it.

ghost use Rattle.std.specs.Prelude.{◌≡◌, []};
ghost use Rattle.hare_typed.specs.Typed.{mark_of, kids_of};
ghost use Rattle.hare_typed.specs.Given as given;
ghost use Rattle.hare_typed.specs.Order.{kid_from_front, kid_from_end};
ghost use Rattle.hare_typed.specs.Constants.{own_kind};
ghost use Rattle.hare_typed.specs.ConstantForms as forms;
ghost use Rattle.hare_const.specs.declared.outcome.Outcome.TheVariants.{Known};
ghost use Rattle.hare_const.specs.NodeValues as spec;

use crate::outcome::Outcome;
use hare_tree::{Kind, Meaning};
use hare_typed::Typed;
use hare_types::Ty;

/// The type of what a kid gives, by how many kids stand before it. A kid that is not there is an array of no items.
pub(crate) fn type_of_kid(t: &Typed, i: usize) -> Ty
    ensures { result ≡ forms.type_of_kid i t.now }
{
    match t.kids.get(i) {
        Some(kid) => kid.coerce.to,
        None => Ty::Empty,
    }
}

/// The type of what the first kid gives.
pub(crate) fn first_given(t: &Typed) -> Ty
    ensures { result ≡ given.first_given (kids_of t.now) }
{
    type_of_kid(t, 0)
}

/// What the first kid means.
pub(crate) fn meaning_of_first(t: &Typed) -> Meaning
    ensures { result ≡ (mark_of (kid_from_front 0 t.now)).meaning }
{
    match t.kids.get(0) {
        Some(kid) => kid.meaning,
        None => Meaning::None,
    }
}

/// The kind of the last kid but one.
fn kind_before_last(t: &Typed) -> Kind
    ensures { result ≡ own_kind (kid_from_end 1 t.now) }
{
    let count = t.kids.len();
    if count < 2 {
        return Kind::None;
    }
    match t.kids.get(count - 2) {
        Some(kid) => kid.kind,
        None => Kind::None,
    }
}

/// Whether `...` stands behind the last item of an array: in the last place but one.
pub(crate) fn has_dots(t: &Typed) -> bool
    ensures { result ≡ forms.has_dots t.now }
{
    matches!(kind_before_last(t), Kind::Dots)
}

/// The value of the kid with so many before it; `none` stands for one that is not there.
pub(crate) fn kid_at<'a>(kids: &'a [Outcome], i: usize, none: &'a Outcome) -> &'a Outcome
    requires { none.now ≡ Known [] }
    ensures { result.now ≡ spec.kid_at i kids.now }
{
    match kids.get(i) {
        Some(kid) => kid,
        None => none,
    }
}
