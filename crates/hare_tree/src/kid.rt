//! Of which sort each kid of a tree is.

ghost use Rattle.std.specs.Prelude.{◌≡◌, ◌-◌, ◌++◌, List, [], ◌∷◌, true, Some, None, length, replicate, slice_get, slice_index_or};
ghost use Rattle.hare_tree.specs.declared.form.Sort as form_sort;
ghost use Rattle.hare_tree.specs.declared.form.Sort.TheVariants as so;
ghost use Rattle.hare_tree.specs.Node.{Head, Node, branch, nodes_of};
ghost use Rattle.hare_tree.specs.Levels.{level};
ghost use Rattle.hare_tree.specs.Shape.{is_shaped};
ghost use Rattle.hare_tree.specs.KidSorts as spec;

use crate::form::{Piece, Sort};
use crate::forms::form_of;
use crate::kind::Kind;

/// The sort of the kid with this number, from 0, of a tree of this kind that has so many kids, as its form says (`docs/TREES.md`). None for
/// the kid in which a trailing comma may stand, and where the form has no such kid.
///
/// The kid of a shaped tree is absent or shaped of this sort, where Left and Right are read by the tree's own level. The kid in which a
/// trailing comma may stand is that comma, or absent.
#[tactic(auto, using(crate::proofs::TreeKids::KidSorts::kid_is_of_sort))]
pub fn kid_sort(k: Kind, kids: usize, i: usize) -> Option<Sort>
    ensures value { result ≡ spec.kid_sort k kids i }
    ensures shaped { (s : form_sort.Sort) (h : Head) (ts : List Node) (t : Node) → h.kind ≡ k → length ts ≡ kids →
        is_shaped s (branch h (nodes_of ts)) ≡ true → slice_get ts i ≡ Some t → spec.IsKid (level k h.text) result t }
{
    sort_in_form(form_of(k), kids, i)
}

/// The sort of a kid of a form that has so many kids.
fn sort_in_form(form: &[Piece], kids: usize, i: usize) -> Option<Sort>
    ensures { result ≡ slice_index_or (spec.kid_sorts form.now kids) i None }
{
    let mut left = kids;
    let mut number = i;
    for piece in form {
        match *piece {
            Piece::Fixed(_) | Piece::Own(_) => {}
            Piece::Kid(s)
            | Piece::Optional(s)
            | Piece::Led(_, s)
            | Piece::Followed(s, _)
            | Piece::Value(s) => {
                if number == 0 {
                    return Some(s);
                }
                number -= 1;
                left = left.saturating_sub(1);
            }
            Piece::Each(s) | Piece::EachLed(_, s) | Piece::EachFollowed(s, _) => {
                return repeated(s, left, number);
            }
            Piece::More(s) | Piece::List(s) => return item_sort(s, left, number),
            Piece::Elements(s) | Piece::MoreElements(s) => return element_sort(s, left, number),
        }
    }
    None
}

/// The sort of one of so many kids of this sort; none past them.
fn repeated(s: Sort, kids: usize, i: usize) -> Option<Sort>
    ensures { result ≡ slice_index_or (replicate kids (Some s)) i None }
{
    if i < kids { Some(s) } else { None }
}

/// The sort of one of the kids of a list, of which the last stands for a trailing comma.
fn item_sort(s: Sort, kids: usize, i: usize) -> Option<Sort>
    ensures { result ≡ slice_index_or (replicate (kids - 1) (Some s) ++ None ∷ []) i None }
{
    repeated(s, kids.saturating_sub(1), i)
}

/// The sort of one of the kids of an array, of which the last two stand for `...` and for a trailing comma.
fn element_sort(s: Sort, kids: usize, i: usize) -> Option<Sort>
    ensures { result ≡ slice_index_or (replicate (kids - 2) (Some s) ++ Some so.Dots ∷ None ∷ []) i None }
{
    let items = kids.saturating_sub(2);
    if i == items {
        Some(Sort::Dots)
    } else {
        repeated(s, items, i)
    }
}
