//! The rows of deletions.

ghost use Rattle.std.specs.Prelude.{◌≡◌};
ghost use Rattle.hare_types.specs.Store.{Store};
ghost use Rattle.hare_types.specs.Later.{IsLater};
ghost use Rattle.hare_typed.specs.Typed.{listed_nodes, kids_of, TypedNode};
ghost use Rattle.hare_typed.specs.Given.{given};
ghost use Rattle.hare_typed.specs.Order.{tree_from_front, kid_from_front};
ghost use Rattle.hare_rules.specs.Context.{kid};
ghost use Rattle.hare_rules.specs.Aggregates as spec;
ghost use Rattle.hare_rules.specs.Places as places;
ghost use Rattle.hare_rules.specs.Rows.{holds};
ghost use Rattle.hare_rules.specs.declared.row_id.RowId.TheVariants as row;
ghost use Rattle.rule_judge.specs.Defined.{IsDefinedTy, IsDefinedTree};
ghost use Rattle.rule_judge.specs.Settings.{setting_of, entries};
ghost use Rattle.rule_judge.specs.Turns.{context_in, IsTurn};

use crate::reads::{pointee, reached, slice_element};
use hare_typed::Typed;
use hare_types::{Ty, TypeStore};
use rule_judge::{Turn, is_mutable, is_place, seen_at};

/// What the operand of the first kid of a tree gives.
fn operand_seen(tree: &Typed) -> Ty
    ensures value { result ≡ given (kid_from_front 0 tree.now) }
    ensures defined { (s : Store) → IsDefinedTree s tree.now → IsDefinedTy s result }
{
    seen_at(&tree.kids, 0)
}

/// What that gives from which is deleted.
fn deleted_seen(t: &Turn<'_>) -> Ty
    ensures value { (f : Store) → result ≡ given (spec.deleted_from (context_in f t.now)) }
    ensures defined { (s : Store) → IsTurn s t.now → IsDefinedTy s result }
{
    match t.kids.get(0) {
        Some(tree) => operand_seen(tree),
        None => Ty::Empty,
    }
}

/// Whether that is a slice from which is deleted, once pointers are followed.
pub(crate) fn deletes_from_slice(s: &TypeStore, t: &Turn<'_>) -> bool
    requires { IsTurn s.now t.now }
    ensures { (f : Store) → IsLater s.now f → result ≡ holds row.DeleteSequence (context_in f t.now) }
{
    slice_element(s, &reached(s, &deleted_seen(t))).is_some()
}

/// Whether the operand of a tree is a place.
fn is_operand_place(s: &TypeStore, t: &Turn<'_>, tree: &Typed) -> bool
    requires { IsDefinedTree s.now tree.now }
    ensures { (f : Store) → IsLater s.now f → result ≡ places.is_place (setting_of f t.now.decls.now) (kid_from_front 0 tree.now) }
{
    match tree.kids.get(0) {
        Some(operand) => is_place(s, t.decls, operand),
        None => false,
    }
}

/// Whether the operand of a tree is a place that may be assigned to.
fn is_operand_mutable(s: &TypeStore, t: &Turn<'_>, tree: &Typed) -> bool
    requires { IsDefinedTree s.now tree.now }
    ensures { (f : Store) → IsLater s.now f → result ≡ places.is_mutable (setting_of f t.now.decls.now) (entries t.now.locals.now)
        (kid_from_front 0 tree.now) }
{
    match tree.kids.get(0) {
        Some(operand) => is_mutable(s, t.decls, t.locals, operand),
        None => false,
    }
}

/// Whether that is a place from which is deleted, or a pointer is followed from there.
pub(crate) fn deletes_at_place(s: &TypeStore, t: &Turn<'_>) -> bool
    requires { IsTurn s.now t.now }
    ensures { (f : Store) → IsLater s.now f → result ≡ holds row.DeletePlace (context_in f t.now) }
{
    if pointee(s, &deleted_seen(t)).is_some() {
        return true;
    }
    match t.kids.get(0) {
        Some(tree) => is_operand_place(s, t, tree),
        None => false,
    }
}

/// Whether that may be assigned to from which is deleted, or a pointer is followed from there.
pub(crate) fn deletes_at_mutable(s: &TypeStore, t: &Turn<'_>) -> bool
    requires { IsTurn s.now t.now }
    ensures { (f : Store) → IsLater s.now f → result ≡ holds row.DeleteMutable (context_in f t.now) }
{
    if pointee(s, &deleted_seen(t)).is_some() {
        return true;
    }
    match t.kids.get(0) {
        Some(tree) => is_operand_mutable(s, t, tree),
        None => false,
    }
}
