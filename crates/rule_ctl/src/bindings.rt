//! Bindings.

ghost use Rattle.std.specs.Prelude.{◌≡◌, suc, IfOk, IfSome};
ghost use Rattle.hare_tree.specs.declared.kind.Kind.TheVariants as ki;
ghost use Rattle.hare_types.specs.Store.{Store};
ghost use Rattle.hare_types.specs.Later.{IsLater};
ghost use Rattle.hare_rules.specs.Control as spec;
ghost use Rattle.hare_rules.specs.Rows.{holds};
ghost use Rattle.hare_rules.specs.Context as context;
ghost use Rattle.hare_rules.specs.Settles as settles;
ghost use Rattle.hare_rules.specs.Words as words;
ghost use Rattle.hare_rules.specs.declared.row_id.RowId.TheVariants as row;
ghost use Rattle.rule_judge.specs.Asked.{asks_as};
ghost use Rattle.rule_judge.specs.Defined.{IsDefined, IsDefinedTy};
ghost use Rattle.rule_judge.specs.Grown.{IsGrown};
ghost use Rattle.rule_judge.specs.Turns.{context_in, kind_in, IsTurn};

use hare_tree::{Kind, Place};
use hare_types::{Ty, TypeId, TypeStore};
use rule_judge::{Turn, default_in, has_default, has_size, is_there, kids_before, own, place_at};
use std::alloc::AllocError;

/// Which kid stands for the written type. The value stands behind it.
fn type_kid(t: &Turn<'_>) -> usize
    ensures { result ≡ spec.type_kid_of (kind_in t.now) }
{
    let node = t.node;
    match node.kind {
        Kind::Let | Kind::Const => 0,
        _ => 2,
    }
}

/// Which kid is the value.
pub(crate) fn value_kid(t: &Turn<'_>) -> usize
    ensures { result ≡ suc (spec.type_kid_of (kind_in t.now)) }
{
    type_kid(t) + 1
}

/// Whether the type of the binding is written.
fn has_written_type(t: &Turn<'_>) -> bool
    ensures { (f : Store) → result ≡ spec.has_written_type (context_in f t.now) }
{
    is_there(t.kids, type_kid(t))
}

/// Whether the type is written, or the value has a default.
pub(crate) fn has_type(t: &Turn<'_>) -> bool
    ensures { (f : Store) → result ≡ holds row.BindingDefault (context_in f t.now) }
{
    if has_written_type(t) {
        return true;
    }
    has_default(&own(t, value_kid(t)))
}

/// Where the value stands.
pub(crate) fn value_place(t: &Turn<'_>) -> Place
    ensures { (f : Store) → result ≡ context.place_of (spec.value_kid (context_in f t.now)) }
{
    place_at(t.kids, value_kid(t))
}

/// The type that is written, or else that of the value.
pub(crate) fn written_or_value(t: &Turn<'_>) -> Ty
    ensures value { (f : Store) → result ≡ spec.declared_type (context_in f t.now) }
    ensures defined { (s : Store) → IsTurn s t.now → IsDefinedTy s result }
{
    if has_written_type(t) {
        return own(t, type_kid(t));
    }
    own(t, value_kid(t))
}

/// The id of a type.
fn id_in(a: &Ty) -> Option<TypeId>
    ensures { result ≡ words.id_in a.now }
{
    match a {
        Ty::Of(u) => Some(*u),
        Ty::Iconst(_) | Ty::Null | Ty::Empty => None,
    }
}

/// The type that is written, or the default of the value.
fn binding_type(s: &mut TypeStore, t: &Turn<'_>) -> Result<Option<TypeId>, AllocError>
    requires { IsTurn s.old t.now }
    ensures value { IfOk result (λ o. (f : Store) → IsLater s.new f → o ≡ spec.binding_type (context_in f t.now)) }
    ensures defined { IfOk result (λ o. IfSome o (IsDefined s.new)) }
    ensures grown { IsGrown s.old s.new }
{
    let _law = s.declarations();
    if has_written_type(t) {
        let written = own(t, type_kid(t));
        return Ok(id_in(&written));
    }
    let value = own(t, value_kid(t));
    default_in(s, &value)
}

/// Whether the type of the binding has a size.
pub(crate) fn has_sized_type(s: &mut TypeStore, t: &Turn<'_>) -> Result<bool, AllocError>
    requires { IsTurn s.old t.now }
    ensures value { IfOk result (λ b. (f : Store) → IsLater s.new f → b ≡ holds row.BindingHasSize (context_in f t.now)) }
    ensures grown { IsGrown s.old s.new }
{
    let _law = s.declarations();
    match binding_type(s, t)? {
        Some(u) => Ok(has_size(s, u)),
        None => Ok(true),
    }
}

/// Where a type without a size is blamed: where it is written, or else at the node.
pub(crate) fn type_place(t: &Turn<'_>) -> Place
    ensures { (f : Store) → result ≡ spec.binding_place (context_in f t.now) }
{
    if has_written_type(t) {
        return place_at(t.kids, type_kid(t));
    }
    let node = t.node;
    node.place
}

/// Whether `let` or `const` asks its kid number `i` for a type: the value, where the type is written.
pub(crate) fn binding_asks(t: &Turn<'_>, i: usize) -> bool
    ensures variable { (f : Store) → result ≡ asks_as (context_in f t.now) i ki.Let }
    ensures constant { (f : Store) → result ≡ asks_as (context_in f t.now) i ki.Const }
{
    if kids_before(t.kids, i) != 1 {
        return false;
    }
    if !is_there(t.kids, 0) {
        return false;
    }
    id_in(&own(t, 0)).is_some()
}

/// Whether a declaration asks its kid number `i` for a type: the value, where the type is written.
pub(crate) fn declared_asks(t: &Turn<'_>, i: usize) -> bool
    ensures { (f : Store) → result ≡ asks_as (context_in f t.now) i ki.Def }
{
    if kids_before(t.kids, i) < 3 {
        return false;
    }
    if !is_there(t.kids, 2) {
        return false;
    }
    id_in(&own(t, 2)).is_some()
}

/// The type to which kid number `i` goes that was asked for none: the value to its default, where no type is written.
pub(crate) fn binding_target(
    s: &mut TypeStore,
    t: &Turn<'_>,
    i: usize,
) -> Result<Option<TypeId>, AllocError>
    requires { IsTurn s.old t.now }
    ensures value { IfOk result (λ o. (f : Store) → IsLater s.new f → o ≡ settles.binding_target (context_in f t.now) i) }
    ensures defined { IfOk result (λ o. IfSome o (IsDefined s.new)) }
    ensures grown { IsGrown s.old s.new }
{
    let _law = s.declarations();
    if i != value_kid(t) {
        return Ok(None);
    }
    if has_written_type(t) {
        return Ok(None);
    }
    let value = own(t, i);
    default_in(s, &value)
}
