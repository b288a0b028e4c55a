//! Arrays.

ghost use Rattle.std.specs.Prelude.{◌≡◌, Some, IfOk, IfErr};
ghost use Rattle.hare_tree.specs.declared.kind.Kind.TheVariants as ki;
ghost use Rattle.hare_types.specs.Store.{Store};
ghost use Rattle.hare_types.specs.Later.{IsLater};
ghost use Rattle.hare_typed.specs.Numbers.{kind_of};
ghost use Rattle.hare_typed.specs.Order.{tree_from_front};
ghost use Rattle.hare_rules.specs.Context.{own_type, place_of};
ghost use Rattle.hare_rules.specs.Constants.{means_def};
ghost use Rattle.hare_rules.specs.Constants as constants;
ghost use Rattle.rule_judge.specs.Defined.{IsDefined, IsDefinedTy};
ghost use Rattle.rule_judge.specs.Settings.{setting_of};
ghost use Rattle.rule_types.specs.Grown.{IsGrown};
ghost use Rattle.rule_types.specs.Known.{IsKnownTy};
ghost use Rattle.rule_types.specs.Answers.{IsOwnType, IsOwnStop};
ghost use Rattle.rule_types.specs.Lengths.{counts};

use crate::made::entered;
use crate::parts::part;
use crate::reads::{has_size, is_small};
use crate::written::{Written, stop};
use hare_const::array_length;
use hare_rules::RowId;
use hare_tree::{Fault, Kind, Meaning, Place, Stop};
use hare_typed::{Typed, TypedKids};
use hare_types::{Row, TypeId, TypeStore};
use rule_judge::DeclTypes;
use std::alloc::Global;

/// Whether a path means a def.
fn is_def(decls: &DeclTypes, meaning: Meaning) -> bool
    ensures { (s : Store) → result ≡ means_def (setting_of s decls.now) meaning }
{
    match meaning {
        Meaning::Decl(n) => match decls.find(n) {
            Some(d) => matches!(d.kind, Kind::Def),
            None => false,
        },
        Meaning::Local(_) | Meaning::Rt(_) | Meaning::None => false,
    }
}

/// Whether a node is no path, or a path to a def.
fn may_count(decls: &DeclTypes, kid: &Typed) -> bool
    ensures { (s : Store) → result ≡ counts (setting_of s decls.now) (kind_of kid.now) kid.now }
{
    match kid.kind {
        Kind::Path => is_def(decls, kid.meaning),
        _ => true,
    }
}

/// The length that a node is.
fn length_of(s: &TypeStore, decls: &DeclTypes, kid: &Typed) -> Option<u64>
    requires { IsDefinedTy s.now (own_type kid.now) }
    ensures { (f : Store) → IsLater s.now f → result ≡ constants.length_of (setting_of f decls.now) kid.now }
{
    let _law = s.declarations();
    if !may_count(decls, kid) {
        return None;
    }
    match array_length(s, kid) {
        Ok(n) => Some(n),
        Err(_) => None,
    }
}

/// The length that the first kid is.
fn length(s: &TypeStore, decls: &DeclTypes, kids: &TypedKids) -> Option<u64>
    requires { IsDefinedTy s.now (own_type (tree_from_front 0 kids.now)) }
    ensures { (f : Store) → IsLater s.now f → result ≡ constants.length_of (setting_of f decls.now) (tree_from_front 0 kids.now) }
{
    match kids.get(0) {
        Some(kid) => length_of(s, decls, kid),
        None => None,
    }
}

/// The place of the first kid; of one that is not there no place of a file.
fn first_place(kids: &TypedKids) -> Place
    ensures { result ≡ place_of (tree_from_front 0 kids.now) }
{
    match kids.get(0) {
        Some(kid) => kid.place,
        None => Place {
            file: 0,
            line: 0,
            column: 0,
        },
    }
}

/// An array, whose length is one, and whose element has a size.
pub(crate) fn array(s: &mut TypeStore, t: &Written<'_>) -> Result<TypeId, Stop<Fault>>
    requires length { IsDefinedTy s.old (own_type (tree_from_front 0 t.now.kids.now)) }
    requires element { IsKnownTy s.old (own_type (tree_from_front 1 t.now.kids.now)) }
    ensures ok { IfOk result (IsOwnType s.new t.now ki.TypeArray) }
    ensures err { IfErr result (IsOwnStop s.new t.now ki.TypeArray) }
    ensures defined { IfOk result (λ u. IsDefinedTy s.old (own_type (tree_from_front 1 t.now.kids.now)) → IsDefined s.new u) }
    ensures grown { IsGrown s.old s.new }
{
    let _law = s.declarations();
    let node = t.node;
    let Some(count) = length(s, t.decls, t.kids) else {
        return Err(stop(RowId::ArrayLength, first_place(t.kids)));
    };
    let u = part(t.kids, 1);
    if !has_size(s, u) {
        return Err(stop(RowId::ArrayElementSized, node.place));
    }
    let made = entered(s, Row::Array(count, u))?;
    if !is_small(s, made) {
        return Err(stop(RowId::ArrayTypeSmall, node.place));
    }
    Ok(made)
}
