//! Places, and which of them may be assigned to.

ghost use Rattle.std.specs.Prelude.{◌≡◌, List};
ghost use Rattle.hare_types.specs.Store.{Store};
ghost use Rattle.hare_types.specs.Later.{IsLater};
ghost use Rattle.hare_typed.specs.Typed.{typed_nodes};
ghost use Rattle.hare_rules.specs.Places as spec;
ghost use Rattle.rule_judge.specs.Defined.{IsDefinedTy, IsDefinedTree, AreDefinedTrees};
ghost use Rattle.rule_judge.specs.Settings.{setting_of, entries};

use crate::bases::base_row;
use crate::decls::DeclTypes;
use hare_rules::Locals;
use hare_tree::{Kind, Meaning};
use hare_typed::{Typed, TypedKids};
use hare_types::{Row, Ty, TypeStore};

/// Whether the base of the type is a pointer that is never null.
fn is_pointer(s: &TypeStore, a: &Ty) -> bool
    requires { IsDefinedTy s.now a.now }
    ensures { (f : Store) → IsLater s.now f → result ≡ spec.is_pointer f a.now }
{
    matches!(base_row(s, a), Some(Row::Pointer(_)))
}

/// Whether the base of the type is a slice, or a pointer that is never null.
fn leads_away(s: &TypeStore, a: &Ty) -> bool
    requires { IsDefinedTy s.now a.now }
    ensures { (f : Store) → IsLater s.now f → result ≡ spec.leads_away f a.now }
{
    matches!(base_row(s, a), Some(Row::Slice(_) | Row::Pointer(_)))
}

/// Whether what a path means is a local or a global.
fn means_place(decls: &DeclTypes, meaning: Meaning) -> bool
    ensures { (f : Store) → result ≡ spec.means_place (setting_of f decls.now) meaning }
{
    match meaning {
        Meaning::Local(_) => true,
        Meaning::Decl(n) => match decls.find(n) {
            Some(d) => matches!(d.kind, Kind::GlobalLet | Kind::GlobalConst),
            None => false,
        },
        Meaning::Rt(_) | Meaning::None => false,
    }
}

/// Whether it is one that may be assigned to.
fn means_mutable(decls: &DeclTypes, locals: &Locals, meaning: Meaning) -> bool
    ensures { (f : Store) → result ≡ spec.means_mutable (setting_of f decls.now) (entries locals.now) meaning }
{
    match meaning {
        Meaning::Local(n) => match locals.get(n as usize) {
            Some(local) => local.mutable,
            None => false,
        },
        Meaning::Decl(n) => match decls.find(n) {
            Some(d) => d.mutable,
            None => false,
        },
        Meaning::Rt(_) | Meaning::None => false,
    }
}

/// Whether the tree is a place: a path to a local or a global, what a pointer leads to, an element of a place or of what a slice or a
/// pointer leads to, a member of a place or of what a pointer leads to, and each of these in parentheses. The call goes as deep in the host
/// as the tree is. The condition is that each type that stands in the tree is in the store, and mentions no name that is not defined.
#[cycle(place)]
pub fn is_place(s: &TypeStore, decls: &DeclTypes, tree: &Typed) -> bool
    requires { IsDefinedTree s.now tree.now }
    ensures { (f : Store) → IsLater s.now f → result ≡ spec.is_place (setting_of f decls.now) tree.now }
{
    match tree.kind {
        Kind::Path => means_place(decls, tree.meaning),
        Kind::Deref => true,
        Kind::Index => first_leads(s, &tree.kids) || is_first_place(s, decls, &tree.kids),
        Kind::Field => first_points(s, &tree.kids) || is_first_place(s, decls, &tree.kids),
        Kind::Paren => is_first_place(s, decls, &tree.kids),
        _ => false,
    }
}

/// Whether the first of the trees is a place.
#[cycle(place)]
fn is_first_place(s: &TypeStore, decls: &DeclTypes, trees: &TypedKids) -> bool
    requires { AreDefinedTrees s.now (typed_nodes trees.now) }
    ensures { (f : Store) → IsLater s.now f → result ≡ spec.is_first_place (setting_of f decls.now) (typed_nodes trees.now) }
{
    match trees.get(0) {
        Some(tree) => is_place(s, decls, tree),
        None => false,
    }
}

/// Whether a slice or a pointer stands between a node and the first of its kids.
fn first_leads(s: &TypeStore, trees: &TypedKids) -> bool
    requires { AreDefinedTrees s.now (typed_nodes trees.now) }
    ensures { (f : Store) → IsLater s.now f → result ≡ spec.first_leads f (typed_nodes trees.now) }
{
    match trees.get(0) {
        Some(tree) => leads_away(s, &tree.coerce.to),
        None => false,
    }
}

/// Whether a pointer stands between a node and the first of its kids.
fn first_points(s: &TypeStore, trees: &TypedKids) -> bool
    requires { AreDefinedTrees s.now (typed_nodes trees.now) }
    ensures { (f : Store) → IsLater s.now f → result ≡ spec.first_points f (typed_nodes trees.now) }
{
    match trees.get(0) {
        Some(tree) => is_pointer(s, &tree.coerce.to),
        None => false,
    }
}

/// Whether the tree is a place that may be assigned to: no `const` binding is reached without a slice or a pointer between. The call goes
/// as deep in the host as the tree is. The condition is that each type that stands in the tree is in the store, and mentions no name that
/// is not defined.
#[cycle(mutable)]
pub fn is_mutable(s: &TypeStore, decls: &DeclTypes, locals: &Locals, tree: &Typed) -> bool
    requires { IsDefinedTree s.now tree.now }
    ensures { (f : Store) → IsLater s.now f → result ≡ spec.is_mutable (setting_of f decls.now) (entries locals.now) tree.now }
{
    match tree.kind {
        Kind::Path => means_mutable(decls, locals, tree.meaning),
        Kind::Deref => true,
        Kind::Index => {
            first_leads(s, &tree.kids) || is_first_mutable(s, decls, locals, &tree.kids)
        }
        Kind::Field => {
            first_points(s, &tree.kids) || is_first_mutable(s, decls, locals, &tree.kids)
        }
        Kind::Paren => is_first_mutable(s, decls, locals, &tree.kids),
        _ => false,
    }
}

/// Whether the first of the trees is a place that may be assigned to.
#[cycle(mutable)]
fn is_first_mutable(s: &TypeStore, decls: &DeclTypes, locals: &Locals, trees: &TypedKids) -> bool
    requires { AreDefinedTrees s.now (typed_nodes trees.now) }
    ensures { (f : Store) → IsLater s.now f → result ≡ spec.is_first_mutable (setting_of f decls.now) (entries locals.now)
        (typed_nodes trees.now) }
{
    match trees.get(0) {
        Some(tree) => is_mutable(s, decls, locals, tree),
        None => false,
    }
}
