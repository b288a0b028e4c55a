//! What is known of bindings, and what a judge is told of them.

ghost use Rattle.std.specs.Prelude.{◌≡◌, ℕ, List, map, option_map, slice_set, IfOk, IfSome, OnOk};
ghost use Rattle.hare_tree.specs.Node.{head};
ghost use Rattle.hare_types.specs.Store.{Store};
ghost use Rattle.hare_types.specs.Later.{IsLater};
ghost use Rattle.hare_typed.specs.Typed.{typed_nodes};
ghost use Rattle.hare_flow.specs.Seen.{entry_of};
ghost use Rattle.hare_rules.specs.Above.{Above};
ghost use Rattle.hare_rules.specs.Context.{Setting, Context, Entry, store_of};
ghost use Rattle.hare_rules.specs.Control as control;
ghost use Rattle.hare_rules.specs.Finished.{bare};
ghost use Rattle.hare_rules.specs.Flow as flow;
ghost use Rattle.hare_rules.specs.Flow.{known_as, locals_after};
ghost use Rattle.hare_rules.specs.Words as words;
ghost use Rattle.hare_told.specs.Told.{IsToldEntry, AreToldEntries};
ghost use Rattle.rule_judge.specs.Defined.{IsDefined, IsDefinedTy, AreDefinedTrees};
ghost use Rattle.rule_judge.specs.Grown.{IsGrown};
ghost use Rattle.hare_find.specs.Closing.{HasKids, bound_to};
ghost use Rattle.hare_find.specs.Defined.{AreDefinedLocals, IsDefinedEntry};

use crate::loops::each_binding;
use hare_flow::{Binding, Seen};
use hare_rules::{Local, Locals};
use hare_tree::{Kind, Tree};
use hare_typed::TypedKids;
use hare_types::{Ty, TypeId, TypeStore};
use rule_judge::{default_in, is_there, type_at};
use std::alloc::AllocError;

/// What a judge is told of a binding instead of this, where that is known of it. A binding of which nothing is known is told as one that
/// may not be assigned to; its type says nothing.
fn told_instead(told: &Local, b: &Binding) -> Local
    ensures told { IsToldEntry (entry_of b.now) result }
    ensures defined { (s : Store) → IsDefined s told.now.ty → IsDefinedEntry s (entry_of b.now) → IsDefined s result.ty }
{
    match b {
        Binding::Known(l) => *l,
        Binding::Later | Binding::Odd(_) => Local {
            ty: told.ty,
            mutable: false,
        },
    }
}

/// Tells judges what is known of the binding with a number; nothing changes where there is no such binding.
fn tell(told: &mut Locals, number: u32, b: &Binding)
    ensures told { (es : List Entry) → AreToldEntries es told.old → AreToldEntries (slice_set es number (entry_of b.now)) told.new }
    ensures defined { (s : Store) → IsDefinedEntry s (entry_of b.now) → AreDefinedLocals s told.old → AreDefinedLocals s told.new }
{
    let i = number as usize;
    if let Some(l) = told.get(i) {
        let l = told_instead(l, b);
        told.set(i, l);
    }
}

/// Says what is known of the binding with a number, also to judges; nothing changes where there is no such binding.
pub fn bind(seen: &mut Seen, told: &mut Locals, number: u32, b: Binding)
    ensures seen { seen.new ≡ record seen.old { locals = slice_set seen.old.locals number (entry_of b) } }
    ensures told { AreToldEntries seen.old.locals told.old → AreToldEntries seen.new.locals told.new }
    ensures locals { (s : Store) → IsDefinedEntry s (entry_of b) → AreDefinedLocals s told.old → AreDefinedLocals s told.new }
{
    tell(told, number, &b);
    seen.bind(number, b);
}

/// What is known of a binding whose type this is; nothing yet, where it has none.
fn known(mutable: bool, ty: Option<TypeId>) -> Binding
    ensures value { entry_of result ≡ known_as mutable ty }
    ensures defined { (s : Store) → IfSome ty (IsDefined s) → IsDefinedEntry s (entry_of result) }
{
    match ty {
        Some(ty) => Binding::Known(Local { ty, mutable }),
        None => Binding::Later,
    }
}

/// The id of a type; none of what is no type yet.
fn id_in(a: &Ty) -> Option<TypeId>
    ensures value { result ≡ words.id_in a.now }
    ensures defined { (s : Store) → IsDefinedTy s a.now → IfSome result (IsDefined s) }
{
    match a {
        Ty::Of(t) => Some(*t),
        Ty::Iconst(_) | Ty::Null | Ty::Empty => None,
    }
}

/// The type of the binding of a `let` or a `const` with these kids: the one that is written, or the default of the value.
fn binding_type(s: &mut TypeStore, kids: &TypedKids) -> Result<Option<TypeId>, AllocError>
    requires { AreDefinedTrees s.old (typed_nodes kids.now) }
    ensures value { IfOk result (λ o. (c : Context) → IsLater s.new (store_of c) → c.kids ≡ kids.now → control.type_kid_of c.head.kind ≡ 0 →
        o ≡ control.binding_type c) }
    ensures defined { IfOk result (λ o. IfSome o (IsDefined s.new)) }
    ensures grown { IsGrown s.old s.new }
{
    let _law = s.declarations();
    let written = type_at(kids, 0);
    if is_there(kids, 0) {
        return Ok(id_in(&written));
    }
    let value = type_at(kids, 1);
    default_in(s, &value)
}

/// What is known of the binding of a node behind it: a `let` and a `const` bind their value, and the `let` of a case that of its operand.
/// None where nothing more is known.
fn known_behind(s: &mut TypeStore, k: Kind, kids: &TypedKids) -> Result<Option<Binding>, AllocError>
    requires { AreDefinedTrees s.old (typed_nodes kids.now) }
    ensures value { IfOk result (λ o. (c : Context) → IsLater s.new (store_of c) → c.kids ≡ kids.now → c.head.kind ≡ k →
        (n : ℕ) (ls : List Entry) → locals_after c k n ls ≡ bound_to (option_map entry_of o) n ls) }
    ensures defined { IfOk result (λ o. IfSome o (λ b. IsDefinedEntry s.new (entry_of b))) }
    ensures grown { IsGrown s.old s.new }
{
    let _law = s.declarations();
    match k {
        Kind::Let => {
            let ty = binding_type(s, kids)?;
            Ok(Some(known(true, ty)))
        }
        Kind::Const => {
            let ty = binding_type(s, kids)?;
            Ok(Some(known(false, ty)))
        }
        Kind::PatternLet => {
            let operand = type_at(kids, 0);
            Ok(Some(known(true, id_in(&operand))))
        }
        _ => Ok(None),
    }
}

/// Says what is known of the binding of a node behind it, also to judges. It is the one in front of which `first` bindings of the
/// declaration begin. The store may grow in types.
pub(crate) fn bind_behind(
    s: &mut TypeStore,
    seen: &mut Seen,
    told: &mut Locals,
    node: &Tree,
    kids: &TypedKids,
    first: u32,
) -> Result<(), AllocError>
    requires { AreDefinedTrees s.old (typed_nodes kids.now) }
    ensures seen { OnOk result ((c : Context) → IsLater s.new (store_of c) → HasKids c (head node.now) kids.now →
        seen.new ≡ record seen.old { locals = locals_after c c.head.kind first seen.old.locals }) }
    ensures rest { OnOk result (seen.new ≡ record seen.old { locals = seen.new.locals }) }
    ensures told { AreToldEntries seen.old.locals told.old → AreToldEntries seen.new.locals told.new }
    ensures locals { AreDefinedLocals s.old told.old → OnOk result (AreDefinedLocals s.new told.new) }
    ensures grown { IsGrown s.old s.new }
{
    let _law = s.declarations();
    if let Some(b) = known_behind(s, node.kind, kids)? {
        bind(seen, told, first, b);
    }
    Ok(())
}

/// Whether the kid behind so many others of a node of this kind is the body of a for-each: it begins behind the binding and the operand.
fn is_behind_operand(k: Kind, before: usize) -> bool
    ensures { result ≡ flow.is_behind_operand k before }
{
    match k {
        Kind::ForEach => before == 2,
        _ => false,
    }
}

/// Says what is known of the binding of a for-each when its body begins, also to judges: it is an element of the array or slice, or, by
/// reference, a pointer to one; over anything else it is odd, at the place of the loop. These are the kids before the one that begins;
/// before any other kid of any node nothing changes. The binding is the one in front of which `first` bindings of the declaration begin.
/// The store may grow in types.
///
/// The condition is that each type that stands in the kids that are done is in the store, and mentions no name that is not defined. Fails
/// for want of memory alone.
pub fn bind_before(
    s: &mut TypeStore,
    seen: &mut Seen,
    told: &mut Locals,
    node: &Tree,
    done: &TypedKids,
    first: u32,
) -> Result<(), AllocError>
    requires { AreDefinedTrees s.old (typed_nodes done.now) }
    ensures seen { OnOk result ((w : Store → Setting) (a : Above) → ((l : Store) → (w l).store ≡ l) → a.first ≡ first → (l : Store) →
        IsLater s.new l → seen.new ≡ flow.flow_before (w l) a (head node.now) (map bare done.now) seen.old) }
    ensures rest { seen.new ≡ record seen.old { locals = seen.new.locals } }
    ensures told { AreToldEntries seen.old.locals told.old → AreToldEntries seen.new.locals told.new }
    ensures locals { AreDefinedLocals s.old told.old → OnOk result (AreDefinedLocals s.new told.new) }
    ensures grown { IsGrown s.old s.new }
{
    let _law = s.declarations();
    if !is_behind_operand(node.kind, done.len()) {
        return Ok(());
    }
    let b = each_binding(s, node, done)?;
    bind(seen, told, first, b);
    Ok(())
}
