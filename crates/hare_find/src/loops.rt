//! What the binding of a loop over an array or a slice is bound to.

ghost use Rattle.std.specs.Prelude.{◌≡◌, length, map, Some, IfOk, IfSome};
ghost use Rattle.hare_tree.specs.Node.{head};
ghost use Rattle.hare_types.specs.Store.{Store};
ghost use Rattle.hare_types.specs.Later.{IsLater};
ghost use Rattle.hare_typed.specs.Given as given;
ghost use Rattle.hare_typed.specs.Order.{tree_from_front};
ghost use Rattle.hare_typed.specs.Typed.{typed_nodes};
ghost use Rattle.hare_flow.specs.Seen.{entry_of};
ghost use Rattle.hare_rules.specs.Context.{Setting};
ghost use Rattle.hare_rules.specs.Finished.{bare};
ghost use Rattle.hare_rules.specs.Flow as flow;
ghost use Rattle.rule_judge.specs.Defined.{IsDefined, IsDefinedTy, AreDefinedTrees};
ghost use Rattle.rule_judge.specs.Grown.{IsGrown};
ghost use Rattle.hare_find.specs.Defined.{IsDefinedEntry};

use hare_flow::Binding;
use hare_rules::Local;
use hare_tree::Tree;
use hare_typed::TypedKids;
use hare_types::{Row, Ty, TypeId, TypeStore};
use rule_judge::{base_row, is_there, pointer_to, type_at};
use std::alloc::AllocError;

/// The type of the elements, where the base of a type is an array or a slice.
fn element(s: &TypeStore, a: &Ty) -> Option<TypeId>
    requires { IsDefinedTy s.now a.now }
    ensures value { (f : Store) → IsLater s.now f → result ≡ given.element_in (given.base_row f a.now) }
    ensures defined { IfSome result (IsDefined s.now) }
{
    match base_row(s, a) {
        Some(Row::Slice(t)) => Some(*t),
        Some(Row::Array(_, t)) => Some(*t),
        _ => None,
    }
}

/// Whether the first of the kids is a binding by reference: its mark `&` is there.
fn is_by_reference(kids: &TypedKids) -> bool
    ensures { result ≡ flow.is_by_reference (tree_from_front 0 kids.now) }
{
    match kids.get(0) {
        Some(binding) => is_there(&binding.kids, 0),
        None => false,
    }
}

/// What the binding is bound to where this is the element: to that, or, by reference, to a pointer to it.
fn bound_element(s: &mut TypeStore, kids: &TypedKids, t: TypeId) -> Result<TypeId, AllocError>
    requires { IsDefined s.old t }
    ensures value { IfOk result (λ u. (w : Setting) → IsLater s.new w.store → flow.bound_element w (tree_from_front 0 kids.now) (Some t) ≡
        Some u) }
    ensures defined { IfOk result (IsDefined s.new) }
    ensures grown { IsGrown s.old s.new }
{
    let _law = s.declarations();
    if is_by_reference(kids) {
        return pointer_to(s, t);
    }
    Ok(t)
}

/// What is known of the binding of a loop behind its operand, of which these two are the kids so far. Over what is no array and no slice it
/// is odd, at the place of the loop. The store may grow in types.
pub(crate) fn each_binding(
    s: &mut TypeStore,
    node: &Tree,
    kids: &TypedKids,
) -> Result<Binding, AllocError>
    requires two { length kids.now ≡ 2 }
    requires defined { AreDefinedTrees s.old (typed_nodes kids.now) }
    ensures value { IfOk result (λ b. (w : Setting) → IsLater s.new w.store →
        entry_of b ≡ flow.each_entry w (head node.now) (map bare kids.now)) }
    ensures defined { IfOk result (λ b. IsDefinedEntry s.new (entry_of b)) }
    ensures grown { IsGrown s.old s.new }
{
    let _law = s.declarations();
    let operand = type_at(kids, 1);
    let Some(t) = element(s, &operand) else {
        return Ok(Binding::Odd(node.place));
    };
    let ty = bound_element(s, kids, t)?;
    Ok(Binding::Known(Local { ty, mutable: true }))
}
