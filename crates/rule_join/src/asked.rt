//! What a node asks of its kids, and where they go that were asked for no type.

ghost use Rattle.std.specs.Prelude.{◌≡◌, true, Some, IfOk, IfSome};
ghost use Rattle.hare_tree.specs.declared.kind.Kind.TheVariants as ki;
ghost use Rattle.hare_types.specs.Store.{Store};
ghost use Rattle.hare_types.specs.Later.{IsLater};
ghost use Rattle.hare_rules.specs.Control.{if_type};
ghost use Rattle.hare_rules.specs.Settles.{target_of};
ghost use Rattle.hare_rules.specs.Types.{type_of};
ghost use Rattle.rule_judge.specs.Asked.{asks_as, asks_type};
ghost use Rattle.rule_judge.specs.Defined.{IsDefined, IsDefinedTy};
ghost use Rattle.rule_judge.specs.Grown.{IsGrown};
ghost use Rattle.rule_judge.specs.Turns.{context_in, kind_in};
ghost use Rattle.rule_join.specs.Kinds.{judges};

use crate::joins::joined_target;
use hare_tree::Kind;
use hare_types::{Scalar, Ty, TypeId, TypeStore};
use rule_judge::{Turn, is_there, is_type_hint, kids_before, word};
use std::alloc::AllocError;

/// Whether an `if` asks its kid number `i` for a type: the condition, and each branch where there are two and a type is asked of the node.
fn if_asks(s: &mut TypeStore, t: &Turn<'_>, i: usize) -> Result<bool, AllocError>
    ensures value { IfOk result (λ b. (f : Store) → IsLater s.new f → b ≡ asks_as (context_in f t.now) i ki.If) }
    ensures grown { IsGrown s.old s.new }
{
    let made = word(s, Scalar::Bool)?;
    let _bool = made;
    let case = t.case;
    let before = kids_before(t.kids, i);
    if before == 0 {
        return Ok(true);
    }
    if before == 1 {
        return Ok(is_there(t.kids, 2) && is_type_hint(&case.hint));
    }
    Ok(is_type_hint(&case.hint))
}

/// Whether a `for` asks its kid number `i` for a type: the condition.
fn for_asks(s: &mut TypeStore, t: &Turn<'_>, i: usize) -> Result<bool, AllocError>
    ensures value { IfOk result (λ b. (f : Store) → IsLater s.new f → b ≡ asks_as (context_in f t.now) i ki.For) }
    ensures grown { IsGrown s.old s.new }
{
    let made = word(s, Scalar::Bool)?;
    let _bool = made;
    Ok(kids_before(t.kids, i) == 1)
}

/// Whether the node has asked its kid number `i` for a value of a type. The node is an `if`, a loop, a block or a case. The store may grow
/// in types. Fails for want of memory alone.
pub fn asks_type(s: &mut TypeStore, t: &Turn<'_>, i: usize) -> Result<bool, AllocError>
    requires kind { judges (kind_in t.now) ≡ true }
    ensures value { IfOk result (λ b. (f : Store) → IsLater s.new f → b ≡ asks_type (context_in f t.now) i) }
    ensures grown { IsGrown s.old s.new }
{
    let _law = s.declarations();
    let node = t.node;
    match node.kind {
        Kind::If => {
            let b = if_asks(s, t, i)?;
            Ok(b)
        }
        Kind::For => {
            let b = for_asks(s, t, i)?;
            Ok(b)
        }
        Kind::ForEach | Kind::Block | Kind::Case | Kind::SwitchCase => Ok(false),
        _ => unreachable!(),
    }
}

/// The type to which kid number `i` of an `if` goes: a branch to the type `ty` of the node, where there are two and none is asked of it.
fn branch_target(t: &Turn<'_>, ty: &Ty, i: usize) -> Option<TypeId>
    ensures value { (f : Store) → if_type (context_in f t.now) ≡ Some ty.now → result ≡ target_of (context_in f t.now) ki.If i }
    ensures defined { (s : Store) → IsDefinedTy s ty.now → IfSome result (IsDefined s) }
{
    if i == 0 {
        return None;
    }
    if is_there(t.kids, 2) {
        return joined_target(t, ty);
    }
    None
}

/// The type to which kid number `i` goes that was asked for none; none where it stays as it is. What the node gives has the type `ty`.
pub(crate) fn target(t: &Turn<'_>, ty: &Ty, i: usize) -> Option<TypeId>
    requires kind { judges (kind_in t.now) ≡ true }
    ensures value { (f : Store) → type_of (context_in f t.now) ≡ Some ty.now → result ≡ target_of (context_in f t.now) (kind_in t.now) i }
    ensures defined { (s : Store) → IsDefinedTy s ty.now → IfSome result (IsDefined s) }
{
    let node = t.node;
    match node.kind {
        Kind::If => branch_target(t, ty, i),
        Kind::For | Kind::ForEach | Kind::Block | Kind::Case | Kind::SwitchCase => None,
        _ => unreachable!(),
    }
}
