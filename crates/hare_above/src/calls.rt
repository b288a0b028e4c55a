//! What calls ask of their arguments.

ghost use Rattle.std.specs.Prelude.{◌≡◌, IfOk, IfSome, Some};
ghost use Rattle.hare_tree.specs.declared.kind.Kind.TheVariants as ki;
ghost use Rattle.hare_tree.specs.declared.token.Meaning.TheVariants as means;
ghost use Rattle.hare_types.specs.Store.{Store};
ghost use Rattle.hare_types.specs.Later.{IsLater};
ghost use Rattle.hare_typed.specs.Order.{tree_from_front};
ghost use Rattle.hare_rules.specs.Above as above;
ghost use Rattle.hare_rules.specs.Aggregates as spec;
ghost use Rattle.hare_rules.specs.Context.{Setting};
ghost use Rattle.rule_ctl.specs.Calls.{runtime_at};
ghost use Rattle.rule_judge.specs.Defined.{IsDefined, IsDefinedHint};
ghost use Rattle.rule_judge.specs.Grown.{IsGrown};
ghost use Rattle.hare_above.specs.Asked.{IsProgram, IsAsking, asked_as};
ghost use Rattle.hare_above.specs.Ready.{IsKnown};

use crate::asking::{Asking, hint_to};
use hare_rules::Hint;
use hare_tree::{Kind, Meaning};
use hare_typed::TypedKids;
use hare_types::{Scalar, TypeId, TypeStore};
use rule_judge::{DeclTypes, slice_of, word};
use std::alloc::AllocError;

/// The type of a slice of bytes.
fn bytes_slice(s: &mut TypeStore) -> Result<TypeId, AllocError>
    ensures id { IfOk result (λ u. (f : Store) → IsLater s.new f → spec.bytes_slice f ≡ Some u) }
    ensures defined { IfOk result (IsDefined s.new) }
    ensures grown { IsGrown s.old s.new }
{
    let _law = s.declarations();
    let byte = word(s, Scalar::U8)?;
    slice_of(s, byte)
}

/// What the callee means; nothing where it is no path.
fn callee_meaning(kids: &TypedKids) -> Meaning
    ensures { result ≡ spec.callee_meaning (tree_from_front 0 kids.now) }
{
    match kids.get(0) {
        Some(kid) => match kid.kind {
            Kind::Path => kid.meaning,
            _ => Meaning::None,
        },
        None => Meaning::None,
    }
}

/// The type of the one parameter of the function of the module `rt` with this number; none where it has none, or there is no such function.
fn runtime_param(s: &mut TypeStore, n: u32) -> Result<Option<TypeId>, AllocError>
    ensures value { IfOk result (λ o. (f : Store) → IsLater s.new f → o ≡ above.param_at (runtime_at f n) 0) }
    ensures defined { IfOk result (λ o. IfSome o (IsDefined s.new)) }
    ensures grown { IsGrown s.old s.new }
{
    let _law = s.declarations();
    match n {
        0 | 3 => Ok(Some(word(s, Scalar::Str)?)),
        1 | 2 => Ok(Some(bytes_slice(s)?)),
        5 => Ok(Some(word(s, Scalar::Size)?)),
        6 => Ok(Some(word(s, Scalar::U8)?)),
        _ => Ok(None),
    }
}

/// The type of parameter number `i`, counted from 0, of the declaration with this number; none where that is no function, or has no such
/// parameter. The time is constant.
fn declared_param(decls: &DeclTypes, n: u32, i: usize) -> Option<TypeId>
    ensures { (w : Setting) → w.decls ≡ decls.now → result ≡ above.param_at (spec.called w (means.Decl n)) i }
{
    let Some(d) = decls.find(n) else {
        return None;
    };
    match d.kind {
        Kind::Fn => d.params.get(i).copied(),
        _ => None,
    }
}

/// The type of parameter number `i`, counted from 0, of the function that is meant.
fn param(
    s: &mut TypeStore,
    decls: &DeclTypes,
    meaning: Meaning,
    i: usize,
) -> Result<Option<TypeId>, AllocError>
    requires { IsKnown s.old decls.now }
    ensures value { IfOk result (λ o. (w : Setting) → IsProgram s.new decls.now w → o ≡ above.param_at (spec.called w meaning) i) }
    ensures defined { IfOk result (λ o. IfSome o (IsDefined s.new)) }
    ensures grown { IsGrown s.old s.new }
{
    let _law = s.declarations();
    match meaning {
        Meaning::Decl(n) => Ok(declared_param(decls, n, i)),
        Meaning::Rt(n) => {
            if i == 0 {
                runtime_param(s, n)
            } else {
                Ok(None)
            }
        }
        Meaning::Local(_) | Meaning::None => Ok(None),
    }
}

/// What a call asks of its next kid: of an argument a value of the type of its parameter.
pub(crate) fn argument_hint(
    s: &mut TypeStore,
    decls: &DeclTypes,
    q: &Asking<'_>,
) -> Result<Hint, AllocError>
    requires { IsAsking s.old decls.now q.now }
    ensures value { IfOk result (λ h. (w : Setting) → IsProgram s.new decls.now w → h ≡ asked_as w q.now ki.Call) }
    ensures defined { IfOk result (IsDefinedHint s.new) }
    ensures grown { IsGrown s.old s.new }
{
    let _law = s.declarations();
    let before = q.done.len();
    if before == 0 {
        return Ok(Hint::None);
    }
    let meaning = callee_meaning(q.done);
    let o = param(s, decls, meaning, before - 1)?;
    Ok(hint_to(o))
}
