//! What the value of a def or a global goes to.

ghost use Rattle.std.specs.Prelude.{◌≡◌, true, IfOk};
ghost use Rattle.hare_types.specs.Store.{Store};
ghost use Rattle.hare_types.specs.Later.{IsLater};
ghost use Rattle.hare_rules.specs.Above as above;
ghost use Rattle.hare_rules.specs.Values as values;
ghost use Rattle.hare_rules.specs.Words as words;
ghost use Rattle.hare_whole.specs.Turns as turns;
ghost use Rattle.rule_judge.specs.Defined.{IsDefinedTy, IsDefinedHint};
ghost use Rattle.rule_judge.specs.Grown.{IsGrown};
ghost use Rattle.hare_defined.specs.Known.{AreDefined};
ghost use Rattle.hare_finish.specs.Made.{IsDeclaredCoercion};

use hare_defined::Defined;
use hare_rules::Hint;
use hare_typed::{Typed, TypedKids};
use hare_types::{Coercion, Ty, TypeStore};
use rule_judge::{default_in, own_coercion, to_type};
use std::alloc::AllocError;

/// Whether a type mentions only names that are defined.
fn is_defined_type(s: &TypeStore, defined: &mut Defined, a: &Ty) -> Result<bool, AllocError>
    requires known { AreDefined s.now defined.old }
    ensures value { IfOk result (λ b. b ≡ true → IsDefinedTy s.now a.now) }
    ensures known { AreDefined s.now defined.new }
{
    match a {
        Ty::Of(t) => defined.is_defined(s, *t),
        Ty::Iconst(_) | Ty::Null | Ty::Empty => Ok(true),
    }
}

/// The same of the type that is asked for.
fn is_defined_hint(s: &TypeStore, defined: &mut Defined, hint: &Hint) -> Result<bool, AllocError>
    requires known { AreDefined s.now defined.old }
    ensures value { IfOk result (λ b. b ≡ true → IsDefinedHint s.now hint.now) }
    ensures known { AreDefined s.now defined.new }
{
    match hint {
        Hint::Of(t) => defined.is_defined(s, *t),
        Hint::Drop | Hint::None => Ok(true),
    }
}

/// What a value is asked for: the written type, where there is one.
fn hint_by(types: &TypedKids) -> Hint
    ensures { result ≡ turns.hint_by types.now }
{
    match types.get(0) {
        Some(t) => hint_to(&t.ty),
        None => Hint::None,
    }
}

/// The hint of a type.
fn hint_to(a: &Ty) -> Hint
    ensures { result ≡ above.hint_to (words.id_in a.now) }
{
    match a {
        Ty::Of(t) => Hint::Of(*t),
        Ty::Iconst(_) | Ty::Null | Ty::Empty => Hint::None,
    }
}

/// What becomes of a value of this type that is asked for this: it goes to the type, or where nothing is asked to its default.
fn coercion_to(s: &mut TypeStore, hint: &Hint, a: &Ty) -> Result<Coercion, AllocError>
    requires value { IsDefinedTy s.old a.now }
    requires hint { IsDefinedHint s.old hint.now }
    ensures value { IfOk result (λ r. (f : Store) → IsLater s.new f → r ≡ values.declared_coercion f hint.now a.now) }
    ensures grown { IsGrown s.old s.new }
{
    let _law = s.declarations();
    match hint {
        Hint::None => {
            let to = default_in(s, a)?;
            Ok(to_type(s, a, &to))
        }
        Hint::Of(_) | Hint::Drop => Ok(own_coercion(s, hint, a)),
    }
}

/// What becomes of the value of a declaration with these written types. A type that mentions a name which is not defined is answered as
/// want of memory.
pub(crate) fn declared_coercion(
    s: &mut TypeStore,
    defined: &mut Defined,
    types: &TypedKids,
    value: &Typed,
) -> Result<Coercion, AllocError>
    requires known { AreDefined s.old defined.old }
    ensures value { IfOk result (IsDeclaredCoercion s.new types.now value.now) }
    ensures known { AreDefined s.new defined.new }
    ensures grown { IsGrown s.old s.new }
{
    let _law = s.declarations();
    let hint = hint_by(types);
    if !is_defined_hint(s, defined, &hint)? {
        return Err(AllocError);
    }
    if !is_defined_type(s, defined, &value.ty)? {
        return Err(AllocError);
    }
    coercion_to(s, &hint, &value.ty)
}
