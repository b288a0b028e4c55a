//! Whether all that is told of declarations is defined.

ghost use Rattle.std.specs.Prelude.{◌≡◌, ℕ, slice_get, Some, IsTrue, IfOk};
ghost use Rattle.hare_defined.specs.Known.{AreDefined};
ghost use Rattle.hare_ready.specs.Ready.{IsReadyDecl, AreReady};
ghost use Rattle.rule_judge.specs.Defined.{IsDefined, IsDefinedName};
ghost use Rattle.rule_judge.specs.Meant.{IsKnownKind};

use hare_defined::Defined;
use hare_rules::DeclType;
use hare_tree::Kind;
use hare_types::{TypeId, TypeStore};
use rule_judge::DeclTypes;
use std::alloc::AllocError;

/// Whether a declared name is defined, and so is each name that its definition mentions. The condition is that all types in `defined` are
/// in the store, and mention no name that is not defined. Fails for want of memory alone.
pub fn is_named(s: &TypeStore, defined: &mut Defined, name: u32) -> Result<bool, AllocError>
    requires known { AreDefined s.now defined.old }
    ensures value { IfOk result (λ b. IsTrue b → IsDefinedName s.now name) }
    ensures known { AreDefined s.now defined.new }
{
    match s.definition(name) {
        Some(t) => defined.is_defined(s, t),
        None => Ok(false),
    }
}

/// Whether the type of a declaration is defined, and of a declared type its name.
fn has_own(s: &TypeStore, defined: &mut Defined, d: &DeclType) -> Result<bool, AllocError>
    requires known { AreDefined s.now defined.old }
    ensures value { IfOk result (λ b. IsTrue b → IsKnownKind s.now d.now.decl d.now d.now.kind) }
    ensures known { AreDefined s.now defined.new }
{
    match d.kind {
        Kind::TypeDecl => is_named(s, defined, d.decl),
        _ => defined.is_defined(s, d.ty),
    }
}

/// Whether each of these types is defined.
fn are_defined(s: &TypeStore, defined: &mut Defined, types: &[TypeId]) -> Result<bool, AllocError>
    requires known { AreDefined s.now defined.old }
    ensures value { IfOk result (λ b. IsTrue b → (i t : ℕ) → slice_get types.now i ≡ Some t → IsDefined s.now t) }
    ensures known { AreDefined s.now defined.new }
{
    for t in types {
        if !defined.is_defined(s, *t)? {
            return Ok(false);
        }
    }
    Ok(true)
}

/// Whether all types that are told of a declaration mention only names that are defined; of a declared type, whether its name is defined
/// so. Types that have been found to be so are kept, so that over all calls each type is looked at once, but for those of an answer of no.
///
/// The condition is that all types in `defined` are in the store, and mention no name that is not defined. Fails for want of memory alone.
pub fn is_ready(s: &TypeStore, defined: &mut Defined, d: &DeclType) -> Result<bool, AllocError>
    requires known { AreDefined s.now defined.old }
    ensures value { IfOk result (λ b. IsTrue b → IsReadyDecl s.now d.now) }
    ensures known { AreDefined s.now defined.new }
{
    if !has_own(s, defined, d)? {
        return Ok(false);
    }
    are_defined(s, defined, d.params.as_slice())
}

/// Whether it is so of each declaration that is known. The condition is that all types in `defined` are in the store, and mention no name
/// that is not defined. Fails for want of memory alone.
pub fn are_ready(
    s: &TypeStore,
    defined: &mut Defined,
    decls: &DeclTypes,
) -> Result<bool, AllocError>
    requires known { AreDefined s.now defined.old }
    ensures value { IfOk result (λ b. IsTrue b → AreReady s.now decls.now) }
    ensures known { AreDefined s.now defined.new }
{
    for i in 0..decls.len() {
        let Some(d) = decls.get(i) else {
            return Ok(false);
        };
        if !is_ready(s, defined, d)? {
            return Ok(false);
        }
    }
    Ok(true)
}
