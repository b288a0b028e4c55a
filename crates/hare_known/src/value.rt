//! What is known of a declaration by its value.

ghost use Rattle.std.specs.Prelude.{◌≡◌, ◌++◌, [], false, IfOk, OnOk, OnErr};
ghost use Rattle.hare_tree.specs.declared.kind.Kind.TheVariants as ki;
ghost use Rattle.hare_tree.specs.Node.{head};
ghost use Rattle.hare_types.specs.Sound.{IsStore};
ghost use Rattle.hare_types.specs.Store.{Store};
ghost use Rattle.hare_types.specs.Later.{IsLater};
ghost use Rattle.hare_typed.specs.Typed.{mark_of};
ghost use Rattle.hare_rules.specs.Context.{Setting, own_type, is_there};
ghost use Rattle.hare_modules.specs.Uses.{kid};
ghost use Rattle.hare_depends.specs.Sorts.{sort_of};
ghost use Rattle.hare_defined.specs.Known.{AreDefined};
ghost use Rattle.hare_walk.specs.Grown.{IsGrown};
ghost use Rattle.hare_whole.specs.Parts as parts;
ghost use Rattle.hare_whole.specs.Turns.{is_def, known_by_value, type_or_plain};
ghost use Rattle.hare_written.specs.Program.{AreDefsDefined};
ghost use Rattle.hare_known.specs.Known as spec;
ghost use Rattle.hare_known.specs.Known.{IsDeclaredAs};
ghost use Rattle.rule_judge.specs.Defined.{IsDefined, IsDefinedTy};

use crate::entries::global_as;
use crate::parts::{is_type_left_out, sort_of, written_at};
use hare_copies::copy_constant;
use hare_defined::{Defined, law_defined_types_stay};
use hare_depends::Sort;
use hare_rules::DeclType;
use hare_tree::{Kind, Tree};
use hare_typed::{Typed, TypedKids};
use hare_types::{TypeId, TypeIds, TypeStore};
use rule_judge::{DeclTypes, default_in};
use std::alloc::{AllocError, Global};

/// Whether the type of a def or of a global is written. A written type that has no tree is answered as want of memory.
fn has_written_type(decl: &Tree, types: &TypedKids) -> Result<bool, AllocError>
    ensures { IfOk result (λ b. (w : Setting) → b ≡ is_there (type_or_plain w (kid decl.now 2) types.now)) }
{
    if let Some(t) = types.get(0) {
        return Ok(!matches!(t.kind, Kind::None));
    }
    if !is_type_left_out(decl) {
        return Err(AllocError);
    }
    Ok(false)
}

/// The type of a def or of a global: the one that is written, or else the default of its value's. Where there is none, the answer is want
/// of memory.
fn declared_id(
    s: &mut TypeStore,
    decl: &Tree,
    types: &TypedKids,
    value: &Typed,
) -> Result<TypeId, AllocError>
    requires { IsDefinedTy s.old (own_type value.now) }
    ensures value { IfOk result (IsDeclaredAs s.new decl.now types.now value.now) }
    ensures grown { IsGrown s.old s.new }
    ensures sound { IsStore s.new }
{
    let _law = s.declarations();
    if has_written_type(decl, types)? {
        return written_at(types, 0);
    }
    match default_in(s, &value.ty)? {
        Some(u) => Ok(u),
        None => Err(AllocError),
    }
}

/// What is known of a def with this type: its constant is that of its value. A type that mentions a name which is not defined is answered
/// as want of memory.
fn def_as(
    alloc: Global,
    s: &TypeStore,
    defined: &mut Defined,
    own: u32,
    ty: TypeId,
    value: &Typed,
) -> Result<DeclType, AllocError>
    requires { AreDefined s.now defined.old }
    ensures value { IfOk result (λ d. d ≡ parts.known_as own ki.Def ty [] false (mark_of value.now).value) }
    ensures ty { OnOk result (IsDefined s.now ty) }
    ensures defined { AreDefined s.now defined.new }
{
    if !defined.is_defined(s, ty)? {
        return Err(AllocError);
    }
    let constant = copy_constant(alloc, &value.value)?;
    Ok(DeclType {
        decl: own,
        kind: Kind::Def,
        ty,
        params: TypeIds::new(alloc),
        mutable: false,
        value: constant,
    })
}

/// Whether a declaration of this kind is a def.
fn is_def(kind: Kind) -> bool
    ensures { result ≡ is_def kind }
{
    matches!(kind, Kind::Def)
}

/// What is known of a def or of a global with this type.
fn constant_known(
    alloc: Global,
    s: &TypeStore,
    defined: &mut Defined,
    own: u32,
    kind: Kind,
    ty: TypeId,
    value: &Typed,
) -> Result<DeclType, AllocError>
    requires { AreDefined s.now defined.old }
    ensures value { IfOk result (λ d. d ≡ spec.constant_known own kind ty value.now) }
    ensures ty { IfOk result (λ d. d.kind ≡ ki.Def → IsDefined s.now d.ty) }
    ensures defined { AreDefined s.now defined.new }
{
    if is_def(kind) {
        return def_as(alloc, s, defined, own, ty, value);
    }
    Ok(global_as(alloc, own, kind, ty))
}

/// Puts what is known of declaration `own` by its value behind what is known of others: of a def its type and its constant, of a global
/// without a type the type of its value. Nothing more becomes known of any other declaration.
///
/// All types in `defined`, the type of each def that is known, and that of the value are in the store, and mention no name that is not
/// defined.
///
/// Any other type that mentions a name which is not defined, and a declaration that is not well typed, are answered as want of memory.
pub fn know_value(
    alloc: Global,
    s: &mut TypeStore,
    defined: &mut Defined,
    known: &mut DeclTypes,
    own: u32,
    decl: &Tree,
    types: &TypedKids,
    value: &Typed,
) -> Result<(), AllocError>
    requires defined { AreDefined s.old defined.old }
    requires defs { AreDefsDefined s.old known.old }
    requires ty { IsDefinedTy s.old (own_type value.now) }
    ensures ok { OnOk result ((l : Store) (w : Setting) → IsLater s.new l → known.new ≡ known.old ++
        known_by_value l own (head decl.now).kind (sort_of decl.now) (type_or_plain w (kid decl.now 2) types.now) value.now) }
    ensures err { OnErr result (known.new ≡ known.old) }
    ensures defined { AreDefined s.new defined.new }
    ensures defs { AreDefsDefined s.new known.new }
    ensures grown { IsGrown s.old s.new }
    ensures sound { IsStore s.new }
{
    let _law = s.declarations();
    law_defined_types_stay();
    let Sort::Constant = sort_of(decl) else {
        return Ok(());
    };
    let ty = declared_id(s, decl, types, value)?;
    let d = constant_known(alloc, s, defined, own, decl.kind, ty, value)?;
    known.push(d)
}
