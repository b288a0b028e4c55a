//! What paths mean.

ghost use Rattle.std.specs.Prelude.{◌≡◌, true, Some, IfOk};
ghost use Rattle.hare_types.specs.Store.{Store};
ghost use Rattle.hare_types.specs.Later.{IsLater};
ghost use Rattle.hare_types.specs.Unions.{id_of};
ghost use Rattle.hare_types.specs.declared.row.Row.TheVariants.{Named};
ghost use Rattle.hare_tree.specs.declared.token.Meaning.TheVariants as means;
ghost use Rattle.hare_rules.specs.Context.{declaration};
ghost use Rattle.hare_rules.specs.Operators as spec;
ghost use Rattle.hare_rules.specs.Words as words;
ghost use Rattle.rule_judge.specs.Defined.{IsDefined, IsDefinedTy, IsDefinedName};
ghost use Rattle.rule_judge.specs.Grown.{IsGrown};
ghost use Rattle.rule_judge.specs.Meant.{IsMeant, IsKnownDecl};
ghost use Rattle.rule_judge.specs.Settings.{setting_of};
ghost use Rattle.rule_judge.specs.Turns.{context_in};

use hare_tree::{Kind, Meaning};
use hare_types::{Row, Scalar, Ty, TypeId, TypeStore};
use rule_judge::{DeclTypes, Turn, base_row};
use std::alloc::AllocError;

/// The type of the declaration with this number.
fn named(s: &mut TypeStore, n: u32) -> Result<TypeId, AllocError>
    requires { IsDefinedName s.old n }
    ensures id { IfOk result (λ u. (f : Store) → IsLater s.new f → id_of f (Named n) ≡ Some u) }
    ensures defined { IfOk result (IsDefined s.new) }
    ensures grown { IsGrown s.old s.new }
{
    let _law = s.declarations();
    let u = s.intern(Row::Named(n))?;
    Ok(u)
}

/// Whether the declared type with this number has `void` as its base.
fn names_void(s: &mut TypeStore, n: u32) -> Result<bool, AllocError>
    requires { IsDefinedName s.old n }
    ensures value { IfOk result (λ b. (f : Store) → IsLater s.new f → b ≡ spec.has_void_base f (id_of f (Named n))) }
    ensures grown { IsGrown s.old s.new }
{
    let u = named(s, n)?;
    Ok(matches!(base_row(s, &Ty::Of(u)), Some(Row::Scalar(Scalar::Void))))
}

/// Whether the declaration with this number is a value, or a type whose one value is written by its name.
fn declares_value(s: &mut TypeStore, decls: &DeclTypes, n: u32) -> Result<bool, AllocError>
    requires known { IsKnownDecl s.old n (declaration (setting_of s.old decls.now) n) }
    requires nomem { IsDefinedName s.old words.nomem }
    ensures value { IfOk result (λ b. (f : Store) → IsLater s.new f → b ≡ spec.names_value (setting_of f decls.now) (means.Decl n)) }
    ensures grown { IsGrown s.old s.new }
{
    let _law = s.declarations();
    match decls.find(n) {
        Some(d) => match d.kind {
            Kind::Def | Kind::GlobalLet | Kind::GlobalConst => Ok(true),
            Kind::TypeDecl => names_void(s, n),
            _ => Ok(false),
        },
        None => names_void(s, n),
    }
}

/// Whether what a path means is a value.
pub(crate) fn names_value(s: &mut TypeStore, t: &Turn<'_>) -> Result<bool, AllocError>
    requires meant { IsMeant s.old t.now.decls.now t.now.locals.now t.now.case.now.meaning }
    requires nomem { IsDefinedName s.old words.nomem }
    ensures value { IfOk result (λ b. (f : Store) → IsLater s.new f → b ≡ spec.names_value (setting_of f t.now.decls.now)
        t.now.case.now.meaning) }
    ensures grown { IsGrown s.old s.new }
{
    let _law = s.declarations();
    let case = t.case;
    match case.meaning {
        Meaning::Local(_) => Ok(true),
        Meaning::Decl(n) => declares_value(s, t.decls, n),
        Meaning::Rt(_) | Meaning::None => Ok(false),
    }
}

/// The type of the value that the declaration with this number has.
fn declared_type(s: &mut TypeStore, decls: &DeclTypes, n: u32) -> Result<Ty, AllocError>
    requires known { IsKnownDecl s.old n (declaration (setting_of s.old decls.now) n) }
    requires nomem { IsDefinedName s.old words.nomem }
    ensures value { IfOk result (λ a. (f : Store) → IsLater s.new f → spec.type_of_declaration (setting_of f decls.now)
        (declaration (setting_of f decls.now) n) n ≡ Some a) }
    ensures defined { IfOk result (IsDefinedTy s.new) }
    ensures grown { IsGrown s.old s.new }
{
    let _law = s.declarations();
    match decls.find(n) {
        Some(d) => match d.kind {
            Kind::TypeDecl => {
                let u = named(s, n)?;
                Ok(Ty::Of(u))
            }
            _ => Ok(Ty::Of(d.ty)),
        },
        None => {
            let u = named(s, n)?;
            Ok(Ty::Of(u))
        }
    }
}

/// The type of the value that a path means.
pub(crate) fn value_type(s: &mut TypeStore, t: &Turn<'_>) -> Result<Ty, AllocError>
    requires meant { IsMeant s.old t.now.decls.now t.now.locals.now t.now.case.now.meaning }
    requires nomem { IsDefinedName s.old words.nomem }
    requires met { (f : Store) → IsLater s.old f → spec.names_value (setting_of f t.now.decls.now) t.now.case.now.meaning ≡ true }
    ensures value { IfOk result (λ a. (f : Store) → IsLater s.new f → spec.path_type (context_in f t.now) t.now.case.now.meaning ≡ Some a) }
    ensures defined { IfOk result (IsDefinedTy s.new) }
    ensures grown { IsGrown s.old s.new }
{
    let _law = s.declarations();
    let case = t.case;
    match case.meaning {
        Meaning::Local(n) => match t.locals.get(n as usize) {
            Some(l) => Ok(Ty::Of(l.ty)),
            None => unreachable!(),
        },
        Meaning::Decl(n) => {
            let a = declared_type(s, t.decls, n)?;
            Ok(a)
        }
        Meaning::Rt(_) | Meaning::None => unreachable!(),
    }
}
