//! What is known of the functions of a program.

ghost use Rattle.std.specs.Prelude.{◌≡◌, ◌<◌, ◌-◌, ◌^◌, [], length, IsTrue, IfOk};
ghost use Rattle.hare_rules.specs.Words.{nomem};
ghost use Rattle.hare_saids.specs.Saids.{decls};
ghost use Rattle.hare_defined.specs.Known.{AreDefined};
ghost use Rattle.hare_above.specs.Ready.{IsKnown};
ghost use Rattle.rule_judge.specs.Defined.{IsDefinedName};
ghost use Rattle.hare_check.specs.Walking.{AreKnownDecls};
ghost use Rattle.body_table.specs.Told.{IsTold, AreTold, AreDefinedTypes};

use crate::listing::NOMEM;
use crate::types::type_of;
use anyhow::{Context, Result, bail, ensure};
use hare_declare::declare_all;
use hare_defined::Defined;
use hare_names::{Files2, Names};
use hare_rules::DeclType;
use hare_tree::{Kids, Kind, Tree};
use hare_typed::Const;
use hare_types::{TypeId, TypeIds, TypeStore};
use rule_judge::DeclTypes;
use std::alloc::{AllocError, Global};

/// What is known of the functions of a program of one file, with all types that they mention in the store.
pub(crate) fn known(
    alloc: Global,
    s: &mut TypeStore,
    names: &Names,
    files: &Files2,
) -> Result<DeclTypes>
    requires fresh { s.old.declared ≡ [] }
    ensures known { IfOk result (λ ds. IsKnown s.new ds) }
    ensures decls { IfOk result (λ ds. AreKnownDecls s.new ds) }
{
    ensure!(
        is_small(files),
        "more than one file, or a million declarations"
    );
    let file = files.get(0).context("no file")?;
    declare_all(alloc, s, names, files)?;
    let signatures = signatures(alloc, s, names, &file.decls)?;
    told(alloc, s, signatures)
}

/// Whether a program is of one file, of at most a million declarations.
fn is_small(files: &Files2) -> bool
    ensures { IsTrue result → length (decls files.now) < 2 ^ 32 - 1 }
{
    if files.len() != 1 {
        return false;
    }
    match files.get(0) {
        Some(file) => file.decls.len() <= 1_000_000,
        None => false,
    }
}

/// What the functions among these declarations say of themselves.
fn signatures(
    alloc: Global,
    s: &mut TypeStore,
    names: &Names,
    decls: &Kids,
) -> Result<Vec<DeclType>> {
    let mut signatures = Vec::new(alloc);
    for i in 0..decls.len() {
        if let Some(tree) = decls.get(i) {
            if tree.kind == Kind::Fn {
                let number = u32::try_from(i).ok().context("too many declarations")?;
                let signature = signature(alloc, s, names, number, tree)?;
                signatures.push(signature)?;
            }
        }
    }
    Ok(signatures)
}

/// What a function says of itself.
fn signature(
    alloc: Global,
    s: &mut TypeStore,
    names: &Names,
    number: u32,
    tree: &Tree,
) -> Result<DeclType> {
    let list = tree.kids.get(2).context("no parameters")?;
    let result = tree.kids.get(3).context("no result")?;
    let params = params(alloc, s, names, &list.kids)?;
    let ty = type_of(alloc, s, names, result)?;
    Ok(DeclType {
        decl: number,
        kind: tree.kind,
        ty,
        params,
        mutable: false,
        value: Const::Absent,
    })
}

/// The types of parameters.
fn params(alloc: Global, s: &mut TypeStore, names: &Names, list: &Kids) -> Result<TypeIds> {
    let mut types = TypeIds::new(alloc);
    for i in 0..list.len() {
        if let Some(param) = list.get(i) {
            if let Some(tree) = param.kids.get(0) {
                let t = type_of(alloc, s, names, tree)?;
                types.push(t)?;
            }
        }
    }
    Ok(types)
}

/// What is told of functions: all that they say, where their types mention no name that is not defined; of others nothing.
fn told(alloc: Global, s: &TypeStore, signatures: Vec<DeclType>) -> Result<DeclTypes>
    ensures known { IfOk result (λ ds. IsKnown s.now ds) }
    ensures decls { IfOk result (λ ds. AreKnownDecls s.now ds) }
{
    let mut defined = Defined::new(alloc);
    if !has_refusal(&mut defined, s)? {
        bail!("the refusal of memory is not defined");
    }
    let mut told = DeclTypes::new(alloc);
    for signature in signatures {
        tell(&mut defined, &mut told, s, signature)?;
    }
    Ok(told)
}

/// Tells what a function says of itself, where its types mention no name that is not defined.
fn tell(
    defined: &mut Defined,
    told: &mut DeclTypes,
    s: &TypeStore,
    d: DeclType,
) -> Result<(), AllocError>
    requires known { AreDefined s.now defined.old }
    requires told { AreTold s.now told.old }
    ensures known { AreDefined s.now defined.new }
    ensures told { AreTold s.now told.new }
{
    if is_told(defined, s, &d)? {
        told.push(d)?;
    }
    Ok(())
}

/// Whether the refusal of memory is defined.
fn has_refusal(defined: &mut Defined, s: &TypeStore) -> Result<bool, AllocError>
    requires known { AreDefined s.now defined.old }
    ensures value { IfOk result (λ b. IsTrue b → IsDefinedName s.now nomem) }
    ensures known { AreDefined s.now defined.new }
{
    match s.definition(NOMEM) {
        Some(t) => defined.is_defined(s, t),
        None => Ok(false),
    }
}

/// Whether no type of a function mentions a name that is not defined.
fn is_told(defined: &mut Defined, s: &TypeStore, d: &DeclType) -> Result<bool, AllocError>
    requires known { AreDefined s.now defined.old }
    ensures value { IfOk result (λ b. IsTrue b → IsTold s.now d.now) }
    ensures known { AreDefined s.now defined.new }
{
    if d.kind != Kind::Fn {
        return Ok(false);
    }
    if !defined.is_defined(s, d.ty)? {
        return Ok(false);
    }
    are_defined(defined, s, d.params.as_slice())
}

/// Whether none of some types mentions a name that is not defined.
fn are_defined(defined: &mut Defined, s: &TypeStore, types: &[TypeId]) -> Result<bool, AllocError>
    requires known { AreDefined s.now defined.old }
    ensures value { IfOk result (λ b. IsTrue b → AreDefinedTypes s.now types.now) }
    ensures known { AreDefined s.now defined.new }
{
    for i in 0..types.len() {
        if !defined.is_defined(s, types[i])? {
            return Ok(false);
        }
    }
    Ok(true)
}
