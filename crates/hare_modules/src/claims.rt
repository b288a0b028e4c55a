//! The names that declarations and imports take, and the imports, as lists in the order of files and source.

ghost use Rattle.std.specs.Prelude.{◌≡◌, ◌≤◌, ◌<◌, ◌+◌, ◌^◌, ◌++◌, ◌∷◌, [], not, map, length, sum_by, slice_get, position, bytes_eq, filter, IfOk, OnOk, IfSome, IfNone};
ghost use Rattle.std.specs.List.{flat_map};
ghost use Rattle.hare_tree.specs.Node.{head};
ghost use Rattle.hare_modules.specs.Uses as uses;
ghost use Rattle.hare_modules.specs.Takings as spec;

use crate::imports::Imported;
use crate::items::{Entry, entry_of, name_in};
use crate::paths::{is_alias, is_braced, is_name, is_plain, kid, module_used, path_in};
use crate::register::Register;
use hare_tree::{FileTree, Kids, Place, Tree};
use hx_base::Items;
use std::alloc::{AllocError, Global};

/// An import of a file.
#[derive(Clone, Copy)]
pub struct Used<'a> {
    /// The number of the module of its file.
    pub home: usize,
    /// The number of the module that it names, where that is known.
    pub to: Option<usize>,
    pub tree: &'a Tree,
}

/// What takes a name.
#[derive(Clone, Copy)]
pub enum Taker {
    Import(Imported),
    Declaration(Entry),
}

/// A name that a declaration or an import takes in the module of its file.
#[derive(Clone, Copy)]
pub struct Claim<'a> {
    /// The number of the module.
    pub home: usize,
    pub file: usize,
    pub name: &'a [u8],
    pub place: Place,
    pub taker: Taker,
}

/// A file, by its number, and the number of its module.
#[derive(Clone, Copy)]
pub struct Spot {
    pub file: usize,
    pub home: usize,
}

/// The imports of files, whose modules have these numbers.
pub fn collect_uses<'a>(
    alloc: Global,
    known: &Register,
    homes: &[usize],
    files: &'a Items<FileTree>,
) -> Result<Vec<Used<'a>>, AllocError>
    ensures { IfOk result (λ us. map spec.using us.items ≡ spec.usings known.now homes.now files.now) }
{
    let mut collected = Vec::new(alloc);
    for file in 0..homes.len() {
        let Some(tree) = files.get(file) else {
            return Ok(collected);
        };
        let uses = &tree.uses;
        take_uses(alloc, &mut collected, known, homes[file], uses)?;
    }
    Ok(collected)
}

/// The imports of a file.
fn take_uses<'a>(
    alloc: Global,
    collected: &mut Vec<Used<'a>>,
    known: &Register,
    home: usize,
    uses: &'a Kids,
) -> Result<(), AllocError>
    ensures { OnOk result (map spec.using collected.new.items ≡ map spec.using collected.old.items ++
        map (spec.using_of known.now home) uses.now) }
{
    for i in 0..uses.len() {
        let Some(tree) = uses.get(i) else {
            return Ok(());
        };
        let to = number_used(alloc, known, tree)?;
        collected.push(Used { home, to, tree })?;
    }
    Ok(())
}

/// The number of the module that an import names, where that is known.
fn number_used(alloc: Global, known: &Register, u: &Tree) -> Result<Option<usize>, AllocError>
    ensures { IfOk result (λ n. n ≡ spec.number_used known.now u.now) }
{
    let module = module_used(alloc, u)?;
    Ok(known.number(module.as_slice()))
}

/// The names that are taken in files, whose modules have these numbers. The files have fewer than 2^32 declarations. Fails for want of
/// memory alone.
pub fn collect_claims<'a>(
    alloc: Global,
    known: &Register,
    homes: &[usize],
    files: &'a Items<FileTree>,
) -> Result<Vec<Claim<'a>>, AllocError>
    requires { sum_by (λ t. length t.decls) files.now < 2 ^ 32 }
    ensures { IfOk result (λ cs. map spec.taking cs.items ≡ spec.takings known.now 0 0 homes.now files.now) }
{
    let mut claims = Vec::new(alloc);
    let mut number = 0;
    for file in 0..homes.len() {
        let Some(tree) = files.get(file) else {
            return Ok(claims);
        };
        let spot = Spot {
            file,
            home: homes[file],
        };
        let uses = &tree.uses;
        take_imports(alloc, &mut claims, known, spot, uses)?;
        let decls = &tree.decls;
        number = take_decls(&mut claims, spot, decls, number)?;
    }
    Ok(claims)
}

/// The names that the imports of a file bring in.
fn take_imports<'a>(
    alloc: Global,
    claims: &mut Vec<Claim<'a>>,
    known: &Register,
    spot: Spot,
    uses: &'a Kids,
) -> Result<(), AllocError>
    ensures { OnOk result (map spec.taking claims.new.items ≡ map spec.taking claims.old.items ++
        flat_map (spec.use_takings known.now spot.file spot.home) uses.now) }
{
    for i in 0..uses.len() {
        let Some(u) = uses.get(i) else {
            return Ok(());
        };
        let number = number_used(alloc, known, u)?;
        take_names(claims, spot, number, u)?;
    }
    Ok(())
}

/// The names that an import brings in, whose module has this number where it is known.
fn take_names<'a>(
    claims: &mut Vec<Claim<'a>>,
    spot: Spot,
    number: Option<usize>,
    u: &'a Tree,
) -> Result<(), AllocError>
    ensures { OnOk result (map spec.taking claims.new.items ≡ map spec.taking claims.old.items ++
        map (spec.named spot.file spot.home (spec.import_taker number (not (uses.is_braced (head u.now).kind))))
        (uses.names_brought u.now)) }
{
    let whole = !is_braced(u.kind);
    let taker = Taker::Import(Imported { number, whole });
    if is_plain(u.kind) {
        let path = path_in(u);
        let Some(name) = last(&path.kids) else {
            return Ok(());
        };
        take(claims, spot, name, taker)?;
        return Ok(());
    }
    if is_alias(u.kind) {
        take(claims, spot, kid(u, 0), taker)?;
        return Ok(());
    }
    if is_braced(u.kind) {
        take_members(claims, spot, taker, &u.kids)?;
        return Ok(());
    }
    Ok(())
}

/// The last tree of a list.
fn last(trees: &Kids) -> Option<&Tree>
    ensures none { IfNone result (uses.last_of trees.now ≡ []) }
    ensures found { IfSome result (λ t. uses.last_of trees.now ≡ t.now ∷ []) }
{
    let count = trees.len();
    if count == 0 {
        return None;
    }
    trees.get(count - 1)
}

/// The names between the braces of an import.
fn take_members<'a>(
    claims: &mut Vec<Claim<'a>>,
    spot: Spot,
    taker: Taker,
    kids: &'a Kids,
) -> Result<(), AllocError>
    ensures { OnOk result (map spec.taking claims.new.items ≡ map spec.taking claims.old.items ++
        map (spec.named spot.file spot.home taker) (filter uses.is_name_tree kids.now)) }
{
    for i in 0..kids.len() {
        let Some(kid) = kids.get(i) else {
            return Ok(());
        };
        take_name(claims, spot, taker, kid)?;
    }
    Ok(())
}

/// A kid of an import, where it is a name.
fn take_name<'a>(
    claims: &mut Vec<Claim<'a>>,
    spot: Spot,
    taker: Taker,
    kid: &'a Tree,
) -> Result<(), AllocError>
    ensures { OnOk result (map spec.taking claims.new.items ≡ map spec.taking claims.old.items ++
        map (spec.named spot.file spot.home taker) (filter uses.is_name_tree (kid.now ∷ []))) }
{
    if is_name(kid.kind) {
        return take(claims, spot, kid, taker);
    }
    Ok(())
}

/// The declarations of a file, of which the first has this number. The answer is the number of the next.
fn take_decls<'a>(
    claims: &mut Vec<Claim<'a>>,
    spot: Spot,
    decls: &'a Kids,
    number: u32,
) -> Result<u32, AllocError>
    requires { number + length decls.now < 2 ^ 32 }
    ensures next { IfOk result (λ n. n ≡ number + length decls.now) }
    ensures claims { OnOk result (map spec.taking claims.new.items ≡ map spec.taking claims.old.items ++
        spec.decl_takings spot.file spot.home number decls.now) }
{
    let mut next = number;
    claims.reserve(decls.len())?;
    for i in 0..decls.len() {
        let Some(tree) = decls.get(i) else {
            return Ok(next);
        };
        let taker = Taker::Declaration(entry_of(tree, next));
        take(claims, spot, name_in(tree), taker)?;
        next += 1;
    }
    Ok(next)
}

/// Puts the claim of a name at the end.
fn take<'a>(
    claims: &mut Vec<Claim<'a>>,
    spot: Spot,
    name: &'a Tree,
    taker: Taker,
) -> Result<(), AllocError>
    ensures { OnOk result (map spec.taking claims.new.items ≡ map spec.taking claims.old.items ++
        spec.named spot.file spot.home taker name.now ∷ []) }
{
    claims.push(Claim {
        home: spot.home,
        file: spot.file,
        name: name.text.bytes(),
        place: name.place,
        taker,
    })?;
    Ok(())
}
