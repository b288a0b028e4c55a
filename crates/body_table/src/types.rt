//! Types as signatures spell them, and the types of the store that they are.

ghost use Rattle.std.specs.Prelude.{◌<◌, ◌≤◌, ℕ, length, IfOk};
ghost use Rattle.hare_types.specs.Rows.{AllBelow, IsWithin};

use anyhow::{Context, Result, bail};
use hare_layout::{Bools, Places, Spelled, admit};
use hare_names::Names;
use hare_tree::{Kids, Kind, Meaning, Stop, Tree};
use hare_types::{Row, TypeId, TypeIds, TypeStore};
use spelled_types::scalar;
use std::alloc::Global;

/// The type that a tree spells, in which no struct stands and arrays have numbers for their lengths.
#[cycle(types)]
pub(crate) fn type_of(
    alloc: Global,
    s: &mut TypeStore,
    names: &Names,
    tree: &Tree,
) -> Result<TypeId>
    ensures within { IfOk result (λ t. t < length s.new.rows) }
    ensures grows { length s.old.rows ≤ length s.new.rows }
{
    let types = types_of(alloc, s, names, &tree.kids)?;
    let row = row_of(names, tree, types)?;
    let spelled = Spelled {
        row,
        spreads: Bools::new(alloc),
        places: Places::new(alloc),
    };
    admitted(alloc, s, &spelled, tree)
}

/// The types of the parts of a type, in their order.
#[cycle(types)]
fn types_of(alloc: Global, s: &mut TypeStore, names: &Names, kids: &Kids) -> Result<TypeIds>
    ensures within { IfOk result (λ is. AllBelow (length s.new.rows) is) }
    ensures grows { length s.old.rows ≤ length s.new.rows }
{
    let mut types = TypeIds::new(alloc);
    for i in 0..kids.len() {
        if let Some(kid) = kids.get(i) {
            if is_type(kid.kind) {
                let t = type_of(alloc, s, names, kid)?;
                types.push(t)?;
            }
        }
    }
    Ok(types)
}

/// Whether a part of a type is a type: else it is a length, a comma, or nothing.
fn is_type(kind: Kind) -> bool {
    !matches!(kind, Kind::None | Kind::Number | Kind::TrailingComma)
}

/// The row of a type whose parts are these types.
fn row_of(names: &Names, tree: &Tree, types: TypeIds) -> Result<Row>
    ensures { (n : ℕ) → AllBelow n types → IfOk result (λ r. IsWithin n r) }
{
    match tree.kind {
        Kind::TypeScalar => Ok(Row::Scalar(scalar(tree.text.bytes())?)),
        Kind::TypePath => Ok(Row::Named(declared(names, tree)?)),
        Kind::TypePointer => Ok(Row::Pointer(only(&types)?)),
        Kind::TypeNullable => Ok(Row::Nullable(only(&types)?)),
        Kind::TypeSlice => Ok(Row::Slice(only(&types)?)),
        Kind::TypeError => Ok(Row::Error(only(&types)?)),
        Kind::TypeArray => Ok(Row::Array(length(&tree.kids)?, only(&types)?)),
        Kind::TypeTuple => Ok(Row::Tuple(types)),
        Kind::TypeUnion => Ok(Row::Union(types)),
        _ => bail!("a type that no signature has here"),
    }
}

/// The declaration that a path means.
fn declared(names: &Names, path: &Tree) -> Result<u32> {
    match names.meaning(path.place) {
        Meaning::Decl(n) => Ok(n),
        _ => bail!("a path that means no declaration"),
    }
}

/// The one type of a list.
fn only(types: &TypeIds) -> Result<TypeId>
    ensures { (n : ℕ) → AllBelow n types.now → IfOk result (λ t. t < n) }
{
    match types.get(0) {
        Some(t) => Ok(*t),
        None => bail!("no type"),
    }
}

/// The number of items of an array type.
fn length(kids: &Kids) -> Result<u64> {
    let Some(number) = kids.get(0) else {
        bail!("an array without a length");
    };
    if number.kind != Kind::Number {
        bail!("an array whose length is no number");
    }
    u64::try_from(number.number)
        .ok()
        .context("a length that is too large")
}

/// The type that a spelled type is.
fn admitted(alloc: Global, s: &mut TypeStore, spelled: &Spelled, tree: &Tree) -> Result<TypeId>
    requires { IsWithin (length s.old.rows) spelled.now.row }
    ensures within { IfOk result (λ t. t < length s.new.rows) }
    ensures grows { length s.old.rows ≤ length s.new.rows }
{
    match admit(alloc, s, spelled, tree.place) {
        Ok(t) => Ok(t),
        Err(Stop::Fault(fault)) => bail!("a signature has the fault E{}", fault.number),
        Err(Stop::Memory) => bail!("out of memory"),
    }
}
