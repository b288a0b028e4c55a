//! Types as lines spell them, and the types of the store that they are.

ghost use Rattle.std.specs.Prelude.{◌≡◌, ◌<◌, ◌≤◌, ℕ, length, IfOk};
ghost use Rattle.hare_types.specs.Rows.{AllBelow, FieldsBelow, IsWithin};

use crate::entered::Table;
use crate::kinds::{bears_type, items, scalar, text};
use anyhow::{Error, Result, anyhow, bail, ensure};
use hare_decl::parse_source;
use hare_layout::{Bools, Places, Spelled, admit};
use hare_tree::{Fault, Kids, Kind, Place, Stop, Tree};
use hare_types::{Field, Fields, Row, TypeId, TypeIds};
use std::alloc::{AllocError, Global};

/// The type that a part of a line spells, behind the first bytes of the line. Faults stand in the second line of what is parsed, in the
/// columns of the line.
pub fn type_in(table: &mut Table, skipped: usize, spelling: &str) -> Result<TypeId>
    ensures within { IfOk result (λ t. t < length table.new.store.rows) }
    ensures grows { length table.old.store.rows ≤ length table.new.store.rows }
{
    let source = source(table.alloc, skipped, spelling)?;
    first_type(table, source.as_bytes())
}

/// A file that declares what is spelled, with so many blanks before it.
fn source(alloc: Global, skipped: usize, spelling: &str) -> Result<String, AllocError> {
    let mut source = String::from_str(alloc, "type t =\n")?;
    for _ in 0..skipped {
        source.push(' ')?;
    }
    source.push_str(spelling)?;
    source.push(';')?;
    Ok(source)
}

/// The type of the first declaration of a file.
fn first_type(table: &mut Table, source: &[u8]) -> Result<TypeId>
    ensures within { IfOk result (λ t. t < length table.new.store.rows) }
    ensures grows { length table.old.store.rows ≤ length table.new.store.rows }
{
    ensure!(source.len() < 4_294_967_295, "a line of 4 GiB");
    match parse_source(table.alloc, 0, source) {
        Ok(file) => declared(table, &file.decls),
        Err(Stop::Fault(fault)) => Err(told(fault)),
        Err(Stop::Memory) => bail!("out of memory"),
    }
}

/// A fault, with its column.
fn told(fault: Fault) -> Error {
    let (number, column) = (fault.number, fault.place.column);
    anyhow!("E{number} at {column}")
}

/// The type of the first of these declarations.
fn declared(table: &mut Table, declarations: &Kids) -> Result<TypeId>
    ensures within { IfOk result (λ t. t < length table.new.store.rows) }
    ensures grows { length table.old.store.rows ≤ length table.new.store.rows }
{
    match declarations.get(0) {
        Some(declaration) => match declaration.kids.get(2) {
            Some(tree) if tree.kind == Kind::TypePath => name_alone(table, tree),
            Some(tree) => type_of(table, tree),
            None => bail!("no type"),
        },
        None => bail!("no type"),
    }
}

/// The type of a name that stands alone.
fn name_alone(table: &mut Table, tree: &Tree) -> Result<TypeId>
    ensures within { IfOk result (λ t. t < length table.new.store.rows) }
    ensures grows { length table.old.store.rows ≤ length table.new.store.rows }
{
    let number = table.number(text(tree)?)?;
    let r = Spelled {
        row: Row::Named(number),
        spreads: Bools::new(table.alloc),
        places: Places::new(table.alloc),
    };
    admitted(table, &r, tree.place)
}

/// The type of a name in another type. It is taken as it is, however large it is.
fn named(table: &mut Table, tree: &Tree) -> Result<TypeId>
    ensures within { IfOk result (λ t. t < length table.new.store.rows) }
    ensures grows { length table.old.store.rows ≤ length table.new.store.rows }
{
    let number = table.number(text(tree)?)?;
    let t = table.store.intern(Row::Named(number))?;
    Ok(t)
}

/// The type that a tree spells, or that of a field or of a spread member.
#[cycle(trees)]
pub fn type_of(table: &mut Table, tree: &Tree) -> Result<TypeId>
    ensures within { IfOk result (λ t. t < length table.new.store.rows) }
    ensures grows { length table.old.store.rows ≤ length table.new.store.rows }
{
    if tree.kind == Kind::TypePath {
        return named(table, tree);
    }
    let types = types_of(table, &tree.kids)?;
    if matches!(tree.kind, Kind::StructField | Kind::Spread) {
        return only(&types);
    }
    let row = row_of(table, tree, types)?;
    whole(table, tree, row)
}

/// The types of the parts of a type, in their order.
#[cycle(trees)]
fn types_of(table: &mut Table, kids: &Kids) -> Result<TypeIds>
    ensures within { IfOk result (λ is. AllBelow (length table.new.store.rows) is) }
    ensures grows { length table.old.store.rows ≤ length table.new.store.rows }
{
    let mut types = TypeIds::new(table.alloc);
    for i in 0..kids.len() {
        if let Some(kid) = kids.get(i) {
            if bears_type(kid.kind) {
                let t = type_of(table, kid)?;
                types.push(t)?;
            }
        }
    }
    Ok(types)
}

/// The row of a type whose parts are these types.
fn row_of(table: &mut Table, tree: &Tree, types: TypeIds) -> Result<Row>
    requires { AllBelow (length table.old.store.rows) types }
    ensures within { IfOk result (λ q. IsWithin (length table.new.store.rows) q) }
    ensures grows { length table.old.store.rows ≤ length table.new.store.rows }
{
    match tree.kind {
        Kind::TypeTuple => Ok(Row::Tuple(types)),
        Kind::TypeUnion => Ok(Row::Union(types)),
        _ => row_over(table, tree, &types),
    }
}

/// The same of a type that is no tuple and no union.
fn row_over(table: &mut Table, tree: &Tree, types: &TypeIds) -> Result<Row>
    requires { AllBelow (length table.old.store.rows) types.now }
    ensures within { IfOk result (λ q. IsWithin (length table.new.store.rows) q) }
    ensures grows { length table.old.store.rows ≤ length table.new.store.rows }
{
    match tree.kind {
        Kind::TypeScalar => Ok(Row::Scalar(scalar(text(tree)?.as_bytes())?)),
        Kind::TypePointer => Ok(Row::Pointer(only(types)?)),
        Kind::TypeNullable => Ok(Row::Nullable(only(types)?)),
        Kind::TypeSlice => Ok(Row::Slice(only(types)?)),
        Kind::TypeError => Ok(Row::Error(only(types)?)),
        Kind::TypeArray => Ok(Row::Array(items(&tree.kids)?, only(types)?)),
        Kind::TypeStruct => Ok(Row::Struct(fields(table, &tree.kids, types)?)),
        _ => bail!("no type"),
    }
}

/// The one type of a list.
fn only(types: &TypeIds) -> Result<TypeId>
    ensures { (n : ℕ) → AllBelow n types.now → IfOk result (λ t. t < n) }
{
    match types.get(0) {
        Some(t) => Ok(*t),
        None => bail!("no type"),
    }
}

/// The fields that these trees name, with these types.
fn fields(table: &mut Table, kids: &Kids, types: &TypeIds) -> Result<Fields>
    requires { AllBelow (length table.old.store.rows) types.now }
    ensures within { IfOk result (λ fs. FieldsBelow (length table.new.store.rows) fs) }
    ensures grows { length table.old.store.rows ≤ length table.new.store.rows }
{
    let mut fields = Fields::new(table.alloc);
    for i in 0..types.len() {
        if let Some(kid) = kids.get(i) {
            if let Some(ty) = types.get(i) {
                let name = table.number(text(kid)?)?;
                fields.push(Field { name, ty: *ty })?;
            }
        }
    }
    Ok(fields)
}

/// The type that a tree spells whose row this is.
fn whole(table: &mut Table, tree: &Tree, row: Row) -> Result<TypeId>
    requires { IsWithin (length table.old.store.rows) row }
    ensures within { IfOk result (λ t. t < length table.new.store.rows) }
    ensures grows { length table.old.store.rows ≤ length table.new.store.rows }
{
    let mut r = Spelled {
        row,
        spreads: Bools::new(table.alloc),
        places: Places::new(table.alloc),
    };
    mark(&mut r.spreads, &mut r.places, &tree.kids)?;
    admitted(table, &r, tree.place)
}

/// Tells which of the members of a union are spread, and where they stand.
fn mark(spreads: &mut Bools, places: &mut Places, members: &Kids) -> Result<(), AllocError> {
    for i in 0..members.len() {
        if let Some(member) = members.get(i) {
            spreads.push(member.kind == Kind::Spread)?;
            places.push(member.place)?;
        }
    }
    Ok(())
}

/// The type that a spelled type is.
fn admitted(table: &mut Table, r: &Spelled, place: Place) -> Result<TypeId>
    requires { IsWithin (length table.old.store.rows) r.now.row }
    ensures within { IfOk result (λ t. t < length table.new.store.rows) }
    ensures grows { length table.old.store.rows ≤ length table.new.store.rows }
{
    match admit(table.alloc, &mut table.store, r, place) {
        Ok(t) => Ok(t),
        Err(Stop::Fault(fault)) => Err(told(fault)),
        Err(Stop::Memory) => bail!("out of memory"),
    }
}
