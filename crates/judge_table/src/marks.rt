//! Trees of which is told what judges are told of kids.

ghost use Rattle.std.specs.Prelude.{◌≡◌, map, IfOk, OnOk};
ghost use Rattle.hare_typed.specs.Erased.{erase};

use crate::meanings::meaning;
use crate::ready::defined_coercion;
use crate::told::{Mark, Told};
use anyhow::{Context, Result};
use hare_const::constant;
use hare_tree::{Kids, Kind, Meaning, Suffix, Tree, Word};
use hare_typed::{Const, Typed, TypedKids};
use hare_types::{Coercion, Scalar, Ty, TypeId};
use rule_judge::word;
use spelled_types::{Table, is_type, type_in, type_of};

/// The tree with what is told of its nodes. Its kids come last, so that none is given up.
#[cycle(marks)]
fn typed(table: &mut Table, told: &Told, tree: &Tree) -> Result<Typed>
    ensures { IfOk result (λ x. erase x ≡ tree.now) }
{
    let meaning = meaning(table, told, tree)?;
    let ty = type_told(table, told, tree, meaning)?;
    let coerce = coercion_told(table, told, tree, &ty)?;
    let text = Word::copy(table.alloc, tree.text.bytes())?;
    let kids = typed_kids(table, told, tree.kind, &tree.kids)?;
    Ok(Typed {
        kind: tree.kind,
        place: tree.place,
        text,
        number: tree.number,
        suffix: tree.suffix,
        node: tree.place.column,
        ty,
        coerce,
        meaning,
        value: Const::Absent,
        kids,
    })
}

/// The kids of a node of this kind, with what is told of them.
#[cycle(marks)]
pub(crate) fn typed_kids(
    table: &mut Table,
    told: &Told,
    kind: Kind,
    kids: &Kids,
) -> Result<TypedKids>
    ensures { IfOk result (λ xs. map erase xs ≡ kids.now) }
{
    let alloc = table.alloc;
    let mut done = TypedKids::new(alloc);
    for i in 0..kids.len() {
        let Some(kid) = kids.get(i) else {
            unreachable!();
        };
        let x = typed(table, told, kid)?;
        let x = folded(table, told, kind, x)?;
        done.push(x)?;
    }
    Ok(done)
}

/// A kid of a node of this kind: a value of a case goes to the type that is told for these, and has its constant.
fn folded(table: &Table, told: &Told, kind: Kind, mut x: Typed) -> Result<Typed>
    ensures { IfOk result (λ y. erase y ≡ erase x) }
{
    if kind == Kind::Values && !matches!(x.kind, Kind::None | Kind::TrailingComma) {
        if let Some(t) = told.values {
            fold(table, t, &mut x)?;
        }
    }
    Ok(x)
}

/// Lets a value go to a type, and gives it its constant.
fn fold(table: &Table, t: TypeId, x: &mut Typed) -> Result<()>
    ensures { OnOk result (erase x.new ≡ erase x.old) }
{
    let coerce = defined_coercion(table.alloc, &table.store, &x.ty, t)?;
    x.coerce = coerce;
    let value = constant(table.alloc, &table.store, 0, x)?;
    x.value = value;
    Ok(())
}

/// What is told of the nodes at the place of a node.
fn mark_at<'t>(told: &'t Told, tree: &Tree) -> Option<&'t Mark> {
    if tree.kind == Kind::None {
        return None;
    }
    let mut found = None;
    for mark in told.marks.as_slice() {
        if mark.column == tree.place.column {
            found = Some(mark);
        }
    }
    found
}

/// The type of what a node gives that means this: what is told, or else what the node itself tells.
fn type_told(table: &mut Table, told: &Told, tree: &Tree, meaning: Meaning) -> Result<Ty> {
    if let Some(mark) = mark_at(told, tree) {
        if let Some(ty) = mark.ty {
            return Ok(ty);
        }
    }
    own_type(table, told, tree, meaning)
}

/// What becomes of a value of this type at the place of a node: it goes to what is told, or else stays as it is.
fn coercion_told(table: &Table, told: &Told, tree: &Tree, ty: &Ty) -> Result<Coercion> {
    if let Some(mark) = mark_at(told, tree) {
        if let Some(t) = mark.to {
            return defined_coercion(table.alloc, &table.store, ty, t);
        }
    }
    Ok(Coercion { row: 1, to: *ty })
}

/// The type of what a node gives where it tells this itself, as a literal, a path or a written type does; else void.
fn own_type(table: &mut Table, told: &Told, tree: &Tree, meaning: Meaning) -> Result<Ty> {
    let scalar = match tree.kind {
        Kind::Null => return Ok(Ty::Null),
        Kind::Path => return path_type(table, told, meaning),
        Kind::Number => match suffix_word(tree.suffix) {
            Some(scalar) => scalar,
            None => return number_type(tree.number),
        },
        Kind::Str => Scalar::Str,
        Kind::RuneLit => Scalar::Rune,
        Kind::Bool => Scalar::Bool,
        kind if is_type(kind) => return Ok(Ty::Of(type_of(table, tree)?)),
        _ => Scalar::Void,
    };
    Ok(Ty::Of(word(&mut table.store, scalar)?))
}

/// The type of a whole number without a suffix.
fn number_type(number: u128) -> Result<Ty> {
    let v = i128::try_from(number)
        .ok()
        .context("a number that is too large")?;
    Ok(Ty::Iconst(v))
}

/// The type of a path that means this; void where it means no value, as that of a callee.
fn path_type(table: &mut Table, told: &Told, meaning: Meaning) -> Result<Ty> {
    match meaning {
        Meaning::Local(n) => match told.locals.get(n as usize) {
            Some(local) => return Ok(Ty::Of(local.ty)),
            None => {}
        },
        Meaning::Decl(n) => match told.decls.find(n) {
            Some(d) if d.kind == Kind::Fn => {}
            Some(d) => return Ok(Ty::Of(d.ty)),
            None => return Ok(Ty::Of(type_in(table, 0, "rt::nomem")?)),
        },
        Meaning::Rt(_) | Meaning::None => {}
    }
    Ok(Ty::Of(word(&mut table.store, Scalar::Void)?))
}

/// The type that a suffix names.
fn suffix_word(suffix: Suffix) -> Option<Scalar> {
    match suffix {
        Suffix::None => None,
        Suffix::I8 => Some(Scalar::I8),
        Suffix::I16 => Some(Scalar::I16),
        Suffix::I32 => Some(Scalar::I32),
        Suffix::I64 => Some(Scalar::I64),
        Suffix::U8 => Some(Scalar::U8),
        Suffix::U16 => Some(Scalar::U16),
        Suffix::U32 => Some(Scalar::U32),
        Suffix::U64 => Some(Scalar::U64),
        Suffix::I => Some(Scalar::Int),
        Suffix::U => Some(Scalar::Uint),
        Suffix::Z => Some(Scalar::Size),
    }
}
