//! What is found of a body that is well typed.

ghost use Rattle.std.specs.Prelude.{IsTrue, IfOk};
ghost use Rattle.rule_judge.specs.Defined.{IsDefined};

use crate::listing::put_type;
use anyhow::{Context, Result, bail};
use hare_defined::Defined;
use hare_tree::Kind;
use hare_typed::{Typed, TypedKids};
use hare_types::{Ty, TypeId, TypeStore};
use std::alloc::{AllocError, Global};

/// A place in the one file.
#[derive(Clone, Copy)]
pub(crate) struct Spot {
    pub line: u32,
    pub column: u32,
}

/// The type of the value of a body; or, where a place is asked for, the type of the node there, and its coercion.
pub(crate) fn accepted(
    alloc: Global,
    s: &TypeStore,
    body: &Typed,
    asked: Option<Spot>,
) -> Result<String> {
    let mut out = String::from_str(alloc, "ok ")?;
    match asked {
        None => put_value(&mut out, alloc, s, body.ty)?,
        Some(spot) => {
            let node = node_at(body, spot).context("no node at that place")?;
            put_node(&mut out, alloc, s, node)?;
            let (line, column) = (spot.line, spot.column);
            write!(out, " at {line}:{column}")?;
        }
    }
    Ok(out)
}

/// Writes the type of a node, and what its coercion makes of it where that is another.
fn put_node(out: &mut String, alloc: Global, s: &TypeStore, node: &Typed) -> Result<()> {
    put_value(out, alloc, s, node.ty)?;
    let row = node.coerce.row;
    if row != 1 {
        out.push_str(" to ")?;
        put_value(out, alloc, s, node.coerce.to)?;
        write!(out, " by row {row}")?;
    }
    Ok(())
}

/// Writes the type of a value.
fn put_value(out: &mut String, alloc: Global, s: &TypeStore, ty: Ty) -> Result<()> {
    match ty {
        Ty::Of(t) => {
            if !is_defined(alloc, s, t)? {
                bail!("a type that is not defined");
            }
            put_type(out, s, t)
        }
        Ty::Iconst(v) => Ok(write!(out, "iconst {v}")?),
        Ty::Null => Ok(out.push_str("null")?),
        Ty::Empty => Ok(out.push_str("[]")?),
    }
}

/// Whether a type is in the store, and mentions no name that is not defined.
fn is_defined(alloc: Global, s: &TypeStore, t: TypeId) -> Result<bool, AllocError>
    ensures { IfOk result (λ b. IsTrue b → IsDefined s.now t) }
{
    let mut defined = Defined::new(alloc);
    defined.is_defined(s, t)
}

/// The outermost node at a place of a tree.
#[cycle(nodes)]
fn node_at(tree: &Typed, spot: Spot) -> Option<&Typed> {
    let place = tree.place;
    if place.line == spot.line && place.column == spot.column && tree.kind != Kind::None {
        return Some(tree);
    }
    node_among(&tree.kids, spot)
}

/// The first node at a place of some trees.
#[cycle(nodes)]
#[tactic(auto, using(hare_typed::proofs::KidLemmas::kid_size))]
fn node_among(kids: &TypedKids, spot: Spot) -> Option<&Typed> {
    for i in 0..kids.len() {
        if let Some(kid) = kids.get(i) {
            if let Some(found) = node_at(kid, spot) {
                return Some(found);
            }
        }
    }
    None
}
