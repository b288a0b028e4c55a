//! Whether the objects of a tree that have one number have the same cells.

ghost use Rattle.std.specs.Prelude.{◌≡◌, ◌↔◌, ◌-◌, ◌<◌, ◌^◌, IsTrue, IfOk};
ghost use Rattle.hare_typed.specs.Typed.{typed_nodes, kids_of};
ghost use Rattle.hare_typed.specs.Constants.{own_kind};
ghost use Rattle.hare_typed.specs.Coherent as spec;
ghost use Rattle.hare_typed.specs.Texts.{AreCoherent};

use crate::kids::first_given;
use crate::shape::is_str;
use crate::statics::put_statics;
use crate::table::table_of;
use hare_tree::Kind;
use hare_typed::{ConstObjects, Typed, TypedKids};
use hare_types::TypeStore;
use std::alloc::{AllocError, Global};

/// Whether a node compares texts.
fn is_text_equality(s: &TypeStore, t: &Typed) -> bool
    ensures { result ≡ spec.is_text_equality s.now (own_kind t.now) (kids_of t.now) }
{
    match t.kind {
        Kind::Equal => is_str(s, first_given(t)),
        _ => false,
    }
}

/// Whether an equality of texts stands in a tree.
#[cycle(equalities)]
fn compares_texts(s: &TypeStore, t: &Typed) -> bool
    ensures { result ≡ spec.compares_texts s.now t.now }
{
    is_text_equality(s, t) || compares_texts_each(s, &t.kids)
}

/// The same of some trees.
#[cycle(equalities)]
fn compares_texts_each(s: &TypeStore, kids: &TypedKids) -> bool
    ensures { result ≡ spec.compares_texts_each s.now (typed_nodes kids.now) }
{
    for i in 0..kids.len() {
        let Some(kid) = kids.get(i) else {
            return false;
        };
        if compares_texts(s, kid) {
            return true;
        }
    }
    false
}

/// The objects of the strings and of the constants in a tree.
fn statics_of(alloc: Global, own: u32, t: &Typed) -> Result<ConstObjects, AllocError>
    requires { own < 2 ^ 32 - 1 }
    ensures { IfOk result (λ os. os ≡ spec.statics_in own t.now) }
{
    let mut objects = ConstObjects::new(alloc);
    put_statics(alloc, own, t, &mut objects)?;
    Ok(objects)
}

/// Whether those of the objects that have one number have the same cells.
fn are_coherent(alloc: Global, own: u32, t: &Typed) -> Result<bool, AllocError>
    requires { own < 2 ^ 32 - 1 }
    ensures { IfOk result (λ b. IsTrue b ↔ AreCoherent (spec.statics_in own t.now)) }
{
    let table = table_of(alloc, statics_of(alloc, own, t)?)?;
    let objects = statics_of(alloc, own, t)?;
    for i in 0..objects.len() {
        let Some(o) = objects.get(i) else {
            return Ok(false);
        };
        let Some(cells) = table.get(&o.object) else {
            return Ok(false);
        };
        if !cells.cells().is_same(o.cells.cells()) {
            return Ok(false);
        }
    }
    Ok(true)
}

/// Whether a value of the declaration `own` compares no texts, or the objects of the strings and of the constants in it that have one
/// number have the same cells, as they have in each tree that was checked. Where it compares texts, what the objects keep of their cells is
/// looked at.
pub fn is_coherent(alloc: Global, s: &TypeStore, own: u32, t: &Typed) -> Result<bool, AllocError>
    requires { own < 2 ^ 32 - 1 }
    ensures { IfOk result (λ b. IsTrue b ↔ spec.IsCoherent s.now own t.now) }
{
    if !compares_texts(s, t) {
        return Ok(true);
    }
    are_coherent(alloc, own, t)
}
