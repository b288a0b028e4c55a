//! The objects of the strings and of the constants that stand in a tree.

ghost use Rattle.std.specs.Prelude.{◌≡◌, ◌++◌, ◌-◌, ◌<◌, ◌^◌, OnOk};
ghost use Rattle.hare_typed.specs.Typed.{typed_nodes};
ghost use Rattle.hare_typed.specs.ConstantValues.{objects_of, text_object};
ghost use Rattle.hare_typed.specs.Constants.{own_kind};
ghost use Rattle.hare_typed.specs.Coherent as spec;

use crate::addresses::object_number;
use crate::literals::cells_of_bytes;
use hare_tree::Kind;
use hare_typed::{Const, ConstObject, ConstObjects, SharedCells, Typed, TypedKids};
use std::alloc::{AllocError, Global};

/// Puts the object of a node behind the others, where the node is a string.
fn put_text(
    alloc: Global,
    own: u32,
    t: &Typed,
    objects: &mut ConstObjects,
) -> Result<(), AllocError>
    requires { own < 2 ^ 32 - 1 }
    ensures { OnOk result (objects.new ≡ objects.old ++ spec.held (text_object (spec.scope_in own) t.now (own_kind t.now))) }
{
    match t.kind {
        Kind::Str => {
            let text = cells_of_bytes(alloc, t.text.bytes())?;
            let cells = SharedCells::new(alloc, text)?;
            objects.push(ConstObject {
                object: object_number(own, t),
                cells,
            })
        }
        _ => Ok(()),
    }
}

/// Puts the objects of a constant behind the others.
fn put_listed(value: &Const, objects: &mut ConstObjects) -> Result<(), AllocError>
    ensures { OnOk result (objects.new ≡ objects.old ++ spec.held (objects_of value.now)) }
{
    let Const::Known {
        objects: listed,
        ..
    } = value
    else {
        return Ok(());
    };
    for i in 0..listed.len() {
        let Some(o) = listed.get(i) else {
            return Ok(());
        };
        let cells = o.cells.share()?;
        objects.push(ConstObject {
            object: o.object,
            cells,
        })?;
    }
    Ok(())
}

/// Puts the objects of the strings and of the constants in a tree behind the others: those of a node before those of its kids.
#[cycle(statics)]
pub(crate) fn put_statics(
    alloc: Global,
    own: u32,
    t: &Typed,
    objects: &mut ConstObjects,
) -> Result<(), AllocError>
    requires own { own < 2 ^ 32 - 1 }
    ensures { OnOk result (objects.new ≡ objects.old ++ spec.statics_in own t.now) }
{
    put_text(alloc, own, t, objects)?;
    put_listed(&t.value, objects)?;
    put_statics_of(alloc, own, &t.kids, objects)
}

/// The same of some trees.
#[cycle(statics)]
fn put_statics_of(
    alloc: Global,
    own: u32,
    kids: &TypedKids,
    objects: &mut ConstObjects,
) -> Result<(), AllocError>
    requires own { own < 2 ^ 32 - 1 }
    ensures { OnOk result (objects.new ≡ objects.old ++ spec.statics_in_each own (typed_nodes kids.now)) }
{
    for i in 0..kids.len() {
        let Some(kid) = kids.get(i) else {
            return Ok(());
        };
        put_statics(alloc, own, kid, objects)?;
    }
    Ok(())
}
