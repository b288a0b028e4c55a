//! The constant of a tree.

ghost use Rattle.std.specs.Prelude.{◌≡◌, ◌++◌, ◌-◌, ◌<◌, ◌^◌, None, IfOk, IfErr, OnOk};
ghost use Rattle.hare_types.specs.Store.{Store};
ghost use Rattle.hare_types.specs.Later.{IsLater};
ghost use Rattle.hare_typed.specs.Folded.{tagged_by_id, folded, inconstant};
ghost use Rattle.hare_const.specs.Made.{made_by};
ghost use Rattle.hare_const.specs.NodeValues as spec;
ghost use Rattle.hare_typed.specs.Settled.{IsSettled};
ghost use Rattle.hare_typed.specs.Coherent.{IsCoherent};

use crate::coherent::is_coherent;
use crate::outcome::Outcome;
use crate::reached::objects_led_to;
use crate::settled::is_settled;
use crate::statics::put_statics;
use crate::walk::tree_value;
use hare_tree::{Fault, Stop};
use hare_typed::{Cells, Const, ConstObjects, Typed};
use hare_types::TypeStore;
use std::alloc::{AllocError, Global};

/// The cells of a value, where there is one.
fn cells_of(outcome: Outcome) -> Option<Cells>
    ensures { result ≡ spec.cells_of outcome }
{
    match outcome {
        Outcome::Known(cells) => Some(cells),
        Outcome::Aborts | Outcome::Undefined => None,
    }
}

/// The same as `constant_cells`; the objects that the evaluation makes are put behind the others.
fn cells_and_objects(
    alloc: Global,
    s: &TypeStore,
    own: u32,
    t: &Typed,
    objects: &mut ConstObjects,
) -> Result<Option<Cells>, Stop<Fault>>
    requires own { own < 2 ^ 32 - 1 }
    requires settled { IsSettled s.now t.now }
    requires coherent { IsCoherent s.now own t.now }
    ensures ok { IfOk result (λ cells. (inconstant s.now own t.now ≡ None) × (spec.cells_in (folded s.now own t.now) ≡ cells)) }
    ensures objects { OnOk result (objects.new ≡ objects.old ++ made_by (tagged_by_id s.now) own t.now) }
    ensures err { IfErr result (spec.Refuses (inconstant s.now own t.now)) }
{
    let _law = s.declarations();
    let outcome = tree_value(alloc, s, own, t, objects)?;
    Ok(cells_of(outcome))
}

/// The cells of the constant that a value of the declaration `own` has, as its coercion gives it; or E21 at its first node, in check order,
/// that is no constant or whose evaluation would abort, also where it would not run. `None` where the evaluation meets an undefined act,
/// which it does in no tree that was checked.
///
/// Nothing is asked of the tree: where it tells too little, which `is_settled` and `is_coherent` test, the answer is want of memory, as that
/// of `constant` is. In a union the tag of a type is one more than its id. Each node is evaluated once, and the call goes as deep in the
/// host as the tree is. The parts of a tuple take the memory of their own cells, and so do the fields of a struct, in whatever order they are
/// written. The time is that of the tree and of the cells; each comparison of texts takes that of their bytes. The declaration's number
/// `own` is below 2^32 - 1.
pub fn constant_cells(
    alloc: Global,
    s: &TypeStore,
    own: u32,
    t: &Typed,
) -> Result<Option<Cells>, Stop<Fault>>
    requires own { own < 2 ^ 32 - 1 }
    ensures ok { IfOk result (λ cells. (inconstant s.now own t.now ≡ None) × (spec.cells_in (folded s.now own t.now) ≡ cells)) }
    ensures err { IfErr result (spec.Refuses (inconstant s.now own t.now)) }
{
    if !is_settled(s, t) {
        return Err(Stop::Memory);
    }
    if !is_coherent(alloc, s, own, t)? {
        return Err(Stop::Memory);
    }
    let mut made = ConstObjects::new(alloc);
    cells_and_objects(alloc, s, own, t, &mut made)
}

/// The constant that a value of the declaration `own` has, as its coercion gives it: its cells, and the objects of strings, and of arrays
/// that become slices, to which they lead, directly or through such objects, by ascending number. Or E21 at its first node, in check order,
/// that is no constant or whose evaluation would abort, also where it would not run. The answer is so over each later store too. `Absent`
/// where the evaluation meets an undefined act, which it does in no tree that was checked.
///
/// It is asked that the constant can be told: `is_settled` and `is_coherent` test it, and it holds of each well-typed value. So there is no
/// other answer but for want of memory. This is also the answer where the cells lead to more objects that are not there than there are
/// objects, where two parts of a struct have one place, and where cells that a def gave are none of the text or union that is made of them,
/// as in no tree that was checked.
/// In a union the tag of a type is one more than its id. The declaration's number `own` is below 2^32 - 1. Each node is evaluated once, and
/// the call goes as deep in the host as the tree is. The time is that of the tree and of the cells, and n log n in the objects; each
/// comparison of texts takes that of their bytes.
pub fn const_eval(alloc: Global, s: &TypeStore, own: u32, t: &Typed) -> Result<Const, Stop<Fault>>
    requires own { own < 2 ^ 32 - 1 }
    requires settled { IsSettled s.now t.now }
    requires coherent { IsCoherent s.now own t.now }
    ensures ok { IfOk result (λ c. (inconstant s.now own t.now ≡ None) × ((l : Store) → IsLater s.now l → c ≡ folded l own t.now)) }
    ensures err { IfErr result (spec.Refuses (inconstant s.now own t.now)) }
{
    let _law = s.declarations();
    let mut objects = ConstObjects::new(alloc);
    put_statics(alloc, own, t, &mut objects)?;
    match cells_and_objects(alloc, s, own, t, &mut objects) {
        Ok(Some(cells)) => {
            let listed = objects_led_to(alloc, objects, &cells)?;
            Ok(Const::Known {
                cells,
                objects: listed,
            })
        }
        Ok(None) => Ok(Const::Absent),
        Err(stop) => Err(stop),
    }
}

/// The constant that a value of the declaration `own` has, as its coercion gives it; `Absent` where one of its nodes is no constant, or
/// would abort. It is the constant over each later store too. The objects of strings, and of arrays that become slices, to which its cells
/// lead are listed with it.
///
/// Where the store or the tree tells too little, the answer is want of memory: so it is of a tree with a type that comes to a name which is
/// not defined, or with a tuple or struct whose size is not known to be at most 67,108,864 bytes, or with parts that its type has not; of a
/// value that goes to a union of which, or of whose members, so much is not known; of cells that lead to objects which are not there, where
/// there are more of these than there are objects; and of a tree that compares texts where objects with one number have other cells, or
/// where both are constants and one is no string and no name of a def, in parentheses or not, cast to a text or not. The tag of a type in a
/// union is one more than its id, in each store. The declaration's number `own` is below 2^32 - 1. The time is that of the tree and of the
/// cells, and n log n in the objects; in a tree that compares texts, each string and each path to a def takes that of the cells which its
/// objects keep.
pub fn constant(alloc: Global, s: &TypeStore, own: u32, t: &Typed) -> Result<Const, AllocError>
    requires own { own < 2 ^ 32 - 1 }
    ensures { IfOk result (λ c. (l : Store) → IsLater s.now l → c ≡ folded l own t.now) }
{
    let _law = s.declarations();
    if !is_settled(s, t) {
        return Err(AllocError);
    }
    if !is_coherent(alloc, s, own, t)? {
        return Err(AllocError);
    }
    match const_eval(alloc, s, own, t) {
        Ok(c) => Ok(c),
        Err(Stop::Fault(_)) => Ok(Const::Absent),
        Err(Stop::Memory) => Err(AllocError),
    }
}
