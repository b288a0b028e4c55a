//! The value of a tree, or the first node that is no constant.

ghost use Rattle.std.specs.Prelude.{◌≡◌, ◌++◌, ◌-◌, ◌<◌, ◌^◌, true, false, if◌then◌else◌, take, None, IfOk, IfErr, OnOk};
ghost use Rattle.hare_typed.specs.Typed.{typed_nodes};
ghost use Rattle.hare_typed.specs.Constants.{own_kind};
ghost use Rattle.hare_typed.specs.Folded.{tagged_by_id};
ghost use Rattle.hare_const.specs.Made as objects;
ghost use Rattle.hare_typed.specs.Settled.{IsSettled, AreSettled};
ghost use Rattle.hare_const.specs.NodeValues as spec;

use crate::constancy::{hides_kids, is_constant, is_type};
use crate::node::node_value;
use crate::operands::operands_of;
use crate::outcome::Outcome;
use crate::taken::is_taken;
use hare_tree::{Fault, Stop};
use hare_typed::{Cells, ConstObjects, Typed, TypedKids};
use hare_types::TypeStore;
use std::alloc::Global;

/// The number of the fault at what is no constant.
const NOT_CONSTANT: u8 = 21;

/// That a node is no constant.
fn not_constant(t: &Typed) -> Fault
    ensures { result ≡ spec.not_constant t.now }
{
    Fault {
        number: NOT_CONSTANT,
        place: t.place,
    }
}

/// The value of a node whose kids are constants, or the fault that it is none itself.
fn own_outcome(
    alloc: Global,
    s: &TypeStore,
    own: u32,
    t: &Typed,
    kids: &[Outcome],
    made: &mut ConstObjects,
) -> Result<Outcome, Stop<Fault>>
    requires own { own < 2 ^ 32 - 1 }
    requires settled { IsSettled s.now t.now }
    ensures ok { IfOk result (λ o. (spec.is_constant_node s.now t.now ≡ true) ×
        (o ≡ spec.node_value (tagged_by_id s.now) own t.now kids.now) × (spec.is_aborted o ≡ false)) }
    ensures made { OnOk result (made.new ≡ made.old ++ objects.made_of_node (tagged_by_id s.now) own t.now (own_kind t.now) kids.now) }
    ensures err { IfErr result (spec.RefusesNode s.now own t.now kids.now) }
{
    if is_constant(s, t) {
        match node_value(alloc, s, own, t, kids, made)? {
            Outcome::Aborts => Err(Stop::Fault(not_constant(t))),
            Outcome::Known(cells) => Ok(Outcome::Known(cells)),
            Outcome::Undefined => Ok(Outcome::Undefined),
        }
    } else {
        Err(Stop::Fault(not_constant(t)))
    }
}

/// Keeps what was made behind so many objects, or takes it away.
fn keep_if(made: &mut ConstObjects, before: usize, keeps: bool)
    ensures { made.new ≡ (if keeps then made.old else take before made.old) }
{
    if !keeps {
        made.truncate(before);
    }
}

/// The value of a tree, as the coercion of its node gives it, or the fault at its first node that is no constant. Each node is evaluated
/// once, and the objects that this makes are put behind the others.
#[cycle(walk)]
pub(crate) fn tree_value(
    alloc: Global,
    s: &TypeStore,
    own: u32,
    t: &Typed,
    made: &mut ConstObjects,
) -> Result<Outcome, Stop<Fault>>
    requires own { own < 2 ^ 32 - 1 }
    requires settled { IsSettled s.now t.now }
    ensures ok { IfOk result (λ o. (o ≡ spec.tree_value (tagged_by_id s.now) own t.now) × (spec.first_refused s.now own t.now ≡ None)) }
    ensures made { OnOk result (made.new ≡ made.old ++ objects.made_by (tagged_by_id s.now) own t.now) }
    ensures err { IfErr result (spec.Refuses (spec.first_refused s.now own t.now)) }
{
    if is_type(t.kind) {
        return Ok(Outcome::Known(Cells::new(alloc)));
    }
    if hides_kids(t) {
        return own_outcome(alloc, s, own, t, &[], made);
    }
    let kids = kid_values(alloc, s, own, &t.kids, t, made)?;
    own_outcome(alloc, s, own, t, kids.as_slice(), made)
}

/// The values of the kids of a node in their order, or the fault at the first node among them that is no constant. The objects that the
/// kids make which the node evaluates are put behind the others.
#[cycle(walk)]
fn kid_values(
    alloc: Global,
    s: &TypeStore,
    own: u32,
    kids: &TypedKids,
    node: &Typed,
    made: &mut ConstObjects,
) -> Result<Vec<Outcome>, Stop<Fault>>
    requires own { own < 2 ^ 32 - 1 }
    requires settled { AreSettled s.now (typed_nodes kids.now) }
    ensures ok { IfOk result (λ os. (os.items ≡ spec.kid_values (tagged_by_id s.now) own (typed_nodes kids.now)) ×
        (spec.first_refused_of s.now own (typed_nodes kids.now) ≡ None)) }
    ensures made { IfOk result (λ os. made.new ≡ made.old ++ objects.made_by_kids node.now (spec.operands_of (own_kind node.now)) os.items
        (objects.made_by_each (tagged_by_id s.now) own (typed_nodes kids.now))) }
    ensures err { IfErr result (spec.Refuses (spec.first_refused_of s.now own (typed_nodes kids.now))) }
{
    let operands = operands_of(node.kind);
    let mut values = Vec::with_capacity(alloc, kids.len())?;
    for i in 0..kids.len() {
        let Some(kid) = kids.get(i) else {
            return Ok(values);
        };
        let before = made.len();
        values.push(tree_value(alloc, s, own, kid, made)?)?;
        let taken = is_taken(node, operands, values.as_slice(), i);
        keep_if(made, before, taken);
    }
    Ok(values)
}
