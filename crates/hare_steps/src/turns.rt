//! The steps, by what declarations say of one another.

ghost use Rattle.std.specs.Prelude.{◌≡◌, ◌<◌, ◌++◌, [], length, map, slice_get, IfOk, OnOk, Some};
ghost use Rattle.hare_depends.specs.declared.said.Said as said;
ghost use Rattle.hare_depends.specs.Order.{IsOrder};
ghost use Rattle.hare_whole.specs.Listing.{Listing, saids as said_of};
ghost use Rattle.hare_whole.specs.Turns as whole;
ghost use Rattle.hare_steps.specs.Plans.{step_of};
ghost use Rattle.hare_steps.specs.Taken as spec;

use crate::early::{early_of, has_value};
use crate::judged::{is_judged, none_judged, set_all_judged, set_judged};
use crate::step::Step;
use hare_depends::Said;
use std::alloc::{AllocError, Global};

/// The steps in which declarations are judged, of which these are said by their numbers, in this order of theirs: of each the types that
/// are written in it, unless they have been judged, of a def and a global its value, and then that it is done. Right before a value come
/// the written types of the globals that it names, in the order of the source, unless they have been judged.
///
/// `order` is the order of these declarations, as `hare_depends::order` tells it.
///
/// Fails only for want of memory. Takes time in proportion to the declarations and to what they name, but for sorting.
pub fn steps(alloc: Global, saids: &[Said], order: &[u32]) -> Result<Vec<Step>, AllocError>
    requires order { IsOrder saids.now order.now }
    ensures value { IfOk result (λ xs. (p : Listing) → said_of p ≡ saids.now → whole.AreSteps p [] order.now (map step_of xs.items)) }
{
    let mut judged = none_judged(alloc, saids.len())?;
    let mut steps = Vec::new(alloc);
    for decl in order {
        push_turn(alloc, &mut steps, &mut judged, saids, *decl)?;
    }
    Ok(steps)
}

/// Puts the turn of a declaration behind the steps.
fn push_turn(
    alloc: Global,
    steps: &mut Vec<Step>,
    judged: &mut Vec<bool>,
    saids: &[Said],
    decl: u32,
) -> Result<(), AllocError>
    requires there { decl < length saids.now }
    ensures { OnOk result (spec.TakesTurn saids.now decl judged.old.items (map step_of steps.old.items) judged.new.items
        (map step_of steps.new.items)) }
{
    let said = &saids[decl as usize];
    push_own_types(steps, judged, decl)?;
    set_judged(judged, decl);
    let early = early_of(alloc, saids, judged, said)?;
    push_types(steps, &early)?;
    set_all_judged(judged, &early);
    push_rest(steps, decl, has_value(said.sort))?;
    Ok(())
}

/// Puts it behind the steps that the types which are written in a declaration are judged, unless they have been.
fn push_own_types(steps: &mut Vec<Step>, judged: &[bool], decl: u32) -> Result<(), AllocError>
    ensures { OnOk result (map step_of steps.new.items ≡ map step_of steps.old.items ++ spec.own_types judged.now decl) }
{
    if !is_judged(judged, decl) {
        steps.push(Step::Types(decl))?;
    }
    Ok(())
}

/// Puts it behind the steps that the types which are written in these declarations are judged.
fn push_types(steps: &mut Vec<Step>, decls: &[u32]) -> Result<(), AllocError>
    ensures { OnOk result (map step_of steps.new.items ≡ map step_of steps.old.items ++ map whole.Types decls.now) }
{
    for decl in decls {
        steps.push(Step::Types(*decl))?;
    }
    Ok(())
}

/// Puts what follows the types of a declaration, which has a value or not, behind the steps.
fn push_rest(steps: &mut Vec<Step>, decl: u32, has_value: bool) -> Result<(), AllocError>
    ensures { OnOk result (map step_of steps.new.items ≡ map step_of steps.old.items ++ spec.rest_of has_value decl) }
{
    if has_value {
        steps.push(Step::Value(decl))?;
    }
    steps.push(Step::Done(decl))?;
    Ok(())
}
