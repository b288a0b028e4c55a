//! What a walk looks at itself, since a judge is not told of it.

ghost use Rattle.std.specs.Prelude.{◌≡◌, ◌&&◌, ℕ, true, map, not, is_some, option_copied, option_map, OnOk, IfOk, IfErr};
ghost use Rattle.hare_tree.specs.Node.{head};
ghost use Rattle.hare_types.specs.Store.{Store};
ghost use Rattle.hare_types.specs.Later.{IsLater};
ghost use Rattle.hare_typed.specs.Order.{tree_from_front};
ghost use Rattle.hare_rules.specs.declared.hint.Hint.{Hint as HintOf};
ghost use Rattle.hare_rules.specs.declared.row_id.RowId.TheVariants as asked;
ghost use Rattle.hare_rules.specs.Context.{Context, Open, kid, store_of};
ghost use Rattle.hare_rules.specs.Context as context;
ghost use Rattle.hare_rules.specs.Control as control;
ghost use Rattle.hare_rules.specs.Finished.{bare};
ghost use Rattle.hare_rules.specs.Flow.{yielded};
ghost use Rattle.hare_rules.specs.Judged.{open_of};
ghost use Rattle.hare_rules.specs.Rows.{holds};
ghost use Rattle.hare_told.specs.Told.{told_label};
ghost use Rattle.hare_typed.specs.Copies.{means};
ghost use Rattle.hare_flow.specs.Seen.{entry_of};
ghost use Rattle.rule_judge.specs.Defined.{IsDefinedHint};
ghost use Rattle.rule_judge.specs.Grown.{IsGrown};
ghost use Rattle.hare_find.specs.Looked.{MeansLocal, IsKnownAt, IsRefusedBy, IsVoidTaken, IsYield, MeansInside};

use hare_flow::Binding;
use hare_rules::{Case, Hint, Inside, Label, Labels, RowId, Target, number};
use hare_tree::{Fault, Place, Stop, Tree};
use hare_typed::TypedKids;
use hare_types::TypeStore;
use rule_judge::{is_there, void_fits};
use std::alloc::AllocError;

/// Looks at the binding that a path at this place means, of which this is known: it has a type. That of a loop over what is no array and no
/// slice has none, and is the fault E33 at the loop. A path to one that has not been judged is answered as want of memory: names mean none
/// such.
pub fn look_at_binding(place: Place, binding: &Option<Binding>) -> Result<(), Stop<Fault>>
    ensures ok { OnOk result ((c : Context) (n : ℕ) → MeansLocal c n place (option_map entry_of binding.now) → IsKnownAt c n) }
    ensures err { IfErr result (λ e. (c : Context) (n : ℕ) → MeansLocal c n place (option_map entry_of binding.now) → IsRefusedBy c e) }
{
    let Some(b) = binding else {
        return Err(Stop::Memory);
    };
    match b {
        Binding::Known(_) => Ok(()),
        Binding::Odd(at) => Err(Stop::Fault(Fault {
            number: number(RowId::PathBindingKnown),
            place: *at,
        })),
        Binding::Later => Err(Stop::Memory),
    }
}

/// Whether a `yield` with this name means a block with the other: one without a name means any.
fn is_named(name: &[u8], own: &[u8]) -> bool
    ensures { result ≡ means name.now own.now }
{
    name.is_empty() || name == own
}

/// Whether a `yield` with this name can mean the label: a block by its name, or any block or case where there is no name.
fn takes_yield(name: &[u8], l: &Label) -> bool
    ensures { result ≡ control.takes_yield name.now (open_of l.now) }
{
    match l.target {
        Target::Block => is_named(name, l.name.bytes()),
        Target::Case => name.is_empty(),
        Target::Loop => false,
    }
}

/// The block or case that a `yield` with this name means: the nearest of the labels round it, which stand with the outermost first.
fn meant<'a>(name: &[u8], labels: &'a Labels) -> Option<&'a Label>
    ensures { option_map open_of (option_copied result) ≡ control.block_meant name.now (map open_of labels.now) }
{
    let mut left = labels.len();
    while left > 0 {
        left -= 1;
        if let Some(l) = labels.get(left) {
            if takes_yield(name, l) {
                return Some(l);
            }
        }
    }
    None
}

/// Whether a `yield` with this name means a block or a case, which stands inside the same deferred expression.
fn means_inside(inside: &Inside, name: &[u8]) -> bool
    ensures { (i : context.Inside) → inside.now.labels ≡ map told_label i.labels → inside.now.deferred ≡ i.deferred →
        result ≡ (is_some (control.block_meant name.now i.labels) && control.is_inside i (control.block_meant name.now i.labels)) }
{
    match meant(name, &inside.labels) {
        Some(l) => !inside.deferred || l.deferred,
        None => false,
    }
}

/// Whether void may be given where this is asked for.
fn takes_void(s: &mut TypeStore, hint: &Hint) -> Result<bool, AllocError>
    requires { IsDefinedHint s.old hint.now }
    ensures value { IfOk result (λ b. (f : Store) → IsLater s.new f → b ≡ control.void_fits_hint f hint.now) }
    ensures grown { IsGrown s.old s.new }
{
    let _law = s.declarations();
    match hint {
        Hint::Of(t) => void_fits(s, *t),
        Hint::Drop | Hint::None => Ok(true),
    }
}

/// Whether a `yield` has no value, and what it means has to take void.
fn gives_void(case: &Case, node: &Tree, kids: &TypedKids) -> bool
    ensures { (c : Context) (i : HintOf) → IsYield c case.now (head node.now) kids.now i →
        result ≡ (not (context.is_there (kid c 0)) && (holds asked.YieldTarget c && holds asked.YieldInside c)) }
{
    !is_there(kids, 0) && means_inside(&case.inside, node.text.bytes())
}

/// Looks at a `yield`, of which its judge is not told what its block or case is asked for: where it has no value, void is taken there. It
/// is asked for this, in every later store; where void does not fit it, the fault is E25 at the `yield`. The store may get the type void.
///
/// The condition is that a type for which the hint asks is in the store, and mentions no name that is not defined.
pub fn look_at_yield(
    s: &mut TypeStore,
    case: &Case,
    node: &Tree,
    kids: &TypedKids,
    hint: &Hint,
) -> Result<(), Stop<Fault>>
    requires { IsDefinedHint s.old hint.now }
    ensures value { OnOk result ((c : Context) → IsLater s.new (store_of c) → IsYield c case.now (head node.now) kids.now hint.now →
        MeansInside c → holds asked.YieldNoValue c ≡ true) }
    ensures taken { OnOk result ((c : Context) → IsYield c case.now (head node.now) kids.now hint.now → MeansInside c →
        IsVoidTaken s.new hint.now (yielded (head node.now) (tree_from_front 0 (map bare kids.now)))) }
    ensures err { IfErr result (λ e. (c : Context) → IsLater s.new (store_of c) → IsYield c case.now (head node.now) kids.now hint.now →
        IsRefusedBy c e) }
    ensures grown { IsGrown s.old s.new }
{
    let _law = s.declarations();
    if !gives_void(case, node, kids) {
        return Ok(());
    }
    if takes_void(s, hint)? {
        return Ok(());
    }
    Err(Stop::Fault(Fault {
        number: number(RowId::YieldNoValue),
        place: node.place,
    }))
}
