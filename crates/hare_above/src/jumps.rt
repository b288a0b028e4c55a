//! What a `yield` means.

ghost use Rattle.std.specs.Prelude.{◌≡◌, cond, List, length, Some};
ghost use Rattle.hare_typed.specs.Copies.{means};
ghost use Rattle.hare_rules.specs.declared.hint.Hint.{Hint as HintOf};
ghost use Rattle.hare_rules.specs.Control as control;
ghost use Rattle.hare_above.specs.Frames.{open_of, opens};

use hare_rules::{Hint, Label, Labels, Target};
use hx_base::Items;

/// Whether a `yield` with this name means a block with the other: one without a name means any.
fn is_named(name: &[u8], own: &[u8]) -> bool
    ensures { result ≡ means name.now own.now }
{
    name.is_empty() || name == own
}

/// Whether a `yield` with this name can mean the label: a block by its name, or any block or case where there is no name.
fn takes_yield(name: &[u8], l: &Label) -> bool
    ensures { (h : HintOf) → result ≡ control.takes_yield name.now (open_of l.now h) }
{
    match l.target {
        Target::Block => is_named(name, l.name.bytes()),
        Target::Case => name.is_empty(),
        Target::Loop => false,
    }
}

/// The number of the label, where the `yield` can mean it; else that of the nearest before it.
fn nearer(name: &[u8], l: &Label, i: usize, nearest: Option<usize>) -> Option<usize>
    ensures { (h : HintOf) → result ≡ cond (control.takes_yield name.now (open_of l.now h)) (Some i) nearest }
{
    if takes_yield(name, l) {
        Some(i)
    } else {
        nearest
    }
}

/// How many labels stand round the block or case that a `yield` with this name means; none where it means none. The time is that of the
/// labels.
pub(crate) fn yield_level(name: &[u8], labels: &Labels) -> Option<usize>
    ensures { (hs : List HintOf) → length hs ≡ length labels.now → result ≡ control.yield_level name.now (opens labels.now hs) }
{
    let mut nearest = None;
    for i in 0..labels.len() {
        let Some(l) = labels.get(i) else {
            unreachable!();
        };
        nearest = nearer(name, l, i, nearest);
    }
    nearest
}

/// What is asked of the label, where the `yield` can mean it; else of the nearest before it.
fn nearer_hint(name: &[u8], l: &Label, h: &Hint, nearest: &Hint) -> Hint
    ensures { result ≡ cond (control.takes_yield name.now (open_of l.now h.now)) h.now nearest.now }
{
    if takes_yield(name, l) { *h } else { *nearest }
}

/// What is asked of a value that a `yield` with this name hands on; nothing where it means nothing. The time is that of the labels.
pub(crate) fn yielded_hint(name: &[u8], labels: &Labels, hints: &Items<Hint>) -> Hint
    requires { length hints.now ≡ length labels.now }
    ensures { result ≡ control.hint_of_open (control.block_meant name.now (opens labels.now hints.now)) }
{
    let mut nearest = Hint::None;
    for i in 0..labels.len() {
        let (Some(l), Some(h)) = (labels.get(i), hints.get(i)) else {
            unreachable!();
        };
        nearest = nearer_hint(name, l, h, &nearest);
    }
    nearest
}
