//! What jumps mean.

ghost use Rattle.std.specs.Prelude.{◌≡◌, map, option_copied, option_map};
ghost use Rattle.hare_types.specs.Store.{Store};
ghost use Rattle.hare_typed.specs.Copies.{means};
ghost use Rattle.hare_rules.specs.Control as spec;
ghost use Rattle.hare_rules.specs.Judged.{open_of, inside_of};
ghost use Rattle.hare_rules.specs.Rows.{holds};
ghost use Rattle.hare_rules.specs.declared.row_id.RowId.TheVariants as row;
ghost use Rattle.rule_judge.specs.Turns.{context_in};
ghost use Rattle.rule_ctl.specs.Jumps.{may_mean};

use hare_rules::{Inside, Label, Labels, Target};
use rule_judge::Turn;

/// What a jump can mean.
#[derive(Clone, Copy)]
pub(crate) enum Wanted {
    /// A loop, as `break` and `continue` do.
    Loop,
    /// A block or a case, as `yield` does.
    Block,
}

/// Whether a jump with this name means what has the other, among its like: one without a name means any.
fn is_named(name: &[u8], own: &[u8]) -> bool
    ensures { result ≡ means name.now own.now }
{
    name.is_empty() || name == own
}

/// Whether a jump with this name can mean what stands round it. A case has no name of its own.
fn may_mean(wanted: Wanted, name: &[u8], l: &Label) -> bool
    ensures { result ≡ may_mean wanted name.now (open_of l.now) }
{
    match wanted {
        Wanted::Loop => match l.target {
            Target::Loop => is_named(name, l.name.bytes()),
            Target::Block | Target::Case => false,
        },
        Wanted::Block => match l.target {
            Target::Block => is_named(name, l.name.bytes()),
            Target::Case => name.is_empty(),
            Target::Loop => false,
        },
    }
}

/// What a jump with this name means: the nearest of the labels round it, which stand with the outermost first.
fn meant<'a>(wanted: Wanted, name: &[u8], labels: &'a Labels) -> Option<&'a Label>
    ensures { option_map open_of (option_copied result) ≡ spec.nearest (may_mean wanted name.now) (map open_of labels.now) }
{
    let mut left = labels.len();
    while left > 0 {
        left -= 1;
        if let Some(l) = labels.get(left) {
            if may_mean(wanted, name, l) {
                return Some(l);
            }
        }
    }
    None
}

/// Whether what a jump means stands inside the same deferred expression, where it means anything.
fn stands_inside(inside: &Inside, target: Option<&Label>) -> bool
    ensures { result ≡ spec.is_inside (inside_of inside.now) (option_map open_of (option_copied target.entry)) }
{
    match target {
        Some(l) => !inside.deferred || l.deferred,
        None => true,
    }
}

/// Whether there is a loop that the node means.
pub(crate) fn has_loop(t: &Turn<'_>) -> bool
    ensures { (f : Store) → result ≡ holds row.JumpTarget (context_in f t.now) }
{
    let case = t.case;
    let node = t.node;
    meant(Wanted::Loop, node.text.bytes(), &case.inside.labels).is_some()
}

/// Whether that loop stands inside the same deferred expression.
pub(crate) fn has_loop_inside(t: &Turn<'_>) -> bool
    ensures { (f : Store) → result ≡ holds row.JumpInside (context_in f t.now) }
{
    let case = t.case;
    let node = t.node;
    stands_inside(
        &case.inside,
        meant(Wanted::Loop, node.text.bytes(), &case.inside.labels),
    )
}

/// Whether there is a block or a case that the node means.
pub(crate) fn has_block(t: &Turn<'_>) -> bool
    ensures { (f : Store) → result ≡ holds row.YieldTarget (context_in f t.now) }
{
    let case = t.case;
    let node = t.node;
    meant(Wanted::Block, node.text.bytes(), &case.inside.labels).is_some()
}

/// Whether that block or case stands inside the same deferred expression.
pub(crate) fn has_block_inside(t: &Turn<'_>) -> bool
    ensures { (f : Store) → result ≡ holds row.YieldInside (context_in f t.now) }
{
    let case = t.case;
    let node = t.node;
    stands_inside(
        &case.inside,
        meant(Wanted::Block, node.text.bytes(), &case.inside.labels),
    )
}
