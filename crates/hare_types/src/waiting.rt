//! The lists of rows that wait for others.

ghost use Rattle.std.specs.Prelude.{◌≡◌, ◌<◌, ◌≤◌, ℕ, List, length};
ghost use Rattle.hare_types.specs.Numbering.{most};
ghost use Rattle.hare_types.specs.Waiting.{kept_at, with_next, with_ends, Among, AreLinked, KeepsFound, KeepsSeen, linked, released};

use crate::kept::{Kept, NOWHERE};

/// What is kept of row `i`.
fn kept_at(kept: &[Kept], i: usize) -> Kept
    requires { i < length kept.now }
    ensures { result ≡ kept_at kept.now i }
{
    kept[i]
}

/// Links row `i` to another.
fn set_next(kept: &mut Vec<Kept>, i: usize, next: u32)
    requires { i < length kept.old.items }
    ensures { kept.new.items ≡ with_next kept.old.items i next }
{
    let old = kept[i];
    kept[i] = Kept { next, ..old };
}

/// Enters the ends of the list of the rows that wait for row `t`.
fn set_ends(kept: &mut Vec<Kept>, t: usize, first: u32, last: u32)
    requires { t < length kept.old.items }
    ensures { kept.new.items ≡ with_ends kept.old.items t first last }
{
    let old = kept[t];
    kept[t] = Kept { first, last, ..old };
}

/// Puts row `i`, which stands in no list, at the front of the list of the rows that wait for row `t`.
pub(crate) fn link(kept: &mut Vec<Kept>, t: usize, i: u32)
    requires waited { t < length kept.old.items }
    requires waits { i < length kept.old.items }
    requires few { length kept.old.items ≤ most }
    ensures lists { (pile : ℕ) (lists : ℕ → List ℕ) → AreLinked kept.old.items pile lists → ((n : ℕ) → ¬ Among (lists n) i) →
        AreLinked kept.new.items pile (linked lists t i) }
    ensures found { KeepsFound kept.old.items kept.new.items }
    ensures seen { KeepsSeen kept.old.items kept.new.items }
{
    let on = kept_at(kept, t);
    set_next(kept, i as usize, on.first);
    if on.first == NOWHERE {
        set_ends(kept, t, i, i);
    } else {
        set_ends(kept, t, i, on.last);
    }
}

/// Puts the rows that wait for row `t` before those that are to be looked at, of which `pile` is the first, and answers the first of all.
pub(crate) fn release(kept: &mut Vec<Kept>, t: usize, pile: u32) -> u32
    requires within { t < length kept.old.items }
    requires few { length kept.old.items ≤ most }
    requires linked { (lists : ℕ → List ℕ) × AreLinked kept.old.items pile lists }
    ensures lists { (lists : ℕ → List ℕ) → AreLinked kept.old.items pile lists → AreLinked kept.new.items result (released lists t) }
    ensures found { KeepsFound kept.old.items kept.new.items }
    ensures seen { KeepsSeen kept.old.items kept.new.items }
{
    let of = kept_at(kept, t);
    if of.first == NOWHERE {
        return pile;
    }
    set_ends(kept, t, NOWHERE, NOWHERE);
    set_next(kept, of.last as usize, pile);
    of.first
}
