//! The mapped addresses.

ghost use Rattle.std.specs.Prelude.{◌≡◌, ℕ, List, ◌+◌, ◌^◌, ◌<◌, ◌≤◌, true, false, not, [], filter, length, All, IsSome, IfSome, IfNone, MatchBool, OnOk, OnErr};
ghost use Rattle.std.specs.Bool.{OnTrue};
ghost use Rattle.std.specs.Ordering.{nat_cmp};
ghost use Rattle.std.specs.BTreeMap.{insert_entry, is_at};
ghost use Rattle.std.specs.Map.{lookup};
ghost use Rattle.hx_base.specs.Memory.{in_range};
ghost use Rattle.il_mem.specs.Kept.{covers, IsBare};
ghost use Rattle.il_mem.specs.Laid.{are_laid, IsCovered, HasGap};

use crate::stack::{cut, follows, found};
use std::alloc::{AllocError, Global};
use std::collections::BTreeMap;
use std::marker::Model;

// Where a stack is looked for: ranges that begin here, each behind the one before, need no look-up.
const STACK_FROM: u64 = 1 << 40;

const STACK_END: u64 = 1 << 48;

/// The mapped ranges, each from its first address to the one behind its last. No two have an address in common, but they may touch.
///
/// Those of a stack stand in a list of their own, in the order of their addresses, so that the last of them is mapped and unmapped at once.
/// No other begins at an address of `from` up to `end`.
#[derive(Drop)]
pub struct Ranges {
    ends: BTreeMap<u64, u64>,
    stack: Vec<(u64, u64)>,
    from: u64,
    end: u64,
}

impl Model for Ranges {
    ghost use Rattle.std.specs.Prelude.{List, ℕ};
    ghost use Rattle.il_mem.specs.Laid.{AreApart, LeavesOut, with_all};

    ghost Value = { List (ℕ × ℕ) };

    ghost view = { λ a. with_all a.stack.items a.ends.entries };

    ghost invariant = { λ a. AreApart a.stack.items a.ends.entries × LeavesOut a.from a.end a.ends.entries };
}

impl Ranges {
    /// No ranges.
    pub fn new(alloc: Global) -> Ranges
        ensures { result ≡ [] }
    {
        Ranges {
            ends: BTreeMap::new(alloc),
            stack: Vec::new(alloc),
            from: STACK_FROM,
            end: STACK_END,
        }
    }

    /// Whether all `n` addresses from `at` on are mapped.
    pub fn have(&self, at: u64, n: u64) -> bool
        ensures value { MatchBool result (IsCovered self.now at (at + n)) (HasGap self.now at (at + n)) }
        ensures ends { OnTrue result (at + n < 2 ^ 64) }
    {
        let _stack = self.stack.len();
        let Some(end) = at.checked_add(n) else {
            return false;
        };
        let mut reached = at;
        while reached < end {
            match self.end_of(reached) {
                Some(next) => reached = next,
                None => return false,
            }
        }
        true
    }

    /// The range in which an address lies, if there is one: its first address and the one behind its last.
    pub fn around(&self, at: u64) -> Option<(u64, u64)>
        ensures { IfSome result (λ r. (r.0 ≤ at) × (at < r.1) × IsCovered self.now r.0 r.1) }
    {
        self.range_of(at)
    }

    // The address behind the range in which an address lies.
    fn end_of(&self, at: u64) -> Option<u64>
        ensures found { IfSome result (λ e. (at < e) × IsCovered self.now at e) }
        ensures none { IfNone result (covers self.now at ≡ false) }
    {
        match self.range_of(at) {
            Some((_, end)) => Some(end),
            None => None,
        }
    }

    // The range in which an address lies: its first address and the one behind its last.
    fn range_of(&self, at: u64) -> Option<(u64, u64)>
        ensures found { IfSome result (λ r. (r.0 ≤ at) × (at < r.1) × IsCovered self.now r.0 r.1) }
        ensures none { IfNone result (covers self.now at ≡ false) }
    {
        match found(&self.stack, at) {
            Some(range) => Some(range),
            None => range_of(&self.ends, at),
        }
    }

    /// Maps the `n` addresses from `at` on.
    pub fn map(&mut self, at: u64, n: u64) -> Result<(), AllocError>
        requires some { 0 < n }
        requires ends { at + n < 2 ^ 64 }
        requires bare { IsBare self.old at n }
        ensures ok { OnOk result (self.new ≡ insert_entry nat_cmp self.old at (at + n)) }
        ensures laid { OnOk result (are_laid 0 self.old ≡ true) }
        ensures err { OnErr result (self.new ≡ self.old) }
    {
        if self.from <= at && at < self.end && follows(&self.stack, at) {
            self.stack.push((at, at + n))?;
            return Ok(());
        }
        self.ends.insert(at, at + n)?;
        if self.from <= at {
            self.end = self.end.min(at);
        }
        Ok(())
    }

    /// Gives up the ranges that begin at one of the `n` addresses from `at` on.
    pub fn unmap(&mut self, at: u64, n: u64)
        ensures value { self.new ≡ filter (λ r. not (in_range at n r.0)) self.old }
        ensures laid { are_laid 0 self.old ≡ true }
    {
        cut(&mut self.stack, at, n);
        if at < self.from || self.end < at.saturating_add(n) {
            remove(&mut self.ends, at, n);
        }
    }
}

// Gives up the ranges of a map that begin at one of the `n` addresses from `at` on.
fn remove(ends: &mut BTreeMap<u64, u64>, at: u64, n: u64)
    requires { are_laid 0 ends.old.entries ≡ true }
    ensures { ends.new.entries ≡ filter (λ r. not (in_range at n r.0)) ends.old.entries }
{
    let end = at.saturating_add(n);
    while let Some(start) = first_from(ends, at) {
        if start >= end {
            break;
        }
        ends.remove(&start);
    }
}

// The range in which an address lies: its first address and the one behind its last.
fn range_of(ends: &BTreeMap<u64, u64>, at: u64) -> Option<(u64, u64)>
    requires { are_laid 0 ends.now.entries ≡ true }
    ensures found { IfSome result (λ r. (r.0 ≤ at) × (at < r.1) × IsCovered ends.now.entries r.0 r.1) }
    ensures none { IfNone result (covers ends.now.entries at ≡ false) }
{
    let mut below = ends.range(..=at);
    match below.next_back() {
        Some((start, end)) if *end > at => Some((*start, *end)),
        _ => None,
    }
}

// The first address from `at` on at which a range begins.
fn first_from(ends: &BTreeMap<u64, u64>, at: u64) -> Option<u64>
    requires { are_laid 0 ends.now.entries ≡ true }
    ensures found { IfSome result (λ s. (at ≤ s) × IsSome (lookup (is_at (nat_cmp s)) ends.now.entries)) }
    ensures first { IfSome result (λ s. All (λ r. at ≤ r.0 → s ≤ r.0) ends.now.entries) }
    ensures none { IfNone result (All (λ r. r.0 < at) ends.now.entries) }
{
    let mut from = ends.range(at..);
    match from.next() {
        Some((start, _)) => Some(*start),
        None => None,
    }
}
