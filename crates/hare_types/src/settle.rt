//! What follows of rows once a name is defined.

ghost use Rattle.std.specs.Prelude.{◌≡◌, ◌<◌, ◌≤◌, ◌⊎◌, ℕ, List, length, true, false, None, Some, IsSome, IfSome, slice_get, vec_len, vec_capacity};
ghost use Rattle.hare_types.specs.declared.row.Row.{Row as RowOf};
ghost use Rattle.hare_types.specs.Numbering.{IsOnce, most};
ghost use Rattle.hare_types.specs.Sound.{IsStore};
ghost use Rattle.hare_types.specs.Store.{Store};
ghost use Rattle.hare_types.specs.Kept.{defined, known, parts_of, extent_over, IsBounded, AreBounded, KeepsExtents};
ghost use Rattle.hare_types.specs.Packed.{Tells};
ghost use Rattle.hare_types.specs.Roots.{root_over, KeepsRoots, TellsAll, TellsMore};
ghost use Rattle.hare_types.specs.Waiting.{nowhere, blank, extents, roots, extent_at, root_at, kept_at, with_found, with_seen, Among, HaveRoots, AreSeen, AreSettling, AreSettlingBut, KeepsFound, IsFound, NoneFollows, NeedsAreWithin, needed_at, IsLess, AreSettlingButName, AreKept, IsTakenIn};

use crate::declared::Declared;
use crate::id::TypeId;
use crate::kept::{Found, Kept, NOWHERE, extent_at};
use crate::measure::{definition, found_over};
use crate::parts::{part_at, part_count};
use crate::places::Rows;
use crate::root::Root;
use crate::row::Row;
use crate::waiting::{link, release};
use indexmap::IndexMap;

/// Enters what is found of row `i`.
fn set_found(kept: &mut Vec<Kept>, i: usize, found: Found)
    requires { i < length kept.old.items }
    ensures { kept.new.items ≡ with_found kept.old.items i found.extent found.root }
{
    let old = kept[i];
    kept[i] = Kept {
        extent: found.extent,
        root: found.root,
        ..old
    };
}

/// Enters how many parts of row `i` were seen.
fn set_seen(kept: &mut Vec<Kept>, i: usize, seen: u32)
    requires { i < length kept.old.items }
    ensures { kept.new.items ≡ with_seen kept.old.items i seen }
{
    let old = kept[i];
    kept[i] = Kept { seen, ..old };
}

/// Enters the extent and the root that follow for row `i`, of which no extent is kept. Whether more is known of it then.
fn look(rows: &[Row], declared: &IndexMap<u32, Declared>, kept: &mut Vec<Kept>, i: usize) -> bool
    requires within { i < length rows.now }
    requires few { length rows.now ≤ most }
    requires as_many { length kept.old.items ≡ length rows.now }
    requires bounded { AreBounded (extents kept.old.items) }
    requires rooted { HaveRoots kept.old.items }
    ensures found { result ≡ true → (r : RowOf) → slice_get rows.now i ≡ Some r → IsFound declared.now.entries kept.old.items kept.new.items
        i r }
    ensures same { result ≡ false → kept.new.items ≡ kept.old.items }
    ensures none { result ≡ false → (r : RowOf) → slice_get rows.now i ≡ Some r → NoneFollows declared.now.entries kept.old.items i r }
{
    let found = found_over(&rows[i], TypeId::at(i as u32), declared, kept);
    if found.extent.get().is_some() {
        set_found(kept, i, found);
        return true;
    }
    if is_more(&kept[i].root.get(), &found.root.get()) {
        set_found(kept, i, found);
        return true;
    }
    false
}

/// Whether a root that follows tells more than the one that is kept.
fn is_more(kept: &Option<Root>, follows: &Option<Root>) -> bool
    ensures more { result ≡ true → TellsMore kept.now follows.now }
    ensures all { result ≡ false → TellsAll kept.now follows.now }
{
    match follows {
        Some(new) => match kept {
            Some(old) => old.base.is_none() && new.base.is_some(),
            None => true,
        },
        None => false,
    }
}

/// How many parts of a row, from the first on, have an extent that is kept. It is known of the first `seen` of them.
fn seen_of(row: &Row, kept: &[Kept], seen: u32) -> usize
    requires { (k p : ℕ) → k < seen → slice_get (parts_of row.now) k ≡ Some p → IsSome (extent_at kept.now p) }
    ensures before { (k p : ℕ) → k < result → slice_get (parts_of row.now) k ≡ Some p → IsSome (extent_at kept.now p) }
    ensures at { (p : ℕ) → slice_get (parts_of row.now) result ≡ Some p → extent_at kept.now p ≡ None }
{
    for i in seen as usize..part_count(row) {
        if extent_at(kept, part_at(row, i)).is_none() {
            return i;
        }
    }
    part_count(row)
}

/// The type whose extent is looked at next, where the first `seen` parts of the row were seen.
fn needed(row: &Row, declared: &IndexMap<u32, Declared>, seen: usize) -> Option<TypeId>
    ensures { result ≡ needed_at (defined declared.now.entries) row.now seen }
{
    match row {
        Row::Array(_, item) => Some(*item),
        Row::Error(inner) => Some(*inner),
        Row::Named(decl) => definition(*decl, declared),
        _ => {
            if seen < part_count(row) {
                Some(part_at(row, seen))
            } else {
                None
            }
        }
    }
}

/// What is kept of a row that is taken in as row `i`.
pub(crate) fn fresh(row: &Row, i: usize, declared: &IndexMap<u32, Declared>, kept: &[Kept]) -> Kept
    requires few { i < most }
    requires bounded { AreBounded (extents kept.now) }
    ensures extent { result.extent ≡ extent_over (defined declared.now.entries) (known (extents kept.now)) row.now }
    ensures root { result.root ≡ root_over (defined declared.now.entries) (root_at kept.now) i row.now }
    ensures bounded { IfSome result.extent (λ x. IsBounded x) }
    ensures blank { result ≡ record blank { extent = result.extent; root = result.root } }
{
    let found = found_over(row, TypeId::at(i as u32), declared, kept);
    Kept {
        extent: found.extent,
        root: found.root,
        first: NOWHERE,
        last: NOWHERE,
        next: NOWHERE,
        seen: 0,
    }
}

/// Lets row `i`, which stands in no list and for which no more follows, wait for the first type whose extent it needs, where no extent is
/// kept of it.
pub(crate) fn wait(rows: &[Row], declared: &IndexMap<u32, Declared>, kept: &mut Vec<Kept>, i: usize)
    requires within { i < length rows.now }
    requires few { length rows.now ≤ most }
    requires as_many { length kept.old.items ≡ length rows.now }
    requires needs { NeedsAreWithin rows.now declared.now.entries }
    requires seen { AreSeen rows.now kept.old.items }
    requires none { extent_at kept.old.items i ≡ None → (r : RowOf) → slice_get rows.now i ≡ Some r →
        NoneFollows declared.now.entries kept.old.items i r }
    ensures found { KeepsFound kept.old.items kept.new.items }
    ensures seen { AreSeen rows.now kept.new.items }
    ensures settled { (pile : ℕ) (lists : ℕ → List ℕ) → AreSettlingBut i rows.now declared.now.entries kept.old.items pile lists →
        (new : ℕ → List ℕ) × AreSettling rows.now declared.now.entries kept.new.items pile new × (new 0 ≡ lists 0) }
{
    let old = kept[i];
    if old.extent.get().is_some() {
        return;
    }
    enlist(rows, declared, kept, i);
}

/// Puts row `i`, which stands in no list, for which no more follows and of which no extent is kept, into the list of the first type whose
/// extent it needs.
#[inline(never)]
fn enlist(rows: &[Row], declared: &IndexMap<u32, Declared>, kept: &mut Vec<Kept>, i: usize)
    requires within { i < length rows.now }
    requires few { length rows.now ≤ most }
    requires as_many { length kept.old.items ≡ length rows.now }
    requires needs { NeedsAreWithin rows.now declared.now.entries }
    requires seen { AreSeen rows.now kept.old.items }
    requires unknown { extent_at kept.old.items i ≡ None }
    requires none { (r : RowOf) → slice_get rows.now i ≡ Some r → NoneFollows declared.now.entries kept.old.items i r }
    ensures found { KeepsFound kept.old.items kept.new.items }
    ensures seen { AreSeen rows.now kept.new.items }
    ensures settled { (pile : ℕ) (lists : ℕ → List ℕ) → AreSettlingBut i rows.now declared.now.entries kept.old.items pile lists →
        (new : ℕ → List ℕ) × AreSettling rows.now declared.now.entries kept.new.items pile new × (new 0 ≡ lists 0) }
{
    let old = kept[i];
    let seen = seen_of(&rows[i], kept, old.seen);
    set_seen(kept, i, seen.min(NOWHERE as usize) as u32);
    match needed(&rows[i], declared, seen) {
        Some(t) => link(kept, t.index() as usize, i as u32),
        None => {}
    }
}

/// Keeps what follows for row `i`, where it was taken in last, and lets it wait where its extent does not follow yet.
pub(crate) fn keep_if_new(
    rows: &[Row],
    declared: &IndexMap<u32, Declared>,
    kept: &mut Vec<Kept>,
    i: usize,
)
    requires few { length rows.now ≤ most }
    requires room { vec_len kept.old < vec_capacity kept.old }
    requires taken { (s : Store) × (r : RowOf) × (s.declared ≡ declared.now.entries) × (i ≡ length s.rows) ×
        IsTakenIn s kept.old.items r rows.now }
    ensures kept { (s : Store) (r : RowOf) → s.declared ≡ declared.now.entries → i ≡ length s.rows → IsTakenIn s kept.old.items r rows.now →
        AreKept (record s { rows = rows.now }) kept.new.items }
{
    if i < rows.len() {
        let fresh = fresh(&rows[i], i, declared, kept);
        kept.push_reserved(fresh);
        wait(rows, declared, kept, i);
    }
}

/// Looks at row `i`, which stands in no list, and of which no extent is kept: where more follows for it, the rows that wait for it are to
/// be looked at too. The answer is the first row that is to be looked at, which was `pile`.
fn step(
    rows: &[Row],
    declared: &IndexMap<u32, Declared>,
    kept: &mut Vec<Kept>,
    i: usize,
    pile: u32,
) -> u32
    requires within { i < length rows.now }
    requires few { length rows.now ≤ most }
    requires as_many { length kept.old.items ≡ length rows.now }
    requires bounded { AreBounded (extents kept.old.items) }
    requires rooted { HaveRoots kept.old.items }
    requires needs { NeedsAreWithin rows.now declared.now.entries }
    requires seen { AreSeen rows.now kept.old.items }
    requires unknown { extent_at kept.old.items i ≡ None }
    requires lists { (lists : ℕ → List ℕ) × AreSettlingBut i rows.now declared.now.entries kept.old.items pile lists }
    ensures as_many { length kept.new.items ≡ length rows.now }
    ensures bounded { AreBounded (extents kept.new.items) }
    ensures rooted { HaveRoots kept.new.items }
    ensures seen { AreSeen rows.now kept.new.items }
    ensures extents { (s : Store) → s.rows ≡ rows.now → s.declared ≡ declared.now.entries → IsStore s →
        KeepsExtents s (extents kept.old.items) → KeepsExtents s (extents kept.new.items) }
    ensures roots { (s : Store) → s.rows ≡ rows.now → s.declared ≡ declared.now.entries → IsStore s → KeepsRoots s (roots kept.old.items) →
        KeepsRoots s (roots kept.new.items) }
    ensures settled { (lists : ℕ → List ℕ) → AreSettlingBut i rows.now declared.now.entries kept.old.items pile lists → (new : ℕ → List ℕ) ×
        AreSettling rows.now declared.now.entries kept.new.items result new × IsLess kept.old.items kept.new.items lists new }
{
    if look(rows, declared, kept, i) {
        let first = release(kept, i, pile);
        wait(rows, declared, kept, i);
        return first;
    }
    wait(rows, declared, kept, i);
    pile
}

/// Enters the extents and roots that follow from the definition of a name. Each row that waits is looked at only once something that it
/// waits for is known.
pub(crate) fn settle(
    rows: &Rows,
    declared: &IndexMap<u32, Declared>,
    kept: &mut Vec<Kept>,
    decl: u32,
)
    requires once { IsOnce rows.now.keys }
    requires few { length rows.now.keys ≤ most }
    requires as_many { length kept.old.items ≡ length rows.now.keys }
    requires bounded { AreBounded (extents kept.old.items) }
    requires rooted { HaveRoots kept.old.items }
    requires needs { NeedsAreWithin rows.now.keys declared.now.entries }
    requires seen { AreSeen rows.now.keys kept.old.items }
    requires lists { (lists : ℕ → List ℕ) × AreSettlingButName decl rows.now.keys declared.now.entries kept.old.items lists }
    ensures rooted { HaveRoots kept.new.items }
    ensures seen { AreSeen rows.now.keys kept.new.items }
    ensures extents { (s : Store) → s.rows ≡ rows.now.keys → s.declared ≡ declared.now.entries → IsStore s →
        KeepsExtents s (extents kept.old.items) → KeepsExtents s (extents kept.new.items) }
    ensures roots { (s : Store) → s.rows ≡ rows.now.keys → s.declared ≡ declared.now.entries → IsStore s →
        KeepsRoots s (roots kept.old.items) → KeepsRoots s (roots kept.new.items) }
    ensures settled { (new : ℕ → List ℕ) × AreSettling rows.now.keys declared.now.entries kept.new.items nowhere new }
{
    match rows.get_index_of(&Row::Named(decl)) {
        Some(place) => settle_from(rows.as_slice(), declared, kept, place),
        None => {}
    }
}

/// Looks at row `i`, and then at all rows that wait for what is found, until no more follows.
fn settle_from(rows: &[Row], declared: &IndexMap<u32, Declared>, kept: &mut Vec<Kept>, i: usize)
    requires within { i < length rows.now }
    requires few { length rows.now ≤ most }
    requires as_many { length kept.old.items ≡ length rows.now }
    requires bounded { AreBounded (extents kept.old.items) }
    requires rooted { HaveRoots kept.old.items }
    requires needs { NeedsAreWithin rows.now declared.now.entries }
    requires seen { AreSeen rows.now kept.old.items }
    requires unknown { extent_at kept.old.items i ≡ None }
    requires lists { (lists : ℕ → List ℕ) × AreSettlingBut i rows.now declared.now.entries kept.old.items nowhere lists }
    ensures rooted { HaveRoots kept.new.items }
    ensures seen { AreSeen rows.now kept.new.items }
    ensures extents { (s : Store) → s.rows ≡ rows.now → s.declared ≡ declared.now.entries → IsStore s →
        KeepsExtents s (extents kept.old.items) → KeepsExtents s (extents kept.new.items) }
    ensures roots { (s : Store) → s.rows ≡ rows.now → s.declared ≡ declared.now.entries → IsStore s → KeepsRoots s (roots kept.old.items) →
        KeepsRoots s (roots kept.new.items) }
    ensures settled { (new : ℕ → List ℕ) × AreSettling rows.now declared.now.entries kept.new.items nowhere new }
{
    let mut pile = step(rows, declared, kept, i, NOWHERE);
    while pile != NOWHERE {
        let at = pile as usize;
        pile = kept[at].next;
        pile = step(rows, declared, kept, at, pile);
    }
}
