//! What leaves the nodes round it.

ghost use Rattle.std.specs.Prelude.{◌≡◌, min, drop, length, not, IfSome, IfNone};
ghost use Rattle.hare_typed.specs.Typed.{typed_nodes};
ghost use Rattle.hare_typed.specs.Copies as spec;
ghost use Rattle.hare_typed.specs.Rounds.{frames, ends_among as among, leaving as left};

use crate::typed::{Typed, TypedKids};
use hare_tree::Kind;

/// Where a node goes that leaves what stands round it.
#[derive(Clone, Copy, Debug, PartialEq, Eq)]
pub(crate) enum Way {
    /// To the end of the function.
    Return,
    /// To a loop: behind it, or on with its next turn.
    Break,
    /// To the end of a block.
    Yield,
}

/// The nodes round another one, from the inside: of each its kind and its label.
#[derive(Clone, Copy)]
pub(crate) enum Round<'a> {
    Nothing,
    Inside(Kind, &'a [u8], &'a Round<'a>),
}

/// Where a node of this kind goes, if it leaves what stands round it.
fn way_of(k: Kind) -> Option<Way>
    ensures { result ≡ spec.way_of k }
{
    match k {
        Kind::Return | Kind::Try => Some(Way::Return),
        Kind::Break | Kind::Continue => Some(Way::Break),
        Kind::Yield => Some(Way::Yield),
        _ => None,
    }
}

/// Whether a label means the node with this one: no label means the nearest.
fn means(label: &[u8], own: &[u8]) -> bool
    ensures { result ≡ spec.means label.now own.now }
{
    label.is_empty() || label == own
}

/// Whether an exit goes no further than a node of this kind and label.
fn ends_at(k: Kind, own: &[u8], way: Way, label: &[u8]) -> bool
    ensures { result ≡ spec.ends_at k own.now (record { way = way; label = label.now }) }
{
    match k {
        Kind::For | Kind::ForEach => matches!(way, Way::Break) && means(label, own),
        Kind::Block => matches!(way, Way::Yield) && means(label, own),
        Kind::Case | Kind::SwitchCase => matches!(way, Way::Yield) && label.is_empty(),
        Kind::Defer => true,
        _ => false,
    }
}

/// Whether an exit goes no further than one of the nodes round it.
fn ends_among(round: &Round<'_>, way: Way, label: &[u8]) -> bool
    ensures { result ≡ among (frames round.now) (record { way = way; label = label.now }) }
{
    match round {
        Round::Nothing => false,
        Round::Inside(kind, own, outer) => {
            ends_at(*kind, own, way, label) || ends_among(outer, way, label)
        }
    }
}

/// 1 where a node of this kind and label leaves all that stands round it, itself among that, and 0 where it does not.
fn own_leaving(k: Kind, label: &[u8], round: &Round<'_>) -> u64
    ensures { result ≡ length (left (frames round.now) (spec.exit_by (spec.way_of k) label.now)) }
{
    match way_of(k) {
        Some(way) => { if ends_among(round, way, label) { 0 } else { 1 } }
        None => 0,
    }
}

/// How many exits in a node leave it and all that stands round it, up to the greatest `u64`.
#[cycle(leaving)]
fn leaving<'a>(t: &'a Typed, round: &'a Round<'a>) -> u64
    ensures { result ≡ min (length (left (frames round.now) (spec.exits t.now))) u64.MAX }
{
    let label = t.text.bytes();
    let inner = Round::Inside(t.kind, label, round);
    let own = own_leaving(t.kind, label, &inner);
    own.saturating_add(leaving_from(&t.kids, 0, &inner))
}

/// The same of all kids from one on.
#[cycle(leaving)]
pub(crate) fn leaving_from<'a>(kids: &'a TypedKids, from: usize, round: &'a Round<'a>) -> u64
    ensures { result ≡ min (length (left (frames round.now) (spec.exits_each (typed_nodes (drop from kids.now))))) u64.MAX }
{
    let mut count: u64 = 0;
    for i in from..kids.len() {
        let Some(t) = kids.get(i) else {
            return count;
        };
        count = count.saturating_add(leaving(t, round));
    }
    count
}
