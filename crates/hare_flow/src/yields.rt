//! Values that are handed to a block or a case from inside it.

ghost use Rattle.std.specs.Prelude.{◌≡◌, ◌++◌, map, filter, take, drop, not, IfOk, OnOk};
ghost use Rattle.hare_rules.specs.Flow.{is_at};
ghost use Rattle.hare_flow.specs.Seen.{given_of, yielded_of};

use hare_tree::Place;
use hare_types::Ty;
use hx_base::Items;
use std::alloc::{AllocError, Global};

/// A value that is handed to a block or a case from inside it.
#[derive(Clone, Copy, Debug, PartialEq, Eq)]
pub struct Handed {
    /// Where it stands.
    pub place: Place,
    /// Its type, before its coercion; none for the void of a `yield` without a value.
    pub ty: Option<Ty>,
    /// The number of the node that gets its coercion, where there is one.
    pub node: Option<u32>,
}

/// A value that was yielded, and how many labels stand round its block or case.
#[derive(Clone, Copy, Debug, PartialEq, Eq)]
pub(crate) struct Yield {
    pub(crate) level: usize,
    pub(crate) handed: Handed,
}

/// Those of the values behind the first `from` that have a level.
pub(crate) fn handed_at(
    alloc: Global,
    yields: &[Yield],
    from: usize,
    level: usize,
) -> Result<Items<Handed>, AllocError>
    ensures { IfOk result (λ gs. map given_of gs ≡ map (λ y. y.given) (filter (is_at level) (map yielded_of (drop from yields.now)))) }
{
    let mut found = Items::new(alloc);
    for i in from..yields.len() {
        let y = yields[i];
        if y.level != level {
            continue;
        }
        found.push(y.handed)?;
    }
    Ok(found)
}

/// Those of the values behind the first `from` that have another level, in their order.
fn kept_at(
    alloc: Global,
    yields: &[Yield],
    from: usize,
    level: usize,
) -> Result<Vec<Yield>, AllocError>
    ensures { IfOk result (λ v. map yielded_of v.items ≡ filter (λ y. not (is_at level y)) (map yielded_of (drop from yields.now))) }
{
    let mut kept = Vec::new(alloc);
    for i in from..yields.len() {
        let y = yields[i];
        if y.level == level {
            continue;
        }
        kept.push(y)?;
    }
    Ok(kept)
}

/// Drops those of the values behind the first `from` that have a level; the others keep their order.
pub(crate) fn drop_at(
    alloc: Global,
    yields: &mut Vec<Yield>,
    from: usize,
    level: usize,
) -> Result<(), AllocError>
    ensures { OnOk result (map yielded_of yields.new.items ≡ map yielded_of (take from yields.old.items) ++
        filter (λ y. not (is_at level y)) (map yielded_of (drop from yields.old.items))) }
{
    let kept = kept_at(alloc, yields.as_slice(), from, level)?;
    yields.truncate(from);
    yields.extend_from_slice(kept.as_slice())
}
