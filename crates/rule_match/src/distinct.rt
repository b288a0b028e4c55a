//! Cases that repeat one another.

ghost use Rattle.std.specs.Prelude.{◌≡◌, [], drop, option_map, IfOk};
ghost use Rattle.hare_rules.specs.Context.{place_of};
ghost use Rattle.hare_rules.specs.Control.{repeated_pattern};

use crate::listed::Patterns;
use crate::patterns::pattern_at;
use hare_tree::Place;
use hare_typed::TypedKids;
use rule_judge::place_at;
use std::alloc::{AllocError, Global};

/// Where the first case stands whose pattern an earlier one has, or want of one; none where all are distinct. The time is that of the
/// cases.
pub(crate) fn repeated(alloc: Global, kids: &TypedKids) -> Result<Option<Place>, AllocError>
    ensures { IfOk result (λ o. o ≡ option_map place_of (repeated_pattern [] (drop 1 kids.now))) }
{
    let mut earlier = Patterns::new(alloc);
    for i in 1..kids.len() {
        let pattern = pattern_at(kids, i);
        if earlier.contains(&pattern) {
            return Ok(Some(place_at(kids, i)));
        }
        earlier.insert(pattern)?;
    }
    Ok(None)
}
