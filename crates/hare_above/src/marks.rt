//! The marks of labels: which of them stand inside the innermost deferred expression that is open.

ghost use Rattle.std.specs.Prelude.{◌≡◌, map, IfOk};
ghost use Rattle.hare_above.specs.Frames.{unmarked};

use hare_rules::{Label, Labels};
use hare_tree::Word;
use std::alloc::{AllocError, Global};

/// The label, as it stands round what is deferred.
fn outside(alloc: Global, l: &Label) -> Result<Label, AllocError>
    ensures { IfOk result (λ u. u ≡ unmarked l.now) }
{
    Ok(Label {
        name: Word::copy(alloc, l.name.bytes())?,
        target: l.target,
        node: l.node,
        deferred: false,
    })
}

/// The labels, as they stand round what is deferred: none of them is marked. The time is that of their names.
pub(crate) fn all_outside(alloc: Global, labels: &Labels) -> Result<Labels, AllocError>
    ensures { IfOk result (λ us. us ≡ map unmarked labels.now) }
{
    let mut copies = Labels::new(alloc);
    for l in labels.as_slice() {
        copies.push(outside(alloc, l)?)?;
    }
    Ok(copies)
}
