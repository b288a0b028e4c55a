//! How many nodes stand in a tree.

ghost use Rattle.std.specs.Prelude.{◌≡◌, ◌+◌, IfOk};
ghost use Rattle.hare_typed.specs.Erased.{erase, erase_each};
ghost use Rattle.hare_typed.specs.Typed.{typed_nodes};
ghost use Rattle.hare_rules.specs.Above as above;

use hare_typed::{Typed, TypedKids};
use std::alloc::AllocError;

/// The sum of two numbers; one that is too large is answered as want of memory.
pub(crate) fn sum(a: u32, b: u32) -> Result<u32, AllocError>
    ensures { IfOk result (λ m. m ≡ a + b) }
{
    match a.checked_add(b) {
        Some(m) => Ok(m),
        None => Err(AllocError),
    }
}

/// How many nodes stand in a tree, itself among them, in front of which so many were counted. The call goes as deep in the host as the tree
/// is.
#[cycle(counts)]
pub(crate) fn count_tree(n: u32, t: &Typed) -> Result<u32, AllocError>
    ensures { IfOk result (λ m. m ≡ n + above.trees_in (erase t.now)) }
{
    count_each(sum(n, 1)?, &t.kids)
}

/// How many stand in some trees, in front of which so many were counted.
#[cycle(counts)]
fn count_each(n: u32, kids: &TypedKids) -> Result<u32, AllocError>
    ensures { IfOk result (λ m. m ≡ n + above.trees_in_each (erase_each (typed_nodes kids.now))) }
{
    let mut counted = n;
    for i in 0..kids.len() {
        let Some(kid) = kids.get(i) else {
            unreachable!();
        };
        counted = count_tree(counted, kid)?;
    }
    Ok(counted)
}
