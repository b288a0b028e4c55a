//! Which declarations are known and ready.

ghost use Rattle.std.specs.Prelude.{IsTrue, IfOk};
ghost use Rattle.hare_defined.specs.Known.{AreDefined};
ghost use Rattle.hare_readable.specs.Heads.{InTree, InKids};
ghost use Rattle.hare_readable.specs.Taken.{AreTaken, AreEnough};
ghost use Rattle.hare_readable.specs.Taking.{TakesMore, IsEnoughHead};

use crate::taking::take_at;
use hare_defined::Defined;
use hare_names::Names;
use hare_tree::{Kids, Tree};
use hare_types::TypeStore;
use rule_judge::DeclTypes;
use std::alloc::{AllocError, Global};

/// Puts what is known of each declaration that a path in this tree means among what is ready, where it is not there yet. Answers whether
/// all of these are: then values can be judged by what is ready as by all that is known. The answer is no where a type of one of them
/// mentions a name that is not defined.
///
/// All types in `defined`, and all types of what is ready, are in the store and mention no name that is not defined; and what is ready of a
/// declaration is what is known of it. Fails for want of memory alone.
///
/// Over all calls each declaration is copied at most once; a path is looked at in constant time. The call goes as deep in the host as the
/// tree is.
pub fn make_ready(
    alloc: Global,
    s: &TypeStore,
    defined: &mut Defined,
    names: &Names,
    known: &DeclTypes,
    ready: &mut DeclTypes,
    t: &Tree,
) -> Result<bool, AllocError>
    requires defined { AreDefined s.now defined.old }
    requires taken { AreTaken s.now known.now ready.old }
    ensures value { IfOk result (λ b. IsTrue b → AreEnough names.now known.now ready.new t.now) }
    ensures defined { AreDefined s.now defined.new }
    ensures taken { AreTaken s.now known.now ready.new }
{
    take_tree(alloc, s, defined, names, known, ready, t)
}

/// Does so for each node of a tree, up to the first that cannot be ready.
#[cycle(take)]
fn take_tree(
    alloc: Global,
    s: &TypeStore,
    defined: &mut Defined,
    names: &Names,
    known: &DeclTypes,
    ready: &mut DeclTypes,
    t: &Tree,
) -> Result<bool, AllocError>
    requires defined { AreDefined s.now defined.old }
    requires taken { AreTaken s.now known.now ready.old }
    ensures value { IfOk result (λ b. IsTrue b → InTree (IsEnoughHead names.now known.now ready.new) t.now) }
    ensures defined { AreDefined s.now defined.new }
    ensures more { TakesMore s.now known.now ready.old ready.new }
{
    if !take_kids(alloc, s, defined, names, known, ready, &t.kids)? {
        return Ok(false);
    }
    take_at(alloc, s, defined, names, known, ready, t.kind, t.place)
}

/// Does so for each node of some trees, up to the first that cannot be ready.
#[cycle(take)]
fn take_kids(
    alloc: Global,
    s: &TypeStore,
    defined: &mut Defined,
    names: &Names,
    known: &DeclTypes,
    ready: &mut DeclTypes,
    ts: &Kids,
) -> Result<bool, AllocError>
    requires defined { AreDefined s.now defined.old }
    requires taken { AreTaken s.now known.now ready.old }
    ensures value { IfOk result (λ b. IsTrue b → InKids (IsEnoughHead names.now known.now ready.new) ts.now) }
    ensures defined { AreDefined s.now defined.new }
    ensures more { TakesMore s.now known.now ready.old ready.new }
{
    for i in 0..ts.len() {
        let Some(t) = ts.get(i) else {
            return Ok(false);
        };
        if !take_tree(alloc, s, defined, names, known, ready, t)? {
            return Ok(false);
        }
    }
    Ok(true)
}
