//! The written types that wait for names.

ghost use Rattle.std.specs.Prelude.{◌≡◌, ◌∷◌, [], ℕ, List, OnOk, Ok, Some, None};
ghost use Rattle.hare_types.specs.Store.{Store};
ghost use Rattle.hare_typed.specs.Typed.{TypedNode};
ghost use Rattle.hare_seen.specs.Sizes.{AllFit, StandIn};
ghost use Rattle.hare_waits.specs.declared.waiting.Late.{Late as LateOf};
ghost use Rattle.hare_waits.specs.Lists.{Awaits};
ghost use Rattle.hare_waits.specs.Waits.{AreAwaited, DefinesAlso, IsLate};

use crate::held::{Seen, awaited_name};
use crate::lists::Lists;
use crate::nodes::collect;
use crate::waiting::{Late, Waiting, first_large};
use hare_typed::TypedKids;
use hare_types::TypeStore;
use indexmap::IndexMap;
use std::alloc::{AllocError, Global};
use std::marker::Model;

/// Lets those of some nodes wait whose bytes are not known, each for a name for which its type waits.
fn wait_each(
    lists: &mut Lists,
    seen: &mut Seen,
    s: &TypeStore,
    nodes: &[Waiting],
) -> Result<(), AllocError>
    ensures { OnOk result (Awaits s.now lists.old lists.new nodes.now) }
{
    for node in nodes {
        if s.extent(node.ty).is_none() {
            let name = awaited_name(seen, s, node.ty)?;
            lists.put(name, *node)?;
        }
    }
    Ok(())
}

/// The nodes of written types whose bytes are not known when they are judged: each waits for a name that it holds by value and that is not
/// defined yet.
///
/// Contracts see pairs of a name and of a node that waits for it, in an order that is left open. After an error of memory nothing is said
/// of them any more.
///
/// Over a whole program the time is that of the written types, for as long as types stand in one another no deeper than the syntax allows:
/// a node is looked at when it is entered, and when a name for which it waits is done, and of a type no part is looked at again once its
/// bytes are known.
#[derive(Drop)]
pub struct Waits {
    lists: Lists,
    seen: Seen,
}

impl Model for Waits {
    ghost use Rattle.std.specs.Prelude.{List, ℕ};
    ghost use Rattle.hare_waits.specs.declared.waiting.Waiting.{Waiting};

    ghost Value = { List (ℕ × Waiting) };

    ghost view = { λ a. a.lists };
}

impl Waits {
    /// No nodes. Takes no memory.
    pub fn new(alloc: Global) -> Waits
        ensures { (s : Store) → AreAwaited s result [] }
    {
        Waits {
            lists: Lists::new(alloc),
            seen: IndexMap::new(alloc),
        }
    }

    /// Enters the written types of a declaration, which were judged: those of their nodes wait that a row asks for their size, and whose
    /// bytes are not known.
    ///
    /// Each type that stands at one of their nodes is in the store, and none of which a row asks that it is small is known to be too large.
    /// Fails for want of memory alone. Nothing is said of the waits then.
    pub fn enter(&mut self, s: &TypeStore, decl: u32, types: &TypedKids) -> Result<(), AllocError>
        requires stands { StandIn s.now types.now }
        requires fits { AllFit s.now types.now }
        ensures ok { OnOk result ((js : List (ℕ × List TypedNode)) → AreAwaited s.now self.old js →
            AreAwaited s.now self.new ((decl, types.now) ∷ js)) }
    {
        let mut nodes = Vec::new(self.lists.allocator());
        collect(s, decl, 0, types, &mut nodes)?;
        wait_each(&mut self.lists, &mut self.seen, s, nodes.as_slice())
    }

    /// Looks at the nodes that wait for a name, once it is defined. Where types turn out to be too large, the first declaration with such a
    /// type is told, and the place of its first such node in check order; what waits is not spoken of any more then. Where none is, those
    /// nodes whose bytes are still not known wait for other names.
    pub fn done(&mut self, s: &TypeStore, name: u32) -> Result<Option<Late>, AllocError>
        ensures none { result ≡ Ok None → (s0 : Store) (js : List (ℕ × List TypedNode)) → DefinesAlso s0 s.now name →
            AreAwaited s0 self.old js → AreAwaited s.now self.new js }
        ensures some { (f : LateOf) → result ≡ Ok (Some f) → (s0 : Store) (js : List (ℕ × List TypedNode)) → DefinesAlso s0 s.now name →
            AreAwaited s0 self.old js → IsLate s.now js f.decl f.place }
    {
        let nodes = self.lists.take(name);
        if let Some(first) = first_large(s, nodes.as_slice()) {
            return Ok(Some(Late {
                decl: first.decl,
                place: first.place,
            }));
        }
        wait_each(&mut self.lists, &mut self.seen, s, nodes.as_slice())?;
        Ok(None)
    }
}
