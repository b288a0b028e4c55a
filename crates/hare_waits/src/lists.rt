//! Lists of nodes that wait, by the names for which they wait.

ghost use Rattle.std.specs.Prelude.{◌≡◌, [], OnOk};
ghost use Rattle.hare_waits.specs.Lists.{Adds, Takes};

use crate::waiting::Waiting;
use indexmap::IndexMap;
use std::alloc::{AllocError, Global};
use std::marker::Model;

/// Lists of nodes that wait, by the names for which they wait. Contracts see the pairs of a name and a node, in an order that is left open.
#[derive(Drop)]
pub(crate) struct Lists {
    by_name: IndexMap<u32, Vec<Waiting>>,
}

impl Model for Lists {
    ghost use Rattle.std.specs.Prelude.{List, ℕ, map};
    ghost use Rattle.hare_waits.specs.declared.waiting.Waiting.{Waiting};

    ghost Value = { List (ℕ × Waiting) };

    ghost use Rattle.hare_waits.specs.Lists.{pairs_of};

    ghost view = { λ a. pairs_of (map (λ e. (e.0, e.1.items)) a.by_name.entries) };
}

impl Lists {
    /// No nodes. Takes no memory.
    pub fn new(alloc: Global) -> Lists
        ensures { result ≡ [] }
    {
        Lists {
            by_name: IndexMap::new(alloc),
        }
    }

    /// The allocator of the lists.
    pub fn allocator(&self) -> Global {
        *self.by_name.allocator()
    }

    /// Lets a node wait for a name. After an error of memory other nodes may be lost.
    pub fn put(&mut self, name: u32, node: Waiting) -> Result<(), AllocError>
        ensures ok { OnOk result (Adds self.old self.new (name, node)) }
    {
        let mut list = self.take(name);
        list.push(node)?;
        self.by_name.insert(name, list)?;
        Ok(())
    }

    /// Takes out the nodes that wait for a name.
    pub fn take(&mut self, name: u32) -> Vec<Waiting>
        ensures { Takes self.old self.new name result.items }
    {
        match self.by_name.swap_remove(&name) {
            Some(list) => list,
            None => Vec::new(*self.by_name.allocator()),
        }
    }
}
