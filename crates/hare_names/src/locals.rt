//! The locals that are visible.

ghost use Rattle.std.specs.Prelude.{◌≡◌, ◌-◌, ◌∷◌, [], length, drop, OnOk, OnErr};
ghost use Rattle.hare_blocks.specs.Scopes.{number_of};

use indexmap::IndexMap;
use std::alloc::{AllocError, Global};
use std::marker::Model;

// A local, with the number of its binding. The entry of its name in the map told the number that it hides before.
#[derive(Clone, Copy)]
struct Local<'a> {
    name: &'a [u8],
    number: u32,
    entry: usize,
    hidden: Option<u32>,
}

/// The locals that are visible at a place, each with the number of its binding, the newest first.
///
/// A newer one hides the earlier ones of its name until it is forgotten. A map tells of each name the number of its newest local, so that
/// to find one takes constant expected time. Names are borrowed. They stay in the map when their locals are forgotten, and each local
/// knows where its name's entry stands, so that no name is looked up and no memory taken then.
#[derive(Drop)]
pub struct Locals<'a> {
    newest: IndexMap<&'a [u8], Option<u32>>,
    locals: Vec<Local<'a>>,
}

impl<'a> Model for Locals<'a> {
    ghost use Rattle.std.specs.Prelude.{List, ℕ};
    ghost use Rattle.hare_names.specs.LocalParts.{locals_of, AreTold};

    ghost Value = { List (List ℕ × ℕ) };

    ghost view = { λ a. locals_of a.locals.items };

    ghost invariant = { λ a. AreTold (λ k. k.now) a.newest.entries a.locals.items };
}

impl<'a> Locals<'a> {
    /// No locals. Takes no memory.
    pub fn new(alloc: Global) -> Locals<'a>
        ensures { result ≡ [] }
    {
        Locals {
            newest: IndexMap::new(alloc),
            locals: Vec::new(alloc),
        }
    }

    /// The number of the newest local of the name, or none where there is none.
    pub fn find(&self, name: &[u8]) -> Option<u32>
        ensures { result ≡ number_of name.now self.now }
    {
        match self.newest.get(name) {
            Some(number) => *number,
            None => None,
        }
    }

    /// Makes a local visible. Nothing changes where memory is short.
    pub fn declare(&mut self, name: &'a [u8], number: u32) -> Result<(), AllocError>
        ensures ok { OnOk result (self.new ≡ (name.now, number) ∷ self.old) }
        ensures err { OnErr result (self.new ≡ self.old) }
    {
        self.locals.reserve(1)?;
        let (entry, before) = self.newest.insert_full(name, Some(number))?;
        self.locals.push_reserved(Local {
            name,
            number,
            entry,
            hidden: before.flatten(),
        });
        Ok(())
    }

    /// How many locals are visible. What is bound later is forgotten by [`Locals::back_to`].
    pub fn mark(&self) -> usize
        ensures { result ≡ length self.now }
    {
        self.locals.len()
    }

    /// Forgets all but the `mark` oldest locals. Takes no memory.
    pub fn back_to(&mut self, mark: usize)
        ensures { self.new ≡ drop (length self.old - mark) self.old }
    {
        while self.mark() > mark {
            self.forget_newest();
        }
    }

    // Forgets the newest local, if there is one.
    fn forget_newest(&mut self)
        ensures { self.new ≡ drop 1 self.old }
    {
        if let Some(local) = self.locals.pop() {
            self.newest[local.entry] = local.hidden;
        }
    }
}
