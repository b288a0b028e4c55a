//! The names that are declared in the blocks that are open.

ghost use Rattle.std.specs.Prelude.{◌≡◌, ◌-◌, ◌∷◌, [], length, drop, OnOk, OnErr, IfOk};
ghost use Rattle.hare_blocks.specs.Scopes.{number_of};

use indexmap::IndexMap;
use std::alloc::{AllocError, Global};
use std::marker::Model;

/// The names that are declared in the blocks that are open, each with a number, the newest first.
///
/// A name may be declared again, in the same block or in one within; the newest declaration hides the earlier ones until its block ends.
/// To find a name takes constant expected time.
#[derive(Drop)]
pub struct Scope {
    newest: IndexMap<Vec<u8>, Option<u32>>,
    bindings: Vec<Binding>,
}

// A declaration, with the number that the name had before.
#[derive(Drop)]
struct Binding {
    name: Vec<u8>,
    number: u32,
    hidden: Option<u32>,
}

impl Model for Scope {
    ghost use Rattle.std.specs.Prelude.{List, ℕ};

    ghost Value = { List (List ℕ × ℕ) };

    ghost use Rattle.hare_blocks.specs.ScopeParts.{bindings_of, IsScope};

    ghost view = { λ a. bindings_of a.bindings.items };

    ghost invariant = { λ a. IsScope (λ k. k.items) a.newest.entries a.bindings.items };
}

impl Scope {
    /// No names.
    pub fn new(alloc: Global) -> Scope
        ensures { result ≡ [] }
    {
        Scope {
            newest: IndexMap::new(alloc),
            bindings: Vec::new(alloc),
        }
    }

    /// The number of the newest declaration of the name, or none where it is not declared.
    pub fn find(&self, name: &[u8]) -> Option<u32>
        ensures { result ≡ number_of name.now self.now }
    {
        match self.newest.get(name) {
            Some(number) => *number,
            None => None,
        }
    }

    /// Declares a name. Nothing changes where memory is short.
    pub fn declare(&mut self, name: &[u8], number: u32) -> Result<(), AllocError>
        ensures ok { OnOk result (self.new ≡ (name.now, number) ∷ self.old) }
        ensures err { OnErr result (self.new ≡ self.old) }
    {
        let alloc = *self.newest.allocator();
        let key = copied(alloc, name)?;
        let name = copied(alloc, name)?;
        let hidden = self.find(key.as_slice());
        self.bindings.push(Binding {
            name,
            number,
            hidden,
        })?;
        match self.newest.insert(key, Some(number)) {
            Ok(_) => Ok(()),
            Err(_) => {
                let _ = self.bindings.pop();
                Err(AllocError)
            }
        }
    }

    /// How many declarations there are. A block takes this at its beginning for [`Scope::back_to`] at its end.
    pub fn mark(&self) -> usize
        ensures { result ≡ length self.now }
    {
        self.bindings.len()
    }

    /// Forgets all but the `mark` oldest declarations. Takes no memory.
    pub fn back_to(&mut self, mark: usize)
        ensures { self.new ≡ drop (length self.old - mark) self.old }
    {
        while self.mark() > mark {
            self.forget_newest();
        }
    }

    // Forgets the newest declaration, if there is one.
    fn forget_newest(&mut self)
        ensures { self.new ≡ drop 1 self.old }
    {
        if let Some(binding) = self.bindings.pop() {
            match self.newest.insert(binding.name, binding.hidden) {
                Ok(_) => {}
                Err(_) => unreachable!(),
            }
        }
    }
}

fn copied(alloc: Global, bytes: &[u8]) -> Result<Vec<u8>, AllocError>
    ensures { IfOk result (λ v. v.items ≡ bytes.now) }
{
    let mut v = Vec::new(alloc);
    v.extend_from_slice(bytes)?;
    Ok(v)
}
