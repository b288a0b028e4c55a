//! What is known of the declarations of a program.

ghost use Rattle.std.specs.Prelude.{◌≡◌, [], ◌∷◌, ◌++◌, nat_eq, find, length, slice_get, option_copied, OnOk, OnErr};

use hare_rules::DeclType;
use hx_base::Items;
use indexmap::IndexMap;
use std::alloc::{AllocError, Global};
use std::marker::Model;

/// What is known of the declarations of a program. Contracts see the list of them.
#[derive(Drop)]
pub struct DeclTypes {
    list: Items<DeclType>,
    /// The place in the list of the first declaration with each number.
    places: IndexMap<u32, usize>,
}

impl Model for DeclTypes {
    ghost use Rattle.std.specs.Prelude.{List};
    ghost use Rattle.hare_rules.specs.declared.declared.DeclType.{DeclType};
    ghost use Rattle.rule_judge.specs.Decls.{AreFirst};

    ghost Value = { List DeclType };

    ghost view = { λ a. a.list };

    ghost invariant = { λ a. AreFirst a.list a.places.entries };
}

impl DeclTypes {
    /// No declarations.
    pub fn new(alloc: Global) -> DeclTypes
        ensures { result ≡ [] }
    {
        DeclTypes {
            list: Items::new(alloc),
            places: IndexMap::new(alloc),
        }
    }

    /// Puts a declaration at the end. Nothing changes where memory is short; the declaration is dropped then.
    pub fn push(&mut self, d: DeclType) -> Result<(), AllocError>
        ensures ok { OnOk result (self.new ≡ self.old ++ d ∷ []) }
        ensures err { OnErr result (self.new ≡ self.old) }
    {
        let place = self.list.len();
        let number = d.decl;
        self.places.reserve(1)?;
        self.list.push(d)?;
        if !self.places.contains_key(&number) {
            match self.places.insert(number, place) {
                Ok(_) => {}
                Err(_) => unreachable!(),
            }
        }
        Ok(())
    }

    /// How many declarations there are.
    pub fn len(&self) -> usize
        ensures { result ≡ length self.now }
    {
        self.list.len()
    }

    /// The declaration at a place of the list, from 0; none past the end.
    pub fn get(&self, i: usize) -> Option<&DeclType>
        ensures { option_copied result ≡ slice_get self.now i }
    {
        self.list.get(i)
    }

    /// The first declaration with this number, where there is one. The time is constant.
    pub fn find(&self, number: u32) -> Option<&DeclType>
        ensures { option_copied result ≡ find (λ d. nat_eq d.decl number) self.now }
    {
        match self.places.get(&number) {
            Some(place) => self.list.get(*place),
            None => None,
        }
    }
}
