//! The types that are known to be defined.

ghost use Rattle.std.specs.Prelude.{◌≡◌, ◌↔◌, [], true, IsTrue, IfOk, Contains};
ghost use Rattle.hare_types.specs.Numbering.{Continues};
ghost use Rattle.rule_judge.specs.Defined.{IsDefined};
ghost use Rattle.hare_defined.specs.Known.{AreDefined};

use crate::search::meet_mentioned;
use hare_types::{TypeId, TypeStore};
use indexmap::IndexSet;
use std::alloc::{AllocError, Global};
use std::marker::Model;

/// The types of a store that are known to be in it and to mention no name that is not defined, in the order in which this was found out.
/// Contracts see their ids.
///
/// It may be kept while the store grows: what is known goes on to hold.
#[derive(Drop)]
pub struct Defined {
    known: IndexSet<TypeId>,
}

impl Model for Defined {
    ghost use Rattle.std.specs.Prelude.{List, ℕ};

    ghost Value = { List ℕ };

    ghost view = { λ a. a.known.keys };
}

impl Defined {
    /// Nothing is known of any type.
    pub fn new(alloc: Global) -> Defined
        ensures { result ≡ [] }
    {
        Defined {
            known: IndexSet::new(alloc),
        }
    }

    /// Whether a type is in the store, and each name that it mentions, to any depth, is defined. Where it is so, this is known from then on
    /// of the type and of all that it mentions; where it is not, or memory is wanting, no more is known than before.
    ///
    /// The condition is that all types that are known before are in the store, and mention no name that is not defined. Fails for want of
    /// memory alone.
    ///
    /// Over all calls that answer yes each type is looked at once; in a call that answers no, each at most once.
    pub fn is_defined(&mut self, s: &TypeStore, t: TypeId) -> Result<bool, AllocError>
        requires known { AreDefined s.now self.old }
        ensures value { IfOk result (λ b. IsTrue b ↔ IsDefined s.now t) }
        ensures known { AreDefined s.now self.new }
        ensures rest { Continues self.old self.new }
        ensures found { result ≡ Ok true → Contains self.new t }
        ensures others { ¬ (result ≡ Ok true) → self.new ≡ self.old }
    {
        if s.base(t).is_none() {
            return Ok(false);
        }
        let before = self.known.len();
        let answer = meet_mentioned(&mut self.known, s, t);
        if !matches!(answer, Ok(true)) {
            self.known.truncate(before);
        }
        answer
    }
}
