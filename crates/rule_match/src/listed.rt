//! Lists of patterns that are asked what stands in them.

ghost use Rattle.std.specs.Prelude.{◌≡◌, ◌||◌, OnOk, [], drop, map, IfOk};
ghost use Rattle.hare_rules.specs.Control.{Pattern as Meant, same_pattern, pattern_of};
ghost use Rattle.rule_match.specs.Patterns.{meant, holds, AreListed};

use crate::patterns::{Pattern, pattern_at};
use hare_typed::TypedKids;
use hare_types::TypeId;
use indexmap::IndexSet;
use std::alloc::{AllocError, Global};

/// The patterns of some cases. What has no type is none of them.
#[derive(Drop)]
pub(crate) struct Patterns {
    /// A case is for all that no other is for.
    pub(crate) has_default: bool,
    /// A case is for the pointer that is null.
    pub(crate) has_null: bool,
    /// The types that the others are for.
    pub(crate) types: IndexSet<TypeId>,
}

impl Patterns {
    /// No patterns.
    pub(crate) fn new(alloc: Global) -> Patterns
        ensures { AreListed result [] }
    {
        Patterns {
            has_default: false,
            has_null: false,
            types: IndexSet::new(alloc),
        }
    }

    /// The patterns of all cases of a `match`, which are its kids behind the first.
    pub(crate) fn of_cases(alloc: Global, kids: &TypedKids) -> Result<Patterns, AllocError>
        ensures { IfOk result (λ q. AreListed q (map pattern_of (drop 1 kids.now))) }
    {
        let mut all = Patterns::new(alloc);
        for i in 1..kids.len() {
            all.insert(pattern_at(kids, i))?;
        }
        Ok(all)
    }

    /// Whether the pattern is one of them.
    pub(crate) fn contains(&self, p: &Pattern) -> bool
        ensures { result ≡ holds self.now (meant p.now) }
    {
        match p {
            Pattern::Default => self.has_default,
            Pattern::NullPointer => self.has_null,
            Pattern::Member(t) => self.types.contains(t),
            Pattern::Lacking => false,
        }
    }

    /// Puts the pattern among them.
    pub(crate) fn insert(&mut self, p: Pattern) -> Result<(), AllocError>
        ensures { OnOk result ((q : Meant) → holds self.new q ≡ (same_pattern q (meant p) || holds self.old q)) }
    {
        match p {
            Pattern::Default => {
                self.has_default = true;
                Ok(())
            }
            Pattern::NullPointer => {
                self.has_null = true;
                Ok(())
            }
            Pattern::Member(t) => {
                self.types.insert(t)?;
                Ok(())
            }
            Pattern::Lacking => Ok(()),
        }
    }
}
