//! What the gauge waits for, and which of the trees under way that it brings to their end are nodes.

ghost use Rattle.std.specs.Prelude.{◌≡◌, [], ◌∷◌, ◌++◌, IfOk, OnOk, MatchOption};
ghost use Rattle.hare_recogniser.specs.Agenda.{IsPaired};
ghost use Rattle.hare_ll_table.specs.Seen.{waited};

use crate::nodes::{Nodes, nodes_of_symbol};
use hare_automaton::Symbol;
use hare_ll_table::{Stack, Wait, next_symbol, push_waits};
use std::alloc::{AllocError, Global};

/// What is waited for, and the trees under way that it brings to their end.
#[derive(Drop)]
pub struct Agenda {
    pub waits: Stack<Wait>,
    pub nodes: Nodes,
}

impl Agenda {
    /// What is waited for, the first of it on top.
    #[tactic(auto, unfolding(hare_nesting::specs::Gauge::nodes_in))]
    pub fn of(alloc: Global, waits: &[Wait]) -> Result<Agenda, AllocError>
        ensures waits { IfOk result (λ a. waited a.waits ≡ waited waits.now) }
        ensures paired { IfOk result IsPaired }
    {
        let mut agenda = Agenda {
            waits: Stack::new(alloc),
            nodes: Nodes::new(alloc),
        };
        agenda.push_all(waits)?;
        Ok(agenda)
    }

    /// Puts what is waited for on top, the first of it topmost.
    #[tactic(auto, using(crate::proofs::Steps::Opened::nodes_in_append))]
    pub fn push_all(&mut self, waits: &[Wait]) -> Result<(), AllocError>
        requires { IsPaired self.old }
        ensures waits { OnOk result (waited self.new.waits ≡ waited waits.now ++ waited self.old.waits) }
        ensures paired { OnOk result (IsPaired self.new) }
    {
        push_waits(&mut self.waits, waits)?;
        self.nodes.push_waits(waits)
    }

    /// Takes the symbol that is waited for next; none where nothing is.
    #[tactic(auto, using(crate::proofs::Steps::Opened::nodes_in_next))]
    pub fn next(&mut self) -> Result<Option<Symbol>, AllocError>
        requires { IsPaired self.old }
        ensures waits { IfOk result (λ next. MatchOption next ((waited self.old.waits ≡ []) × (waited self.new.waits ≡ []))
            (λ s. waited self.old.waits ≡ s ∷ waited self.new.waits)) }
        ensures paired { OnOk result (IsPaired self.new) }
    {
        match next_symbol(&mut self.waits)? {
            None => Ok(None),
            Some(symbol) => {
                self.nodes.pop_all(nodes_of_symbol(symbol).len());
                Ok(Some(symbol))
            }
        }
    }
}
