//! What has been seen.

ghost use Rattle.std.specs.Prelude.{◌≡◌, ◌≤◌, [], ◌∷◌, ◌++◌, length, map, filter, not, take, slice_get, slice_set, option_map, IfOk, OnOk, OnErr, None};
ghost use Rattle.hare_typed.specs.Coats as coats;
ghost use Rattle.hare_rules.specs.Flow.{flow_at, count, is_at, all_settled};
ghost use Rattle.hare_flow.specs.Seen.{entry_of, given_of};

use crate::coercions::{Settled, write, write_all};
use crate::yields::{Handed, Yield, drop_at, handed_at};
use hare_rules::Local;
use hare_tree::Place;
use hare_typed::{Typed, coat};
use hare_types::Coercion;
use hx_base::Items;
use std::alloc::{AllocError, Global};
use std::marker::Model;

/// What is known of a binding.
#[derive(Clone, Copy, Debug, PartialEq, Eq)]
pub enum Binding {
    /// It has not been judged.
    Later,
    /// Its type, and whether it may be assigned to.
    Known(Local),
    /// It is that of the loop at this place, over what is no array and no slice.
    Odd(Place),
}

/// Says what is known of the binding with a number; nothing changes where there is no such binding.
fn set(bindings: &mut [Binding], number: u32, b: Binding)
    ensures { map entry_of bindings.new ≡ slice_set (map entry_of bindings.old) number (entry_of b) }
{
    let i = number as usize;
    if i < bindings.len() {
        bindings[i] = b;
    }
}

/// What has been seen while a body is judged. Contracts see it as the rules do.
#[derive(Drop)]
pub struct Seen {
    bindings: Vec<Binding>,
    yields: Vec<Yield>,
    coercions: Vec<Coercion>,
    late: Vec<Settled>,
}

impl Model for Seen {
    ghost use Rattle.std.specs.Prelude.{map};
    ghost use Rattle.hare_rules.specs.Flow.{Flow};
    ghost use Rattle.hare_flow.specs.Seen.{flow_of};

    ghost Value = { Flow };

    ghost view = { λ a. flow_of a.bindings.items a.yields.items a.coercions.items a.late.items };
}

impl Seen {
    /// Nothing, before a body with these bindings. Takes no memory.
    pub fn new(alloc: Global, bindings: Vec<Binding>) -> Seen
        ensures { result ≡ flow_at (map entry_of bindings.items) }
    {
        Seen {
            bindings,
            yields: Vec::new(alloc),
            coercions: Vec::new(alloc),
            late: Vec::new(alloc),
        }
    }

    /// How many nodes have been judged.
    pub fn count(&self) -> usize
        ensures { result ≡ count self.now }
    {
        self.coercions.len()
    }

    /// How many values have been yielded whose block or case has not been judged.
    pub fn yielded(&self) -> usize
        ensures { result ≡ length self.now.yields }
    {
        self.yields.len()
    }

    /// What is known of the binding with a number; none where there is no such binding.
    pub fn binding(&self, number: u32) -> Option<Binding>
        ensures { option_map entry_of result ≡ slice_get self.now.locals number }
    {
        match self.bindings.get(number as usize) {
            Some(b) => Some(*b),
            None => None,
        }
    }

    /// Says what is known of the binding with a number; nothing changes where there is no such binding.
    pub fn bind(&mut self, number: u32, b: Binding)
        ensures { self.new ≡ record self.old { locals = slice_set self.old.locals number (entry_of b) } }
    {
        set(self.bindings.as_mut_slice(), number, b);
    }

    /// Notes that a node has been judged, whose value goes so. Nothing changes where memory is short.
    pub fn judged(&mut self, own: &Coercion) -> Result<(), AllocError>
        ensures ok { OnOk result (self.new ≡ record self.old { coercions = self.old.coercions ++ own.now ∷ [] }) }
        ensures err { OnErr result (self.new ≡ self.old) }
    {
        self.coercions.extend_from_slice(&[*own])
    }

    /// Settles what becomes of the value of the node with a number; nothing changes where there is no such node.
    pub fn settle(&mut self, node: u32, coercion: Coercion)
        ensures { self.new ≡ record self.old { coercions = slice_set self.old.coercions node coercion } }
    {
        write(self.coercions.as_mut_slice(), node, coercion);
    }

    /// Settles what becomes of the value of a node when the body is done. Nothing changes where memory is short.
    pub fn settle_late(&mut self, node: u32, coercion: Coercion) -> Result<(), AllocError>
        ensures ok { OnOk result (self.new ≡ record self.old { late = self.old.late ++ record { node = node; coercion = coercion } ∷ [] }) }
        ensures err { OnErr result (self.new ≡ self.old) }
    {
        self.late.push(Settled { node, coercion })?;
        Ok(())
    }

    /// Hands a value to the block or case round which so many labels stand. Nothing changes where memory is short.
    pub fn hand(&mut self, level: usize, handed: Handed) -> Result<(), AllocError>
        ensures ok { OnOk result (self.new ≡ record self.old
            { yields = self.old.yields ++ record { level = level; given = given_of handed } ∷ [] }) }
        ensures err { OnErr result (self.new ≡ self.old) }
    {
        self.yields.push(Yield { level, handed })?;
        Ok(())
    }

    /// What was handed to the block or case round which so many labels stand; none of the first `from` values was.
    /// It fails for want of memory alone.
    pub fn handed(
        &self,
        alloc: Global,
        from: usize,
        level: usize,
    ) -> Result<Items<Handed>, AllocError>
        requires { filter (is_at level) (take from self.now.yields) ≡ [] }
        ensures { IfOk result (λ gs. map given_of gs ≡ map (λ y. y.given) (filter (is_at level) self.now.yields)) }
    {
        handed_at(alloc, self.yields.as_slice(), from, level)
    }

    /// Drops what was handed to the block or case round which so many labels stand; none of the first `from` values was.
    /// It fails for want of memory alone, and then nothing is told of what is left.
    pub fn take(&mut self, alloc: Global, from: usize, level: usize) -> Result<(), AllocError>
        requires { filter (is_at level) (take from self.old.yields) ≡ [] }
        ensures { OnOk result (self.new ≡ record self.old { yields = filter (λ y. not (is_at level y)) self.old.yields }) }
    {
        drop_at(alloc, &mut self.yields, from, level)?;
        Ok(())
    }

    /// Gives each node of the tree of the body what is settled of it, also late, in one pass.
    pub fn finish(&mut self, tree: &mut Typed)
        ensures { tree.new ≡ coats.coat (all_settled self.old) tree.old }
    {
        write_all(self.coercions.as_mut_slice(), self.late.as_slice());
        coat(tree, self.coercions.as_slice());
    }
}
