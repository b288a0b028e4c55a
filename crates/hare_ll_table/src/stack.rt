//! Stacks.

ghost use Rattle.std.specs.Prelude.{◌≡◌, List, [], ◌∷◌, length, OnOk, IfSome, IfNone, MatchOption};

use std::alloc::{AllocError, Global};
use std::marker::Model;

/// A stack, which contracts see as a list with its top first.
#[derive(Drop)]
pub struct Stack<T> {
    items: Vec<T>,
}

impl<T> Model for Stack<T> {
    ghost use Rattle.std.specs.Prelude.{List, reverse};

    ghost Value = { List T };

    ghost view = { λ a. reverse a.items.items };
}

impl<T: Drop> Stack<T> {
    /// Nothing.
    pub fn new(alloc: Global) -> Stack<T>
        ensures { result ≡ [] }
    {
        Stack {
            items: Vec::new(alloc),
        }
    }

    /// Puts an item on top. An error is want of memory.
    pub fn push(&mut self, item: T) -> Result<(), AllocError>
        ensures { OnOk result (self.new ≡ item ∷ self.old) }
    {
        self.items.push(item)?;
        Ok(())
    }

    /// The top; none where there is nothing.
    #[tactic(auto, using(crate::proofs::StackTop::Tops::top_of_reverse))]
    pub fn top(&self) -> Option<&T>
        ensures { MatchOption result (self.now ≡ []) (λ item. (rest : List T) × (self.now ≡ item.now ∷ rest)) }
    {
        self.items.last()
    }

    /// Takes the top; none where there is nothing.
    pub fn pop(&mut self) -> Option<T>
        ensures found { IfSome result (λ item. self.old ≡ item ∷ self.new) }
        ensures none { IfNone result (self.old ≡ []) }
        ensures kept { IfNone result (self.new ≡ []) }
    {
        self.items.pop()
    }

    /// Puts an item in the place of the top; nothing changes where there is none.
    #[tactic(auto, using(crate::proofs::StackTop::Tops::replaced_top))]
    pub(crate) fn replace_top(&mut self, item: T)
        ensures { (top : T) (rest : List T) → self.old ≡ top ∷ rest → self.new ≡ item ∷ rest }
    {
        if let Some(last) = self.items.len().checked_sub(1) {
            self.items[last] = item;
        }
    }

    /// Lets the top go; nothing changes where there is none.
    pub(crate) fn drop_top(&mut self)
        ensures { (top : T) (rest : List T) → self.old ≡ top ∷ rest → self.new ≡ rest }
    {
        match self.pop() {
            Some(_) | None => {}
        }
    }

    /// How many items there are.
    pub fn len(&self) -> usize
        ensures { result ≡ length self.now }
    {
        self.items.len()
    }
}
