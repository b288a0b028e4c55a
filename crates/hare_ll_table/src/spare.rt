//! Lists whose memory is used again.

ghost use Rattle.std.specs.Prelude.{◌≡◌, []};

use std::alloc::{AllocError, Global};

/// Lists that are done with. Whoever needs an empty list takes one of them, so that new memory is taken only where there is none.
#[derive(Drop)]
pub struct Spare<T> {
    alloc: Global,
    lists: Vec<Vec<T>>,
}

impl<T: Drop> Spare<T> {
    /// No lists yet.
    pub fn new(alloc: Global) -> Spare<T> {
        Spare {
            alloc,
            lists: Vec::new(alloc),
        }
    }

    /// Where memory comes from.
    pub fn alloc(&self) -> Global {
        self.alloc
    }

    /// An empty list.
    pub fn take(&mut self) -> Vec<T>
        ensures { result.items ≡ [] }
    {
        match self.lists.pop() {
            Some(mut list) => {
                list.clear();
                list
            }
            None => Vec::new(self.alloc),
        }
    }

    /// Takes in a list that is done with. What is still in it is let go when its memory is used again. An error is want of memory.
    pub fn keep(&mut self, list: Vec<T>) -> Result<(), AllocError> {
        self.lists.push(list)?;
        Ok(())
    }
}
