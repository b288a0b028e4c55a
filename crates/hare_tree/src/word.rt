//! The text of a token, which contracts see as its bytes.

ghost use Rattle.std.specs.Prelude.{◌≡◌, [], ◌∷◌, ◌++◌, IfOk, OnOk, OnErr};

use crate::short::Short;
use std::alloc::{AllocError, Global};
use std::marker::Model;

/// A list of bytes. Few stand in the value itself, so that a name, a keyword or a mark takes no memory of its own.
#[derive(Drop)]
pub struct Word {
    stored: Stored,
    alloc: Global,
}

/// Where the bytes of a word stand.
#[derive(Drop)]
pub(crate) enum Stored {
    /// In the word.
    Short(Short),
    /// In memory.
    Long(Box<Vec<u8>>),
}

impl Model for Word {
    ghost use Rattle.std.specs.Prelude.{List, ℕ};

    ghost Value = { List ℕ };

    ghost use Rattle.hare_tree.specs.Stored.{stored_bytes};

    ghost view = { λ a. stored_bytes a.stored };
}

impl Word {
    /// No bytes.
    pub fn new(alloc: Global) -> Word
        ensures { result ≡ [] }
    {
        Word {
            stored: Stored::Short(Short::new()),
            alloc,
        }
    }

    /// A word with these bytes. It fails for want of memory alone.
    pub fn copy(alloc: Global, b: &[u8]) -> Result<Word, AllocError>
        ensures { IfOk result (λ w. w ≡ b.now) }
    {
        let mut word = Word::new(alloc);
        word.extend(b)?;
        Ok(word)
    }

    /// Puts one byte at the end. Nothing changes where memory is short.
    pub fn push(&mut self, b: u8) -> Result<(), AllocError>
        ensures ok { OnOk result (self.new ≡ self.old ++ b ∷ []) }
        ensures err { OnErr result (self.new ≡ self.old) }
    {
        self.extend(&[b])
    }

    /// Puts bytes at the end. Nothing changes where memory is short.
    pub fn extend(&mut self, b: &[u8]) -> Result<(), AllocError>
        ensures ok { OnOk result (self.new ≡ self.old ++ b.now) }
        ensures err { OnErr result (self.new ≡ self.old) }
    {
        match &mut self.stored {
            Stored::Long(bytes) => bytes.extend_from_slice(b),
            Stored::Short(short) => {
                if b.len() <= short.room() {
                    short.extend(b);
                    return Ok(());
                }
                let bytes = joined(self.alloc, short.bytes(), b)?;
                self.stored = Stored::Long(bytes);
                Ok(())
            }
        }
    }

    /// The bytes.
    pub fn bytes(&self) -> &[u8]
        ensures { result.now ≡ self.now }
    {
        match &self.stored {
            Stored::Short(short) => short.bytes(),
            Stored::Long(bytes) => bytes.as_slice(),
        }
    }
}

/// These bytes, and behind them those, in memory.
fn joined(alloc: Global, front: &[u8], back: &[u8]) -> Result<Box<Vec<u8>>, AllocError>
    ensures { IfOk result (λ v. v.value.items ≡ front.now ++ back.now) }
{
    let mut bytes = Vec::new(alloc);
    bytes.extend_from_slice(front)?;
    bytes.extend_from_slice(back)?;
    match Box::new(alloc, bytes) {
        Ok(boxed) => Ok(boxed),
        Err(_) => Err(AllocError),
    }
}
