//! Constructs behind one another, and with commas between.

ghost use Rattle.std.specs.Prelude.{◌≡◌, ℕ, List, Option, Bool, length};
ghost use Rattle.il_read.specs.Lists.{each, listed, bracketed};
ghost use Rattle.il_read.specs.Taken.{Takes};

use crate::front::{behind, skip};
use crate::taken::{NotPrinted, Taken};
use hx_base::Items;
use il_code::Stop;
use std::alloc::Global;

/// A construct that is read off the front of a text.
pub trait Construct: Sized {
    /// The construct, and what stands behind it.
    ghost reads: { List ℕ → Option (Self × List ℕ) };

    /// The construct at the front.
    fn at(alloc: Global, s: &[u8]) -> Taken<'_, Self>
        ensures { Takes result (reads s.now) };
}

/// A construct whose first bytes tell it from what ends a list of it.
pub trait Repeated: Construct {
    /// Whether one begins at the front.
    ghost starts: { List ℕ → Bool };

    /// Whether one begins at the front.
    fn begins(s: &[u8]) -> bool
        ensures { result ≡ starts s.now };
}

/// The constructs at the front, as long as one begins.
pub fn each_at<T: Repeated + Drop>(alloc: Global, s: &[u8]) -> Taken<'_, Items<T>>
    ensures { Takes result (each T.reads T.starts (length s.now) s.now) }
{
    let mut items = Items::new(alloc);
    let mut rest = s;
    // Each takes a byte at least, so there are at most as many as there are bytes.
    for _turn in 0..s.len() {
        if !T::begins(rest) {
            return Ok((items, rest));
        }
        let (item, more) = T::at(alloc, rest)?;
        items.push(item)?;
        rest = more;
    }
    Ok((items, rest))
}

/// One construct or more, with a comma and a space between them.
pub fn listed_at<T: Construct + Drop>(alloc: Global, s: &[u8]) -> Taken<'_, Items<T>>
    ensures { Takes result (listed T.reads (length s.now) s.now) }
{
    let mut items = Items::new(alloc);
    let mut rest = s;
    // Each takes a byte at least, so there are at most as many as there are bytes.
    for _turn in 0..s.len() {
        let (item, more) = T::at(alloc, rest)?;
        items.push(item)?;
        let Some(next) = behind(more, b", ") else {
            return Ok((items, more));
        };
        rest = next;
    }
    Err(Stop::Fault(NotPrinted))
}

/// The constructs in brackets, with commas between, behind the first bracket.
pub fn bracketed_at<T: Construct + Drop>(alloc: Global, s: &[u8]) -> Taken<'_, Items<T>>
    ensures { Takes result (bracketed T.reads (length s.now) s.now) }
{
    if let Some(rest) = behind(s, b")") {
        return Ok((Items::new(alloc), rest));
    }
    let (items, rest) = listed_at(alloc, s)?;
    let rest = skip(rest, b")")?;
    Ok((items, rest))
}
