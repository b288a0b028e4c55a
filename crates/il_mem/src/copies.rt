//! Copies and comparisons of many bytes, piece by piece.

ghost use Rattle.std.specs.Prelude.{◌≡◌, ℕ, ◌+◌, ◌-◌, ◌<◌, ◌≤◌, ◌^◌, ◌&&◌, not, bytes_eq, true};
ghost use Rattle.hx_base.specs.Memory.{Memory, bytes_at, write, clear_range};
ghost use Rattle.il_mem.specs.Kept.{is_held, meets, lies_in, page_size};
ghost use Rattle.il_mem.specs.Holds.{HoldsBytes};

use crate::pages::{PAGE, Pages};

// How many bytes are moved or compared at once.
const PIECE: u64 = 256;

/// Copies bytes to the same address or a lower one, from the first to the last.
pub fn move_down(pages: &mut Pages, to: u64, from: u64, n: u64)
    requires below { to ≤ from }
    requires ends { from + n < 2 ^ 64 }
    requires held { (p : ℕ) → meets to n p ≡ true → is_held pages.old p ≡ true }
    ensures bytes { (m : Memory) → HoldsBytes pages.old m → HoldsBytes pages.new (write m to (bytes_at m from n)) }
    ensures pages { pages.new.pages ≡ pages.old.pages }
{
    let mut done = 0;
    while done < n {
        let len = PIECE.min(n - done);
        copy(pages, to + done, from + done, len);
        done += len;
    }
}

/// Copies bytes to a higher address, from the last to the first.
pub fn move_up(pages: &mut Pages, to: u64, from: u64, n: u64)
    requires above { from ≤ to }
    requires ends { to + n < 2 ^ 64 }
    requires held { (p : ℕ) → meets to n p ≡ true → is_held pages.old p ≡ true }
    ensures bytes { (m : Memory) → HoldsBytes pages.old m → HoldsBytes pages.new (write m to (bytes_at m from n)) }
    ensures pages { pages.new.pages ≡ pages.old.pages }
{
    let mut left = n;
    while left > 0 {
        let len = PIECE.min(left);
        left -= len;
        copy(pages, to + left, from + left, len);
    }
}

// Copies a piece, all of which is read before it is written.
fn copy(pages: &mut Pages, to: u64, from: u64, n: u64)
    requires some { 0 < n }
    requires few { n ≤ 256 }
    requires ends { (to + n < 2 ^ 64) × (from + n < 2 ^ 64) }
    requires held { (p : ℕ) → meets to n p ≡ true → is_held pages.old p ≡ true }
    ensures bytes { (m : Memory) → HoldsBytes pages.old m → HoldsBytes pages.new (write m to (bytes_at m from n)) }
    ensures pages { pages.new.pages ≡ pages.old.pages }
{
    let mut piece = [0; PIECE as usize];
    let piece = &mut piece[..n as usize];
    pages.read(from, piece);
    pages.write(to, piece);
}

/// Whether the bytes from one address on are those from another on.
pub fn same(pages: &Pages, a: u64, b: u64, n: u64) -> bool
    requires ends { (a + n < 2 ^ 64) × (b + n < 2 ^ 64) }
    ensures { (m : Memory) → HoldsBytes pages.now m → result ≡ bytes_eq (bytes_at m a n) (bytes_at m b n) }
{
    let mut done = 0;
    while done < n {
        let len = PIECE.min(n - done);
        if !same_piece(pages, a + done, b + done, len) {
            return false;
        }
        done += len;
    }
    true
}

// Whether a piece is that from another address on.
fn same_piece(pages: &Pages, a: u64, b: u64, n: u64) -> bool
    requires few { n ≤ 256 }
    requires ends { (a + n < 2 ^ 64) × (b + n < 2 ^ 64) }
    ensures { (m : Memory) → HoldsBytes pages.now m → result ≡ bytes_eq (bytes_at m a n) (bytes_at m b n) }
{
    let mut one = [0; PIECE as usize];
    let mut other = [0; PIECE as usize];
    let one = &mut one[..n as usize];
    let other = &mut other[..n as usize];
    pages.read(a, one);
    pages.read(b, other);
    &*one == &*other
}

/// Makes bytes the fill byte, and gives up the pages that lie wholly among them.
pub fn clear(pages: &mut Pages, at: u64, n: u64)
    requires ends { at + n < 2 ^ 64 }
    ensures bytes { (m : Memory) → HoldsBytes pages.old m → HoldsBytes pages.new (clear_range m at n) }
    ensures pages { (p : ℕ) → is_held pages.new p ≡ (is_held pages.old p && not (lies_in at n p)) }
    ensures few { n < page_size → pages.new.pages ≡ pages.old.pages }
{
    let mut done = 0;
    while done < n {
        let from = at + done;
        let len = (n - done).min(PAGE - from % PAGE);
        if len == PAGE {
            pages.give_up(from / PAGE);
        } else {
            pages.wipe(from, len);
        }
        done += len;
    }
}
