//! Classes of bytes, and runs of bytes at the front of a text.

ghost use Rattle.std.specs.Prelude.{◌≡◌, ◌≢◌, ◌<◌, ◌≤◌, length, slice_index, take, true};
ghost use Rattle.std.specs.List.{prefix_len};
ghost use Rattle.std.specs.Char.{is_ascii_digit};
ghost use Rattle.hare_tree.specs.Words as words;

use hare_tree::is_word_byte;

// The byte at a place, and 0 past the end.
pub fn byte(s: &[u8], at: usize) -> u8
    ensures value { result ≡ slice_index s.now at }
    ensures within { result ≢ 0 → at < length s.now }
{
    if at < s.len() { s[at] } else { 0 }
}

// How many blanks stand at the front.
pub fn blank_len(s: &[u8]) -> usize
    ensures value { result ≡ prefix_len words.is_blank s.now }
    ensures within { result ≤ length s.now }
{
    s.iter().take_while(|c| is_blank(**c)).count()
}

// How many bytes stand before the end of the line.
pub fn line_len(s: &[u8]) -> usize
    ensures value { result ≡ prefix_len words.is_not_feed s.now }
    ensures within { result ≤ length s.now }
{
    s.iter().take_while(|c| **c != b'\n').count()
}

// A space, a tab, LF or CR.
fn is_blank(c: u8) -> bool
    ensures { result ≡ words.is_blank c }
{
    c == 32 || c == 9 || c == 10 || c == 13
}

// How many letters, digits and underscores stand at the front.
pub fn word_len(s: &[u8]) -> usize
    ensures value { result ≡ prefix_len words.is_word_byte s.now }
    ensures within { result ≤ length s.now }
    ensures some { words.is_letter (slice_index s.now 0) ≡ true → 0 < result }
{
    s.iter().take_while(|c| is_word_byte(**c)).count()
}

// How many decimal digits stand at the front.
pub fn digit_len(s: &[u8]) -> usize
    ensures value { result ≡ prefix_len is_ascii_digit s.now }
    ensures within { result ≤ length s.now }
{
    s.iter().take_while(|c| c.is_ascii_digit()).count()
}

// The first bytes, as many as are asked for where there are so many.
pub fn front(s: &[u8], n: usize) -> &[u8]
    ensures { result.now ≡ take n s.now }
{
    if n <= s.len() { s.split_at(n).0 } else { s }
}
