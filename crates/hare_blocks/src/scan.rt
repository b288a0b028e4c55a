//! Runs of bytes at the front of a text.

ghost use Rattle.std.specs.Prelude.{◌≡◌, ◌≤◌, length, true, option_map};
ghost use Rattle.std.specs.List.{prefix_len};
ghost use Rattle.std.specs.Str.{all_ascii_digits};
ghost use Rattle.std.specs.Char.{is_ascii_digit};
ghost use Rattle.hare_tree.specs.Words.{is_blank, is_letter, is_word_byte};
ghost use Rattle.hare_blocks.specs.Tokens.{is_plain};
ghost use Rattle.hare_blocks.specs.Lexing.{unblanked, number_of, number_at};

// What stands behind the blanks.
pub fn unblanked(s: &[u8]) -> &[u8]
    ensures { result.now ≡ unblanked s.now }
{
    s.split_at(blank_len(s)).1
}

// How many blanks stand at the front.
fn blank_len(s: &[u8]) -> usize
    ensures value { result ≡ prefix_len is_blank s.now }
    ensures within { result ≤ length s.now }
{
    s.iter().take_while(|c| is_blank(**c)).count()
}

fn is_blank(c: u8) -> bool
    ensures { result ≡ is_blank c }
{
    c == b' ' || c == b'\t' || c == b'\n' || c == b'\r'
}

/// Whether the byte is a letter or an underscore.
pub fn is_letter(c: u8) -> bool
    ensures { result ≡ is_letter c }
{
    c.is_ascii_alphabetic() || c == b'_'
}

/// Whether the byte is a letter, a digit or an underscore.
pub fn is_word_byte(c: u8) -> bool
    ensures { result ≡ is_word_byte c }
{
    is_letter(c) || c.is_ascii_digit()
}

/// How many letters, digits and underscores stand at the front.
pub fn word_len(s: &[u8]) -> usize
    ensures value { result ≡ prefix_len is_word_byte s.now }
    ensures within { result ≤ length s.now }
{
    s.iter().take_while(|c| is_word_byte(**c)).count()
}

// A character that may stand in a string.
fn is_plain(c: u8) -> bool
    ensures { result ≡ is_plain c }
{
    32 <= c && c <= 126 && c != b'"' && c != b'\\'
}

/// How many characters of a string stand at the front.
pub fn text_len(s: &[u8]) -> usize
    ensures value { result ≡ prefix_len is_plain s.now }
    ensures within { result ≤ length s.now }
{
    s.iter().take_while(|c| is_plain(**c)).count()
}

/// The number that the decimal digits at the front spell, and what stands behind them. None where no digit stands there, or where the
/// number is 2^64 or more.
#[tactic(auto, unfolding(crate::specs::Lexing::number_at), using(crate::proofs::FirstTokens::Scanned::digits_in_front))]
pub fn number_at(s: &[u8]) -> Option<(u64, &[u8])>
    ensures { option_map (λ r. (r.0, r.1.now)) result ≡ number_at s.now }
{
    let (digits, rest) = s.split_at(digit_len(s));
    let number = number_of(digits)?;
    Some((number, rest))
}

// How many digits stand at the front.
fn digit_len(s: &[u8]) -> usize
    ensures value { result ≡ prefix_len is_ascii_digit s.now }
    ensures within { result ≤ length s.now }
{
    s.iter().take_while(|c| c.is_ascii_digit()).count()
}

// The number that decimal digits spell. None where there is no digit, or where the number is 2^64 or more.
fn number_of(digits: &[u8]) -> Option<u64>
    requires { all_ascii_digits digits.now ≡ true }
    ensures { result ≡ number_of digits.now }
{
    match std::str::from_utf8(digits) {
        Ok(text) => text.parse::<u64>().ok(),
        Err(_) => None,
    }
}
