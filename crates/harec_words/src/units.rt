//! Numbers of units in words.

ghost use Rattle.std.specs.Prelude.{◌≡◌, ◌<◌, ◌^◌, length, true};
ghost use Rattle.std.specs.Option.{SomeIff};
ghost use Rattle.std.specs.List.{list_all};
ghost use Rattle.std.specs.Char.{is_ascii_digit};
ghost use Rattle.std.specs.Str.Parse.{digits_value};
ghost use Rattle.harec_words.specs.Reading as spec;

/// The most units that words may name.
const MOST_UNITS: u64 = 1_000_000_000_000;

/// The number of units that a word gives.
pub fn units_of(word: &[u8]) -> Option<u64>
    ensures { result ≡ spec.units_of word.now }
{
    if word.len() > 20 || !are_digits(word) {
        return None;
    }
    let units = number_of(word)?;
    if units >= 1 && units <= MOST_UNITS {
        Some(units)
    } else {
        None
    }
}

/// Whether each byte is a decimal digit.
fn are_digits(word: &[u8]) -> bool
    ensures { result ≡ list_all is_ascii_digit word.now }
{
    word.iter().all(|c| c.is_ascii_digit())
}

/// The number that decimal digits spell. None where there is no digit, or where the number is 2^64 or more.
fn number_of(digits: &[u8]) -> Option<u64>
    requires { list_all is_ascii_digit digits.now ≡ true }
    ensures { SomeIff result ((0 < length digits.now) × (digits_value 10 digits.now < 2 ^ 64)) (digits_value 10 digits.now) }
{
    match std::str::from_utf8(digits) {
        Ok(text) => text.parse::<u64>().ok(),
        Err(_) => None,
    }
}
