//! Words that name files.

ghost use Rattle.std.specs.Prelude.{◌≡◌, ◌≤◌, ◌<◌, length, take, drop, position, IfSome};
ghost use Rattle.harec_words.specs.Reading as spec;

use hare_tree::is_name;

/// The most bytes of a word that names a file.
const MOST_BYTES: usize = 1024;

/// Whether a word names a file.
pub fn is_file(word: &[u8]) -> bool
    ensures { result ≡ spec.is_file word.now }
{
    word.len() <= MOST_BYTES && is_path(without_dot(word))
}

/// The word without a leading `./`.
fn without_dot(word: &[u8]) -> &[u8]
    ensures { result.now ≡ spec.without_dot word.now }
{
    word.strip_prefix(b"./").unwrap_or(word)
}

/// Whether a path is directories that are names, and a file's own name.
fn is_path(path: &[u8]) -> bool
    ensures { result ≡ spec.is_path path.now }
{
    let mut rest = path;
    while let Some(end) = slash_in(rest) {
        if !is_name(false, before(rest, end)) {
            return false;
        }
        rest = behind(rest, end + 1);
    }
    ends_in_ha(rest)
}

/// Where the first slash stands, if there is one.
fn slash_in(text: &[u8]) -> Option<usize>
    ensures value { result ≡ position spec.is_slash text.now }
    ensures within { IfSome result (λ at. at < length text.now) }
{
    text.iter().position(|c| *c == b'/')
}

/// The bytes before a place.
fn before(text: &[u8], at: usize) -> &[u8]
    requires { at ≤ length text.now }
    ensures { result.now ≡ take at text.now }
{
    &text[..at]
}

/// The bytes from a place on.
fn behind(text: &[u8], at: usize) -> &[u8]
    requires { at ≤ length text.now }
    ensures { result.now ≡ drop at text.now }
{
    &text[at..]
}

/// Whether a file's own name ends in `.ha`.
fn ends_in_ha(own: &[u8]) -> bool
    ensures { result ≡ spec.ends_in_ha own.now }
{
    own.ends_with(b".ha")
}
