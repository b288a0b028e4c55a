//! Letters, keywords, the words left out of the language, and names.

ghost use Rattle.std.specs.Prelude.{◌≡◌, List, ℕ, ◌∷◌, map, bytes_eq};
ghost use Rattle.std.specs.List.{list_all};
ghost use Rattle.hare_tree.specs.Words as words;
ghost use Rattle.hare_tree.specs.Levels.{is_name};

/// Whether a byte is a letter or an underscore.
pub fn is_letter(c: u8) -> bool
    ensures { result ≡ words.is_letter c }
{
    c.is_ascii_alphabetic() || c == b'_'
}

/// Whether a byte is a letter, a digit or an underscore.
pub fn is_word_byte(c: u8) -> bool
    ensures { result ≡ words.is_word_byte c }
{
    is_letter(c) || c.is_ascii_digit()
}

/// Whether a word stands in a list.
pub fn is_listed(list: &[&[u8]], s: &[u8]) -> bool
    ensures { result ≡ words.is_listed (map (λ w. w.now) list.now) s.now }
{
    for w in list {
        if is_same(w, s) {
            return true;
        }
    }
    false
}

/// Whether two words are the same.
fn is_same(a: &[u8], b: &[u8]) -> bool
    ensures { result ≡ bytes_eq a.now b.now }
{
    a.len() == b.len() && a == b
}

/// The keywords that begin with this byte.
fn keywords_like(first: u8) -> &'static [&'static [u8]]
    ensures { (rest : List ℕ) → words.is_listed (map (λ w. w.now) result.now) (first ∷ rest) ≡ words.is_listed words.keywords
        (first ∷ rest) }
{
    match first {
        b'a' => &[b"abort", b"align", b"alloc", b"append", b"as", b"assert"],
        b'b' => &[b"bool", b"break"],
        b'c' => &[b"case", b"const", b"continue"],
        b'd' => &[b"def", b"defer", b"delete"],
        b'e' => &[b"else", b"export"],
        b'f' => &[b"false", b"fn", b"for", b"free"],
        b'i' => &[b"i16", b"i32", b"i64", b"i8", b"if", b"int", b"is"],
        b'l' => &[b"len", b"let"],
        b'm' => &[b"match"],
        b'n' => &[b"never", b"null", b"nullable"],
        b'o' => &[b"offset", b"opaque"],
        b'r' => &[b"return", b"rune"],
        b's' => &[b"size", b"str", b"struct", b"switch"],
        b't' => &[b"true", b"type"],
        b'u' => &[b"u16", b"u32", b"u64", b"u8", b"uint", b"use"],
        b'v' => &[b"void"],
        b'y' => &[b"yield"],
        _ => &[],
    }
}

/// The words of Hare that the language leaves out and that begin with this byte.
fn left_out_like(first: u8) -> &'static [&'static [u8]]
    ensures { (rest : List ℕ) → words.is_listed (map (λ w. w.now) result.now) (first ∷ rest) ≡ words.is_listed words.left_out
        (first ∷ rest) }
{
    match first {
        b'_' => &[b"_"],
        b'd' => &[b"done"],
        b'e' => &[b"enum"],
        b'f' => &[b"f32", b"f64"],
        b'i' => &[b"insert"],
        b'n' => &[b"nomem"],
        b's' => &[b"static"],
        b'u' => &[b"uintptr", b"union"],
        b'v' => &[b"vaarg", b"vaend", b"valist", b"vastart"],
        _ => &[],
    }
}

/// Whether a word is a keyword.
pub fn is_keyword(s: &[u8]) -> bool
    ensures { result ≡ words.is_listed words.keywords s.now }
{
    match s {
        [first, ..] => is_listed(keywords_like(*first), s),
        [] => false,
    }
}

/// Whether a word is left out where it stands, which is or is not behind `::`.
pub fn is_left_out(behind_path: bool, s: &[u8]) -> bool
    ensures { result ≡ words.is_left_out behind_path s.now }
{
    match s {
        [first, ..] => is_listed(left_out_like(*first), s)
            && !(behind_path && s == b"nomem".as_slice()),
        [] => false,
    }
}

/// Whether a text is a letter or an underscore, then letters, digits and underscores.
fn is_word(s: &[u8]) -> bool
    ensures { result ≡ words.is_word s.now }
{
    match s {
        [] => false,
        [first, rest @ ..] => is_letter(*first) && are_word_bytes(rest),
    }
}

/// Whether a text is letters, digits and underscores.
fn are_word_bytes(s: &[u8]) -> bool
    ensures { result ≡ list_all words.is_word_byte s.now }
{
    s.iter().all(|c| is_word_byte(*c))
}

/// Whether a text is a name where it stands, which is or is not behind `::`.
pub fn is_name(behind_path: bool, s: &[u8]) -> bool
    ensures { result ≡ is_name behind_path s.now }
{
    !is_keyword(s) && !is_left_out(behind_path, s) && is_word(s)
}
