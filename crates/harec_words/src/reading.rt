//! The words of a command, read from the front.

ghost use Rattle.std.specs.Prelude.{◌≡◌, ◌≤◌, ◌<◌, ◌+◌, length, drop, position, sum_by, nat_le, IfSome, IfNone, option_map, if◌then◌else◌};
ghost use Rattle.std.specs.List.{list_all, position_or_len};
ghost use Rattle.harec_words.specs.Commands.{Run, Exec};
ghost use Rattle.harec_words.specs.Reading as spec;
ghost use Rattle.harec_words.specs.Parts.{ArePartsOf};
ghost use Rattle.harec_words.specs.Spans.{meant, words_at, NamesWithin, IsWithin};

use crate::command::{Command, Span};
use crate::path::is_file;
use crate::units::units_of;
use hx_base::Text;

/// The units of a run whose words name none.
const DEFAULT_UNITS: u64 = 1_000_000_000;

/// The most files.
const MOST_FILES: usize = 65_536;

/// The most arguments, and the most bytes that they have together.
const MOST_ARGUMENTS: usize = 1_048_576;

const MOST_ARGUMENT_BYTES: usize = 1 << 30;

/// What stands behind the name of a command that runs something.
#[derive(Clone, Copy)]
struct Parts {
    units: u64,
    named: Span,
    args: Span,
}

/// The command of the words.
pub fn read(words: &[Text]) -> Option<Command>
    ensures value { option_map (meant words.now) result ≡ spec.command_in words.now }
    ensures within { IfSome result (NamesWithin (length words.now)) }
{
    let name = words.first()?.bytes();
    if name == b"check".as_slice() {
        Some(Command::Check(files_behind(words)?))
    } else if name == b"emit".as_slice() {
        Some(Command::Emit(files_behind(words)?))
    } else if name == b"run".as_slice() {
        run_of(words)
    } else if name == b"exec".as_slice() {
        exec_of(words)
    } else if name == b"fmt".as_slice() {
        Some(Command::Fmt(file_behind(words)?))
    } else {
        None
    }
}

/// The files behind the name of a command, where nothing else stands there.
fn files_behind(words: &[Text]) -> Option<Span>
    requires { 1 ≤ length words.now }
    ensures value { option_map (words_at words.now) result ≡ spec.files_behind words.now }
    ensures within { IfSome result (IsWithin (length words.now)) }
{
    let files = Span {
        from: 1,
        to: words.len(),
    };
    if are_files(&words[1..]) {
        Some(files)
    } else {
        None
    }
}

/// The one file behind the name of a command, where nothing else stands there.
fn file_behind(words: &[Text]) -> Option<Span>
    requires { 1 ≤ length words.now }
    ensures value { option_map (words_at words.now) result ≡ spec.file_behind words.now }
    ensures within { IfSome result (IsWithin (length words.now)) }
{
    let file = Span {
        from: 1,
        to: words.len(),
    };
    if is_one_file(&words[1..]) {
        Some(file)
    } else {
        None
    }
}

/// The command of words that begin with `run`.
fn run_of(words: &[Text]) -> Option<Command>
    requires { 1 ≤ length words.now }
    ensures value { option_map (meant words.now) result ≡ spec.run_in spec.are_files Run words.now }
    ensures within { IfSome result (NamesWithin (length words.now)) }
{
    let parts = parts_of(words)?;
    if are_files(words_in(words, parts.named)) && are_arguments(words_in(words, parts.args)) {
        Some(Command::Run(parts.units, parts.named, parts.args))
    } else {
        None
    }
}

/// The command of words that begin with `exec`.
fn exec_of(words: &[Text]) -> Option<Command>
    requires { 1 ≤ length words.now }
    ensures value { option_map (meant words.now) result ≡ spec.run_in spec.is_program Exec words.now }
    ensures within { IfSome result (NamesWithin (length words.now)) }
{
    let parts = parts_of(words)?;
    if is_program(words_in(words, parts.named)) && are_arguments(words_in(words, parts.args)) {
        Some(Command::Exec(parts.units, parts.named, parts.args))
    } else {
        None
    }
}

/// The words that a span names.
fn words_in(words: &[Text], span: Span) -> &[Text]
    requires { IsWithin (length words.now) span }
    ensures { result.now ≡ words_at words.now span }
{
    &words[span.from..span.to]
}

/// What stands behind the name of a command that runs something.
fn parts_of(words: &[Text]) -> Option<Parts>
    requires { 1 ≤ length words.now }
    ensures found { IfSome result (ArePartsOf words.now) }
    ensures none { IfNone result (spec.units_in words.now ≡ None) }
{
    let (units, from) = units_in(words)?;
    let to = dashes_from(words, from);
    Some(Parts {
        units,
        named: Span { from, to },
        args: args_behind(words, to),
    })
}

/// The units that stand behind the name of the command, or else the default, and how many words stand before what is run.
fn units_in(words: &[Text]) -> Option<(u64, usize)>
    requires { 1 ≤ length words.now }
    ensures value { result ≡ spec.units_in words.now }
    ensures within { IfSome result (λ r. r.1 ≤ length words.now) }
{
    let Some(flag) = words.get(1) else {
        return Some((DEFAULT_UNITS, 1));
    };
    if flag.bytes() != b"--units".as_slice() {
        return Some((DEFAULT_UNITS, 1));
    }
    let number = words.get(2)?;
    let units = units_of(number.bytes())?;
    Some((units, 3))
}

/// The place of the first `--` from a place on, or the end.
fn dashes_from(words: &[Text], from: usize) -> usize
    requires { from ≤ length words.now }
    ensures value { result ≡ from + position_or_len spec.is_dashes (drop from words.now) }
    ensures within { result ≤ length words.now }
{
    match dashes_in(&words[from..]) {
        Some(at) => from + at,
        None => words.len(),
    }
}

/// The place of the first `--`, if there is one.
fn dashes_in(words: &[Text]) -> Option<usize>
    ensures value { result ≡ position spec.is_dashes words.now }
    ensures within { IfSome result (λ at. at < length words.now) }
{
    words.iter().position(|word| is_dashes(word))
}

/// Whether a word is `--`.
fn is_dashes(word: &Text) -> bool
    ensures { result ≡ spec.is_dashes word.now }
{
    word.bytes() == b"--".as_slice()
}

/// The words behind the one at a place, which may be the end.
fn args_behind(words: &[Text], at: usize) -> Span
    requires { at ≤ length words.now }
    ensures value { words_at words.now result ≡ drop (at + 1) words.now }
    ensures within { IsWithin (length words.now) result }
{
    let to = words.len();
    if at < to {
        Span { from: at + 1, to }
    } else {
        Span { from: to, to }
    }
}

/// Whether the words are files.
fn are_files(files: &[Text]) -> bool
    ensures { result ≡ spec.are_files files.now }
{
    !files.is_empty() && files.len() <= MOST_FILES && name_files(files)
}

/// Whether each of the words names a file.
fn name_files(words: &[Text]) -> bool
    ensures { result ≡ list_all spec.is_file words.now }
{
    words.iter().all(|word| is_file(word.bytes()))
}

/// Whether the words are one that names a file.
fn is_one_file(file: &[Text]) -> bool
    ensures { result ≡ spec.is_one_file file.now }
{
    match file {
        [word] => is_file(word.bytes()),
        _ => false,
    }
}

/// Whether the words are one that may name a text to be run.
fn is_program(program: &[Text]) -> bool
    ensures { result ≡ spec.is_program program.now }
{
    match program {
        [word] => !word.bytes().starts_with(b"--"),
        _ => false,
    }
}

/// Whether the words may be arguments.
fn are_arguments(args: &[Text]) -> bool
    ensures { result ≡ spec.are_arguments args.now }
{
    args.len() <= MOST_ARGUMENTS && is_within(args, MOST_ARGUMENT_BYTES)
}

/// Whether the words have at most so many bytes together.
fn is_within(words: &[Text], most: usize) -> bool
    ensures { result ≡ nat_le (sum_by length words.now) most }
{
    let mut left = most;
    for word in words {
        let len = word.bytes().len();
        if len > left {
            return false;
        }
        left -= len;
    }
    true
}
