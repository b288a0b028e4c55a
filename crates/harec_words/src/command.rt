//! Commands, which name words by their places.

ghost use Rattle.std.specs.Prelude.{◌≡◌, ◌↔◌, IsNone, IfSome, MatchOption, length};
ghost use Rattle.harec_words.specs.Commands.{IsCommand, IsNoCommand};
ghost use Rattle.harec_words.specs.Commands as spec;
ghost use Rattle.harec_words.specs.Spans.{meant, NamesWithin};

use crate::reading::read;
use hx_base::Text;

/// Words by their places: those from `from` on, up to and without `to`. Places count from 0.
#[derive(Clone, Copy, Debug, PartialEq, Eq)]
pub struct Span {
    pub from: usize,
    pub to: usize,
}

/// What the words behind the program's name ask for.
#[derive(Clone, Copy, Debug, PartialEq, Eq)]
pub enum Command {
    /// `check FILES`: these files are checked.
    Check(Span),
    /// `emit FILES`: the text of these files' program is written out.
    Emit(Span),
    /// `run [--units N] FILES [-- ARGS]`: the program of these files is run with at most so many units and these arguments.
    Run(u64, Span, Span),
    /// `exec [--units N] IL [-- ARGS]`: the text in the file that this one word names is run with at most so many units and these
    /// arguments.
    Exec(u64, Span, Span),
    /// `fmt FILE`: the file that this one word names is laid out.
    Fmt(Span),
}

/// The command of the words behind the program's name, and None where they are no command. Takes no memory.
///
/// FILES is 1 to 65,536 words. Each has at most 1,024 bytes and ends in `.ha`, and each directory in it is a name of the language; one `./`
/// may stand before it; FILE is one such word. IL is one word that does not begin with `--`. N is at most 20 decimal digits with a value
/// from 1 to 10^12, and 10^9 where it is left out. Everything behind the first `--` is an argument: at most 1,048,576 words, which have at
/// most 2^30 bytes together.
pub fn command_of(words: &[Text]) -> Option<Command>
    ensures found { IfSome result (λ c. IsCommand words.now (meant words.now c)) }
    ensures only { (c : spec.Command) → IsCommand words.now c → MatchOption result ⊥ (λ found. meant words.now found ≡ c) }
    ensures none { IsNone result ↔ IsNoCommand words.now }
    ensures within { IfSome result (NamesWithin (length words.now)) }
{
    read(words)
}
