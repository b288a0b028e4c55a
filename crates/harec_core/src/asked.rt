//! What the words behind the program's name ask for.

ghost use Rattle.std.specs.Prelude.{◌≡◌, IfSome, MatchOption, length};
ghost use Rattle.harec_words.specs.Commands as spec;
ghost use Rattle.harec_words.specs.Spans.{IsWithin, words_at};
ghost use Rattle.harec_core.specs.Stages.{command_of};

use harec_words::{Command, Span, command_of};
use hx_base::Text;

/// A command, with the words that it names.
#[derive(Clone, Copy)]
pub struct Task<'a> {
    /// The words that name its files.
    pub files: &'a [Text],
    pub action: Action<'a>,
}

/// What is done with the files.
#[derive(Clone, Copy)]
pub enum Action<'a> {
    /// The one file is laid out, and its layout is written out.
    Layout,
    /// The one file is the text of a module, which is run with these arguments, and at most so many units.
    Text { units: u64, args: &'a [Text] },
    /// Their program is checked, and goes on so.
    Program(Purpose<'a>),
}

/// What the program of the files is checked for.
#[derive(Clone, Copy)]
pub enum Purpose<'a> {
    /// It is checked, and that is all.
    Check,
    /// Its text is written out.
    Emit,
    /// It is run with these arguments, and at most so many units.
    Run { units: u64, args: &'a [Text] },
}

/// What the words ask for: `check FILES`, `emit FILES`, `run [--units N] FILES [-- ARGS]`, `exec [--units N] IL [-- ARGS]` or `fmt FILE`, as
/// `harec_words::command_of` reads them. None: they are no command.
pub fn asked(words: &[Text]) -> Option<Task<'_>>
    ensures found { IfSome result (λ a. spec.IsCommand words.now (command_of a)) }
    ensures only { (c : spec.Command) → spec.IsCommand words.now c → MatchOption result ⊥ (λ a. command_of a ≡ c) }
{
    match command_of(words)? {
        Command::Check(files) => Some(Task {
            files: words_in(words, files),
            action: Action::Program(Purpose::Check),
        }),
        Command::Emit(files) => Some(Task {
            files: words_in(words, files),
            action: Action::Program(Purpose::Emit),
        }),
        Command::Run(units, files, args) => Some(Task {
            files: words_in(words, files),
            action: Action::Program(Purpose::Run {
                units,
                args: words_in(words, args),
            }),
        }),
        Command::Fmt(file) => Some(Task {
            files: words_in(words, file),
            action: Action::Layout,
        }),
        Command::Exec(units, program, args) => Some(Task {
            files: words_in(words, program),
            action: Action::Text {
                units,
                args: words_in(words, args),
            },
        }),
    }
}

/// The words that a span names.
fn words_in(words: &[Text], span: Span) -> &[Text]
    requires { IsWithin (length words.now) span }
    ensures { result.now ≡ words_at words.now span }
{
    &words[span.from..span.to]
}
