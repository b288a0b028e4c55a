//! Laws of the definitions.

ghost use Rattle.harec_words.specs.Commands.{MeanOneCommand};

/// A list of words is at most one command.
pub fn law_one_command()
    ensures { MeanOneCommand }
{}
