//! Which modules are recoverable.

ghost use Rattle.il_read.specs.Recoverable.{ValidIsRecoverable};

/// A valid module can be read back from its printed text.
pub fn law_recoverable()
    ensures { ValidIsRecoverable }
{}
