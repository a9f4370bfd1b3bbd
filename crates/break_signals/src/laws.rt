//! Theorems over the definitions alone. The functions do nothing: each theorem is a contract.
ghost use Rattle.break_signals.specs.Words.{IsReadBack, IsSpelledBack};
ghost use Rattle.break_signals.specs.Breaks.{GivesOnce};

/// A break's word is read back from its spelling.
pub fn is_read_back()
    ensures { IsReadBack }
{}

/// A word that is read has no other spelling.
pub fn is_spelled_back()
    ensures { IsSpelledBack }
{}

/// A break that is heard again is not given again.
pub fn gives_once()
    ensures { GivesOnce }
{}
