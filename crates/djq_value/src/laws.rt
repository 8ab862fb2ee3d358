//! What is read of a line, stated of the line alone. The functions do nothing: what they ensure
//! holds of the definitions.
ghost use Rattle.djq_value.specs.ReadValue.{ValuesReadBack, IsSpelledBack};
ghost use Rattle.djq_value.specs.Spelling.{TokensAreSpelled};

/// The tokens of a line are the ones that it spells, and no others.
pub fn tokens_are_spelled()
    ensures { TokensAreSpelled }
{}

/// A value that is printed is read back, if bytes follow it that may follow a literal.
pub fn values_are_read_back()
    ensures { ValuesReadBack }
{}

/// A value that is read is spelled so, after spaces and before bytes that may follow a literal.
pub fn values_are_spelled()
    ensures { IsSpelledBack }
{}
