//! What is read of a line, stated of the line alone. The functions do nothing: what they ensure
//! holds of the definitions.
ghost use Rattle.djq_parser.specs.Laws.{CommandsAreSaid, CommandsAreSpelled};

/// Tokens are read as a command if and only if they denote it.
pub fn commands_are_said()
    ensures { CommandsAreSaid }
{}

/// A line denotes a command if and only if it spells it.
pub fn commands_are_spelled()
    ensures { CommandsAreSpelled }
{}
