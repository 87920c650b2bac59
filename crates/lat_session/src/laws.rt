//! Laws of commands and their outcomes: functions that do nothing, whose clauses are the laws.

ghost use Rattle.lat_session.specs.Theorems.{CommandHasOutcome, CommandHasOneOutcome};
ghost use Rattle.lat_session.specs.Theorems.{OutcomeKeepsVariables};

/// A command that asks for no change has one outcome over a compatible lattice and variables that
/// fit it, and leaves one set of variables.
pub fn commands_have_one_outcome()
    ensures exists { CommandHasOutcome }
    ensures determined { CommandHasOneOutcome }
{}

/// The variables after an outcome fit the lattice again, where the operations give values of the
/// fields of their operands.
pub fn outcomes_keep_variables()
    ensures fit { OutcomeKeepsVariables }
{}
