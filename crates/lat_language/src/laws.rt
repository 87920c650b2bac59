//! Laws of the script language: functions that do nothing, whose clauses are the laws.

ghost use Rattle.lat_language.specs.Theorems.{SpelledTexts, TakenLines, OneScript, OneFault, NeverBoth, ScriptOrFault, OneCommand, PrintableLines, CanonicalSpells, Limits, FaultKinds};

/// What a text spells, without going line by line: no line is too long; those that aren't passed
/// over are the header, a line for each command of the prologue, for each session its `session` line
/// and a line for each of its commands, and the `schedule` lines; and its names and numbers are
/// within the rules. Each text of which this holds spells the script, and no other text does.
pub fn spelled_texts()
    ensures texts { SpelledTexts }
    ensures taken { TakenLines }
{}

/// Bytes have one reading: they spell one script, or have one first fault, and never both.
pub fn one_reading()
    ensures scripts { OneScript }
    ensures faults { OneFault }
    ensures never_both { NeverBoth }
    ensures some { ScriptOrFault }
{}

/// The words of a line spell at most one command.
pub fn one_command()
    ensures commands { OneCommand }
{}

/// The canonical text of a script that some bytes spell spells that script.
pub fn canonical_reading()
    ensures spells { CanonicalSpells }
{}

/// A line that is the header, a command, a `session` line or a `schedule` line holds bytes from 32
/// to 126 only.
pub fn printable_lines()
    ensures lines { PrintableLines }
{}

/// The limits of the language and the kinds of fault, as numbers.
pub fn limits()
    ensures limits { Limits }
    ensures kinds { FaultKinds }
{}
