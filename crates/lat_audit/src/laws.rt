//! Laws of dumps: functions that do nothing, whose clauses are the laws.

ghost use Rattle.lat_audit.specs.Theorems.{TextHasVerdict, TextHasOneVerdict};
ghost use Rattle.lat_audit.specs.Theorems.{LatticeHasOneSpelling, DumpIsGood};

/// A text has a verdict that isn't want of memory.
pub fn some_verdict()
    ensures { TextHasVerdict }
{}

/// It has one such verdict only.
pub fn one_verdict()
    ensures { TextHasOneVerdict }
{}

/// Lattices and their dumps tell each other.
pub fn one_spelling()
    ensures { LatticeHasOneSpelling }
{}

/// The dump of a lattice is judged good.
pub fn dump_is_good()
    ensures { DumpIsGood }
{}
