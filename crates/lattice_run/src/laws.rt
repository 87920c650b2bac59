//! Laws of answers: functions that do nothing, whose clauses say what holds of the definitions.
ghost use Rattle.std.specs.Prelude.{◌≡◌};
ghost use Rattle.lat_audit.specs.declared.verdict_lines.TheConstants.{MAX_DUMP};
ghost use Rattle.lattice_run.specs.declared.run.TheConstants.{MAX_INPUT};
ghost use Rattle.lattice_run.specs.Theorems.{WordsAsk, WordsAskOnce, InputHasAnswer, InputHasOneAnswer, InputHasOneStatus, AnswerIsOneWithThreads, StatusNumbers};

/// The limits of a script and of a dump, and the statuses, as numbers.
pub fn limits()
    ensures limit { MAX_INPUT ≡ 1048576 }
    ensures dump { MAX_DUMP ≡ 8388608 }
    ensures statuses { StatusNumbers }
{}

/// Words ask for a task or for none, and for one only.
pub fn one_task()
    ensures exists { WordsAsk }
    ensures unique { WordsAskOnce }
{}

/// What words ask for and an input have an answer, its status and its text, whichever orders of the
/// sessions' turns are admitted for `share`; with that of the schedule alone only one, which is one
/// where any order is admitted. Whatever the operations, they have one status, the same whichever
/// orders are admitted.
pub fn one_answer()
    ensures exists { InputHasAnswer }
    ensures unique { InputHasOneAnswer }
    ensures status { InputHasOneStatus }
    ensures threads { AnswerIsOneWithThreads }
{}
