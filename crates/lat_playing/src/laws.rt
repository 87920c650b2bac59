//! Laws of scripts: functions that do nothing, whose clauses are the laws.

ghost use Rattle.lat_playing.specs.Theorems.{ScriptHasOneWorld, ScriptHasOneSolo};
ghost use Rattle.lat_playing.specs.Theorems.{ScriptHasOneTranscript};
ghost use Rattle.lat_playing.specs.Theorems.{ScriptHasWorld, ScriptHasTranscript};
ghost use Rattle.lat_playing.specs.Theorems.{SoloIsFinished, SoloIsWorld, SoloIsFair};
ghost use Rattle.lat_playing.specs.Theorems.{HistoryHoldsChanges, HistoryIsLegal};
ghost use Rattle.lat_playing.specs.Theorems.{LinesAnswerCommands, AnsweredSessionsAreWorld};
ghost use Rattle.lat_playing.specs.Theorems.{FairIsByPlaces, PlacesAreFair, OrderIsByMarks};

/// A playable script has at most one world after the same events, and at most one transcript,
/// where the operations give values of the fields of their operands.
pub fn scripts_have_one_transcript()
    ensures world { ScriptHasOneWorld }
    ensures solo { ScriptHasOneSolo }
    ensures transcript { ScriptHasOneTranscript }
{}

/// It has a world after any events, and a transcript.
pub fn scripts_have_transcripts()
    ensures world { ScriptHasWorld }
    ensures transcript { ScriptHasTranscript }
{}

/// Played by its schedule, a script has no command left, and a line for each.
pub fn scripts_are_finished()
    ensures finished { SoloIsFinished }
{}

/// Its world is one after events, which begin with those of the schedule; so its transcript is one
/// of its sessions in some order.
pub fn schedules_are_events()
    ensures events { SoloIsWorld }
    ensures fair { SoloIsFair }
{}

/// The history of a script's world holds the changes of each session once, in their order, and
/// each is answered as the lattice at its place asks.
pub fn histories_hold_changes()
    ensures held { HistoryHoldsChanges }
    ensures legal { HistoryIsLegal }
{}

/// Played by its schedule, each session of a script has for each of its commands the line that
/// answers it over the one history: a change at its place, all else over what was seen.
pub fn lines_answer_commands()
    ensures answered { LinesAnswerCommands }
{}

/// Sessions whose lines answer their commands over one legal history, which begins with that of the
/// prologue, and whose changes are its entries, are those of the world after some events: whatever
/// the order was, it is one of these.
pub fn answered_sessions_are_worlds()
    ensures world { AnsweredSessionsAreWorld }
{}

/// The transcripts of sessions in some order are those that are read off their places: after the
/// prologue the sessions take turns, each up to and with its next entry, in the order of the
/// entries; then each plays what is left to it. That order is read off the marks of the changes.
pub fn fair_transcripts_are_by_places()
    ensures by_places { FairIsByPlaces }
    ensures fair { PlacesAreFair }
    ensures order { OrderIsByMarks }
{}
