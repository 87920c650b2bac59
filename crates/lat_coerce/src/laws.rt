//! Laws of questions and answers: functions that do nothing, whose clauses are the laws.
ghost use Rattle.lat_coerce.specs.Theorems.{QuestionHasAnswer, QuestionHasOneAnswer};
ghost use Rattle.lat_coerce.specs.Theorems.{LiftGivesValue, LiftLeadsBack, AnsweredLiftStays};

/// Each question that fits a compatible lattice has one answer.
pub fn questions_have_one_answer()
    ensures exists { QuestionHasAnswer }
    ensures determined { QuestionHasOneAnswer }
{}

/// A lift gives a value of the field that it was asked for, and lifted back it is the same again.
pub fn lifts_lead_back()
    ensures value { LiftGivesValue }
    ensures back { LiftLeadsBack }
{}

/// What a lift is answered, but for the want of both maps, it is answered in each compatible
/// lattice that grows from this one.
pub fn answered_lifts_stay()
    ensures stays { AnsweredLiftStays }
{}
