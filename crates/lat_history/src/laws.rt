//! Laws of histories: a function that does nothing, whose clause is the law.

ghost use Rattle.lat_history.specs.Theorems.{SeenLiftStays};

/// What a session was answered to a lift stays the answer, whatever is entered later.
pub fn seen_lifts_stay()
    ensures stays { SeenLiftStays }
{}
