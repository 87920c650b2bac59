//! Laws of requests: functions that do nothing, whose clauses are the laws.

ghost use Rattle.lat_core.specs.Theorems.{RequestHasReply, RequestHasOneReply};
ghost use Rattle.lat_core.specs.Theorems.{RequestKeepsCompatible, RefusalChangesNothing};
ghost use Rattle.lat_core.specs.Theorems.{PlainEmbeddingIsFound, HistoryHasOneLattice};
ghost use Rattle.lat_core.specs.Theorems.{HistoryKeepsCompatible};

/// Each request to a compatible lattice has one reply, and leaves one lattice.
pub fn requests_have_one_reply()
    ensures exists { RequestHasReply }
    ensures determined { RequestHasOneReply }
{}

/// What a request leaves is compatible and has grown; a refusal leaves the lattice as it was.
pub fn requests_keep_compatible()
    ensures compatible { RequestKeepsCompatible }
    ensures refused { RefusalChangesNothing }
{}

/// An embedding for which nothing is prescribed is never refused for want of a candidate.
pub fn plain_embeddings_are_found()
    ensures found { PlainEmbeddingIsFound }
{}

/// A history leads to one lattice, which is compatible.
pub fn histories_lead_to_one_lattice()
    ensures determined { HistoryHasOneLattice }
    ensures compatible { HistoryKeepsCompatible }
{}
