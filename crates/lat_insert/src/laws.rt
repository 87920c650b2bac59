//! Laws of steps: functions that do nothing, whose clauses are the laws.

ghost use Rattle.lat_insert.specs.Theorems.{DeclarableIsDeclared, OnlyDeclarableIsDeclared};
ghost use Rattle.lat_insert.specs.Theorems.{DeclaredFieldIsNew, DeclarableHasDigits};
ghost use Rattle.lat_insert.specs.Theorems.{EmbeddableIsEmbedded, EmbeddableHasReply};
ghost use Rattle.lat_insert.specs.Theorems.{OnlyEmbeddableIsEmbedded, EmbeddingIsStored};
ghost use Rattle.lat_insert.specs.Theorems.{MadeFieldsAreForced, LinkedMapsAreForced};
ghost use Rattle.lat_insert.specs.Wording.{FillingIsAsWorded, InsertionIsAsWorded};
ghost use Rattle.lat_insert.specs.Wording.{RuledPairsAreStored, StoredMapsAreAsWorded};
ghost use Rattle.lat_insert.specs.Wording.{AdditionsAreCounted};

/// Each monic irreducible polynomial within the limits is declared under each free declared name
/// where there is room, and nothing else is.
pub fn irreducible_polynomials_are_declared()
    ensures declared { DeclarableIsDeclared }
    ensures only { OnlyDeclarableIsDeclared }
    ensures new_field { DeclaredFieldIsNew }
    ensures digits { DeclarableHasDigits }
{}

/// Where nothing is prescribed, a field is embedded in each one of its characteristic whose degree
/// its own divides, if there is room for the missing degrees, and in no other. The lattice afterwards
/// has the map that is answered.
pub fn plain_embeddings_are_embedded()
    ensures embedded { EmbeddableIsEmbedded }
    ensures exists { EmbeddableHasReply }
    ensures only { OnlyEmbeddableIsEmbedded }
    ensures stored { EmbeddingIsStored }
{}

/// What an insertion adds is forced: each compatible lattice that has grown and stores the new map
/// has fields of the added degrees; and where it has the rows after the step, and the added fields'
/// maps into the target, it has all maps after the step.
pub fn insertions_are_forced()
    ensures fields { MadeFieldsAreForced }
    ensures maps { LinkedMapsAreForced }
{}

/// What an insertion adds is what the rule of filling says as it is told: of two members whose
/// degrees divide, the one map that agrees with their maps into the target; out of a member, the
/// map through the least member that leads on; all else is as before.
pub fn insertions_are_as_worded()
    ensures filling { FillingIsAsWorded }
    ensures insertion { InsertionIsAsWorded }
    ensures pairs { RuledPairsAreStored }
    ensures kept { StoredMapsAreAsWorded }
    ensures counted { AdditionsAreCounted }
{}
