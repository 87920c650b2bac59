//! Lattices of finite fields: the theory of compatible lattices for the fields and maps of the
//! model, and the laws that a reader of their contracts may want, as contracts of functions that do
//! nothing.
#![tactic(auto)]

ghost use Rattle.alg_compatible.specs.Theorems.{OpeningIsCompatible, DeclaringKeepsCompatible};
ghost use Rattle.alg_compatible.specs.Theorems.{DeclaringKeepsRows, FillingKeepsCompatible};
ghost use Rattle.alg_compatible.specs.Theorems.{FillingKeepsRows, FillingIsByRules};
ghost use Rattle.alg_compatible.specs.Theorems.{PlainEmbeddingExists, ChoiceExists, ChoiceIsUnique};
ghost use Rattle.alg_compatible.specs.Theorems.{MissingDegreesExist, MissingDegreesAreUnique};
ghost use Rattle.alg_compatible.specs.Theorems.{AddedFieldsAreForced, AddedMapsAreForced};
ghost use Rattle.alg_compatible.specs.Theorems.{StoredPairChangesNothing, OpeningIsDetermined};
ghost use Rattle.alg_compatible.specs.Theorems.{DeclaringIsDetermined, FillingIsDetermined};
ghost use Rattle.alg_compatible.specs.Theorems.{FillingExists, OpeningExists, DeclaringExists};
ghost use Rattle.alg_compatible.specs.Theorems.{EditionsAreEditions};

/// The two editions are editions: their characteristics are different primes, and there is room for
/// their prime fields.
pub fn editions_are_editions()
    ensures both { EditionsAreEditions }
{}

/// The prime fields of an edition with their identities are a compatible lattice with rows of the
/// edition, the one opening lattice of it.
pub fn opening_is_compatible()
    ensures compatible { OpeningIsCompatible }
    ensures exists { OpeningExists }
    ensures determined { OpeningIsDetermined }
{}

/// Declaring a field leaves a compatible lattice compatible.
pub fn declaring_keeps_compatible()
    ensures compatible { DeclaringKeepsCompatible }
    ensures rows { DeclaringKeepsRows }
    ensures exists { DeclaringExists }
    ensures determined { DeclaringIsDetermined }
{}

/// Filling a compatible lattice by a candidate leaves it compatible, and stores what the rules for
/// members, for maps out of them and for all else say.
pub fn filling_keeps_compatible()
    ensures compatible { FillingKeepsCompatible }
    ensures rows { FillingKeepsRows }
    ensures maps { FillingIsByRules }
    ensures exists { FillingExists }
    ensures determined { FillingIsDetermined }
{}

/// The extension theorem: where one field of a compatible lattice has an embedding into another at
/// all, it has one that agrees with all common subfields; among all that do, one is the first.
pub fn plain_embedding_exists()
    ensures candidate { PlainEmbeddingExists }
    ensures choice { ChoiceExists }
    ensures unique { ChoiceIsUnique }
{}

/// The degrees that a lattice lacks below two fields: there is one list of them, whether or not the
/// fields have a candidate.
pub fn missing_degrees_are_determined()
    ensures exists { MissingDegreesExist }
    ensures unique { MissingDegreesAreUnique }
{}

/// What an insertion adds is forced: no compatible lattice with the new map does with less.
pub fn additions_are_forced()
    ensures fields { AddedFieldsAreForced }
    ensures maps { AddedMapsAreForced }
{}

/// Where the pair is stored already, filling changes nothing.
pub fn stored_pair_changes_nothing()
    ensures nothing { StoredPairChangesNothing }
{}
