//! What a program must show to have found the choice for an embedding in a lattice of finite
//! fields, and to have stored all that it adds: lemmas for the crates above, and their statements
//! as contracts of functions that do nothing.
#![tactic(auto)]

ghost use Rattle.alg_choices.specs.Theorems.{CandidatesFit, CandidatesAreCommonZeros, AllSuffice};
ghost use Rattle.alg_choices.specs.Theorems.{UncoveredSuffice, PrescriptionIsExact};
ghost use Rattle.alg_choices.specs.Theorems.{RootsOfDivisorAreCommon, ChoiceIsLeastRoot};
ghost use Rattle.alg_choices.specs.Theorems.{PlainRootExists, StoredMapIsChoice};
ghost use Rattle.alg_choices.specs.Theorems.{StoredMapIsOnlyOne, DegreesTellMissing};
ghost use Rattle.alg_choices.specs.Theorems.{LinkingFills, NewPairsAreCounted};

/// The candidates are the common zeros of a few polynomials: that of the source, one for each common
/// subfield that is needed, and one for a prescribed pair.
pub fn candidates_are_common_zeros()
    ensures fit { CandidatesFit }
    ensures zeros { CandidatesAreCommonZeros }
    ensures all { AllSuffice }
    ensures uncovered { UncoveredSuffice }
    ensures prescription { PrescriptionIsExact }
    ensures divisor { RootsOfDivisorAreCommon }
{}

/// The least of these zeros is the choice, and where nothing is prescribed there is one.
pub fn choice_is_least_root()
    ensures choice { ChoiceIsLeastRoot }
    ensures plain { PlainRootExists }
{}

/// Where the pair is stored already, the stored map alone can be chosen.
pub fn stored_map_is_choice()
    ensures choice { StoredMapIsChoice }
    ensures only { StoredMapIsOnlyOne }
{}

/// The degrees of the members and their closure tell the missing degrees.
pub fn degrees_tell_missing()
    ensures missing { DegreesTellMissing }
{}

/// A program that stores one map for each two fields below the target whose degrees divide, and one
/// for each way out of them, has filled the lattice; the new pairs are what the finite map grows by.
pub fn linking_fills()
    ensures filled { LinkingFills }
    ensures counted { NewPairsAreCounted }
{}
