//! Galois theory of finite fields, as laws of the fields that a prime and an irreducible polynomial
//! give: their sizes, Frobenius, roots, embeddings, subfields, traces, and irreducible and minimal
//! polynomials. Each function does nothing: its contract is the law.
#![tactic(auto)]

ghost use Rattle.alg_galois.specs.Theorems.{ValuesFormField, HasItsSize, ValueIsItsPower};
ghost use Rattle.alg_galois.specs.Theorems.{FrobeniusHasOrder, FrobeniusFixesConstants, RootExists};
ghost use Rattle.alg_galois.specs.Theorems.{RootNeedsDegree, RootsAreOneOrbit, OrbitIsLong};
ghost use Rattle.alg_galois.specs.Theorems.{RootGivesEmbedding, EmbeddingIsPowers};
ghost use Rattle.alg_galois.specs.Theorems.{EmbeddingIsInjective, EmbeddingsDiffer};
ghost use Rattle.alg_galois.specs.Theorems.{PowerIsDetermined, SubfieldExists, SubfieldIsFixed};
ghost use Rattle.alg_galois.specs.Theorems.{MeetIsGcd, TraceIsConstant, TraceParts, TraceOverParts};
ghost use Rattle.alg_galois.specs.Theorems.{TraceIsTransitive, NormIsTransitive, IrreducibleExists};
ghost use Rattle.alg_galois.specs.Theorems.{LeastIsUnique, MinimalExists, MinimalIsUnique};
ghost use Rattle.alg_galois.specs.Theorems.{MinimalIsIrreducible, MinimalDivides, PowersAreRoots};
ghost use Rattle.alg_galois.specs.Theorems.{FrobeniusIsEmbedding, GeneratorOrbitIsLong};
ghost use Rattle.alg_galois.specs.Theorems.{PrimeMinimalExists, PrimeMinimalIsUnique};
ghost use Rattle.alg_galois.specs.Theorems.{PrimeMinimalIsIrreducible, PrimeMinimalDivides};

/// The values of a finite field of characteristic p and degree n form a field with p^n elements,
/// each its own power p^n.
pub fn residue_field_is_finite()
    ensures field { ValuesFormField }
    ensures size { HasItsSize }
    ensures powers { ValueIsItsPower }
{}

/// Frobenius, which sends a to a^p, and each power of it is an embedding of a field in itself. It
/// has the order n on the generator of a field of degree n, and fixes the constants alone.
pub fn frobenius_has_order_of_degree()
    ensures embedding { FrobeniusIsEmbedding }
    ensures order { FrobeniusHasOrder }
    ensures orbit { GeneratorOrbitIsLong }
    ensures fixes { FrobeniusFixesConstants }
{}

/// The polynomial of a field E of degree d has a root in a field F exactly if d divides the degree
/// of F; its roots are d different values, one orbit of Frobenius, which sends the roots of each
/// polynomial over the prime field to roots.
pub fn roots_are_one_orbit()
    ensures exists { RootExists }
    ensures degree { RootNeedsDegree }
    ensures powers { PowersAreRoots }
    ensures orbit { RootsAreOneOrbit }
    ensures different { OrbitIsLong }
{}

/// The embeddings of E in F are the powers of the roots of the polynomial of E.
pub fn embeddings_are_roots()
    ensures root { RootGivesEmbedding }
    ensures powers { EmbeddingIsPowers }
    ensures injective { EmbeddingIsInjective }
{}

/// Two embeddings of E in F differ by a power of Frobenius, which is determined modulo the degree
/// of E.
pub fn embeddings_differ_by_frobenius()
    ensures differ { EmbeddingsDiffer }
    ensures determined { PowerIsDetermined }
{}

/// A finite field has one subfield for each divisor of its degree, and subfields meet in that of
/// the greatest common divisor of their degrees.
pub fn one_subfield_for_each_divisor()
    ensures exists { SubfieldExists }
    ensures fixed { SubfieldIsFixed }
    ensures meet { MeetIsGcd }
{}

/// Trace and norm are constants; the powers of the generator below the degree part any two values
/// by their traces; over a subfield the same, and the trace of the trace over a subfield is the
/// trace.
pub fn trace_parts_values()
    ensures constants { TraceIsConstant }
    ensures parts { TraceParts }
    ensures over { TraceOverParts }
    ensures traces { TraceIsTransitive }
    ensures norms { NormIsTransitive }
{}

/// Over each prime field there is an irreducible polynomial of each degree above 0, and one alone
/// comes first.
pub fn irreducible_of_each_degree()
    ensures exists { IrreducibleExists }
    ensures unique { LeastIsUnique }
{}

/// A value has one minimal polynomial over the prime field: it is irreducible, and divides each
/// polynomial over the prime field that vanishes there.
pub fn minimal_polynomial_over_prime_field()
    ensures exists { PrimeMinimalExists }
    ensures unique { PrimeMinimalIsUnique }
    ensures irreducible { PrimeMinimalIsIrreducible }
    ensures divides { PrimeMinimalDivides }
{}

/// A value has one minimal polynomial over a subfield: it is irreducible, and divides each
/// polynomial that vanishes there.
pub fn minimal_polynomial_is_unique()
    ensures exists { MinimalExists }
    ensures unique { MinimalIsUnique }
    ensures irreducible { MinimalIsIrreducible }
    ensures divides { MinimalDivides }
{}
