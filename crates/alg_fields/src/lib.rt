//! The theory of fields: powers, roots, derivatives, the power p in characteristic p, residue
//! fields and Berlekamp's facts, as laws at the residues modulo a prime p and at the values over
//! them. The lemmas hold over any field.
#![tactic(auto)]

ghost use Rattle.alg_fields.specs.Theorems.{RootsAreFew, RootsAmongValuesAreFew};
ghost use Rattle.alg_fields.specs.Theorems.{RootIffLinearFactor, FrobeniusKeepsSums};
ghost use Rattle.alg_fields.specs.Theorems.{FrobeniusKeepsProducts, ResiduesAreFixed};
ghost use Rattle.alg_fields.specs.Theorems.{ValuesAreAField, ValuesOverValuesAreAField};
ghost use Rattle.alg_fields.specs.Theorems.{RemainderIsOfDivision, RemainderFillsPlaces};
ghost use Rattle.alg_fields.specs.Theorems.{RemainderKeepsPowers, DerivativeZeroByPlaces};
ghost use Rattle.alg_fields.specs.Theorems.{DerivativeZeroByPower, SquareFactorDividesDerivative};
ghost use Rattle.alg_fields.specs.Theorems.{FixedPolynomialSplits, CoprimeFactorsGiveFixed};
ghost use Rattle.alg_fields.specs.Theorems.{CertifiedIsIrreducible, IrreducibleIsCertified};
ghost use Rattle.alg_fields.specs.Theorems.{ProductIsRemainder, ValuesOverFieldsAreAField};
ghost use Rattle.alg_fields.specs.Theorems.{RootsOverFieldsAreFew};

/// A polynomial that isn't zero has fewer distinct roots than coefficients; a is a root exactly if
/// x - a divides it.
pub fn roots_are_few()
    ensures residues { RootsAreFew }
    ensures values { RootsAmongValuesAreFew }
    ensures factor { RootIffLinearFactor }
{}

/// Among the values over the residues modulo p the power p keeps sums and products; each residue is
/// its own power p.
pub fn frobenius_keeps_sums_and_products()
    ensures sums { FrobeniusKeepsSums }
    ensures products { FrobeniusKeepsProducts }
    ensures residues { ResiduesAreFixed }
{}

/// The values modulo a monic irreducible polynomial are a field, over the residues and over such a
/// field again.
pub fn values_are_a_field()
    ensures residues { ValuesAreAField }
    ensures values { ValuesOverValuesAreAField }
{}

/// `remainder` is the remainder of division by a monic polynomial, of as many places as its degree,
/// and keeps powers.
pub fn remainders_of_divisions()
    ensures division { RemainderIsOfDivision }
    ensures places { RemainderFillsPlaces }
    ensures powers { RemainderKeepsPowers }
    ensures products { ProductIsRemainder }
{}

/// A polynomial's derivative is zero exactly if it is one in x^p, and exactly if it is the power p
/// of a polynomial. A square factor divides the derivative.
pub fn derivative_tells_powers()
    ensures places { DerivativeZeroByPlaces }
    ensures powers { DerivativeZeroByPower }
    ensures squares { SquareFactorDividesDerivative }
{}

/// v with v^p = v modulo f is constant modulo f, or f has a proper factor in common with some v -
/// a; coprime factors of f that aren't constant give a v that isn't constant (Berlekamp 1970).
pub fn fixed_polynomials_split()
    ensures splits { FixedPolynomialSplits }
    ensures exists { CoprimeFactorsGiveFixed }
{}

/// A polynomial that isn't constant is irreducible exactly if it is certified: coprime to its
/// derivative, with only constants fixed modulo it.
pub fn certificate_is_exact()
    ensures irreducible { CertifiedIsIrreducible }
    ensures certified { IrreducibleIsCertified }
{}

/// Residue fields and the root bound over any field whose elements a test tells.
pub fn values_over_fields<T>()
    ensures field { ValuesOverFieldsAreAField T }
    ensures roots { RootsOverFieldsAreFew T }
{}
