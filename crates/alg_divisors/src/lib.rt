//! Divisors of polynomials: greatest common divisors, unique factorization and the least factor, as
//! laws on the polynomials modulo a prime p. The lemmas hold over any field.
#![tactic(auto)]

ghost use Rattle.alg_divisors.specs.Theorems.{GcdExists, GcdIsUnique, GcdIsCombination};
ghost use Rattle.alg_divisors.specs.Theorems.{FactorizationExists, FactorizationIsUnique};
ghost use Rattle.alg_divisors.specs.Theorems.{LeastFactorExists, LeastFactorIsUnique};
ghost use Rattle.alg_divisors.specs.Theorems.{LeastFactorIsIrreducible, FirstOfFactorsIsLeast};
ghost use Rattle.alg_divisors.specs.Theorems.{GcdExistsOverFields, GcdIsUniqueOverFields};
ghost use Rattle.alg_divisors.specs.Theorems.{FactorizationIsUniqueOverFields};

/// Two polynomials have a greatest common divisor, it is the only one, and it is a combination of
/// the two (Bezout).
pub fn gcd_is_unique()
    ensures exists { GcdExists }
    ensures unique { GcdIsUnique }
    ensures combination { GcdIsCombination }
{}

/// A monic polynomial is a product of monic irreducible ones, and of these only, up to their order.
pub fn factorization_is_unique()
    ensures exists { FactorizationExists }
    ensures unique { FactorizationIsUnique }
{}

/// A monic polynomial with a proper factor has a least factor. It is the only one, it is
/// irreducible, and it is the first of the factors in a factorization.
pub fn least_factor_is_unique()
    ensures exists { LeastFactorExists }
    ensures unique { LeastFactorIsUnique }
    ensures irreducible { LeastFactorIsIrreducible }
    ensures first { FirstOfFactorsIsLeast }
{}

/// The same over any field whose elements a test tells, as far as it doesn't rest on finitely many
/// elements.
pub fn divisors_over_fields<T>()
    ensures gcd_exists { GcdExistsOverFields T }
    ensures gcd_unique { GcdIsUniqueOverFields T }
    ensures factorization_unique { FactorizationIsUniqueOverFields T }
{}
