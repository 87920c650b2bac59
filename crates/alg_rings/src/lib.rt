//! The theory of commutative rings and of polynomials over them: lemmas for the crates above, and
//! the laws that a reader of their contracts may want, as contracts of functions that do nothing.
#![tactic(auto)]

ghost use Rattle.alg_rings.specs.Theorems.{ProductsAreConvolutions, ResidueProductsAreConvolutions};
ghost use Rattle.alg_rings.specs.Theorems.{PolynomialsAreARing, ResiduesAreAField, DivisionExists};
ghost use Rattle.alg_rings.specs.Theorems.{DivisionIsUnique, DividesWithoutRemainder};
ghost use Rattle.alg_rings.specs.Theorems.{DivisionExistsOverFields, DivisionIsUniqueOverFields};
ghost use Rattle.alg_rings.specs.Theorems.{CharacteristicsArePrime, ShorterComesFirst};
ghost use Rattle.alg_rings.specs.Theorems.{HighestPlaceDecides, EqualCompareEqual};

/// The k-th coefficient of a product of polynomials is the sum of the products of their
/// coefficients at places that add up to k: over each commutative ring, and over the residues
/// modulo each number.
pub fn convolution_law<T>()
    ensures rings { ProductsAreConvolutions T }
    ensures residues { ResidueProductsAreConvolutions }
{}

/// The polynomials over the residues modulo a prime form a commutative ring.
pub fn polynomials_are_a_ring()
    ensures { PolynomialsAreARing }
{}

/// The residues modulo a prime form a field.
pub fn residues_are_a_field()
    ensures { ResiduesAreAField }
{}

/// Division with remainder of polynomials over the residues has a result for each divisor but zero,
/// and no other; the divisor divides the dividend exactly if the remainder is zero.
pub fn division_is_unique()
    ensures exists { DivisionExists }
    ensures unique { DivisionIsUnique }
    ensures divides { DividesWithoutRemainder }
{}

/// Each number of the table of characteristics is a prime number.
pub fn characteristics_are_prime()
    ensures { CharacteristicsArePrime }
{}

/// The order of polynomials over any coefficients with an order: the number of coefficients first,
/// then the highest place at which the two differ.
pub fn order_is_by_length_and_place<T>()
    ensures shorter { ShorterComesFirst T }
    ensures place { HighestPlaceDecides T }
    ensures equal { EqualCompareEqual T }
{}

/// Division with remainder of polynomials over any field whose elements a test tells.
pub fn division_over_fields<T>()
    ensures exists { DivisionExistsOverFields T }
    ensures unique { DivisionIsUniqueOverFields T }
{}
