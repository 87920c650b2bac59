//! Greatest common divisors.
ghost use Rattle.std.specs.Prelude.{ℕ};
ghost use Rattle.std.specs.Int.{IsGcd};

/// The greatest common divisor, by Euclid's algorithm; that of 0 and `b` is `b`.
pub(crate) fn gcd(a: usize, b: usize) -> usize
    ensures { IsGcd a b result }
{
    if b == 0 {
        return a;
    }
    gcd(b, a % b)
}
