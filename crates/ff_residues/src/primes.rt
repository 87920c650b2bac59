//! The characteristics, and arithmetic modulo one of them.
ghost use Rattle.std.specs.Prelude.{◌≡◌, ◌≢◌, ◌+◌, ◌-◌, ◌*◌, ◌<◌, ◌≤◌, ◌%◌, ◌^◌, SomeIff};
ghost use Rattle.alg_model.specs.Coefficients.{primes, IsCharacteristic, mod_ops};
ghost use Rattle.ff_residues.specs.PrivatePrimes.{shift_of};

use crate::PRIMES;
use std::marker::Model;

/// The characteristics, in their order.
pub const CHARACTERISTICS: [u32; PRIMES] = [
    2, 3, 5, 7, 11, 13, 17, 19, 23, 29, 31, 37, 41, 43, 47, 53, 59, 61,
];

/// The table holds the characteristics of the definitions, in the same order.
pub fn characteristics_in_order()
    ensures { CHARACTERISTICS ≡ primes }
{}

/// One of the characteristics: a prime number below 64.
///
/// With the number `p` stands what takes the place of a division by it (Granlund and Montgomery
/// 1994): for `2^s < p <= 2^(s + 1)` and `m = 2^(16 + s) / p + 1` the quotient of each `x` below
/// `2^15` is `x * m / 2^(16 + s)`, since `m * p` is above `2^(16 + s)` by at most `p`, and `x`
/// times that is below `2^(16 + s)`.
#[derive(Clone, Copy, PartialEq, Eq)]
pub struct Prime {
    number: u16,
    reciprocal: u16,
    shift: u16,
    run: u16,
}

impl Model for Prime {
    ghost use Rattle.std.specs.Prelude.{ℕ};
    ghost use Rattle.ff_residues.specs.PrivatePrimes.{IsKept, reciprocal_of, shift_of, run_of};
    ghost use Rattle.std.proofs.Common.{sym};

    ghost Value = { ℕ };

    ghost view = { λ a. a.number };

    ghost invariant = { λ a. IsKept a.number a.reciprocal a.shift a.run };

    ghost inverse = { λ n. record
        { number = n; reciprocal = reciprocal_of n; shift = shift_of n; run = run_of n } };

    ghost inverse_ok = { λ a h i. record {
      number = a.number;
      reciprocal = sym h.reciprocal_is i;
      shift = sym h.shift_is i;
      run = sym h.run_is i;
    } };
}

impl Default for Prime {
    /// The first characteristic, 2.
    fn default() -> Prime
        ensures { result ≡ 2 }
    {
        Prime::kept(2)
    }
}

impl Prime {
    /// The characteristic `n`, or `None` where `n` is none of the characteristics.
    pub fn of(n: u32) -> Option<Prime>
        ensures { SomeIff result (IsCharacteristic n) n }
    {
        if CHARACTERISTICS.contains(&n) {
            Some(Prime::kept(n as u16))
        } else {
            None
        }
    }

    // This characteristic, with what is kept beside it.
    fn kept(number: u16) -> Prime
        requires { IsCharacteristic number }
        ensures { result ≡ number }
    {
        let shift = shift_of(number);
        Prime {
            number,
            reciprocal: ((65536 << shift) / number as u32 + 1) as u16,
            shift,
            run: (32768 - number) / ((number - 1) * (number - 1)),
        }
    }

    /// The prime as a number.
    pub fn number(self) -> u8
        ensures value { result ≡ self }
        ensures whole { IsCharacteristic self }
        ensures small { (1 < result) × (result < 64) }
    {
        self.number as u8
    }

    /// The remainder of a number below 2^15, with no division.
    #[inline(always)]
    pub fn reduced(self, x: u16) -> u16
        requires { x < 2 ^ 15 }
        ensures value { result ≡ x % self }
        ensures residue { result < self }
    {
        let high = (x as u32 * self.reciprocal as u32 >> 16) as u16;
        x - (high >> self.shift) * self.number
    }

    // How many products of residues, and one residue more, are together below 2^15.
    #[inline(always)]
    pub(crate) fn run(self) -> u16
        ensures some { 0 < result }
        ensures fits { self + result * ((self - 1) * (self - 1)) ≤ 32768 }
        ensures whole { IsCharacteristic self }
    {
        self.run
    }

    /// The sum `a + b` of two residues.
    pub fn add(self, a: u8, b: u8) -> u8
        requires first { a < self }
        requires second { b < self }
        ensures sum { result ≡ (mod_ops self).add a b }
        ensures residue { result < self }
    {
        self.reduced(a as u16 + b as u16) as u8
    }

    /// The difference `a - b` of two residues.
    pub fn sub(self, a: u8, b: u8) -> u8
        requires first { a < self }
        requires second { b < self }
        ensures difference { result ≡ (mod_ops self).add a ((mod_ops self).neg b) }
        ensures residue { result < self }
    {
        self.reduced(a as u16 + (self.number() - b) as u16) as u8
    }

    /// The product `a * b` of two residues.
    pub fn mul(self, a: u8, b: u8) -> u8
        requires first { a < self }
        requires second { b < self }
        ensures product { result ≡ (mod_ops self).mul a b }
        ensures residue { result < self }
    {
        self.reduced(a as u16 * b as u16) as u8
    }

    /// The negative `-a` of a residue.
    pub fn neg(self, a: u8) -> u8
        requires { a < self }
        ensures negative { result ≡ (mod_ops self).neg a }
        ensures residue { result < self }
    {
        self.reduced((self.number() - a) as u16) as u8
    }

    /// The inverse of a residue that isn't 0.
    ///
    /// With `p = q * x + r`, where `1 < x < p`, the residue `-q` takes `x` to the smaller `r`,
    /// which isn't 0 as `p` is prime. So some product of such factors takes `a` to 1.
    pub fn inv(self, a: u8) -> u8
        requires residue { a < self }
        requires not_zero { a ≢ 0 }
        ensures inverse { (mod_ops self).mul a result ≡ 1 }
        ensures residue { result < self }
    {
        let p = self.number();
        let mut rest = a;
        let mut inverse = 1;
        while rest > 1 {
            inverse = self.mul(inverse, p - p / rest);
            rest = p % rest;
        }
        inverse
    }
}

// The s with 2^s < p <= 2^(s + 1).
fn shift_of(p: u16) -> u16
    ensures { result ≡ shift_of p }
{
    if p <= 2 {
        0
    } else if p <= 4 {
        1
    } else if p <= 8 {
        2
    } else if p <= 16 {
        3
    } else if p <= 32 {
        4
    } else {
        5
    }
}
