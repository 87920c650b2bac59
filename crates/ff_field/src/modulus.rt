//! The polynomial of a field, with what takes the place of divisions by it.
ghost use Rattle.std.specs.Prelude.{◌≡◌, ℕ, ◌+◌, ◌-◌, ◌*◌, ◌%◌, ◌<◌, ◌≤◌, All, length, slice_index};
ghost use Rattle.alg_model.specs.Coefficients.{mod_ops, residues};
ghost use Rattle.alg_model.specs.Factors.{IsMonic, IsIrreducible};
ghost use Rattle.alg_model.specs.Values.{remainder};
ghost use Rattle.alg_model.specs.Maps.{field_values, generator, degree_of};
ghost use Rattle.ff_field.specs.SmallFields.{IsSmallField};
ghost use Rattle.ff_field.specs.PrivateTables.{IsRowTable};
ghost use Rattle.ff_residues.specs.SumRows.{residue_at, shifted_sum};

use crate::Value;
use crate::tables::{SPAN, power_rows, zeros};
use ff_poly::{MAX_DEGREE, Poly, Prime};
use ff_residues::Sums;
use std::marker::Model;

// The polynomial of a field, and the remainders by it of the powers of x from its degree on.
#[derive(Drop)]
pub(crate) struct Modulus {
    polynomial: Poly,
    rows: [[u8; MAX_DEGREE]; MAX_DEGREE],
}

impl Model for Modulus {
    ghost use Rattle.alg_model.specs.Maps as maps;
    ghost use Rattle.ff_field.specs.PrivateTables.{IsModulus};

    ghost Value = { maps.Field };

    ghost view = { λ a. record {
      characteristic = a.polynomial.prime;
      polynomial = a.polynomial.coefficients;
    } };

    ghost invariant = { λ a. IsModulus (record {
      characteristic = a.polynomial.prime;
      polynomial = a.polynomial.coefficients;
    }) a.rows };
}

impl Modulus {
    // The polynomial f, which is monic, irreducible and of degree 1 to `MAX_DEGREE`.
    pub(crate) fn new(f: Poly) -> Modulus
        requires monic { IsMonic (residues f.prime) f.coefficients }
        requires irreducible { IsIrreducible (residues f.prime) f.coefficients }
        requires degree { length f.coefficients ≤ MAX_DEGREE + 1 }
        ensures characteristic { result.characteristic ≡ f.prime }
        ensures polynomial { result.polynomial ≡ f.coefficients }
        ensures whole { IsSmallField result }
    {
        let p = f.prime();
        let rows = power_rows(p, f.coefficients());
        Modulus {
            polynomial: f,
            rows,
        }
    }

    // The characteristic.
    pub(crate) fn prime(&self) -> Prime
        ensures value { result ≡ self.now.characteristic }
        ensures whole { IsSmallField self.now }
    {
        self.polynomial.prime()
    }

    // The polynomial.
    pub(crate) fn poly(&self) -> &Poly
        ensures prime { result.now.prime ≡ self.now.characteristic }
        ensures coefficients { result.now.coefficients ≡ self.now.polynomial }
        ensures whole { IsSmallField self.now }
    {
        &self.polynomial
    }

    // The degree.
    pub(crate) fn degree(&self) -> u32
        ensures value { result ≡ degree_of self.now }
        ensures positive { 0 < result }
        ensures whole { IsSmallField self.now }
    {
        (self.polynomial.coefficients().len() - 1) as u32
    }

    // The kept rows.
    pub(crate) fn rows(&self) -> &[[u8; MAX_DEGREE]; MAX_DEGREE]
        ensures { IsRowTable self.now.characteristic self.now.polynomial result.now }
    {
        &self.rows
    }

    // An equal one.
    pub(crate) fn copy(&self) -> Modulus
        ensures same { result ≡ self.now }
        ensures whole { IsSmallField self.now }
    {
        Modulus {
            polynomial: self.polynomial.copy(),
            rows: self.rows,
        }
    }

    // One.
    pub(crate) fn one(&self) -> Value
        ensures value { result ≡ (field_values self.now).ops.one }
        ensures valid { (field_values self.now).Valid result }
    {
        let _number = self.prime().number();
        Value::padded(&[1], self.degree() as usize)
    }

    // The generator: the class of x.
    pub(crate) fn generator(&self) -> Value
        ensures value { result ≡ generator self.now }
        ensures valid { (field_values self.now).Valid result }
    {
        self.reduced(&Poly::trimmed(self.prime(), &[0, 1]))
    }

    // The value of a polynomial: its remainder by that of the field.
    pub(crate) fn reduced(&self, g: &Poly) -> Value
        requires { g.now.prime ≡ self.now.characteristic }
        ensures value { result ≡ remainder (mod_ops self.now.characteristic) self.now.polynomial
            g.now.coefficients }
        ensures valid { (field_values self.now).Valid result }
    {
        let (_, rest) = g.divrem(self.poly());
        Value::padded(rest.coefficients(), self.degree() as usize)
    }

    // The product of values, in the width that serves.
    pub(crate) fn mul(&self, a: &Value, b: &Value) -> Value
        requires first { (field_values self.now).Valid a.now }
        requires second { (field_values self.now).Valid b.now }
        ensures value { result ≡ (field_values self.now).ops.mul a.now b.now }
        ensures valid { (field_values self.now).Valid result }
    {
        let n = self.degree();
        if n <= 8 {
            self.product::<8>(a, b)
        } else if n <= 16 {
            self.product::<16>(a, b)
        } else if n <= 24 {
            self.product::<24>(a, b)
        } else if n <= 32 {
            self.product::<32>(a, b)
        } else if n <= 40 {
            self.product::<40>(a, b)
        } else {
            self.product::<48>(a, b)
        }
    }

    // The product of values of at most W digits.
    fn product<const W: usize>(&self, a: &Value, b: &Value) -> Value
        requires width { W ≤ MAX_DEGREE }
        requires fits { degree_of self.now ≤ W }
        requires first { (field_values self.now).Valid a.now }
        requires second { (field_values self.now).Valid b.now }
        ensures value { result ≡ (field_values self.now).ops.mul a.now b.now }
        ensures valid { (field_values self.now).Valid result }
    {
        let n = self.degree() as usize;
        let row = self.product_row::<W>(a.digits(), b.digits());
        Value::padded(&row[..n], n)
    }

    // The places of the product: those of the product of polynomials below n, and the multiples
    // of kept rows by those from n on.
    #[inline(always)]
    fn product_row<const W: usize>(&self, a: &[u8], b: &[u8]) -> [u8; W]
        requires width { W ≤ MAX_DEGREE }
        requires fits { degree_of self.now ≤ W }
        requires first { (field_values self.now).Valid a.now }
        requires second { (field_values self.now).Valid b.now }
        ensures len { length result ≡ W }
        ensures places { (k : ℕ) → k < degree_of self.now
            → slice_index result k ≡ slice_index ((field_values self.now).ops.mul a.now b.now) k }
    {
        let (p, n) = (self.prime(), self.degree() as usize);
        let _number = p.number();
        let list = between_zeros::<W>(b);
        let high = shifted_row::<W>(p, a, &list, W + n).row();
        let mut low = shifted_row::<W>(p, a, &list, W);
        low.add_rows(&high[..n - 1], self.rows());
        low.row()
    }
}

// The digits, with W zeros before them and zeros after them.
#[inline(always)]
fn between_zeros<const W: usize>(digits: &[u8]) -> [u8; SPAN]
    requires width { W ≤ MAX_DEGREE }
    requires fits { length digits.now ≤ W }
    ensures len { length result ≡ SPAN }
    ensures before { (k : ℕ) → k < W → slice_index result k ≡ 0 }
    ensures digits { (k : ℕ) → slice_index result (W + k) ≡ slice_index digits.now k }
    ensures residues { (p : ℕ) → 0 < p → All (λ x. x < p) digits.now → All (λ x. x < p) result }
{
    let mut list = zeros::<SPAN>();
    for k in 0..digits.len() {
        list[W + k] = digits[k];
    }
    list
}

// W places of a product, from that one on whose first window starts here.
#[inline(always)]
fn shifted_row<const W: usize>(p: Prime, a: &[u8], list: &[u8; SPAN], start: usize) -> Sums<W>
    requires width { W ≤ MAX_DEGREE }
    requires factors { All (λ x. x < p) a.now }
    requires before { length a.now ≤ start + 1 }
    requires within { start + W ≤ SPAN }
    requires residues { All (λ x. x < p) list.now }
    ensures prime { result.prime ≡ p }
    ensures sums { (k : ℕ) → k < W → residue_at result k
        ≡ shifted_sum (length a.now) a.now list.now (start + k) % p }
{
    let mut sums = Sums::<W>::zeros(p);
    sums.add_shifted(a, list, start);
    sums
}
