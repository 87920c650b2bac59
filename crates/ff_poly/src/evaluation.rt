//! Evaluation of polynomials.
ghost use Rattle.std.specs.Prelude.{◌≡◌, ◌<◌, All};
ghost use Rattle.alg_model.specs.Coefficients.{mod_ops};
ghost use Rattle.alg_model.specs.Polynomials.{evaluate};

use crate::{Poly, Prime};

impl Poly {
    /// The value at the residue `c`, by Horner's rule.
    pub fn eval(&self, c: u8) -> u8
        requires { c < self.now.prime }
        ensures value { result ≡ evaluate (mod_ops self.now.prime) self.now.coefficients c }
        ensures residue { result < self.now.prime }
    {
        value_of(self.prime(), self.coefficients(), c)
    }
}

// The value of the polynomial with the coefficients f at c.
fn value_of(p: Prime, f: &[u8], c: u8) -> u8
    requires residues { All (λ x. x < p) f.now }
    requires point { c < p }
    ensures value { result ≡ evaluate (mod_ops p) f.now c }
    ensures residue { result < p }
{
    let _number = p.number();
    let mut value: u16 = 0;
    let mut n = f.len();
    while n > 0 {
        n -= 1;
        value = p.reduced(f[n] as u16 + c as u16 * value);
    }
    value as u8
}
