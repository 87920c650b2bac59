//! Images of polynomials.
ghost use Rattle.std.specs.Prelude.{◌≡◌, ℕ, List, ◌++◌, All};
ghost use Rattle.std.specs.Fn.{FnReturnsAt};
ghost use Rattle.alg_model.specs.Polynomials.{trim};
ghost use Rattle.alg_model.specs.Factors.{IsPolynomial};
ghost use Rattle.alg_model.specs.Maps.{field_values};
ghost use Rattle.ff_polyx.specs.Images.{TakesAt, AreImages};

use crate::PolyX;
use arrayvec::ArrayVec;
use ff_field::{Field, Value};
use ff_poly::MAX_POLYX;

impl PolyX {
    /// The polynomial over `into` whose coefficients are what `m` answers at those of `a`; zeros at
    /// the end are dropped.
    pub fn map_by<M: Fn(&Value) -> Value>(into: &Field, a: &PolyX, m: M) -> PolyX
        requires callable { All (TakesAt M.Fn m) a.now }
        requires values { All (λ x. (y : List ℕ) → FnReturnsAt M.Fn m x y
            → (field_values into.now).Valid y) a.now }
        ensures images { (ys : List (List ℕ)) × AreImages M.Fn m a.now ys
            × (result ≡ trim (field_values into.now).ops ys) }
        ensures valid { IsPolynomial (field_values into.now) result }
    {
        let _prime = into.prime();
        let mut images: ArrayVec<Value, MAX_POLYX> = ArrayVec::new();
        for x in a.coefficients() {
            images.push(m(x));
        }
        PolyX::of_values(into, images.as_slice())
    }
}
