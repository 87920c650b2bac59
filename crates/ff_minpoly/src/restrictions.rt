//! Which embeddings agree with a given one on a subfield.
ghost use Rattle.std.specs.Prelude.{◌≡◌, ◌↔◌, ℕ, List, ◌+◌, ◌/◌, ◌≤◌, length, map, All};
ghost use Rattle.alg_model.specs.Polynomials.{evaluate, trim};
ghost use Rattle.alg_model.specs.Factors.{IsPolynomial, IsMonic};
ghost use Rattle.alg_model.specs.Maps.{field_values, degree_of, apply};
ghost use Rattle.ff_minpoly.specs.Extensions.{Extends};

use crate::over_in;
use arrayvec::ArrayVec;
use ff_embed::Embedding;
use ff_field::{Field, Value};
use ff_poly::MAX_POLYX;
use ff_polyx::PolyX;

/// A monic polynomial over the target of `into` whose roots there are the images of the generator
/// of the target of `sub` under the embeddings that agree with `into` on the source of `sub`.
///
/// `sub` and `into` start from one field D, and the degree is that of the target of `sub` over D.
/// Where there is no such embedding, there is no root, and the clauses don't determine it.
pub fn restricted(sub: &Embedding, into: &Embedding) -> PolyX
    requires { sub.now.source ≡ into.now.source }
    ensures polynomial { IsPolynomial (field_values into.now.target) result }
    ensures monic { IsMonic (field_values into.now.target) result }
    ensures count { length result ≡ degree_of sub.now.target / degree_of sub.now.source + 1 }
    ensures roots { (v : List ℕ) → (field_values into.now.target).Valid v
        → (evaluate (field_values into.now.target).ops result v
        ≡ (field_values into.now.target).ops.zero) ↔ Extends sub.now into.now v }
{
    restricted_in(&sub.source(), &sub.target(), &into.target(), sub, into)
}

/// The same as `restricted`, with the source and the target of `sub` and the target of `into`,
/// whose tables are then not made anew.
pub fn restricted_in(
    source: &Field,
    middle: &Field,
    target: &Field,
    sub: &Embedding,
    into: &Embedding,
) -> PolyX
    requires source { source.now ≡ sub.now.source }
    requires middle { middle.now ≡ sub.now.target }
    requires target { target.now ≡ into.now.target }
    requires same { sub.now.source ≡ into.now.source }
    ensures polynomial { IsPolynomial (field_values into.now.target) result }
    ensures monic { IsMonic (field_values into.now.target) result }
    ensures count { length result ≡ degree_of sub.now.target / degree_of sub.now.source + 1 }
    ensures roots { (v : List ℕ) → (field_values into.now.target).Valid v
        → (evaluate (field_values into.now.target).ops result v
        ≡ (field_values into.now.target).ops.zero) ↔ Extends sub.now into.now v }
{
    let (_sub, _into) = (sub.prime(), into.prime());
    let minimal = over_in(source, middle, sub, &middle.generator());
    image(target, into, minimal.coefficients())
}

// The polynomial whose coefficients are the images of these.
fn image(target: &Field, into: &Embedding, coefficients: &[Value]) -> PolyX
    requires target { target.now ≡ into.now.target }
    requires values { All (field_values into.now.source).Valid coefficients.now }
    requires room { length coefficients.now ≤ MAX_POLYX }
    ensures coefficients { result ≡ trim (field_values into.now.target).ops
        (map (apply into.now.target into.now.images) coefficients.now) }
    ensures valid { IsPolynomial (field_values into.now.target) result }
{
    let _prime = target.prime();
    let mut images = ArrayVec::<Value, MAX_POLYX>::new();
    for c in coefficients {
        images.push(into.apply(c));
    }
    PolyX::of_values(target, images.as_slice())
}
