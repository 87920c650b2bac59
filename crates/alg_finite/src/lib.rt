//! The theory of finite fields: the number of their values, the order of Frobenius, roots of
//! irreducible polynomials, embeddings, traces and minimal polynomials. The lemmas hold over any
//! finite field; laws state them of values.
#![tactic(auto)]
