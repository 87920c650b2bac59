//! Definitions of the algebra that contracts cite: coefficients, polynomials, their factors, and
//! the values of a field.
#![tactic(auto)]
