//! Polynomials over a finite field that have all their roots in it, and the search for these roots
//! by traces: definitions and lemmas, and laws as contracts of functions that do nothing.
#![tactic(auto)]

ghost use Rattle.alg_splitting.specs.Theorems.{RootListExists, RootListIsUnique, FirstIsLeastRoot};
ghost use Rattle.alg_splitting.specs.Theorems.{RootListIsShort, IrreducibleHasAllRoots};
ghost use Rattle.alg_splitting.specs.Theorems.{IrreducibleHasNoRoots};

/// The roots of a polynomial in a finite field are one list, the least first, of at most as many
/// values as the degree of a polynomial that isn't zero.
pub fn roots_are_one_list()
    ensures exists { RootListExists }
    ensures determined { RootListIsUnique }
    ensures first { FirstIsLeastRoot }
    ensures few { RootListIsShort }
{}

/// A monic irreducible polynomial over the prime field has as many roots as its degree in a finite
/// field whose degree that divides, and none in another.
pub fn irreducible_has_all_or_no_roots()
    ensures all { IrreducibleHasAllRoots }
    ensures none { IrreducibleHasNoRoots }
{}
