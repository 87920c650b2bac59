//! The rules of compatible lattices, each with the first fields at which it is broken.

ghost use Rattle.std.specs.Prelude.{◌≡◌, ℕ, ◌<◌, List, length, slice_index, IsTrue, ◌↔◌, Contains, None, MatchOption, MatchResult};
ghost use Rattle.std.specs.FinMap.{get};
ghost use Rattle.std.specs.Int.{IsGcd};
ghost use Rattle.std.specs.Bool.{MatchBool};
ghost use Rattle.std.specs.Ordering.{nat_cmp};
ghost use Rattle.alg_model.specs.Maps.{degree_of, comp, identity_map};
ghost use Rattle.alg_model.specs.Lattices.{field_at, pair_cmp, Stored};
ghost use Rattle.lat_core.specs.SharedRows.{IsBetween};
ghost use Rattle.lat_audit.specs.Verdicts.{IsFirst, triple_cmp, LacksIdentity, IsPrimeField, LacksPrimeSubfield, HasInverse, LacksInverse, LacksComposition, LacksIntersection};
ghost use Rattle.lat_audit.specs.PrivateRules.{HasIdentity, HasPrimeSubfield, IsOfEdition, KeepsInverse, KeepsComposition, BreaksInverse, BreaksComposition, IsCommonSubfield, HaveOverfield, AreComposed, KeepsIntersection, BreaksIntersection, HoldsMaps, KeepsRules, RuleFault};

use crate::compositions::are_composed;
use crate::faults::Fault;
use crate::tables::Table;
use ff_embed::StoredEmbedding;
use ff_field::Field;
use lat_core::Edition;

// Whether an embedding of a field in itself is the identity: its generator's image says so.
fn is_identity(map: &StoredEmbedding, field: &Field) -> bool
    requires source { map.now.source ≡ field.now }
    requires target { map.now.target ≡ field.now }
    ensures { IsTrue result ↔ (map.now.images ≡ identity_map field.now) }
{
    let _degrees = (map.source_degree(), field.degree());
    map.image().digits() == field.generator().digits()
}

// Whether a map is the first one and then the second one: its generator's image says so.
fn is_composition(map: &StoredEmbedding, first: &StoredEmbedding, second: &StoredEmbedding) -> bool
    requires begins { first.now.source ≡ map.now.source }
    requires meets { second.now.source ≡ first.now.target }
    requires ends { second.now.target ≡ map.now.target }
    ensures { IsTrue result
        ↔ (map.now.images ≡ comp second.now.target first.now.images second.now.images) }
{
    let _degrees = (
        map.source_degree(),
        first.source_degree(),
        second.source_degree(),
    );
    map.image().digits() == second.apply(&first.image()).digits()
}

// Whether the identity of a field is stored.
fn has_identity(table: &Table, i: u32) -> bool
    requires { i < length table.now.rows }
    ensures { IsTrue result ↔ Stored table.now i i (identity_map (field_at table.now.rows i)) }
{
    match table.map(i, i) {
        None => false,
        Some(map) => is_identity(map, table.field(i)),
    }
}

// The first field whose identity isn't stored.
fn without_identity(table: &Table) -> Option<u32>
    ensures { let L = table.now in MatchOption result
        ((i : ℕ) → i < length L.rows → Stored L i i (identity_map (field_at L.rows i)))
        (IsFirst nat_cmp (LacksIdentity L)) }
{
    for i in 0..table.count() {
        if !has_identity(table, i) {
            return Some(i);
        }
    }
    None
}

// The place of a number in a list; None exactly where it isn't there.
fn place_of(numbers: &[u32], number: u32) -> Option<usize>
    ensures { MatchOption result (¬ Contains numbers.now number)
        (λ k. (k < length numbers.now) × (slice_index numbers.now k ≡ number)) }
{
    numbers.iter().position(|n| *n == number)
}

// Whether there is a map from one field to another.
pub(crate) fn has_map(table: &Table, i: u32, j: u32) -> bool
    requires first { i < length table.now.rows }
    requires second { j < length table.now.rows }
    ensures { MatchBool result ((m : List (List ℕ)) × Stored table.now i j m)
        (get table.now.maps (i, j) ≡ None) }
{
    table.map(i, j).is_some()
}

// The number of the prime field of a field.
fn prime_field(table: &Table, j: u32) -> u32
    requires within { j < length table.now.rows }
    requires edition { IsOfEdition table.now }
    ensures { IsPrimeField table.now result j }
{
    let p = u32::from(table.field(j).prime().number());
    match place_of(Edition::One.characteristics(), p) {
        None => unreachable!(),
        Some(place) => place as u32,
    }
}

// The first field into which its prime field has no map, behind the number of that.
fn without_prime_subfield(table: &Table) -> Option<(u32, u32)>
    requires { IsOfEdition table.now }
    ensures { let L = table.now in MatchOption result
        ((j : ℕ) → j < length L.rows → HasPrimeSubfield L j)
        (λ p. IsFirst nat_cmp (LacksPrimeSubfield L) p.1 × IsPrimeField L p.0 p.1) }
{
    for j in 0..table.count() {
        let q = prime_field(table, j);
        if !has_map(table, q, j) {
            return Some((q, j));
        }
    }
    None
}

// Whether the second map takes back what the first one, from this field, does.
fn undoes(field: &Field, first: &StoredEmbedding, second: &StoredEmbedding) -> bool
    requires begins { first.now.source ≡ field.now }
    requires meets { second.now.source ≡ first.now.target }
    requires ends { second.now.target ≡ field.now }
    ensures { IsTrue result
        ↔ (comp field.now first.now.images second.now.images ≡ identity_map field.now) }
{
    let _degrees = (first.source_degree(), second.source_degree());
    second.apply(&first.image()).digits() == field.generator().digits()
}

// Whether the map, from i to j, has an inverse.
fn has_inverse(table: &Table, i: u32, j: u32, map: &StoredEmbedding) -> bool
    requires first { i < length table.now.rows }
    requires second { j < length table.now.rows }
    requires between { IsBetween table.now.rows i j map.now }
    ensures { MatchBool result
        ((n : List (List ℕ)) × HasInverse table.now i j map.now.images n)
        ((n : List (List ℕ)) → ¬ HasInverse table.now i j map.now.images n) }
{
    match table.map(j, i) {
        None => false,
        Some(back) => undoes(table.field(i), map, back) && undoes(table.field(j), back, map),
    }
}

// Whether a map from i to j has an inverse, if it is an isomorphism.
fn keeps_inverse(table: &Table, i: u32, j: u32) -> bool
    requires first { i < length table.now.rows }
    requires second { j < length table.now.rows }
    ensures { MatchBool result (KeepsInverse table.now i j) (LacksInverse table.now (i, j)) }
{
    if table.degree(i) != table.degree(j) {
        return true;
    }
    match table.map(i, j) {
        None => true,
        Some(map) => has_inverse(table, i, j, map),
    }
}

// The first field into which field i has an isomorphism without an inverse.
fn without_inverse_from(table: &Table, i: u32) -> Option<u32>
    requires { i < length table.now.rows }
    ensures { let L = table.now in MatchOption result
        ((j : ℕ) → j < length L.rows → KeepsInverse L i j) (BreaksInverse L i) }
{
    for j in 0..table.count() {
        if !keeps_inverse(table, i, j) {
            return Some(j);
        }
    }
    None
}

// The first pair of fields with an isomorphism without an inverse.
fn without_inverse(table: &Table) -> Option<(u32, u32)>
    ensures { let L = table.now in MatchOption result
        ((i j : ℕ) → i < length L.rows → j < length L.rows → KeepsInverse L i j)
        (IsFirst pair_cmp (LacksInverse L)) }
{
    for i in 0..table.count() {
        if let Some(j) = without_inverse_from(table, i) {
            return Some((i, j));
        }
    }
    None
}

// Whether the map from i to k is the first map and then the second one.
fn has_composition(
    table: &Table,
    i: u32,
    k: u32,
    first: &StoredEmbedding,
    second: &StoredEmbedding,
) -> bool
    requires source { i < length table.now.rows }
    requires target { k < length table.now.rows }
    requires begins { first.now.source ≡ field_at table.now.rows i }
    requires meets { second.now.source ≡ first.now.target }
    requires ends { second.now.target ≡ field_at table.now.rows k }
    ensures { let F = field_at table.now.rows k in IsTrue result
        ↔ Stored table.now i k (comp F first.now.images second.now.images) }
{
    match table.map(i, k) {
        None => false,
        Some(map) => is_composition(map, first, second),
    }
}

// Whether the composition from i by j to k is stored, if there is one.
pub(crate) fn keeps_composition(table: &Table, i: u32, j: u32, k: u32) -> bool
    requires first { i < length table.now.rows }
    requires second { j < length table.now.rows }
    requires third { k < length table.now.rows }
    ensures { MatchBool result (KeepsComposition table.now i j k)
        (LacksComposition table.now (i, j, k)) }
{
    match table.map(i, j) {
        None => true,
        Some(first) => match table.map(j, k) {
            None => true,
            Some(second) => has_composition(table, i, k, first, second),
        },
    }
}

// The first field k for which the composition from i by j isn't stored.
fn without_composition_by(table: &Table, i: u32, j: u32) -> Option<u32>
    requires first { i < length table.now.rows }
    requires second { j < length table.now.rows }
    ensures { let L = table.now in MatchOption result
        ((k : ℕ) → k < length L.rows → KeepsComposition L i j k) (BreaksComposition L i j) }
{
    for k in 0..table.count() {
        if !keeps_composition(table, i, j, k) {
            return Some(k);
        }
    }
    None
}

// The first fields j and k for which the composition from i isn't stored.
fn without_composition_from(table: &Table, i: u32) -> Option<(u32, u32)>
    requires { i < length table.now.rows }
    ensures { let L = table.now in MatchOption result
        ((j k : ℕ) → j < length L.rows → k < length L.rows → KeepsComposition L i j k)
        (λ p. (p.0 < length L.rows) × BreaksComposition L i p.0 p.1
        × ((j k : ℕ) → j < p.0 → k < length L.rows → KeepsComposition L i j k)) }
{
    for j in 0..table.count() {
        if let Some(k) = without_composition_by(table, i, j) {
            return Some((j, k));
        }
    }
    None
}

// The first fields for which a composition isn't stored. All are looked at where leaders don't tell
// that there are none.
fn without_composition(table: &Table) -> Option<(u32, u32, u32)>
    requires maps { HoldsMaps table.now }
    requires identities { (i : ℕ) → i < length table.now.rows → HasIdentity table.now i }
    requires inverses { (i j : ℕ) → i < length table.now.rows → j < length table.now.rows
        → KeepsInverse table.now i j }
    ensures { let L = table.now in MatchOption result
        ((i j k : ℕ) → i < length L.rows → j < length L.rows → k < length L.rows
        → KeepsComposition L i j k)
        (IsFirst triple_cmp (LacksComposition L)) }
{
    if are_composed(table) {
        return None;
    }
    for i in 0..table.count() {
        if let Some((j, k)) = without_composition_from(table, i) {
            return Some((i, j, k));
        }
    }
    None
}

// The greatest common divisor, by Euclid's algorithm; that of a number and 0 is the number.
fn gcd(a: u32, b: u32) -> u32
    ensures { IsGcd a b result }
{
    if b == 0 {
        return a;
    }
    gcd(b, a % b)
}

// Whether field l goes into both, and has the degree of their intersection.
fn is_common_subfield(table: &Table, i: u32, j: u32, l: u32, degree: u32) -> bool
    requires first { i < length table.now.rows }
    requires second { j < length table.now.rows }
    requires third { l < length table.now.rows }
    requires degree { IsGcd (degree_of (field_at table.now.rows i))
        (degree_of (field_at table.now.rows j)) degree }
    ensures { MatchBool result (IsCommonSubfield table.now i j l)
        (¬ IsCommonSubfield table.now i j l) }
{
    if table.degree(l) != degree {
        return false;
    }
    has_map(table, l, i) && has_map(table, l, j)
}

// Whether a field of the degree that an intersection has goes into both.
fn have_intersection(table: &Table, i: u32, j: u32) -> bool
    requires first { i < length table.now.rows }
    requires second { j < length table.now.rows }
    ensures { MatchBool result ((l : ℕ) × IsCommonSubfield table.now i j l)
        ((l : ℕ) → ¬ IsCommonSubfield table.now i j l) }
{
    let degree = gcd(table.degree(i), table.degree(j));
    for l in 0..table.count() {
        if is_common_subfield(table, i, j, l, degree) {
            return true;
        }
    }
    false
}

// Whether both fields go into field k.
fn have_overfield(table: &Table, i: u32, j: u32, k: u32) -> bool
    requires first { i < length table.now.rows }
    requires second { j < length table.now.rows }
    requires third { k < length table.now.rows }
    ensures { MatchBool result (HaveOverfield table.now i j k) (¬ HaveOverfield table.now i j k) }
{
    has_map(table, i, k) && has_map(table, j, k)
}

// The first field into which both go.
fn common_field(table: &Table, i: u32, j: u32) -> Option<u32>
    requires first { i < length table.now.rows }
    requires second { j < length table.now.rows }
    ensures { let L = table.now in MatchOption result
        ((k : ℕ) → k < length L.rows → ¬ HaveOverfield L i j k)
        (λ k. (k < length L.rows) × HaveOverfield L i j k
        × ((b : ℕ) → b < k → ¬ HaveOverfield L i j b)) }
{
    for k in 0..table.count() {
        if have_overfield(table, i, j, k) {
            return Some(k);
        }
    }
    None
}

// The first field k for which the intersection of i and j in k isn't stored.
fn without_intersection_in(table: &Table, i: u32, j: u32) -> Option<u32>
    requires first { i < length table.now.rows }
    requires second { j < length table.now.rows }
    requires rules { AreComposed table.now }
    ensures { let L = table.now in MatchOption result
        ((k : ℕ) → k < length L.rows → KeepsIntersection L i j k) (BreaksIntersection L i j) }
{
    if have_intersection(table, i, j) {
        return None;
    }
    common_field(table, i, j)
}

// The first fields j and k for which the intersection of i and j in k isn't stored.
fn without_intersection_from(table: &Table, i: u32) -> Option<(u32, u32)>
    requires first { i < length table.now.rows }
    requires rules { AreComposed table.now }
    ensures { let L = table.now in MatchOption result
        ((j k : ℕ) → j < length L.rows → k < length L.rows → KeepsIntersection L i j k)
        (λ p. (p.0 < length L.rows) × BreaksIntersection L i p.0 p.1
        × ((j k : ℕ) → j < p.0 → k < length L.rows → KeepsIntersection L i j k)) }
{
    for j in 0..table.count() {
        if let Some(k) = without_intersection_in(table, i, j) {
            return Some((j, k));
        }
    }
    None
}

// The first fields for which an intersection isn't stored. Once the other rules hold, the degree of
// a common subfield says whether it is the intersection, in whatever field the two meet.
fn without_intersection(table: &Table) -> Option<(u32, u32, u32)>
    requires { AreComposed table.now }
    ensures { let L = table.now in MatchOption result
        ((i j k : ℕ) → i < length L.rows → j < length L.rows → k < length L.rows
        → KeepsIntersection L i j k)
        (IsFirst triple_cmp (LacksIntersection L)) }
{
    for i in 0..table.count() {
        if let Some((j, k)) = without_intersection_from(table, i) {
            return Some((i, j, k));
        }
    }
    None
}

// The first rule that is broken, at its first fields.
pub(crate) fn judge_rules(table: &Table) -> Result<(), Fault>
    requires edition { IsOfEdition table.now }
    requires maps { HoldsMaps table.now }
    ensures { MatchResult result (λ _. KeepsRules table.now) (RuleFault table.now) }
{
    if let Some(i) = without_identity(table) {
        return Err(Fault::Rule(2, i, i, i));
    }
    if let Some((q, j)) = without_prime_subfield(table) {
        return Err(Fault::Rule(3, q, j, j));
    }
    if let Some((i, j)) = without_inverse(table) {
        return Err(Fault::Rule(4, i, j, j));
    }
    if let Some((i, j, k)) = without_composition(table) {
        return Err(Fault::Rule(5, i, j, k));
    }
    if let Some((i, j, k)) = without_intersection(table) {
        return Err(Fault::Rule(6, i, j, k));
    }
    Ok(())
}
