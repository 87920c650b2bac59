//! Compositions, judged by leaders: a field leads those that it has isomorphisms into. Once inverses are stored, all
//! compositions are, if those with the isomorphisms between fields and their leaders are, and those between leaders.

ghost use Rattle.std.specs.Prelude.{◌≡◌, ℕ, ◌<◌, ◌≤◌, length, IsTrue};
ghost use Rattle.std.specs.Bool.{MatchBool};
ghost use Rattle.lat_core.specs.declared.TheConstants.{MAX_FIELDS};
ghost use Rattle.lat_audit.specs.PrivateRules.{HasIdentity, KeepsInverse, KeepsComposition, HoldsMaps};
ghost use Rattle.lat_audit.specs.PrivateLeaders.{IsIsomorphic, AreLed, AreLeaders, Heads, KeepsToLeaders, leader};

use crate::rules::{has_map, keeps_composition};
use crate::tables::Table;
use arrayvec::ArrayVec;
use lat_core::MAX_FIELDS;

// Whether field l has a map into field i, and its degree.
fn is_isomorphic(table: &Table, l: u32, i: u32) -> bool
    requires first { l < length table.now.rows }
    requires second { i < length table.now.rows }
    ensures { IsTrue result → IsIsomorphic table.now l i }
{
    table.degree(l) == table.degree(i) && has_map(table, l, i)
}

// Whether field l is a leader and has an isomorphism into field i.
fn may_lead(table: &Table, leaders: &[u32], l: u32, i: u32) -> bool
    requires led { l < length leaders.now }
    requires first { l < length table.now.rows }
    requires second { i < length table.now.rows }
    ensures { IsTrue result → (leader leaders.now l ≡ l) × IsIsomorphic table.now l i }
{
    leaders[l as usize] == l && is_isomorphic(table, l, i)
}

// The first leader of field i, if it has one before it, or itself.
fn leader_of(table: &Table, leaders: &[u32], i: u32) -> u32
    requires within { i < length table.now.rows }
    requires before { length leaders.now ≡ i }
    ensures { Heads table.now leaders.now i result }
{
    for l in 0..i {
        if may_lead(table, leaders, l, i) {
            return l;
        }
    }
    i
}

// The leader of each field.
fn leaders_of(table: &Table) -> ArrayVec<u32, MAX_FIELDS>
    requires { (i : ℕ) → i < length table.now.rows → HasIdentity table.now i }
    ensures { AreLeaders table.now result.items }
{
    let mut leaders = ArrayVec::<u32, MAX_FIELDS>::new();
    for i in 0..table.count() {
        let leader = leader_of(table, leaders.as_slice(), i);
        leaders.push(leader);
    }
    leaders
}

// Whether the compositions of what is stored between two fields with the isomorphisms of their leaders are stored.
fn keeps_to_leaders(table: &Table, leaders: &[u32], i: u32, j: u32) -> bool
    requires leaders { AreLeaders table.now leaders.now }
    requires first { i < length table.now.rows }
    requires second { j < length table.now.rows }
    ensures { IsTrue result → KeepsToLeaders table.now leaders.now i j }
{
    let a = leaders[i as usize];
    let b = leaders[j as usize];
    keeps_composition(table, a, i, j)
        && keeps_composition(table, i, a, j)
        && keeps_composition(table, i, j, b)
        && keeps_composition(table, i, b, j)
}

// Whether that holds for a field and each other one.
fn keeps_all_to_leaders(table: &Table, leaders: &[u32], i: u32) -> bool
    requires leaders { AreLeaders table.now leaders.now }
    requires within { i < length table.now.rows }
    ensures { IsTrue result
        → (j : ℕ) → j < length table.now.rows → KeepsToLeaders table.now leaders.now i j }
{
    for j in 0..table.count() {
        if !keeps_to_leaders(table, leaders, i, j) {
            return false;
        }
    }
    true
}

// Whether field k leads no field, or the composition from i by j to k is stored.
fn keeps_leader(table: &Table, leaders: &[u32], i: u32, j: u32, k: u32) -> bool
    requires leaders { AreLeaders table.now leaders.now }
    requires first { i < length table.now.rows }
    requires second { j < length table.now.rows }
    requires third { k < length table.now.rows }
    ensures { IsTrue result → leader leaders.now k ≡ k → KeepsComposition table.now i j k }
{
    leaders[k as usize] != k || keeps_composition(table, i, j, k)
}

// Whether the compositions from i by j to leaders are stored.
fn keeps_leaders_by(table: &Table, leaders: &[u32], i: u32, j: u32) -> bool
    requires leaders { AreLeaders table.now leaders.now }
    requires first { i < length table.now.rows }
    requires second { j < length table.now.rows }
    ensures { IsTrue result → (k : ℕ) → k < length table.now.rows → leader leaders.now k ≡ k
        → KeepsComposition table.now i j k }
{
    if !has_map(table, i, j) {
        return true;
    }
    for k in 0..table.count() {
        if !keeps_leader(table, leaders, i, j, k) {
            return false;
        }
    }
    true
}

// Whether the compositions from i by leaders to leaders are stored.
fn keeps_leaders_from(table: &Table, leaders: &[u32], i: u32) -> bool
    requires leaders { AreLeaders table.now leaders.now }
    requires within { i < length table.now.rows }
    ensures { IsTrue result → (j k : ℕ) → j < length table.now.rows → k < length table.now.rows
        → leader leaders.now j ≡ j → leader leaders.now k ≡ k
        → KeepsComposition table.now i j k }
{
    for j in 0..table.count() {
        if leaders[j as usize] == j && !keeps_leaders_by(table, leaders, i, j) {
            return false;
        }
    }
    true
}

// Whether field i keeps to the leaders, and if it is one, to the other ones.
fn keeps_from(table: &Table, leaders: &[u32], i: u32) -> bool
    requires leaders { AreLeaders table.now leaders.now }
    requires within { i < length table.now.rows }
    ensures own { IsTrue result
        → (j : ℕ) → j < length table.now.rows → KeepsToLeaders table.now leaders.now i j }
    ensures leads { IsTrue result → leader leaders.now i ≡ i
        → (j k : ℕ) → j < length table.now.rows → k < length table.now.rows
        → leader leaders.now j ≡ j → leader leaders.now k ≡ k
        → KeepsComposition table.now i j k }
{
    if !keeps_all_to_leaders(table, leaders, i) {
        return false;
    }
    leaders[i as usize] != i || keeps_leaders_from(table, leaders, i)
}

// Whether all compositions are stored, as far as leaders tell it: this is where they are, but no clause says so.
pub(crate) fn are_composed(table: &Table) -> bool
    requires maps { HoldsMaps table.now }
    requires identities { (i : ℕ) → i < length table.now.rows → HasIdentity table.now i }
    requires inverses { (i j : ℕ) → i < length table.now.rows → j < length table.now.rows
        → KeepsInverse table.now i j }
    ensures { IsTrue result → (i j k : ℕ) → i < length table.now.rows
        → j < length table.now.rows → k < length table.now.rows
        → KeepsComposition table.now i j k }
{
    let leaders = leaders_of(table);
    for i in 0..table.count() {
        if !keeps_from(table, leaders.as_slice(), i) {
            return false;
        }
    }
    true
}
