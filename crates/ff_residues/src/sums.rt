//! Rows of residues to which multiples of rows are added, and which are reduced late.
ghost use Rattle.std.specs.Prelude.{◌≡◌, ℕ, ◌+◌, ◌-◌, ◌*◌, ◌%◌, ◌^◌, ◌<◌, ◌≤◌, All, length, slice_index};
ghost use Rattle.alg_model.specs.Coefficients.{IsCharacteristic};
ghost use Rattle.ff_residues.specs.SumRows.{residue_at, row_sum, shifted_sum, IsSumRow, IsRowOf};

use crate::places::{add_products, blank_sums, narrowed, reduce_all, widened};
use crate::{MAX_WIDTH, Prime};
use std::marker::Model;

/// `W` residues modulo a prime, to which multiples of rows of residues are added.
///
/// They are kept as sums of products below 2^15, and all are reduced where one product more might
/// not fit.
#[derive(Clone, Copy)]
pub struct Sums<const W: usize> {
    prime: Prime,
    room: u16,
    sums: [u16; W],
}

impl<const W: usize> Model for Sums<W> {
    ghost use Rattle.ff_residues.specs.SumRows.{SumRow, IsSumRow};

    ghost Value = { SumRow };

    ghost view = { λ a. record { prime = a.prime; room = a.room; sums = a.sums } };

    ghost invariant = { λ a. IsSumRow W (record { prime = a.prime; room = a.room; sums = a.sums }) };

    ghost inverse = { λ s. record { prime = s.prime; room = s.room; sums = s.sums } };
}

impl<const W: usize> Sums<W> {
    /// The residues of a row.
    #[inline(always)]
    pub fn of(p: Prime, row: &[u8; W]) -> Sums<W>
        requires width { W ≤ MAX_WIDTH }
        requires residues { All (λ x. x < p) row.now }
        ensures prime { result.prime ≡ p }
        ensures residues { (k : ℕ) → residue_at result k ≡ slice_index row.now k }
    {
        let _number = p.number();
        Sums {
            prime: p,
            room: p.run(),
            sums: widened(row),
        }
    }

    /// `W` zeros.
    #[inline(always)]
    pub fn zeros(p: Prime) -> Sums<W>
        requires { W ≤ MAX_WIDTH }
        ensures prime { result.prime ≡ p }
        ensures residues { (k : ℕ) → residue_at result k ≡ 0 }
    {
        let _number = p.number();
        Sums {
            prime: p,
            room: p.run(),
            sums: blank_sums(),
        }
    }

    /// Adds `factor` times the `W` residues of a list that stand from `start` on.
    #[inline(always)]
    pub fn add(&mut self, factor: u8, list: &[u8], start: usize)
        requires width { W ≤ MAX_WIDTH }
        requires factor { factor < self.old.prime }
        requires within { start + W ≤ length list.now }
        requires residues { All (λ x. x < self.old.prime) list.now }
        ensures prime { self.new.prime ≡ self.old.prime }
        ensures sums { (k : ℕ) → k < W → residue_at self.new k
            ≡ (residue_at self.old k + factor * slice_index list.now (start + k)) % self.old.prime }
    {
        self.make_room();
        self.add_in_room(factor, list, start);
    }

    /// Adds rows, each times its factor: a matrix times the vector of the factors.
    #[inline(always)]
    pub fn add_rows<const R: usize>(&mut self, factors: &[u8], rows: &[[u8; R]])
        requires width { W ≤ MAX_WIDTH }
        requires factors { All (λ x. x < self.old.prime) factors.now }
        requires enough { length factors.now ≤ length rows.now }
        requires rows { All (IsRowOf self.old.prime W) rows.now }
        ensures prime { self.new.prime ≡ self.old.prime }
        ensures sums { (k : ℕ) → k < W → residue_at self.new k
            ≡ (residue_at self.old k + row_sum (length factors.now) factors.now rows.now k) %
            self.old.prime }
    {
        for i in 0..factors.len() {
            self.add(factors[i], &rows[i], 0);
        }
    }

    /// Adds the `W` residues of a list that stand from `start` on times the first factor, those
    /// that stand one place before times the second, and so on.
    #[inline(always)]
    pub fn add_shifted(&mut self, factors: &[u8], list: &[u8], start: usize)
        requires width { W ≤ MAX_WIDTH }
        requires factors { All (λ x. x < self.old.prime) factors.now }
        requires before { length factors.now ≤ start + 1 }
        requires within { start + W ≤ length list.now }
        requires residues { All (λ x. x < self.old.prime) list.now }
        ensures prime { self.new.prime ≡ self.old.prime }
        ensures sums { (k : ℕ) → k < W → residue_at self.new k
            ≡ (residue_at self.old k + shifted_sum (length factors.now) factors.now list.now
            (start + k)) % self.old.prime }
    {
        for i in 0..factors.len() {
            self.add(factors[i], list, start - i);
        }
    }

    // The same where there is room for one product more.
    #[inline(always)]
    fn add_in_room(&mut self, factor: u8, list: &[u8], start: usize)
        requires width { W ≤ MAX_WIDTH }
        requires room { 0 < self.old.room }
        requires factor { factor < self.old.prime }
        requires within { start + W ≤ length list.now }
        requires residues { All (λ x. x < self.old.prime) list.now }
        ensures prime { self.new.prime ≡ self.old.prime }
        ensures sums { (k : ℕ) → k < W → residue_at self.new k
            ≡ (residue_at self.old k + factor * slice_index list.now (start + k)) % self.old.prime }
    {
        let _number = self.prime.number();
        self.room -= 1;
        add_products(&mut self.sums, factor, list, start);
    }

    // Makes room for one product more.
    #[inline(always)]
    fn make_room(&mut self)
        requires { W ≤ MAX_WIDTH }
        ensures prime { self.new.prime ≡ self.old.prime }
        ensures room { 0 < self.new.room }
        ensures residues { (k : ℕ) → residue_at self.new k ≡ residue_at self.old k }
    {
        if self.room == 0 {
            self.reduce();
        }
    }

    /// The residue at a place.
    #[inline(always)]
    pub fn at(&self, k: usize) -> u8
        requires { k < W }
        ensures value { result ≡ residue_at self.now k }
        ensures residue { result < self.now.prime }
    {
        self.prime.reduced(self.sums[k]) as u8
    }

    /// All residues.
    #[inline(always)]
    pub fn row(&self) -> [u8; W]
        requires { W ≤ MAX_WIDTH }
        ensures len { length result ≡ W }
        ensures residues { All (λ x. x < self.now.prime) result }
        ensures row { (k : ℕ) → slice_index result k ≡ residue_at self.now k }
    {
        narrowed(self.prime, &self.sums)
    }

    // Reduces all sums, so that there is room again.
    #[inline(always)]
    fn reduce(&mut self)
        requires { W ≤ MAX_WIDTH }
        ensures prime { self.new.prime ≡ self.old.prime }
        ensures room { 0 < self.new.room }
        ensures residues { (k : ℕ) → residue_at self.new k ≡ residue_at self.old k }
    {
        self.room = self.prime.run();
        reduce_all(self.prime, &mut self.sums);
    }
}
