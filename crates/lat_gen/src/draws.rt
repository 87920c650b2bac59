//! The numbers that a seed gives.

ghost use Rattle.std.specs.Prelude.{◌≡◌, ◌<◌, IfOk, OnOk};
ghost use Rattle.lat_gen.specs.Generated.{next_state, drawn, state_after};
ghost use Rattle.lat_gen.specs.PrivateDraws.{draws_below};

use lat_core::NoMemory;
use std::alloc::Global;

const MULTIPLIER: u64 = 6_364_136_223_846_793_005;

const INCREMENT: u64 = 1_442_695_040_888_963_407;

// What a state is divided by for the number that it gives: the upper 31 bits are drawn.
const DIVISOR: u64 = 8_589_934_592;

// A linear congruential generator modulo 2^64.
#[derive(Drop)]
pub(crate) struct Generator {
    pub(crate) state: u64,
}

impl Generator {
    // Draws the next number.
    #[tactic(auto, using(crate::proofs::DrawnNumbers::next_is), unfolding(crate::specs::Generated::drawn))]
    fn draw(&mut self) -> u64
        ensures state { self.new.state ≡ next_state self.old.state }
        ensures value { result ≡ drawn self.new.state }
    {
        self.state = self.state.wrapping_mul(MULTIPLIER).wrapping_add(INCREMENT);
        self.state / DIVISOR
    }

    // Draws this many numbers, each modulo the same number.
    pub(crate) fn draw_below(
        &mut self,
        alloc: Global,
        modulus: u32,
        count: u32,
    ) -> Result<Vec<u32>, NoMemory>
        requires { 0 < modulus }
        ensures numbers { IfOk result (λ numbers.
            numbers.items ≡ draws_below self.old.state modulus count) }
        ensures state { OnOk result (self.new.state ≡ state_after self.old.state count) }
    {
        let mut numbers = Vec::new(alloc);
        for _k in 0..count {
            let number = self.draw() % u64::from(modulus);
            numbers.push(number as u32)?;
        }
        Ok(numbers)
    }
}
