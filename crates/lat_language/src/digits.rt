//! Coefficient lists as a script writes them.

ghost use Rattle.arrayvec.specs.ArrayVec.{array_vec_len};
ghost use Rattle.std.specs.Prelude.{◌≡◌, ◌≢◌, ◌⊎◌, ℕ, List, [], ◌∷◌, ◌++◌, ◌<◌, length, decimal, MatchOption};
ghost use Rattle.lat_core.specs.Digits.{AreDigits};
ghost use Rattle.lat_language.specs.Commands.{digits_text};

use crate::cutting::cut;
use crate::numbers::read_number;
use arrayvec::ArrayVec;
use lat_core::{Digits, MAX_DIGITS};

// Adds the number that the part is in decimal; None exactly where it is none up to 255, or there is
// no room for it.
fn push_number(numbers: &mut ArrayVec<u8, MAX_DIGITS>, part: &[u8]) -> Option<()>
    ensures { MatchOption result
        ((array_vec_len numbers.old ≡ MAX_DIGITS) ⊎ ((n : ℕ) → n < 256 → part.now ≢ decimal n))
        (λ _. (n : ℕ) × (n < 256) × (part.now ≡ decimal n)
        × (array_vec_len numbers.old < MAX_DIGITS)
        × (numbers.new.items ≡ numbers.old.items ++ n ∷ [])) }
{
    match read_number(part, u64::from(u8::MAX)) {
        None => None,
        Some(number) => numbers.try_push(number as u8).ok(),
    }
}

/// The coefficient list that the word is; None exactly where it is none.
pub fn read_digits(word: &[u8]) -> Option<Digits>
    ensures { MatchOption result ((c : List ℕ) → AreDigits c → word.now ≢ digits_text c)
        (λ c. AreDigits c × (word.now ≡ digits_text c)) }
{
    let mut numbers = ArrayVec::new();
    let mut rest = word;
    while let Some((part, after)) = cut(rest, b',') {
        push_number(&mut numbers, part)?;
        rest = after;
    }
    push_number(&mut numbers, rest)?;
    Digits::of(numbers.as_slice())
}
