//! Numbers as words.

ghost use Rattle.std.specs.Prelude.{◌≡◌, ◌≢◌, ℕ, ◌≤◌, length, slice_index, ◌==◌, ◌&&◌, nat_lt, decimal, MatchOption};

// Whether a zero stands before other digits.
fn has_leading_zero(word: &[u8]) -> bool
    ensures { result ≡ (nat_lt 1 (length word.now) && (slice_index word.now 0 == 48)) }
{
    word.len() > 1 && word[0] == b'0'
}

/// The number that the word is in decimal; None exactly where it is none up to the bound.
pub fn read_number(word: &[u8], bound: u64) -> Option<u64>
    ensures { MatchOption result ((n : ℕ) → n ≤ bound → word.now ≢ decimal n)
        (λ n. (n ≤ bound) × (word.now ≡ decimal n)) }
{
    if word.is_empty() || has_leading_zero(word) {
        return None;
    }
    let mut value: u128 = 0;
    for digit in word {
        if !digit.is_ascii_digit() {
            return None;
        }
        value = value * 10 + u128::from(*digit - b'0');
        if value > u128::from(bound) {
            return None;
        }
    }
    Some(value as u64)
}
