//! Cutting a text into lines, lines into words and lists into their parts, with no copy.

ghost use Rattle.std.specs.Prelude.{◌≡◌, ◌≢◌, ℕ, ◌<◌, ◌≤◌, ◌==◌, List, [], ◌∷◌, length, slice_index, position, MatchOption};
ghost use Rattle.std.specs.List.{slice_split};
ghost use Rattle.lat_language.specs.Grammar.{lines_of, words_of};
ghost use Rattle.lat_language.specs.PrivateCuts.{IsCutAt, IsFirstPart};

// The place of the first such byte; None exactly where there is none.
fn place_of(text: &[u8], byte: u8) -> Option<usize>
    ensures { result ≡ position (λ b. b == byte) text.now }
{
    text.iter().position(|b| *b == byte)
}

// What stands before the first such byte, and after it; None exactly where there is no such byte.
pub(crate) fn cut(text: &[u8], byte: u8) -> Option<(&[u8], &[u8])>
    ensures { MatchOption result (slice_split (λ b. b == byte) text.now ≡ text.now ∷ [])
        (λ cut. IsFirstPart (slice_split (λ b. b == byte)) text.now cut.0.now cut.1.now) }
{
    match place_of(text, byte) {
        None => None,
        Some(place) => Some((&text[..place], &text[place + 1..])),
    }
}

// The same, where the whole text stands before the byte if it has none.
fn cut_or_all(text: &[u8], byte: u8) -> (&[u8], &[u8])
    ensures { IsCutAt byte text.now result.0.now result.1.now }
{
    match cut(text, byte) {
        None => (text, &text[text.len()..]),
        Some(parts) => parts,
    }
}

// The first line, and the text of those after it; None exactly where the text has no line.
pub(crate) fn first_line(text: &[u8]) -> Option<(&[u8], &[u8])>
    ensures { MatchOption result (lines_of text.now ≡ [])
        (λ cut. IsFirstPart lines_of text.now cut.0.now cut.1.now) }
{
    if text.is_empty() {
        return None;
    }
    Some(cut_or_all(text, b'\n'))
}

#[tactic(auto, using(crate::proofs::LinesAndWords::words_space_at))]
// The text from its first byte on that isn't a space.
fn without_spaces_before(text: &[u8]) -> &[u8]
    ensures words { words_of result.now ≡ words_of text.now }
    ensures first { slice_index result.now 0 ≢ 32 }
    ensures len { length result.now ≤ length text.now }
{
    for (i, byte) in text.iter().enumerate() {
        if *byte != b' ' {
            return &text[i..];
        }
    }
    &text[text.len()..]
}

// The first word, and the text of those after it; None exactly where the text has no word.
pub(crate) fn first_word(text: &[u8]) -> Option<(&[u8], &[u8])>
    ensures { MatchOption result (words_of text.now ≡ [])
        (λ cut. IsFirstPart words_of text.now cut.0.now cut.1.now) }
{
    let text = without_spaces_before(text);
    if text.is_empty() {
        return None;
    }
    Some(cut_or_all(text, b' '))
}

// The two words of a text; None exactly where it doesn't have two words.
pub(crate) fn two_words(text: &[u8]) -> Option<(&[u8], &[u8])>
    ensures { MatchOption result ((a b : List ℕ) → words_of text.now ≢ a ∷ b ∷ [])
        (λ words. words_of text.now ≡ words.0.now ∷ words.1.now ∷ []) }
{
    let (first, rest) = first_word(text)?;
    let (second, rest) = first_word(rest)?;
    match first_word(rest) {
        None => Some((first, second)),
        Some(_) => None,
    }
}

// The three words of a text; None exactly where it doesn't have three words.
pub(crate) fn three_words(text: &[u8]) -> Option<(&[u8], &[u8], &[u8])>
    ensures { MatchOption result ((a b c : List ℕ) → words_of text.now ≢ a ∷ b ∷ c ∷ [])
        (λ words. words_of text.now ≡ words.0.now ∷ words.1.now ∷ words.2.now ∷ []) }
{
    let (first, rest) = first_word(text)?;
    let (second, third) = two_words(rest)?;
    Some((first, second, third))
}
