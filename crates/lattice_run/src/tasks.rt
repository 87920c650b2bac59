//! The tasks of the program, and the words that name them.

ghost use Rattle.std.specs.Prelude.{◌≡◌, ◌≢◌, ℕ, [], ◌∷◌, ◌^◌, ◌<◌, ◌≤◌, map, decimal, MatchOption, string_bytes};
ghost use Rattle.lattice_run.specs.Tasks.{Asks};

use itoa::Buffer;
use lat_gen::{MAX_GENERATED_EMBEDS, MAX_GENERATED_FIELDS};

/// What is written of a script that is played.
#[derive(Clone, Copy, PartialEq, Eq, Debug)]
pub enum Output {
    /// Its transcript.
    Transcript,
    /// Its transcript, where its sessions are played on threads if the run has threads.
    SharedTranscript,
    /// The dump of the lattice after all changes.
    Dump,
}

/// What the program can do.
#[derive(Clone, Copy, PartialEq, Eq, Debug)]
pub enum Task {
    /// Plays the script that the source gives, and writes its transcript or the dump of its lattice.
    Play { output: Output },
    /// Judges the dump that the source gives, and writes the verdict.
    Audit,
    /// Plays the script that is generated from a seed, with this many fields and embeddings, and
    /// writes its summary alone. Nothing is read.
    Gen { seed: u64, fields: u32, embeds: u32 },
}

// The number of 64 bits that the word is in decimal, without zeros before it; None where it is
// none.
fn number(word: &str) -> Option<u64>
    ensures { MatchOption result ((n : ℕ) → n < 2 ^ 64 → word.now ≢ decimal n)
        (λ n. (n < 2 ^ 64) × (word.now ≡ decimal n)) }
{
    match word.parse::<u64>() {
        Ok(number) => {
            if Buffer::new().format(number) == word {
                Some(number)
            } else {
                None
            }
        }
        Err(_) => None,
    }
}

// The same up to a bound.
fn number_up_to(word: &str, bound: u32) -> Option<u32>
    ensures { MatchOption result ((n : ℕ) → n ≤ bound → word.now ≢ decimal n)
        (λ n. (n ≤ bound) × (word.now ≡ decimal n)) }
{
    let number = number(word)?;
    if number <= u64::from(bound) {
        Some(number as u32)
    } else {
        None
    }
}

// What one word asks for.
fn asked_by_word(word: &str) -> Option<Task>
    ensures { Asks (word.now ∷ []) result }
{
    if word == "solo" {
        Some(Task::Play {
            output: Output::Transcript,
        })
    } else if word == "share" {
        Some(Task::Play {
            output: Output::SharedTranscript,
        })
    } else if word == "dump" {
        Some(Task::Play {
            output: Output::Dump,
        })
    } else if word == "audit" {
        Some(Task::Audit)
    } else {
        None
    }
}

// What four words ask for.
fn asked_by_words(word: &str, seed: &str, fields: &str, embeds: &str) -> Option<Task>
    ensures { Asks (word.now ∷ seed.now ∷ fields.now ∷ embeds.now ∷ []) result }
{
    if word != "gen" {
        return None;
    }
    let seed = number(seed)?;
    let fields = number_up_to(fields, MAX_GENERATED_FIELDS)?;
    let embeds = number_up_to(embeds, MAX_GENERATED_EMBEDS)?;
    if fields == 0 {
        return None;
    }
    Some(Task::Gen {
        seed,
        fields,
        embeds,
    })
}

/// The task that the words name, or None where they name none: `solo`, `share` and `dump`, each
/// alone, are [`Task::Play`], with the output [`Output::Transcript`], [`Output::SharedTranscript`]
/// and [`Output::Dump`]; `audit` alone is [`Task::Audit`]; and `gen` with a seed, a number of fields
/// and a number of embeddings is [`Task::Gen`]. Numbers are in decimal, without zeros before them: a
/// seed of 64 bits, fields from 1 to `MAX_GENERATED_FIELDS`, embeddings up to `MAX_GENERATED_EMBEDS`.
pub fn task_of(words: &[String]) -> Option<Task>
    ensures { Asks (map string_bytes words.now) result }
{
    match words {
        [word] => asked_by_word(word.as_str()),
        [word, seed, fields, embeds] => {
            asked_by_words(
                word.as_str(),
                seed.as_str(),
                fields.as_str(),
                embeds.as_str(),
            )
        }
        _ => None,
    }
}
