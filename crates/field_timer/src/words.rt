//! What the words ask for.

use crate::embeddings::MapOperation;
use crate::operations::Operation;
use arrayvec::ArrayVec;
use ff_poly::MAX_POLY;

/// The coefficients of a polynomial, lowest first.
pub type Coefficients = ArrayVec<u8, MAX_POLY>;

/// An operation, and what it works on.
#[derive(Drop)]
pub enum Work {
    /// An operation of the field of this polynomial.
    InField {
        operation: Operation,
        field: Coefficients,
    },

    /// An operation with an embedding of the field of the first polynomial in that of the second.
    WithMap {
        operation: MapOperation,
        source: Coefficients,
        target: Coefficients,
    },
}

/// What is to be done, and how often.
#[derive(Drop)]
pub struct Task {
    /// The operation, and what it works on.
    pub work: Work,

    /// The characteristic.
    pub prime: u32,

    /// How often.
    pub count: u32,
}

// The numbers that these words write, at most as many as a polynomial may have.
fn numbers_of(words: &[String]) -> Option<Coefficients> {
    let mut numbers = ArrayVec::new();
    for word in words {
        numbers.try_push(word.as_str().parse::<u8>().ok()?).ok()?;
    }
    Some(numbers)
}

// The work of this name on these polynomials: that of one field, or, after the word `from`, that of
// the source of an embedding in it.
fn work_of(name: &str, words: &[String]) -> Option<Work> {
    for (k, word) in words.iter().enumerate() {
        if word.as_str() == "from" {
            return Some(Work::WithMap {
                operation: MapOperation::of(name)?,
                source: numbers_of(&words[k + 1..])?,
                target: numbers_of(&words[..k])?,
            });
        }
    }
    Some(Work::InField {
        operation: Operation::of(name)?,
        field: numbers_of(words)?,
    })
}

/// What the words ask for, or None where they don't say so.
pub fn task_of(words: &[String]) -> Option<Task> {
    if words.len() < 3 {
        return None;
    }
    Some(Task {
        work: work_of(words[0].as_str(), &words[3..])?,
        prime: words[1].as_str().parse::<u32>().ok()?,
        count: words[2].as_str().parse::<u32>().ok()?,
    })
}
