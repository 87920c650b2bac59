//! What a gate guards: a value with a history.
ghost use Rattle.std.specs.Prelude.{◌≡◌, ℕ, List, length};

/// A value that holds a history, which is a list of entries.
///
/// Each entry has the number of the pass that it is of. The setting is a list of numbers that the
/// machine was made with, and under a setting some lists of entries are legal and others not.
pub trait Machine: Drop {
    /// One entry of the history.
    type Entry;

    // The history.
    ghost entries: { Self → List Self.Entry };

    // The number of the pass that an entry is of.
    ghost number: { Self.Entry → ℕ };

    // What the machine was made with.
    ghost setting: { Self → List ℕ };

    // Which histories are legal under a setting.
    ghost legal: { List ℕ → List Self.Entry → Type 0 };

    /// The number of entries. The history of a machine is legal, whatever was done to it before.
    fn count(&self) -> u32
        ensures counted { result ≡ length (entries self.now) }
        ensures legal { legal (setting self.now) (entries self.now) };
}
