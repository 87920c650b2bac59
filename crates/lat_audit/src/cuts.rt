//! Cutting a text into lines, and lines into words, with no copy.

ghost use Rattle.std.specs.Prelude.{◌≡◌, MatchOption};
ghost use Rattle.lat_audit.specs.PrivateReadings.{Lacks, IsCut, IsFirstLine};

// What stands before the first such byte, and after it; None exactly where there is no such byte.
pub(crate) fn cut(text: &[u8], byte: u8) -> Option<(&[u8], &[u8])>
    ensures { MatchOption result (Lacks byte text.now)
        (λ cut. IsCut byte text.now cut.0.now cut.1.now) }
{
    match text.iter().position(|b| *b == byte) {
        None => None,
        Some(place) => Some((&text[..place], &text[place + 1..])),
    }
}

// The lines of a text that are left.
#[derive(Drop)]
pub(crate) struct Lines<'a> {
    pub(crate) text: &'a [u8],
}

impl<'a> Lines<'a> {
    // Takes the first line off, and gives it without its line feed; None exactly where no line feed
    // is left.
    pub(crate) fn next(&mut self) -> Option<&'a [u8]>
        ensures { MatchOption result (Lacks 10 self.old.text.now)
            (λ line. IsFirstLine self.old.text.now line.now self.new.text.now) }
    {
        match cut(self.text, b'\n') {
            None => None,
            Some((line, rest)) => {
                self.text = rest;
                Some(line)
            }
        }
    }
}
