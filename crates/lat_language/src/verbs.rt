//! The first words of the commands.

ghost use Rattle.std.specs.Prelude.{◌≡◌};
ghost use Rattle.lat_language.specs.PrivateReading.{verb_text, verb_of};

// The first word of a command.
#[derive(Clone, Copy, PartialEq, Eq, Debug)]
pub(crate) enum Verb {
    Field,
    Embed,
    Sync,
    Let,
    Add,
    Mul,
    Inv,
    Pow,
    Frob,
    Trace,
    Norm,
    Lift,
    Apply,
    Show,
    Map,
    Meet,
    Common,
    MinPoly,
    List,
    Count,
}

const VERBS: [Verb; 20] = [
    Verb::Field,
    Verb::Embed,
    Verb::Sync,
    Verb::Let,
    Verb::Add,
    Verb::Mul,
    Verb::Inv,
    Verb::Pow,
    Verb::Frob,
    Verb::Trace,
    Verb::Norm,
    Verb::Lift,
    Verb::Apply,
    Verb::Show,
    Verb::Map,
    Verb::Meet,
    Verb::Common,
    Verb::MinPoly,
    Verb::List,
    Verb::Count,
];

impl Verb {
    // How the verb is written.
    fn text(self) -> &'static [u8]
        ensures { result.now ≡ verb_text self }
    {
        match self {
            Verb::Field => b"field",
            Verb::Embed => b"embed",
            Verb::Sync => b"sync",
            Verb::Let => b"let",
            Verb::Add => b"add",
            Verb::Mul => b"mul",
            Verb::Inv => b"inv",
            Verb::Pow => b"pow",
            Verb::Frob => b"frob",
            Verb::Trace => b"trace",
            Verb::Norm => b"norm",
            Verb::Lift => b"lift",
            Verb::Apply => b"apply",
            Verb::Show => b"show",
            Verb::Map => b"map",
            Verb::Meet => b"meet",
            Verb::Common => b"common",
            Verb::MinPoly => b"minpoly",
            Verb::List => b"list",
            Verb::Count => b"count",
        }
    }

    // The verb that the word is; None exactly where it is none.
    pub(crate) fn of(word: &[u8]) -> Option<Verb>
        ensures { result ≡ verb_of word.now }
    {
        VERBS.iter().copied().find(|verb| word == verb.text())
    }
}
