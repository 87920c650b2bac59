//! Why a line isn't taken.

ghost use Rattle.std.specs.Prelude.{◌≡◌};
ghost use Rattle.lat_language.specs.declared.line_faults.LineFault.TheVariants.{NoMemory as no_memory};
ghost use Rattle.lat_language.specs.PrivateParsing.{at_line};

use crate::script_faults::ScriptFault;
use lat_core::NoMemory;

// Why a line wasn't taken: the kind of its fault, or want of memory.
#[derive(Drop)]
pub(crate) enum LineFault {
    Bad(u32),
    NoMemory,
}

impl From<NoMemory> for LineFault {
    ghost from_gives = { λ _ made. made ≡ no_memory };

    fn from(_error: NoMemory) -> LineFault {
        LineFault::NoMemory
    }
}

impl LineFault {
    // The fault of the script, at the line of this number.
    pub(crate) fn at(self, number: u32) -> ScriptFault
        ensures { result ≡ at_line self number }
    {
        match self {
            LineFault::Bad(kind) => ScriptFault::Line { number, kind },
            LineFault::NoMemory => ScriptFault::NoMemory,
        }
    }
}
