//! A small machine, and what a session does with it: a list of amounts, each with the number of the
//! pass that added it.
ghost use Rattle.std.specs.Prelude.{◌≡◌, ℕ, [], ◌∷◌, ◌++◌, OnOk, OnErr};

use crate::faults::NoMemory;
use crate::machine::Machine;
use std::alloc::Global;
use std::marker::Model;

mod sessions;

pub use sessions::{add, add_beside, add_each, close_two, open_two};

/// One amount.
#[derive(Clone, Copy, PartialEq, Eq, Debug)]
pub struct Amount {
    /// The number of the pass that added it.
    pub number: u32,
    /// How much it is.
    pub amount: u32,
}

/// Amounts in the order in which they were added. Contracts see this as the list.
#[derive(Drop)]
pub struct Amounts {
    entries: Vec<Amount>,
}

impl Model for Amounts {
    ghost use Rattle.std.specs.Prelude.{List, ◌<◌, ◌^◌, length};
    ghost use Rattle.lat_gate.specs.declared.amounts.Amount.{Amount};

    ghost Value = { List Amount };

    ghost view = { λ amounts. amounts.entries.items };

    ghost invariant = { λ amounts. length amounts.entries.items < 2 ^ 32 };
}

impl Machine for Amounts {
    ghost use Rattle.std.specs.Prelude.{⊤};

    type Entry = Amount;

    ghost entries = { λ amounts. amounts };

    ghost number = { λ entry. entry.number };

    ghost setting = { λ _. [] };

    ghost legal = { λ _ _. ⊤ };

    fn count(&self) -> u32 {
        self.entries.len() as u32
    }
}

impl Amounts {
    /// No amounts yet.
    pub fn new(alloc: Global) -> Amounts
        ensures empty { result ≡ [] }
    {
        Amounts {
            entries: Vec::new(alloc),
        }
    }

    /// The amounts.
    pub fn entries(&self) -> &[Amount]
        ensures whole { result.now ≡ self.now }
    {
        &self.entries
    }

    /// Adds an amount at the end. It answers [`NoMemory`], and adds nothing, also where there are
    /// 4,294,967,295 of them already.
    pub fn add(&mut self, entry: Amount) -> Result<(), NoMemory>
        ensures ok { OnOk result (self.new ≡ self.old ++ entry ∷ []) }
        ensures err { OnErr result (self.new ≡ self.old) }
    {
        if self.entries.len() >= u32::MAX as usize || self.entries.push(entry).is_err() {
            return Err(NoMemory);
        }
        Ok(())
    }
}
