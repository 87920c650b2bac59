//! A session and its variables.

ghost use Rattle.std.specs.Prelude.{◌≡◌, ◌↔◌, ◌≤◌, IsTrue, MatchResult, OnOk, OnErr};
ghost use Rattle.std.specs.FinMap.{empty, insert, len};
ghost use Rattle.lat_session.specs.Variables.{Holds, IsVariable, IsFullFor};

use crate::MAX_VARIABLES;
use arrayvec::ArrayVec;
use ff_lists::fixed;
use indexmap::IndexMap;
use lat_core::{FieldName, MAX_NAME, NoMemory, SessionRefusal, Tagged};
use std::alloc::Global;
use std::marker::Model;

/// A session: its variables, which are values with the numbers of their fields.
///
/// It holds at most `MAX_VARIABLES` of them. Contracts see their finite map.
#[derive(Drop)]
pub struct Session {
    variables: IndexMap<ArrayVec<u8, MAX_NAME>, Tagged>,
}

impl Model for Session {
    ghost use Rattle.lat_session.specs.Variables.{Variables};
    ghost use Rattle.lat_session.specs.PrivateVariables.{variables_code, variables_of};

    ghost Value = { Variables };

    ghost coded = { variables_code };

    ghost view = { λ a. variables_of a.variables.entries };
}

// A name as a key of the table.
#[tactic(auto, using(lat_core::proofs::NameLengths::name_fits))]
fn key_of(name: &FieldName) -> ArrayVec<u8, MAX_NAME>
    ensures { result.items ≡ name.now }
{
    fixed(name.bytes())
}

impl Session {
    /// A session with no variables. Takes no memory.
    pub fn open(alloc: Global) -> Session
        ensures { result ≡ empty }
    {
        Session {
            variables: IndexMap::new(alloc),
        }
    }

    // The value of this variable; a refusal where there is none.
    pub(crate) fn operand(&self, name: &FieldName) -> Result<Tagged, SessionRefusal>
        ensures { MatchResult result (Holds self.now name.now)
            (λ refusal. (refusal ≡ SessionRefusal.UnknownVariable name.now)
            × (¬ IsVariable self.now name.now)) }
    {
        let key = key_of(name);
        match self.variables.get(&key) {
            Some(value) => Ok(value.copy()),
            None => Err(SessionRefusal::UnknownVariable(name.copy())),
        }
    }

    // Whether no variable has this name.
    fn is_new(&self, name: &FieldName) -> bool
        ensures { IsTrue result ↔ (¬ IsVariable self.now name.now) }
    {
        let key = key_of(name);
        !self.variables.contains_key(&key)
    }

    // How many variables there are.
    fn count(&self) -> usize
        ensures { result ≡ len self.now }
    {
        self.variables.len()
    }

    // Whether there is no room for one more.
    fn is_at_limit(&self) -> bool
        ensures { IsTrue result ↔ (MAX_VARIABLES ≤ len self.now) }
    {
        self.count() >= MAX_VARIABLES
    }

    // Whether a variable of this name would be one too many.
    pub(crate) fn is_full_for(&self, name: &FieldName) -> bool
        ensures { IsTrue result ↔ IsFullFor self.now name.now }
    {
        if !self.is_new(name) {
            return false;
        }
        self.is_at_limit()
    }

    // Sets a variable.
    pub(crate) fn store(&mut self, name: &FieldName, value: Tagged) -> Result<(), NoMemory>
        ensures ok { OnOk result (self.new ≡ insert self.old name.now value) }
        ensures err { OnErr result (self.new ≡ self.old) }
    {
        self.variables.insert(key_of(name), value)?;
        Ok(())
    }
}
