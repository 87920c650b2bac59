//! Values that are computed, shown and stored.

ghost use Rattle.std.specs.Prelude.{◌≡◌, IfOk, OnErr};
ghost use Rattle.lat_core.specs.Answers.{IsNumber};
ghost use Rattle.lat_language.specs.declared.commands.Command.TheVariants.{Let, Show};
ghost use Rattle.lat_session.specs.Outcomes.{name_at, Reads};
ghost use Rattle.lat_session.specs.Playing.{FitSeen};
ghost use Rattle.lat_session.specs.PrivatePlaying.{HasSeen, SomeSeen, OverSeen, KeepsTo, PlaysAs, ComesTo};

use crate::reading::{field_of, field_word, marked, name_of, refused};
use crate::sessions::Session;
use ff_field::{Value, ValueFault};
use lat_core::{Digits, FieldName, Line, NoMemory, Outcome, Port, SessionRefusal, Tagged};

// A value, with the name of its field.
fn shown<P: Port>(port: &P, value: &Tagged) -> Outcome
    requires { SomeSeen (P.knowledge port.now) (λ L. IsNumber L value.now.field) }
    ensures { OverSeen (P.knowledge port.now) (λ L. result
        ≡ Outcome.Val (name_at L value.now.field) value.now.value) }
{
    Outcome::Val {
        name: name_of(port, value.field),
        value: value.value.copy(),
    }
}

// The value of a field with these digits.
fn read_digits<P: Port>(port: &P, number: u32, digits: &Digits) -> Result<Tagged, SessionRefusal>
    requires { SomeSeen (P.knowledge port.now) (λ L. IsNumber L number) }
    ensures { OverSeen (P.knowledge port.now) (λ L. Reads L number digits.now result) }
{
    let field = field_of(port, number);
    let numbers = digits.numbers();
    match Value::of_slice(&field, numbers) {
        Ok(value) => Ok(Tagged {
            field: number,
            value,
        }),
        Err(ValueFault::TooMany(_)) => {
            Err(SessionRefusal::TooManyCoefficients(numbers.len() as u32))
        }
        Err(ValueFault::TooLarge(place)) => Err(SessionRefusal::CoefficientTooLarge(place)),
    }
}

impl Session {
    // The outcome of what was computed, which is stored under this name.
    pub(crate) fn keep<P: Port>(
        &mut self,
        port: &P,
        name: &FieldName,
        computed: Result<Tagged, SessionRefusal>,
    ) -> Result<Line, NoMemory>
        requires { SomeSeen (P.knowledge port.now) (λ L. IfOk computed (λ t. IsNumber L t.field)) }
        ensures line { IfOk result
            (KeepsTo (P.knowledge port.now) self.old name.now computed self.new) }
        ensures err { OnErr result (self.new ≡ self.old) }
    {
        let value = match computed {
            Ok(value) => value,
            Err(refusal) => return Ok(refused(port, refusal)),
        };
        if self.is_full_for(name) {
            return Ok(refused(port, SessionRefusal::TooManyVariables));
        }
        let outcome = shown(port, &value);
        self.store(name, value)?;
        Ok(marked(port, outcome))
    }

    // The digits as a value of the field of this name.
    pub(crate) fn digits_in<P: Port>(
        &self,
        port: &P,
        field: &FieldName,
        digits: &Digits,
    ) -> Result<Tagged, SessionRefusal>
        requires { HasSeen (P.knowledge port.now) }
        ensures { ComesTo (P.knowledge port.now) self.now
            (λ name. Let name field.now digits.now) result }
    {
        let number = field_word(port, field)?;
        read_digits(port, number, digits)
    }

    // The value of a variable.
    pub(crate) fn show<P: Port>(&self, port: &P, name: &FieldName) -> Line
        requires { FitSeen (P.knowledge port.now) self.now }
        ensures { PlaysAs (P.knowledge port.now) self.now (Show name.now) self.now result }
    {
        match self.operand(name) {
            Ok(value) => marked(port, shown(port, &value)),
            Err(refusal) => refused(port, refusal),
        }
    }
}
