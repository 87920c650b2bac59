//! Values in other fields, and what commands compute there.

ghost use Rattle.lat_core.specs.Answers.{IsNumber, IsTaggedValue};
ghost use Rattle.lat_language.specs.declared.commands.Command.TheVariants.{Add, Mul, Lift, Trace, Norm};
ghost use Rattle.lat_session.specs.Outcomes.{Lifts};
ghost use Rattle.lat_session.specs.Playing.{FitSeen};
ghost use Rattle.lat_session.specs.PrivateCombining.{IsCommonField, LiftsBoth, IsPrimeFieldOf};
ghost use Rattle.lat_session.specs.PrivatePlaying.{SomeSeen, OverSeen, ComesTo};

use crate::pairs::Pair;
use crate::reading::{field_of, field_word, refusal_of_fault};
use crate::sessions::Session;
use lat_core::{Answer, FieldName, Port, Question, SessionRefusal, Tagged};

// The value in the field of this number.
fn lifted<P: Port>(port: &P, value: Tagged, to: u32) -> Result<Tagged, SessionRefusal>
    requires { SomeSeen (P.knowledge port.now) (λ L. IsTaggedValue L value × IsNumber L to) }
    ensures { OverSeen (P.knowledge port.now) (λ L. Lifts L value to result) }
{
    match port.read(&Question::Lift { value, to }) {
        Answer::Lifted(image) => Ok(image),
        Answer::Refused(fault) => Err(refusal_of_fault(fault)),
        _ => unreachable!(),
    }
}

// The common field of two fields.
fn common<P: Port>(port: &P, a: u32, b: u32) -> Result<u32, SessionRefusal>
    requires { SomeSeen (P.knowledge port.now) (λ L. IsNumber L a × IsNumber L b) }
    ensures { OverSeen (P.knowledge port.now) (λ L. IsCommonField L a b result) }
{
    match port.read(&Question::Common { a, b }) {
        Answer::Is(number) => Ok(number),
        Answer::Refused(fault) => Err(refusal_of_fault(fault)),
        _ => unreachable!(),
    }
}

// The number of the prime field of a field.
fn prime_field<P: Port>(port: &P, number: u32) -> u32
    requires { SomeSeen (P.knowledge port.now) (λ L. IsNumber L number) }
    ensures { OverSeen (P.knowledge port.now) (λ L. IsPrimeFieldOf L number result) }
{
    match port.read(&Question::Subfields(number)) {
        Answer::Numbers(subfields) => {
            let numbers = subfields.numbers();
            numbers[0]
        }
        _ => unreachable!(),
    }
}

impl Session {
    // The values of two variables in their common field.
    fn pair<P: Port>(
        &self,
        port: &P,
        left: &FieldName,
        right: &FieldName,
    ) -> Result<Pair, SessionRefusal>
        requires { FitSeen (P.knowledge port.now) self.now }
        ensures { OverSeen (P.knowledge port.now)
            (λ L. LiftsBoth L self.now left.now right.now result) }
    {
        let a = self.operand(left)?;
        let b = self.operand(right)?;
        let field = common(port, a.field, b.field)?;
        let first = lifted(port, a, field)?;
        let second = lifted(port, b, field)?;
        Ok(Pair { first, second })
    }

    // The sum of two variables' values in their common field.
    pub(crate) fn sum<P: Port>(
        &self,
        port: &P,
        left: &FieldName,
        right: &FieldName,
    ) -> Result<Tagged, SessionRefusal>
        requires { FitSeen (P.knowledge port.now) self.now }
        ensures { ComesTo (P.knowledge port.now) self.now
            (λ name. Add name left.now right.now) result }
    {
        let pair = self.pair(port, left, right)?;
        let field = field_of(port, pair.first.field);
        Ok(Tagged {
            field: pair.first.field,
            value: field.add(&pair.first.value, &pair.second.value),
        })
    }

    // The product of two variables' values in their common field.
    pub(crate) fn product<P: Port>(
        &self,
        port: &P,
        left: &FieldName,
        right: &FieldName,
    ) -> Result<Tagged, SessionRefusal>
        requires { FitSeen (P.knowledge port.now) self.now }
        ensures { ComesTo (P.knowledge port.now) self.now
            (λ name. Mul name left.now right.now) result }
    {
        let pair = self.pair(port, left, right)?;
        let field = field_of(port, pair.first.field);
        Ok(Tagged {
            field: pair.first.field,
            value: field.mul(&pair.first.value, &pair.second.value),
        })
    }

    // The value of a variable in the field of this name.
    pub(crate) fn lift<P: Port>(
        &self,
        port: &P,
        value: &FieldName,
        to: &FieldName,
    ) -> Result<Tagged, SessionRefusal>
        requires { FitSeen (P.knowledge port.now) self.now }
        ensures { ComesTo (P.knowledge port.now) self.now
            (λ name. Lift name value.now to.now) result }
    {
        let operand = self.operand(value)?;
        let number = field_word(port, to)?;
        lifted(port, operand, number)
    }

    // The trace of a variable's value, in the prime field.
    pub(crate) fn trace<P: Port>(
        &self,
        port: &P,
        value: &FieldName,
    ) -> Result<Tagged, SessionRefusal>
        requires { FitSeen (P.knowledge port.now) self.now }
        ensures { ComesTo (P.knowledge port.now) self.now (λ name. Trace name value.now) result }
    {
        let operand = self.operand(value)?;
        let field = field_of(port, operand.field);
        let residue = field.trace(&operand.value);
        let number = prime_field(port, operand.field);
        let prime = field_of(port, number);
        Ok(Tagged {
            field: number,
            value: prime.of_residue(residue),
        })
    }

    // The norm of a variable's value, in the prime field.
    pub(crate) fn norm<P: Port>(
        &self,
        port: &P,
        value: &FieldName,
    ) -> Result<Tagged, SessionRefusal>
        requires { FitSeen (P.knowledge port.now) self.now }
        ensures { ComesTo (P.knowledge port.now) self.now (λ name. Norm name value.now) result }
    {
        let operand = self.operand(value)?;
        let field = field_of(port, operand.field);
        let residue = field.norm(&operand.value);
        let number = prime_field(port, operand.field);
        let prime = field_of(port, number);
        Ok(Tagged {
            field: number,
            value: prime.of_residue(residue),
        })
    }
}
