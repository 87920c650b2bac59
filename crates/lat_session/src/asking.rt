//! Commands that only ask.

ghost use Rattle.std.specs.Prelude.{◌≡◌, IfOk};
ghost use Rattle.alg_model.specs.Lattices.{Lattice};
ghost use Rattle.lat_core.specs.Answers.{Fits};
ghost use Rattle.lat_language.specs.declared.commands.Command.TheVariants.{Map, Meet, Common, MinPoly, MinPolyOver};
ghost use Rattle.lat_language.specs.declared.commands.Command.TheVariants as commands;
ghost use Rattle.lat_session.specs.PrivatePlaying.{HasSeen, SomeSeen, OverSeen, IsAsked, IsShownAs, Questions, Asked, AsksTo};

use crate::reading::{field_word, marked, name_of, refusal_of_fault, refused};
use crate::sessions::Session;
use lat_core::{Answer, FieldName, Line, Outcome, Port, Question, SessionRefusal};

// How the answer to a question of a command is shown.
fn answered<P: Port>(port: &P, question: &Question) -> Outcome
    requires { SomeSeen (P.knowledge port.now)
        (λ L. Fits L question.now × IsAsked question.now) }
    ensures { OverSeen (P.knowledge port.now) (λ L. IsShownAs L question.now result) }
{
    match port.read(question) {
        Answer::Image(image) => Outcome::Image(image),
        Answer::Is(number) => Outcome::Named(name_of(port, number)),
        Answer::Numbers(numbers) => Outcome::Numbers(numbers),
        Answer::Poly(polynomial) => Outcome::Poly(polynomial),
        Answer::RelPoly(polynomial) => Outcome::RelPoly(polynomial),
        Answer::Counted { fields, maps } => Outcome::Counted { fields, maps },
        Answer::Refused(fault) => Outcome::Refused(refusal_of_fault(fault)),
        _ => unreachable!(),
    }
}

// The line of a command that only asks.
pub(crate) fn asked<P: Port>(port: &P, question: Result<Question, SessionRefusal>) -> Line
    requires { SomeSeen (P.knowledge port.now)
        (λ L. IfOk question (λ q. Fits L q × IsAsked q)) }
    ensures { AsksTo (P.knowledge port.now) question result }
{
    match question {
        Ok(question) => marked(port, answered(port, &question)),
        Err(refusal) => refused(port, refusal),
    }
}

// For the image of the generator of one field in another.
pub(crate) fn image_question<P: Port>(
    port: &P,
    from: &FieldName,
    into: &FieldName,
) -> Result<Question, SessionRefusal>
    requires { HasSeen (P.knowledge port.now) }
    ensures { Asked (P.knowledge port.now) (Map from.now into.now) result }
{
    let from = field_word(port, from)?;
    let into = field_word(port, into)?;
    Ok(Question::Map { from, into })
}

// For the field in which two fields meet in a third one.
pub(crate) fn meet_question<P: Port>(
    port: &P,
    first: &FieldName,
    second: &FieldName,
    within: &FieldName,
) -> Result<Question, SessionRefusal>
    requires { HasSeen (P.knowledge port.now) }
    ensures { Asked (P.knowledge port.now) (Meet first.now second.now within.now) result }
{
    let i = field_word(port, first)?;
    let j = field_word(port, second)?;
    let k = field_word(port, within)?;
    Ok(Question::Meet { i, j, k })
}

// For a common overfield of two fields.
pub(crate) fn common_question<P: Port>(
    port: &P,
    first: &FieldName,
    second: &FieldName,
) -> Result<Question, SessionRefusal>
    requires { HasSeen (P.knowledge port.now) }
    ensures { Asked (P.knowledge port.now) (Common first.now second.now) result }
{
    let a = field_word(port, first)?;
    let b = field_word(port, second)?;
    Ok(Question::Common { a, b })
}

// For the stored subfields of a field.
pub(crate) fn subfields_question<P: Port>(
    port: &P,
    field: &FieldName,
) -> Result<Question, SessionRefusal>
    requires { HasSeen (P.knowledge port.now) }
    ensures { Asked (P.knowledge port.now) (commands.List field.now) result }
{
    let number = field_word(port, field)?;
    Ok(Question::Subfields(number))
}

impl Session {
    // For the minimal polynomial of a variable's value over the prime field.
    pub(crate) fn minimal_question(&self, value: &FieldName) -> Result<Question, SessionRefusal>
        ensures { (L : Lattice) → Questions L self.now (MinPoly value.now) result }
    {
        let operand = self.operand(value)?;
        Ok(Question::MinPoly(operand))
    }

    // For the minimal polynomial of a variable's value over a field.
    pub(crate) fn minimal_over_question<P: Port>(
        &self,
        port: &P,
        value: &FieldName,
        over: &FieldName,
    ) -> Result<Question, SessionRefusal>
        requires { HasSeen (P.knowledge port.now) }
        ensures { OverSeen (P.knowledge port.now)
            (λ L. Questions L self.now (MinPolyOver value.now over.now) result) }
    {
        let operand = self.operand(value)?;
        let number = field_word(port, over)?;
        Ok(Question::MinPolyOver {
            value: operand,
            over: number,
        })
    }
}
