//! What is read over a port.

ghost use Rattle.std.specs.Prelude.{◌≡◌, length, MatchResult};
ghost use Rattle.alg_model.specs.Lattices.{field_at};
ghost use Rattle.lat_core.specs.Step.{IsNamed};
ghost use Rattle.lat_core.specs.Answers.{IsNumber};
ghost use Rattle.lat_session.specs.Outcomes.{IsFieldWord, name_at, refusal_of};
ghost use Rattle.lat_session.specs.PrivatePlaying.{HasSeen, SomeSeen, OverSeen};

use ff_field::Field;
use lat_core::{Answer, CoerceFault, FieldName, Line, Outcome, Port, Question, SessionRefusal};

// An outcome over the lattice that is seen, with its mark.
pub(crate) fn marked<P: Port>(port: &P, outcome: Outcome) -> Line
    ensures { result ≡ record {
      outcome = outcome;
      mark = length (P.knowledge port.now).seen;
    } }
{
    Line {
        outcome,
        mark: port.front(),
    }
}

// A refusal with its mark.
pub(crate) fn refused<P: Port>(port: &P, refusal: SessionRefusal) -> Line
    ensures { result ≡ record {
      outcome = Outcome.Refused refusal;
      mark = length (P.knowledge port.now).seen;
    } }
{
    marked(port, Outcome::Refused(refusal))
}

// Why a command is refused where a question about values has no answer.
pub(crate) fn refusal_of_fault(fault: CoerceFault) -> SessionRefusal
    ensures { result ≡ refusal_of fault }
{
    match fault {
        CoerceFault::NotEmbedded { i, j } => SessionRefusal::NotEmbedded { i, j },
        CoerceFault::NotInImage => SessionRefusal::NotInImage,
        CoerceFault::NoCommonField { a, b } => SessionRefusal::NoCommonField { a, b },
    }
}

// The number of the field of this name; a refusal where there is none.
pub(crate) fn field_word<P: Port>(port: &P, name: &FieldName) -> Result<u32, SessionRefusal>
    requires { HasSeen (P.knowledge port.now) }
    ensures { OverSeen (P.knowledge port.now) (λ L. MatchResult result
        (λ n. IsNamed L n name.now)
        (λ refusal. (refusal ≡ SessionRefusal.UnknownField name.now)
        × (¬ IsFieldWord L name.now))) }
{
    match port.read(&Question::FieldNamed(name.copy())) {
        Answer::Known { number, .. } => Ok(number),
        Answer::Unknown => Err(SessionRefusal::UnknownField(name.copy())),
        _ => unreachable!(),
    }
}

// The name of the field of this number.
pub(crate) fn name_of<P: Port>(port: &P, number: u32) -> FieldName
    requires { SomeSeen (P.knowledge port.now) (λ L. IsNumber L number) }
    ensures { OverSeen (P.knowledge port.now) (λ L. result ≡ name_at L number) }
{
    match port.read(&Question::FieldAt(number)) {
        Answer::Known { name, .. } => name,
        _ => unreachable!(),
    }
}

// The field of this number.
pub(crate) fn field_of<P: Port>(port: &P, number: u32) -> Field
    requires { SomeSeen (P.knowledge port.now) (λ L. IsNumber L number) }
    ensures { OverSeen (P.knowledge port.now) (λ L. result ≡ field_at L.rows number) }
{
    match port.read(&Question::FieldAt(number)) {
        Answer::Known { field, .. } => field,
        _ => unreachable!(),
    }
}
