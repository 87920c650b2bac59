//! One command of a session.

ghost use Rattle.std.specs.Prelude.{◌≡◌, IfOk, OnErr};
ghost use Rattle.lat_core.specs.Histories.{IsKnowledge, IsUnplaced};
ghost use Rattle.lat_session.specs.Commands.{IsProperCommand};
ghost use Rattle.lat_session.specs.Outcomes.{operations_of, KeepsValues};
ghost use Rattle.lat_session.specs.Playing.{FitSeen, PlaysOver};
ghost use Rattle.lat_session.specs.PrivatePlaying.{IsPlayed};

use crate::asking::{asked, common_question, image_question, meet_question, subfields_question};
use crate::changes::{change, declare, embed};
use crate::computing::values_kept;
use crate::sessions::Session;
use lat_core::{Line, NoMemory, Port, Question, Request};
use lat_language::Command;
use natural_ops::{Operation, Ops};

impl Session {
    /// Plays a command over a port, and gives its line.
    ///
    /// A field is declared under a declared name, and the variables are values of fields of the
    /// lattice that the port has seen; they are again afterwards. Where memory is refused, no
    /// change was entered, and the variables are as before.
    pub fn play<P: Port, F: Operation, G: Operation, H: Operation>(
        &mut self,
        port: &mut P,
        command: &Command,
        ops: &Ops<F, G, H>,
    ) -> Result<Line, NoMemory>
        requires proper { IsProperCommand command.now }
        requires fit { FitSeen (P.knowledge port.old) self.old }
        ensures line { IfOk result (PlaysOver
            (operations_of ops.now.first ops.now.second ops.now.third)
            (P.knowledge port.old) self.old command.now (P.knowledge port.new) self.new) }
        ensures unplaced { OnErr result
            (IsUnplaced (P.knowledge port.old) (P.knowledge port.new)) }
        ensures kept { OnErr result (self.new ≡ self.old) }
        ensures fit { FitSeen (P.knowledge port.new) self.new }
        ensures known { IsKnowledge (P.knowledge port.new) }
        ensures borrowed { P.borrows port.new ≡ P.borrows port.old }
    {
        let _front = port.front();
        values_kept(ops);
        self.played(port, command, ops)
    }

    // The same, a command at a time.
    fn played<P: Port, F: Operation, G: Operation, H: Operation>(
        &mut self,
        port: &mut P,
        command: &Command,
        ops: &Ops<F, G, H>,
    ) -> Result<Line, NoMemory>
        requires proper { IsProperCommand command.now }
        requires fit { FitSeen (P.knowledge port.old) self.old }
        requires known { IsKnowledge (P.knowledge port.old) }
        requires kept { KeepsValues (operations_of ops.now.first ops.now.second ops.now.third) }
        ensures { IsPlayed (operations_of ops.now.first ops.now.second ops.now.third)
            (P.knowledge port.old) self.old command.now (P.knowledge port.new) self.new
            (P.borrows port.old) (P.borrows port.new) result }
    {
        match command {
            Command::Field { name, p, poly } => change(port, &declare(name, *p, poly)),
            Command::Embed { from, into } => change(port, &embed(from, into, None)),
            Command::EmbedSending {
                from,
                into,
                value,
                image,
            } => self.embed_sending(port, from, into, value, image),
            Command::Sync => change(port, &Request::Sync),
            Command::Let {
                result,
                field,
                digits,
            } => {
                let computed = self.digits_in(port, field, digits);
                self.keep(port, result, computed)
            }
            Command::Add {
                result,
                left,
                right,
            } => {
                let computed = self.sum(port, left, right);
                self.keep(port, result, computed)
            }
            Command::Mul {
                result,
                left,
                right,
            } => {
                let computed = self.product(port, left, right);
                self.keep(port, result, computed)
            }
            Command::Inv { result, value } => {
                let computed = self.inverse(port, value);
                self.keep(port, result, computed)
            }
            Command::Pow {
                result,
                value,
                exponent,
            } => {
                let computed = self.power(port, value, *exponent);
                self.keep(port, result, computed)
            }
            Command::Frob { result, value } => {
                let computed = self.frobenius(port, value);
                self.keep(port, result, computed)
            }
            Command::Trace { result, value } => {
                let computed = self.trace(port, value);
                self.keep(port, result, computed)
            }
            Command::Norm { result, value } => {
                let computed = self.norm(port, value);
                self.keep(port, result, computed)
            }
            Command::Lift { result, value, to } => {
                let computed = self.lift(port, value, to);
                self.keep(port, result, computed)
            }
            Command::Apply { result, op, value } => {
                let computed = self.applied(port, *op, value, ops);
                self.keep(port, result, computed)
            }
            Command::Show { value } => Ok(self.show(port, value)),
            Command::Map { from, into } => Ok(asked(port, image_question(port, from, into))),
            Command::Meet {
                first,
                second,
                within,
            } => Ok(asked(port, meet_question(port, first, second, within))),
            Command::Common { first, second } => {
                Ok(asked(port, common_question(port, first, second)))
            }
            Command::MinPoly { value } => Ok(asked(port, self.minimal_question(value))),
            Command::MinPolyOver { value, over } => {
                Ok(asked(port, self.minimal_over_question(port, value, over)))
            }
            Command::List { field } => Ok(asked(port, subfields_question(port, field))),
            Command::Count => Ok(asked(port, Ok(Question::Count))),
        }
    }
}
