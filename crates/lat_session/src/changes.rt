//! Commands that ask for a change.

ghost use Rattle.std.specs.Prelude.{◌≡◌, IfOk, OnErr};
ghost use Rattle.lat_core.specs.Step.{IsProperRequest};
ghost use Rattle.lat_core.specs.Histories.{IsKnowledge, IsUnplaced};
ghost use Rattle.lat_session.specs.PrivatePlaying.{HasSeen, Sends, ChangesTo, Embeds};

use crate::reading::refused;
use crate::sessions::Session;
use lat_core::{
    ChangeFault, Digits, FieldName, Line, NoMemory, Outcome, Port, Request, Sending, SessionRefusal,
};

// The request to declare a field.
pub(crate) fn declare(name: &FieldName, p: u32, poly: &Digits) -> Request
    ensures { result ≡ Request.Declare name.now p poly.now }
{
    Request::Declare {
        name: name.copy(),
        p,
        poly: poly.copy(),
    }
}

// The request to embed one field into another.
pub(crate) fn embed(from: &FieldName, into: &FieldName, sending: Option<Sending>) -> Request
    ensures { result ≡ Request.Embed from.now into.now sending }
{
    Request::Embed {
        from: from.copy(),
        into: into.copy(),
        sending,
    }
}

// Enters a change.
pub(crate) fn change<P: Port>(port: &mut P, request: &Request) -> Result<Line, NoMemory>
    requires proper { IsProperRequest request.now }
    ensures line { IfOk result
        (ChangesTo (P.knowledge port.old) request.now (P.knowledge port.new)) }
    ensures unplaced { OnErr result
        (IsUnplaced (P.knowledge port.old) (P.knowledge port.new)) }
    ensures known { IsKnowledge (P.knowledge port.new) }
    ensures borrowed { P.borrows port.new ≡ P.borrows port.old }
{
    match port.change(request) {
        Ok(placed) => Ok(Line {
            outcome: Outcome::Changed(placed.reply),
            mark: placed.place,
        }),
        Err(ChangeFault::HistoryFull(length)) => Ok(Line {
            outcome: Outcome::Refused(SessionRefusal::HistoryFull(length)),
            mark: port.front(),
        }),
        Err(ChangeFault::NoMemory) => Err(NoMemory),
    }
}

impl Session {
    // The values of two variables as a prescribed pair.
    fn sending(&self, value: &FieldName, image: &FieldName) -> Result<Sending, SessionRefusal>
        ensures { Sends self.now value.now image.now result }
    {
        let value = self.operand(value)?;
        let image = self.operand(image)?;
        Ok(Sending { value, image })
    }

    // Embeds one field into another, sending the value of one variable to that of another.
    pub(crate) fn embed_sending<P: Port>(
        &self,
        port: &mut P,
        from: &FieldName,
        into: &FieldName,
        value: &FieldName,
        image: &FieldName,
    ) -> Result<Line, NoMemory>
        requires { HasSeen (P.knowledge port.old) }
        ensures line { IfOk result (Embeds (P.knowledge port.old) self.now from.now into.now
            value.now image.now (P.knowledge port.new)) }
        ensures unplaced { OnErr result
            (IsUnplaced (P.knowledge port.old) (P.knowledge port.new)) }
        ensures known { IsKnowledge (P.knowledge port.new) }
        ensures borrowed { P.borrows port.new ≡ P.borrows port.old }
    {
        let _front = port.front();
        match self.sending(value, image) {
            Ok(pair) => change(port, &embed(from, into, Some(pair))),
            Err(refusal) => Ok(refused(port, refusal)),
        }
    }
}
