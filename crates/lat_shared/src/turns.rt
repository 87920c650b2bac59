//! One turn at a gate.

ghost use Rattle.std.specs.Prelude.{◌≡◌, [], ◌∷◌, IfOk, IfErr};
ghost use Rattle.lat_core.specs.Step.{IsProperRequest};
ghost use Rattle.lat_core.specs.Histories.{entries_of};
ghost use Rattle.lat_gate.specs.Passes.{known, IsPassOf};
ghost use Rattle.lat_shared.specs.PrivateTurns.{IsTurnPlayed, IsTurnLost};

use crate::books::SharedBook;
use lat_core::{ChangeFault, Request};
use lat_gate::{Gate, Pass};
use lat_history::Played;
use std::sync::Wait;

// Waits for the book, and answers a session's request with it.
pub(crate) fn play_in_turn<R: Wait>(
    rt: &R,
    gate: &Gate<SharedBook>,
    pass: Pass<SharedBook>,
    session: u32,
    request: &Request,
) -> (Pass<SharedBook>, Result<Played, ChangeFault>)
    requires of_gate { IsPassOf gate.now pass }
    requires own { (known pass).own ≡ (session, entries_of session (known pass).seen) ∷ [] }
    requires proper { IsProperRequest request.now }
    ensures played { IfOk result.1
        (IsTurnPlayed (known pass) session request.now (known result.0)) }
    ensures lost { IfErr result.1 (IsTurnLost (known pass) session (known result.0)) }
{
    let mut turn = gate.take(rt, pass);
    match turn.machine().play(session, request) {
        Ok(played) => (turn.publish(), Ok(played)),
        Err(fault) => (turn.give_back(), Err(fault)),
    }
}
