//! The parser: one pass over the lines.

ghost use Rattle.std.specs.Prelude.{◌≡◌, ◌⊎◌, ℕ, ◌<◌, ◌≤◌, ◌↔◌, true, IsTrue, length, Ok, Err, IfOk};
ghost use Rattle.lat_language.specs.declared.scripts.Script.{Script};
ghost use Rattle.lat_language.specs.Grammar.{at_start, words_of, after, OfCommand, OfSession, OfSchedule, IsPassedOver, Spells, FirstBad, LeadsToScript};
ghost use Rattle.lat_language.specs.PrivateParsing.{command_faults, session_faults, schedule_faults, Adds, at_line, TakesLine, Reads};

use crate::commands::Command;
use crate::cutting::first_line;
use crate::line_faults::LineFault;
use crate::line_forms::{command, is_header, is_passed_over, scheduled_names, session_name};
use crate::places::{push_command, push_places, session_place};
use crate::script_faults::{
    AFTER_SCHEDULE, NO_FORM, NO_HEADER, SESSION_TWICE, ScriptFault, TOO_LONG, TOO_MANY_COMMANDS,
    TOO_MANY_SESSIONS,
};
use crate::scripts::{MAX_COMMANDS, MAX_LINE, MAX_SCRIPT, MAX_SESSIONS, Script, SessionScript};
use crate::sequences::Sequence;
use lat_core::FieldName;
use std::alloc::Global;
use std::marker::Model;

// What the lines so far have said, and how many commands stand there.
#[derive(Drop)]
struct Reader {
    alloc: Global,
    begun: bool,
    commands: usize,
    prologue: Sequence<Command>,
    sessions: Sequence<SessionScript>,
    schedule: Sequence<u8>,
}

impl Model for Reader {
    ghost use Rattle.lat_language.specs.Grammar.{State};

    ghost Value = { State };

    ghost view = { λ reader. record {
      begun = reader.begun;
      prologue = reader.prologue;
      sessions = reader.sessions;
      schedule = reader.schedule;
    } };

    ghost use Rattle.lat_language.specs.PrivateParsing.{IsCounted};

    ghost invariant = { λ reader.
        IsCounted reader.prologue reader.sessions reader.commands };
}

impl Reader {
    fn new(alloc: Global) -> Reader
        ensures { result ≡ at_start }
    {
        Reader {
            alloc,
            begun: false,
            commands: 0,
            prologue: Sequence::new(alloc),
            sessions: Sequence::new(alloc),
            schedule: Sequence::new(alloc),
        }
    }

    // Whether a `schedule` line stands before.
    fn is_scheduled(&self) -> bool
        ensures { IsTrue result ↔ (0 < length self.now.schedule) }
    {
        !self.schedule.items().is_empty()
    }

    // Adds a command to the prologue, or to the last session.
    fn add_command(&mut self, command: Command) -> Result<(), LineFault>
        ensures { Adds (command_faults self.old) (after self.old (OfCommand command))
            self.new result }
    {
        if self.is_scheduled() {
            return Err(LineFault::Bad(AFTER_SCHEDULE));
        }
        let full = self.commands >= MAX_COMMANDS;
        if full {
            return Err(LineFault::Bad(TOO_MANY_COMMANDS));
        }
        push_command(&mut self.prologue, &mut self.sessions, command)?;
        self.commands += 1;
        Ok(())
    }

    // Begins a session.
    fn add_session(&mut self, name: FieldName) -> Result<(), LineFault>
        ensures { Adds (session_faults self.old name) (after self.old (OfSession name))
            self.new result }
    {
        if self.is_scheduled() {
            return Err(LineFault::Bad(AFTER_SCHEDULE));
        }
        let full = self.sessions.items().len() >= MAX_SESSIONS;
        if full {
            return Err(LineFault::Bad(TOO_MANY_SESSIONS));
        }
        if session_place(self.sessions.items(), name.bytes()).is_some() {
            return Err(LineFault::Bad(SESSION_TWICE));
        }
        let commands = Sequence::new(self.alloc);
        self.sessions.push(SessionScript { name, commands })?;
        Ok(())
    }

    // Adds the places of sessions to the schedule; the text has their names.
    fn add_schedule(&mut self, names: &[u8]) -> Result<(), LineFault>
        ensures { Adds (schedule_faults self.old.sessions (words_of names.now))
            (after self.old (OfSchedule (words_of names.now))) self.new result }
    {
        push_places(&mut self.schedule, self.sessions.items(), names)
    }

    // Takes a line behind the header that isn't passed over.
    fn take_form(&mut self, line: &[u8]) -> Result<(), LineFault>
        requires begun { self.old.begun ≡ true }
        requires fits { length line.now ≤ MAX_LINE }
        requires other { ¬ (IsPassedOver line.now) }
        ensures { TakesLine self.old line.now self.new result }
    {
        if let Some(command) = command(line) {
            return self.add_command(command);
        }
        if let Some(name) = session_name(line) {
            return self.add_session(name);
        }
        match scheduled_names(line) {
            Some(names) => self.add_schedule(names),
            None => Err(LineFault::Bad(NO_FORM)),
        }
    }

    // Takes the next line.
    #[tactic(auto, using(crate::proofs::LineMeanings::says_too_long, crate::proofs::LineMeanings::says_no_header))]
    fn take(&mut self, line: &[u8]) -> Result<(), LineFault>
        ensures { TakesLine self.old line.now self.new result }
    {
        let too_long = line.len() > MAX_LINE;
        if too_long {
            return Err(LineFault::Bad(TOO_LONG));
        }
        if is_passed_over(line) {
            return Ok(());
        }
        if self.begun {
            return self.take_form(line);
        }
        if !is_header(line) {
            return Err(LineFault::Bad(NO_HEADER));
        }
        self.begun = true;
        Ok(())
    }
}

// What the bytes mean, by one pass over their lines.
fn read(alloc: Global, bytes: &[u8]) -> Result<Script, ScriptFault>
    requires { length bytes.now ≤ MAX_SCRIPT }
    ensures { Reads bytes.now result }
{
    let mut reader = Reader::new(alloc);
    let mut number: u32 = 1;
    let mut rest = bytes;
    while let Some((line, after)) = first_line(rest) {
        if let Err(fault) = reader.take(line) {
            return Err(fault.at(number));
        }
        rest = after;
        number += 1;
    }
    if reader.begun {
        Ok(Script {
            prologue: reader.prologue,
            sessions: reader.sessions,
            schedule: reader.schedule,
        })
    } else {
        Err(ScriptFault::Line {
            number: 1,
            kind: NO_HEADER,
        })
    }
}

/// The one script that the bytes spell, or their first fault: the first bad line, counted from 1
/// over all lines, and the kind of its fault. One pass over the bytes, which aren't copied. Memory
/// is taken for the commands, the sessions and the schedule alone.
pub fn parse(alloc: Global, bytes: &[u8]) -> Result<Script, ScriptFault>
    requires { length bytes.now ≤ MAX_SCRIPT }

    ensures script { IfOk result (λ script. Spells bytes.now script) }
    ensures fault { (n kind : ℕ) → result ≡ Err (ScriptFault.Line n kind)
        → FirstBad bytes.now n kind }

    // A text that spells a script gives it, and one with a fault gives that.
    ensures every_script { (script : Script) → Spells bytes.now script
        → (result ≡ Ok script) ⊎ (result ≡ Err ScriptFault.NoMemory) }
    ensures every_fault { (n kind : ℕ) → FirstBad bytes.now n kind
        → (result ≡ Err (ScriptFault.Line n kind)) ⊎ (result ≡ Err ScriptFault.NoMemory) }

    // Memory is wanted only behind first lines that spell a script.
    ensures memory { result ≡ Err ScriptFault.NoMemory → LeadsToScript bytes.now }
{
    read(alloc, bytes)
}
