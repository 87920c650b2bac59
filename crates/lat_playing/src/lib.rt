//! Playing a script: its sessions over one history.
#![tactic(auto)]

mod laws;
mod openings;
mod players;
mod plays;
mod stages;
mod transcripts;

pub use laws::{
    answered_sessions_are_worlds, fair_transcripts_are_by_places, histories_hold_changes,
    lines_answer_commands, schedules_are_events, scripts_are_finished, scripts_have_one_transcript,
    scripts_have_transcripts,
};
pub use plays::{Performance, perform_prologue, play_solo};
