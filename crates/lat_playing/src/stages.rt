//! The sessions of a script, over one book.

ghost use Rattle.std.specs.Prelude.{◌≡◌, ◌∷◌, [], ◌+◌, ◌<◌, length, map, pred, replicate, set, slice_index_or, OnOk};
ghost use Rattle.lat_session.specs.Outcomes.{operations_of};
ghost use Rattle.lat_playing.specs.Worlds.{rest_from};
ghost use Rattle.lat_playing.specs.PrivatePlays.{AreReady, left_counts, Advances};

use crate::players::Player;
use lat_core::NoMemory;
use lat_history::Book;
use natural_ops::{Operation, Ops};

// The player at this place plays its next command, if there is such a player and it has one left.
fn play_at<F: Operation, G: Operation, H: Operation>(
    book: &mut Book,
    players: &mut Vec<Player>,
    place: usize,
    ops: &Ops<F, G, H>,
) -> Result<(), NoMemory>
    requires ready { AreReady book.old players.old.items }
    ensures advances { OnOk result (Advances
        (operations_of ops.now.first ops.now.second ops.now.third) (place ∷ [])
        book.old players.old.items book.new players.new.items) }
    ensures counts { OnOk result (left_counts players.new.items
        ≡ set (left_counts players.old.items) place
        (pred (slice_index_or (left_counts players.old.items) place 0))) }
    ensures ready { OnOk result (AreReady book.new players.new.items) }
{
    if place >= players.len() {
        return Ok(());
    }
    players[place].play_next(book, ops)
}

// The player at this place plays all that is left to it.
fn play_out<F: Operation, G: Operation, H: Operation>(
    book: &mut Book,
    players: &mut Vec<Player>,
    place: usize,
    ops: &Ops<F, G, H>,
) -> Result<(), NoMemory>
    requires ready { AreReady book.old players.old.items }
    requires within { place < length players.old.items }
    ensures advances { OnOk result (Advances
        (operations_of ops.now.first ops.now.second ops.now.third)
        (replicate (slice_index_or (left_counts players.old.items) place 0) place)
        book.old players.old.items book.new players.new.items) }
    ensures counts { OnOk result (left_counts players.new.items
        ≡ set (left_counts players.old.items) place 0) }
    ensures ready { OnOk result (AreReady book.new players.new.items) }
{
    for _turn in 0..players[place].left.len() {
        play_at(book, players, place, ops)?;
    }
    Ok(())
}

// One player after the other plays all that is left to it.
pub(crate) fn play_rest<F: Operation, G: Operation, H: Operation>(
    book: &mut Book,
    players: &mut Vec<Player>,
    ops: &Ops<F, G, H>,
) -> Result<(), NoMemory>
    requires ready { AreReady book.old players.old.items }
    ensures advances { OnOk result (Advances
        (operations_of ops.now.first ops.now.second ops.now.third)
        (rest_from 0 (left_counts players.old.items))
        book.old players.old.items book.new players.new.items) }
    ensures ready { OnOk result (AreReady book.new players.new.items) }
{
    for place in 0..players.len() {
        play_out(book, players, place, ops)?;
    }
    Ok(())
}

// The players at the places of a schedule, which counts them without the first, play a command each.
pub(crate) fn play_schedule<F: Operation, G: Operation, H: Operation>(
    book: &mut Book,
    players: &mut Vec<Player>,
    schedule: &[u8],
    ops: &Ops<F, G, H>,
) -> Result<(), NoMemory>
    requires ready { AreReady book.old players.old.items }
    ensures advances { OnOk result (Advances
        (operations_of ops.now.first ops.now.second ops.now.third)
        (map (λ place. place + 1) schedule.now)
        book.old players.old.items book.new players.new.items) }
    ensures ready { OnOk result (AreReady book.new players.new.items) }
{
    for place in schedule {
        play_at(book, players, usize::from(*place) + 1, ops)?;
    }
    Ok(())
}
