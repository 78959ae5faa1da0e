// The lines of a script are played: a command is performed at a plant's desk, or one plant's changes are passed on to another.
ghost use Rattle.std.specs.Prelude.{◌<◌, length};
ghost use Rattle.console.specs.Meaning.{meaning_of};
ghost use Rattle.rehearse.specs.Playing.{Told, PassedAt, Passed, Played};

use crate::script::{ScriptLine, read};
use crate::seats::{Seat, fit_both, take_seat};
use answers::refused;
use change::names::Plant;
use change::refusal::Refusal;
use console::command::Command;
use std::alloc::{AllocError, Global};

// Sends from the book at one place to that at another whatever it lacks.
fn send_between(
    heap: Global,
    seats: &mut [Seat<'_>],
    sender: usize,
    receiver: usize,
    out: &mut Vec<u8>,
) -> Result<(), AllocError>
    requires sender { sender < length seats.old }
    requires receiver { receiver < length seats.old }
    ensures { PassedAt (Some sender) (Some receiver) seats.old seats.new out.old.items out.new.items result }
{
    let names = seats[receiver].desk.book.have(heap)?;
    match seats[sender].desk.letter_for(heap, names.as_slice())? {
        Some(letter) => seats[receiver].desk.take(heap, letter.as_slice(), out),
        None => refused(out, Refusal::Malformed),
    }
}

// Sends from one plant's book to another's whatever it lacks.
fn pass(
    heap: Global,
    seats: &mut [Seat<'_>],
    from: Plant,
    to: Plant,
    out: &mut Vec<u8>,
) -> Result<(), AllocError>
    ensures { Passed from.number to.number seats.old seats.new out.old.items out.new.items result }
{
    if !fit_both(seats, from, to) {
        return refused(out, Refusal::Malformed);
    }
    let sender = take_seat(seats, from);
    let receiver = take_seat(seats, to);
    match (sender, receiver) {
        (Some(sender), Some(receiver)) => send_between(heap, seats, sender, receiver, out),
        _ => refused(out, Refusal::Malformed),
    }
}

// A command for the book of a plant.
fn tell(
    heap: Global,
    seats: &mut [Seat<'_>],
    plant: Plant,
    command: Command<'_>,
    out: &mut Vec<u8>,
) -> Result<(), AllocError>
    ensures { Told plant.number (meaning_of command.entry) seats.old seats.new out.old.items out.new.items result }
{
    match take_seat(seats, plant) {
        Some(place) => seats[place].desk.perform(heap, command, out),
        None => refused(out, Refusal::Malformed),
    }
}

// Plays a line of the script.
pub fn play(
    heap: Global,
    seats: &mut [Seat<'_>],
    line: &[u8],
    out: &mut Vec<u8>,
) -> Result<(), AllocError>
    ensures { Played line.now seats.old seats.new out.old.items out.new.items result }
{
    let Ok(line) = str::from_utf8(line) else {
        return refused(out, Refusal::Malformed);
    };
    match read(line) {
        Some(ScriptLine::Tell(plant, command)) => tell(heap, seats, plant, command, out),
        Some(ScriptLine::Pass(from, to)) => pass(heap, seats, from, to, out),
        None => refused(out, Refusal::Malformed),
    }
}
