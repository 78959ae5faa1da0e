// Plays a script for up to four books in memory: each line after a plant's number, and `pass I J`, which sends from one book to another whatever it lacks.
#![tactic(auto)]

use anyhow::anyhow;
use free_seats::seats_in;
use plant_books::memory::Memory;
use playing::play;
use seats::Seat;
use std::io::{BufRead, BufReader, Write};

mod free_seats;
mod playing;
mod script;
mod seats;

const SEATS: usize = 4;

const NO_MEMORY: &str = "four books need more memory";

// Plays each line of the input.
fn play_all(rt: &HostRuntime, seats: &mut [Seat<'_>]) -> anyhow::Result<()> {
    let heap = rt.alloc();
    // A byte 13 before the end of a line is a part of it, so lines are not told by `lines`.
    for line in BufReader::new(heap, rt.stdin())?.split(heap, b'\n') {
        let mut out = Vec::new(heap);
        play(heap, seats, line?.as_slice(), &mut out)?;
        rt.stdout().write_all(out.as_slice())?;
    }
    Ok(())
}

fn run(rt: &HostRuntime) -> anyhow::Result<()> {
    let heap = rt.alloc();
    let mut memories = Vec::new(heap);
    for _ in 0..SEATS {
        memories.push(Memory::new(heap)?)?;
    }
    let Some(mut seats) = seats_in(heap, memories.as_mut_slice())? else {
        return Err(anyhow!(NO_MEMORY));
    };
    play_all(rt, seats.as_mut_slice())
}

fn main(rt: HostRuntime) -> anyhow::Result<()> {
    run(&rt)
}
