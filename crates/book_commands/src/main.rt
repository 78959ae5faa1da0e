// The book of one plant, in memory: performs commands from standard input, a line each, and answers on standard output. It is to take the place of `book`.
#![tactic(auto)]

use anyhow::anyhow;
use console::number::plant;
use desk::Desk;
use plant_books::book::Book;
use plant_books::memory::Memory;
use std::env;
use std::io::{BufRead, BufReader, Write};

const USAGE: &str = "usage: book_commands PLANT, with a plant from 0 to 15";

// Answers each line of the input.
fn serve(rt: &HostRuntime, desk: &mut Desk<'_>) -> anyhow::Result<()> {
    let heap = rt.alloc();
    // A byte 13 before the end of a line is a part of it, so lines are not told by `lines`.
    for line in BufReader::new(heap, rt.stdin())?.split(heap, b'\n') {
        let mut out = Vec::new(heap);
        desk.answer_bytes(heap, line?.as_slice(), &mut out)?;
        rt.stdout().write_all(out.as_slice())?;
    }
    Ok(())
}

fn run(rt: &HostRuntime) -> anyhow::Result<()> {
    let mut words = env::args(rt)?;
    let _program = words.next();
    let Some(word) = words.next() else {
        return Err(anyhow!(USAGE));
    };
    let Some(plant) = plant(word.as_str()) else {
        return Err(anyhow!(USAGE));
    };
    let heap = rt.alloc();
    let mut memory = Memory::new(heap)?;
    let Some(book) = Book::new(
        heap,
        plant.number(),
        &mut memory.area,
        &mut memory.room,
        &mut memory.bits,
    )?
    else {
        return Err(anyhow!("a book needs more memory"));
    };
    serve(rt, &mut Desk::new(heap, book))
}

fn main(rt: HostRuntime) -> anyhow::Result<()> {
    run(&rt)
}
