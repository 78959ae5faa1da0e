// The book of one plant: reads commands from standard input, a line each, and answers on standard output.
#![tactic(auto)]

use anyhow::anyhow;
use change::refusal::Refusal;
use console::number::plant;
use std::env;
use std::io::{BufRead, BufReader};

const USAGE: &str = "usage: book PLANT, with a plant from 0 to 15";

fn run(rt: &HostRuntime) -> anyhow::Result<()> {
    let mut words = env::args(rt)?;
    let _program = words.next();
    let Some(word) = words.next() else {
        return Err(anyhow!(USAGE));
    };
    let Some(_plant) = plant(word.as_str()) else {
        return Err(anyhow!(USAGE));
    };
    for line in BufReader::new(rt.alloc(), rt.stdin())?.lines(rt.alloc()) {
        let _line = line?;
        let number = Refusal::Malformed.number();
        println!(rt; "refused {number}: no such command")?;
    }
    Ok(())
}

fn main(rt: HostRuntime) -> anyhow::Result<()> {
    run(&rt)
}
