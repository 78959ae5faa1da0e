// A sheet made in memory and shown: a first line, two that nobody has put in order, and one behind one of these.
#![tactic(auto)]

use change::names::Line;
use change::span::Span;
use sheet::line::LineAt;
use sheet::show;
use std::alloc::{AllocError, Global};
use std::io::Write;
use table::Table;

const AREA: &[u8; 51] = b"Open the panel.Torque to 9 Nm.Fit safety wire.Seal.";

const LINES: [LineAt; 4] = [
    LineAt {
        number: Line(1024),
        slot: 2,
        text: Span { start: 0, len: 15 },
    },
    LineAt {
        number: Line(1088),
        slot: 3,
        text: Span { start: 15, len: 15 },
    },
    LineAt {
        number: Line(1152),
        slot: 4,
        text: Span { start: 30, len: 16 },
    },
    LineAt {
        number: Line(2048),
        slot: 5,
        text: Span { start: 46, len: 5 },
    },
];

fn shown(heap: Global) -> Result<Vec<u8>, AllocError> {
    let mut bits = [0; 6];
    let Some(mut table) = Table::new(&mut bits, 6) else {
        return Ok(Vec::new(heap));
    };
    table.between(2, 0, 1);
    table.between(3, 2, 1);
    table.between(4, 2, 1);
    table.between(5, 3, 1);
    show(heap, &table, &LINES, AREA)
}

fn main(rt: HostRuntime) -> anyhow::Result<()> {
    let bytes = shown(rt.alloc())?;
    rt.stdout().write_all(bytes.as_slice())?;
    Ok(())
}
