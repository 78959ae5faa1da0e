// The blocks of a walk: each ends at the first place where all of it stand before all that is to come.
ghost use Rattle.std.specs.Prelude.{◌≡◌, ◌-◌, ◌<◌, ◌≤◌, length};
ghost use Rattle.std.specs.Iterator.{at_most};
ghost use Rattle.table.specs.Held.{held};
ghost use Rattle.sheet.specs.Ends.{LastBeside, Reach, BlockEnd};
ghost use Rattle.sheet.specs.Blocks.{NextBlock};

use crate::line::LineAt;
use table::Table;

// The last of the lines that the slot doesn't stand before.
fn last_beside(table: &Table<'_>, slot: usize, lines: &[LineAt]) -> Option<usize>
    ensures { LastBeside (held table.now) slot lines.now result }
{
    lines
        .iter()
        .rposition(|line| !table.before(slot, line.slot))
}

// The end of the lines that share a block with the one at this place: it stands before all from there on.
fn reach(table: &Table<'_>, walked: &[LineAt], place: usize) -> usize
    requires within { place < length walked.now }
    ensures { Reach (held table.now) walked.now place result }
{
    match last_beside(table, walked[place].slot, &walked[place + 1..]) {
        Some(last) => place + last + 2,
        None => place + 1,
    }
}

// The end of a block that has the lines from `place` up to `end`, and maybe more.
pub fn block_end(table: &Table<'_>, walked: &[LineAt], place: usize, end: usize) -> usize
    requires ahead { place ≤ end }
    requires within { end ≤ length walked.now }
    ensures { BlockEnd (held table.now) walked.now place end result }
{
    if place >= end {
        end
    } else {
        let far = reach(table, walked, place);
        block_end(table, walked, place + 1, end.max(far))
    }
}

// A block of a walk, and the lines above it.
#[derive(Clone, Copy)]
pub struct Block<'w> {
    pub above: &'w [LineAt],
    pub lines: &'w [LineAt],
}

// The blocks of a walk, from a place on where one begins.
#[derive(Drop)]
pub struct Blocks<'t, 'a, 'w> {
    table: &'t Table<'a>,
    walked: &'w [LineAt],
    start: usize,
    ghost within: { start ≤ length walked.now },
}

impl<'t, 'a, 'w> Blocks<'t, 'a, 'w> {
    pub fn new(table: &'t Table<'a>, walked: &'w [LineAt]) -> Blocks<'t, 'a, 'w>
        ensures table { result.table.now ≡ table.now }
        ensures walked { result.walked.now ≡ walked.now }
        ensures start { result.start ≡ 0 }
    {
        Blocks {
            table,
            walked,
            start: 0,
        }
    }
}

impl<'t, 'a, 'w> Iterator for Blocks<'t, 'a, 'w> {
    type Item = Block<'w>;

    ghost next_gives = { λ s r t. (t.table ≡ s.table) × (t.walked ≡ s.walked) × NextBlock (held s.table.now) s.walked.now s.start r t.start };

    ghost remaining = { λ s. at_most (length s.walked.now - s.start) };

    fn next(&mut self) -> Option<Block<'w>> {
        if self.start == self.walked.len() {
            return None;
        }
        let start = self.start;
        let end = block_end(self.table, self.walked, start, start + 1);
        self.start = end;
        Some(Block {
            above: &self.walked[..start],
            lines: &self.walked[start..end],
        })
    }
}
