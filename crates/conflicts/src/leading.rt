// A line that leads to a conflict: at or behind all that is above it, and before one of its lines.
ghost use Rattle.std.specs.Prelude.{◌≡◌, ◌<◌, length, MatchOption};
ghost use Rattle.std.specs.List.{list_all};
ghost use Rattle.table.specs.Held.{held};
ghost use Rattle.sheet.specs.Lines.{numbers};
ghost use Rattle.conflicts.specs.Leading.{at_or_before, leads_from, NoneLeads, SomeLeads};
ghost use Rattle.conflicts.specs.Ends.{EndsFrom, EndsOf};

use crate::block::block_of;
use change::names::Line;
use change::span::Span;
use sheet::line::LineAt;
use table::Table;

// The start of every sheet, whose slot is the first.
const START: LineAt = LineAt {
    number: Line::START,
    slot: 0,
    text: Span { start: 0, len: 0 },
};

// The one slot is the other, or stands before it.
fn is_up_to(table: &Table<'_>, one: usize, other: usize) -> bool
    ensures { result ≡ at_or_before (held table.now) one other }
{
    one == other || table.before(one, other)
}

// Each of the lines is at the slot, or stands before it.
fn all_up_to(table: &Table<'_>, lines: &[LineAt], slot: usize) -> bool
    ensures { result ≡ list_all (λ a. at_or_before (held table.now) a.slot slot) lines.now }
{
    lines.iter().all(|line| is_up_to(table, line.slot, slot))
}

// The slot is at or behind all lines that are above, and before another slot.
fn leads(table: &Table<'_>, above: &[LineAt], slot: usize, before: usize) -> bool
    ensures { result ≡ leads_from (held table.now) above.now before slot }
{
    table.before(slot, before) && all_up_to(table, above, slot)
}

// The first line that does, of the start and these lines.
pub fn leading_line(
    table: &Table<'_>,
    lines: &[LineAt],
    above: &[LineAt],
    before: usize,
) -> Option<Line>
    ensures { MatchOption result (NoneLeads (held table.now) above.now before lines.now) (λ u. SomeLeads (held table.now) above.now before lines.now u.0) }
{
    if leads(table, above, START.slot, before) {
        return Some(START.number);
    }
    lines
        .iter()
        .find(|line| leads(table, above, line.slot, before))
        .map(|line| line.number)
}

// The line that leads to a conflict, and the first of its own lines, which new ones go before.
#[derive(Clone, Copy)]
pub struct Ends {
    pub after: Line,
    pub before: Line,
}

// These of the conflict that is a block of lines, `first` the first of them, where `lines` are all of the sheet.
fn ends_from(table: &Table<'_>, above: &[LineAt], first: &LineAt, lines: &[LineAt]) -> Option<Ends>
    ensures { EndsFrom (held table.now) above.now first.now lines.now result }
{
    let after = leading_line(table, lines, above, first.slot)?;
    Some(Ends {
        after,
        before: first.number,
    })
}

// These of the conflict that has exactly the lines of `order`.
pub fn ends_of(
    table: &Table<'_>,
    walked: &[LineAt],
    lines: &[LineAt],
    order: &[u32],
) -> Option<Ends>
    ensures { EndsOf (held table.now) walked.now lines.now order.now result }
{
    let block = block_of(table, walked, order)?;
    ends_from(table, block.above, &block.lines[0], lines)
}
