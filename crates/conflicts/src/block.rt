// The block of a sheet that has a line, in the walk through the sheet's living lines.
ghost use Rattle.std.specs.Prelude.{◌≡◌, ℕ, Decides, MatchOption};
ghost use Rattle.std.specs.List.{list_all};
ghost use Rattle.change.specs.Membership.{SameMembers};
ghost use Rattle.table.specs.Held.{held};
ghost use Rattle.verdict.specs.FromNeeds.{is_among};
ghost use Rattle.sheet.specs.Lines.{numbers};
ghost use Rattle.conflicts.specs.Block.{has_line, PartOf, WithLine, NoBlockOf, BlockOf};

use sheet::block::{Block, Blocks};
use sheet::line::LineAt;
use table::Table;

fn has_line(lines: &[LineAt], number: u32) -> bool
    ensures { result ≡ has_line lines.now number }
{
    lines.iter().any(|line| line.number.0 == number)
}

// The block that has a line; none where the walk doesn't have it.
fn block_with<'w>(table: &Table<'_>, walked: &'w [LineAt], line: u32) -> Option<Block<'w>>
    ensures { WithLine (held table.now) walked.now line result }
{
    Blocks::new(table, walked).find(|block| has_line(block.lines, line))
}

// Each of the numbers is that of one of the lines.
fn all_have_lines(numbers: &[u32], lines: &[LineAt]) -> bool
    ensures { result ≡ list_all (has_line lines.now) numbers.now }
{
    numbers.iter().all(|number| has_line(lines, *number))
}

// The number of each of the lines is one of these.
fn all_numbered(lines: &[LineAt], numbers: &[u32]) -> bool
    ensures { result ≡ list_all (λ a. is_among a.number.0 numbers.now) lines.now }
{
    lines.iter().all(|line| numbers.contains(&line.number.0))
}

// They have exactly these numbers, in whatever order.
fn has_exactly(lines: &[LineAt], order: &[u32]) -> bool
    ensures { Decides result (SameMembers order.now (numbers lines.now)) }
{
    all_have_lines(order, lines) && all_numbered(lines, order)
}

// The block that has exactly these lines, two or more of them.
pub fn block_of<'w>(table: &Table<'_>, walked: &'w [LineAt], order: &[u32]) -> Option<Block<'w>>
    ensures { MatchOption result (NoBlockOf (held table.now) walked.now order.now) (λ b. (start : ℕ) × (end : ℕ) × PartOf walked.now start end b × BlockOf (held table.now) walked.now order.now start end) }
{
    let first = order.first()?;
    let block = block_with(table, walked, *first)?;
    if block.lines.len() < 2 || !has_exactly(block.lines, order) {
        return None;
    }
    Some(block)
}
