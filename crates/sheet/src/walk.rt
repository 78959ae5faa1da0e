// The walk through the lines: each time the one with the lowest number of those that no line still to come stands before.
ghost use Rattle.std.specs.Prelude.{◌≡◌, ℕ, Bool, length, IfOk};
ghost use Rattle.change.specs.Membership.{Within};
ghost use Rattle.table.specs.Held.{held};
ghost use Rattle.blocks.specs.Function.{walk};
ghost use Rattle.sheet.specs.Lines.{numbers, Distinct, Orders};

use crate::line::LineAt;
use std::alloc::{AllocError, Global};
use table::Table;
use walks::precedence::Precedence;

// The lines go by who stands before whom in a table, and by their numbers.
#[derive(Clone, Copy)]
struct ByTable<'t, 'a> {
    table: &'t Table<'a>,
}

impl<'t, 'a> Precedence<LineAt> for ByTable<'t, 'a> {
    ghost precedes = { λ order one other. held order.table.now one.slot other.slot };

    ghost rank = { λ _ line. line.number.0 };

    fn precedes(&self, one: &LineAt, other: &LineAt) -> bool {
        self.table.before(one.slot, other.slot)
    }

    fn rank(&self, line: &LineAt) -> u32 {
        line.number.0
    }
}

// The lines in the order of the walk.
pub fn walked(heap: Global, table: &Table<'_>, lines: &[LineAt]) -> Result<Vec<LineAt>, AllocError>
    requires distinct { Distinct (numbers lines.now) }
    ensures only { IfOk result (λ v. Within v.items lines.now) }
    ensures is { IfOk result (λ v. (before : ℕ → ℕ → Bool) → Orders (held table.now) lines.now before → numbers v.items ≡ walk before (length lines.now) (numbers lines.now)) }
{
    walks::walked(heap, &ByTable { table }, lines)
}
