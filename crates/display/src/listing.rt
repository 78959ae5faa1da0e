// All lines of a sheet by rising number, each with whether it lives and its text.
ghost use Rattle.std.specs.Prelude.{◌≡◌, map, IfOk};
ghost use Rattle.blocks.specs.Sheet.{of_sheet};
ghost use Rattle.display.specs.Held.{latest};
ghost use Rattle.display.specs.Listing.{listed_from, Lists};

use crate::Sheets;
use crate::gathered::Gathered;
use crate::killed::{Killed, killed_lines};
use change::names::{Line, Sheet};
use change::span::Span;
use sheet::line::LineAt;
use std::alloc::{AllocError, Global};

#[derive(Clone, Copy)]
pub struct ListedLine {
    pub number: Line,
    pub alive: bool,
    pub text: Span,
}

// The lines, and what their texts are parts of.
#[derive(Drop)]
pub struct Listing {
    pub lines: Vec<ListedLine>,
    pub texts: Vec<u8>,
}

// Each of the lines, with whether it lives.
fn listed(
    heap: Global,
    lines: &[LineAt],
    killed: &Killed<'_>,
) -> Result<Vec<ListedLine>, AllocError>
    ensures { IfOk result (λ v. v.items ≡ map (listed_from killed.now.lines.now) lines.now) }
{
    lines
        .iter()
        .map(|line| ListedLine {
            number: line.number,
            alive: killed.spares(line.number.0),
            text: line.text,
        })
        .collect(heap)
}

impl Sheets<'_, '_> {
    // All lines of a sheet, those struck out among them.
    pub fn lines_of(&self, heap: Global, sheet: Sheet) -> Result<Listing, AllocError>
        ensures { IfOk result (λ g. Lists (of_sheet sheet.0 (latest self.now.store.now)) g) }
    {
        let struck_out = killed_lines(heap, self.store, sheet)?;
        let killed = Killed { lines: &struck_out };
        let all = self.all_lines(heap, sheet)?;
        let mut lines = listed(heap, &all.lines, &killed)?;
        lines.sort_unstable_by_key(|line| line.number.0);
        let Gathered { lines: _, texts } = all;
        Ok(Listing { lines, texts })
    }
}
